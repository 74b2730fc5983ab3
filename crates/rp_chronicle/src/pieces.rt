//! The records of a range, out of all pieces that nodes keep.
ghost use Rattle.std.specs.Prelude.{◌≡◌, ◌+◌, ◌-◌, ◌≤◌, ◌++◌, ◌∷◌, [], length, IfOk};
ghost use Rattle.std.specs.Option.{option_map};
ghost use Rattle.rp_events.specs.Lists.{base_of, IsOneList};
ghost use Rattle.rp_chronicle.specs.Filling.{pasted, FillsAll, HasPieces};
ghost use Rattle.rp_chronicle.specs.Worlds.{world_of, pieces_in, pieces_of, ListEndsAt};

use crate::seats::applied_at;
use rp_apply::ApplyState;
use rp_base::{NoMemory, RangeId, Seq};
use rp_bufcore::BufferEnd;
use rp_node::Node;
use rp_request::{Record, Why};
use std::alloc::Global;

/// The index behind which the log of a right range begins.
const RIGHT_BASE: u64 = 10;

/// The index behind which the log of a range begins.
pub(crate) fn base_of(range: RangeId) -> u64
    ensures { result ≡ base_of range }
{
    if range.get() == 0 { 0 } else { RIGHT_BASE }
}

/// Writes a piece over as many records from this place on.
fn paste(records: &mut [Record], at: usize, piece: &[Record])
    requires { at + length piece.now ≤ length records.old }
    ensures { records.new ≡ pasted at piece.now records.old }
{
    records[at..at + piece.len()].copy_from_slice(piece);
}

/// Fills in one piece, the first of whose records has the index behind `before`.
fn fill(records: &mut [Record], base: u64, before: u64, piece: &[Record])
    requires { HasPieces base (record { first = before + 1; list = piece.now } ∷ []) records.old }
    ensures { FillsAll base (record { first = before + 1; list = piece.now } ∷ []) records.old records.new }
{
    if !piece.is_empty() {
        paste(records, (before - base) as usize, piece);
    }
}

/// Fills in all records that a node keeps.
fn fill_all(records: &mut [Record], base: u64, kept: &ApplyState)
    requires { HasPieces base (kept.now.history.earlier ++ kept.now.history.records ∷ []) records.old }
    ensures { FillsAll base (kept.now.history.earlier ++ kept.now.history.records ∷ []) records.old records.new }
{
    for piece in kept.earlier() {
        fill(records, base, piece.before(), piece.as_slice());
    }
    fill(records, base, kept.before(), kept.records());
}

/// Fills in all records that a node keeps, where it has any.
fn fill_any(records: &mut [Record], base: u64, kept: Option<&ApplyState>)
    requires { HasPieces base (pieces_in (option_map (λ s. s.now.history) kept)) records.old }
    ensures { FillsAll base (pieces_in (option_map (λ s. s.now.history) kept.entry)) records.old records.new }
{
    if let Some(kept) = kept {
        fill_all(records, base, kept);
    }
}

/// Fills in all records that some nodes keep of a range.
fn fill_from<B: BufferEnd + Drop>(records: &mut [Record], range: RangeId, nodes: &[Node<B>])
    requires { HasPieces (base_of range) (pieces_of (world_of nodes.now) range) records.old }
    ensures { FillsAll (base_of range) (pieces_of (world_of nodes.now) range) records.old records.new }
{
    let base = base_of(range);
    for node in nodes {
        fill_any(records, base, applied_at(node, range));
    }
}

/// The one list of a range, which ends at this index.
pub(crate) fn records_to<B: BufferEnd + Drop>(
    alloc: Global,
    nodes: &[Node<B>],
    range: RangeId,
    last: u64,
) -> Result<Seq<Record>, NoMemory>
    requires { ListEndsAt (world_of nodes.now) range last }
    ensures { IfOk result (IsOneList (world_of nodes.now) range) }
{
    let count = (last - base_of(range)) as usize;
    let mut records = vec![in alloc; Record::Passed(Why::Nothing); count]?;
    fill_from(&mut records, range, nodes);
    Ok(Seq::from_vec(records))
}
