//! The one list of a range.
ghost use Rattle.std.specs.Prelude.{◌≡◌, ◌+◌, IfOk, length};
ghost use Rattle.rp_events.specs.Lawful.{IsReached};
ghost use Rattle.rp_events.specs.Lists.{base_of, IsOneList};
ghost use Rattle.rp_chronicle.specs.Worlds.{world_of, ListEndsAt};
ghost use Rattle.rp_recorded.specs.Recorded.{HasOneList};

use crate::pieces::{base_of, records_to};
use crate::seats::furthest;
use rp_base::{NoMemory, RangeId, Seq};
use rp_bufcore::BufferEnd;
use rp_node::{Node, Nodes};
use rp_request::Record;
use std::alloc::Global;

/// The records of a range, one for each index from `first` on.
#[derive(Drop)]
pub struct RangeList {
    pub first: u64,
    pub records: Seq<Record>,
}

/// The index at which the list of a range ends: the greatest that any node has applied.
fn last_index<B: BufferEnd + Drop>(nodes: &[Node<B>], range: RangeId) -> u64
    requires { HasOneList (world_of nodes.now) range }
    ensures { ListEndsAt (world_of nodes.now) range result }
{
    match furthest(nodes, range) {
        Some(state) => state.index(),
        None => base_of(range),
    }
}

/// The one list of a range, out of all that these nodes keep.
fn list_of<B: BufferEnd + Drop>(
    alloc: Global,
    nodes: &[Node<B>],
    range: RangeId,
) -> Result<RangeList, NoMemory>
    requires { IsReached (length nodes.now) (world_of nodes.now) }
    ensures first { IfOk result (λ list. list.first ≡ base_of range + 1) }
    ensures list { IfOk result (λ list. IsOneList (world_of nodes.now) range list.records) }
{
    let last = last_index(nodes, range);
    let records = records_to(alloc, nodes, range, last)?;
    Ok(RangeList {
        first: base_of(range) + 1,
        records,
    })
}

/// The one list of a range: a record for each index up to the greatest that any node has applied, out
/// of all that nodes keep, also where a replica was removed.
pub fn assemble<B: BufferEnd + Drop>(
    alloc: Global,
    nodes: &Nodes<B>,
    range: RangeId,
) -> Result<RangeList, NoMemory>
    requires { IsReached (length nodes.now) (world_of nodes.now) }
    ensures first { IfOk result (λ list. list.first ≡ base_of range + 1) }
    ensures list { IfOk result (λ list. IsOneList (world_of nodes.now) range list.records) }
{
    list_of(alloc, nodes.as_slice(), range)
}
