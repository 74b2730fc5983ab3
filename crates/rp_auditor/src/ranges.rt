//! The checks of a range.
ghost use Rattle.std.specs.Prelude.{◌≡◌, ◌+◌, ◌<◌, ◌^◌, length, nat_lt, Some, IfOk};
ghost use Rattle.std.specs.List.{list_all};
ghost use Rattle.std.specs.Option.{option_copied};
ghost use Rattle.rp_request.specs.Starts.{left_range};
ghost use Rattle.rp_auditor.specs.Audits.{runs_from, applied_of, are_indexed, judged_replica, judged_replicas};
ghost use Rattle.rp_auditor.specs.Reached.{JudgesRange};
ghost use Rattle.rp_auditor.specs.Starts.{first_index, range_in, start_of, start_step};

use crate::entries::{checked, judge_entries, split_off, state_at};
use crate::seen::Seen;
use crate::standings::Standing;
use crate::verdicts::{Check, Verdict};
use rp_base::{NoMemory, RangeId};
use rp_report::ReplicaView;
use rp_reread::{Entry, RangeRead};
use std::alloc::Global;

/// Where the log of a range begins.
fn first_index(range: RangeId) -> u64
    ensures index { result ≡ first_index range }
    ensures low { result < 12 }
{
    if range.get() == 0 { 1 } else { 11 }
}

/// The range that a range was split off from.
fn left_range(range: RangeId) -> RangeId
    ensures { result ≡ left_range range }
{
    let number = range.get();
    let left = if number >= 4 {
        number - 4
    } else if number >= 2 {
        number - 2
    } else {
        number.saturating_sub(1)
    };
    RangeId::new(left).unwrap()
}

/// The range with this number, as a report has it.
fn range_in(ranges: &[RangeRead], range: RangeId) -> Option<&RangeRead>
    ensures { option_copied result ≡ range_in ranges.now range }
{
    for other in ranges {
        if other.id == range {
            return Some(other);
        }
    }
    None
}

/// The state from which a range starts, where the range that it was split off from starts from this
/// one.
fn start_step(
    alloc: Global,
    ranges: &[RangeRead],
    range: RangeId,
    left: Option<Standing>,
) -> Result<Option<Standing>, NoMemory>
    ensures { IfOk result (λ s. s ≡ start_step ranges.now range left) }
{
    if range.get() == 0 {
        return Ok(Some(Standing::first(alloc)));
    }
    let Some(left) = left else {
        return Ok(None);
    };
    match range_in(ranges, left_range(range)) {
        Some(other) => split_off(alloc, range, left, other.entries.as_slice()),
        None => Ok(None),
    }
}

/// The state from which a range starts: at most three splits lead to it.
fn start_of(
    alloc: Global,
    ranges: &[RangeRead],
    range: RangeId,
) -> Result<Option<Standing>, NoMemory>
    ensures { IfOk result (λ s. s ≡ start_of ranges.now range) }
{
    let once = left_range(range);
    let twice = left_range(once);
    let thrice = left_range(twice);
    let start = start_step(alloc, ranges, thrice, None)?;
    let start = start_step(alloc, ranges, twice, start)?;
    let start = start_step(alloc, ranges, once, start)?;
    start_step(alloc, ranges, range, start)
}

/// Whether the indexes run by one from this one on.
fn runs_from(first: u64, entries: &[Entry]) -> bool
    requires { first < 12 }
    ensures { result ≡ runs_from first entries.now }
{
    let mut index = first;
    for entry in entries {
        if entry.index != index {
            return false;
        }
        index += 1;
    }
    true
}

/// How far a node has applied.
fn applied_of(replica: &ReplicaView) -> u64
    ensures { result ≡ applied_of replica.now }
{
    match replica {
        ReplicaView::Live { applied, .. } | ReplicaView::Removed { applied } => *applied,
        ReplicaView::Absent => 0,
    }
}

/// Whether no node has applied past the entries, the last of which stands below this index.
fn are_covered(end: u64, replicas: &[ReplicaView]) -> bool
    ensures { result ≡ list_all (λ r. nat_lt (applied_of r) end) replicas.now }
{
    replicas.iter().all(|replica| applied_of(replica) < end)
}

/// Whether the indexes of a range are right.
fn are_indexed(range: &RangeRead) -> bool
    ensures { result ≡ are_indexed range.now }
{
    let first = first_index(range.id);
    let entries = range.entries.as_slice();
    let end = end_of(first, entries);
    runs_from(first, entries) && are_covered(end, range.replicas.as_slice())
}

/// The index behind the last entry.
fn end_of(first: u64, entries: &[Entry]) -> u64
    requires { first < 12 }
    ensures { result ≡ first + length entries.now }
{
    first + entries.len() as u64
}

/// Whether a live replica's rows are those that the entries up to its applied index leave.
fn judge_replica(
    alloc: Global,
    range: &RangeRead,
    start: &Standing,
    replica: &ReplicaView,
) -> Result<Verdict, NoMemory>
    ensures { IfOk result (λ v. v ≡ judged_replica range.now.id (Some start.now) range.now.entries replica.now) }
{
    match replica {
        ReplicaView::Live { applied, rows, .. } => {
            let left = state_at(alloc, start, range.entries.as_slice(), *applied)?;
            let holds = match left {
                Some(standing) => standing.has_rows(rows.as_slice()),
                None => false,
            };
            Ok(checked(range.id, *applied, Check::Rows, holds))
        }
        ReplicaView::Removed { .. } | ReplicaView::Absent => Ok(Verdict::Yes),
    }
}

/// The checks of the replicas of a range.
fn judge_replicas(
    alloc: Global,
    range: &RangeRead,
    start: &Standing,
    replicas: &[ReplicaView],
) -> Result<Verdict, NoMemory>
    ensures { IfOk result (λ v. v ≡ judged_replicas range.now.id (Some start.now) range.now.entries replicas.now) }
{
    for replica in replicas {
        let verdict = judge_replica(alloc, range, start, replica)?;
        match verdict {
            Verdict::Yes => {}
            Verdict::No { .. } => return Ok(verdict),
        }
    }
    Ok(Verdict::Yes)
}

/// The checks of a range that starts from this state.
fn judge_from(
    alloc: Global,
    seen: &mut Seen,
    range: &RangeRead,
    start: &Standing,
) -> Result<Verdict, NoMemory>
    ensures { IfOk result (λ v. JudgesRange seen.old.entries (Some start.now) range.now v seen.new.entries) }
{
    if !are_indexed(range) {
        return Ok(checked(range.id, 0, Check::Indexes, false));
    }
    let mut standing = start.copy()?;
    let entries = range.entries.as_slice();
    let verdict = judge_entries(alloc, range.id, seen, &mut standing, entries)?;
    match verdict {
        Verdict::Yes => {}
        Verdict::No { .. } => return Ok(verdict),
    }
    if !standing.is_left(range) {
        return Ok(checked(range.id, 0, Check::State, false));
    }
    judge_replicas(alloc, range, start, range.replicas.as_slice())
}

/// The checks of a range of a report.
pub(crate) fn judge_range(
    alloc: Global,
    ranges: &[RangeRead],
    seen: &mut Seen,
    range: &RangeRead,
) -> Result<Verdict, NoMemory>
    ensures { IfOk result (λ v. JudgesRange seen.old.entries (start_of ranges.now range.now.id) range.now v seen.new.entries) }
{
    match start_of(alloc, ranges, range.id)? {
        Some(start) => judge_from(alloc, seen, range, &start),
        None => Ok(checked(range.id, 0, Check::Start, false)),
    }
}
