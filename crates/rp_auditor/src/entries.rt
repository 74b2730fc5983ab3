//! The entries of a range, one after another.
ghost use Rattle.std.specs.Prelude.{◌≡◌, Some, IfOk};
ghost use Rattle.rp_auditor.specs.Audits.{checked};
ghost use Rattle.rp_auditor.specs.Playing.{after_entries, up_to};
ghost use Rattle.rp_auditor.specs.Reached.{JudgesItem, JudgesRecord, JudgesEntries};
ghost use Rattle.rp_auditor.specs.Starts.{split_off, splits_off};

use crate::seen::{Seen, is_first, put_record};
use crate::standings::Standing;
use crate::verdicts::{Check, Verdict};
use rp_base::{Key, NoMemory, RangeId};
use rp_request::{Place, Record};
use rp_reread::Entry;
use std::alloc::Global;

/// What a check of a range says, at an index.
pub(crate) fn checked(range: RangeId, index: u64, check: Check, holds: bool) -> Verdict
    ensures { result ≡ checked range index check holds }
{
    if holds {
        return Verdict::Yes;
    }
    Verdict::No {
        range: range.get(),
        index,
        check,
    }
}

/// The four checks of an item. Where all hold, the state has taken it.
fn judge_item(
    alloc: Global,
    range: RangeId,
    index: u64,
    seen: &Seen,
    standing: &mut Standing,
    item: &Place,
) -> Result<Verdict, NoMemory>
    ensures { IfOk result (λ v. JudgesItem range index seen.now.entries standing.old item.now v standing.new) }
{
    if !is_first(seen, item) {
        return Ok(checked(range, index, Check::Once, false));
    }
    if !standing.is_under(item) {
        return Ok(checked(range, index, Check::Lease, false));
    }
    if !standing.is_within(item) {
        return Ok(checked(range, index, Check::Bounds, false));
    }
    let so = standing.answer(alloc, item)?;
    Ok(checked(range, index, Check::Reply, so))
}

/// The checks of a record. Where all hold, its item is taken and its command seen.
fn judge_record(
    alloc: Global,
    range: RangeId,
    seen: &mut Seen,
    standing: &mut Standing,
    entry: &Entry,
) -> Result<Verdict, NoMemory>
    ensures { IfOk result (λ v. JudgesRecord range entry.now.index seen.old.entries standing.old entry.now.kept v seen.new.entries standing.new) }
{
    match &entry.kept {
        Record::Passed(_) => Ok(Verdict::Yes),
        Record::Took(item) => {
            let verdict = judge_item(alloc, range, entry.index, seen, standing, item)?;
            match verdict {
                Verdict::No { .. } => Ok(verdict),
                Verdict::Yes => {
                    put_record(seen, &entry.kept)?;
                    Ok(Verdict::Yes)
                }
            }
        }
    }
}

/// The checks of the entries of a range, each in the state that those before it leave.
pub(crate) fn judge_entries(
    alloc: Global,
    range: RangeId,
    seen: &mut Seen,
    standing: &mut Standing,
    entries: &[Entry],
) -> Result<Verdict, NoMemory>
    ensures { IfOk result (λ v. JudgesEntries range seen.old.entries standing.old entries.now v seen.new.entries standing.new) }
{
    for entry in entries {
        let verdict = judge_record(alloc, range, seen, standing, entry)?;
        match verdict {
            Verdict::Yes => {}
            Verdict::No { .. } => return Ok(verdict),
        }
    }
    Ok(Verdict::Yes)
}

/// The state that the entries up to an index leave; none where an item is refused.
pub(crate) fn state_at(
    alloc: Global,
    start: &Standing,
    entries: &[Entry],
    index: u64,
) -> Result<Option<Standing>, NoMemory>
    ensures { IfOk result (λ s. s ≡ after_entries (Some start.now) (up_to index entries.now)) }
{
    let mut standing = start.copy()?;
    for entry in entries {
        if entry.index > index {
            continue;
        }
        if !standing.take_record(alloc, &entry.kept)? {
            return Ok(None);
        }
    }
    Ok(Some(standing))
}

/// The key at which an item splits this range off, if it does.
fn splits_off(range: RangeId, kept: &Record) -> Option<Key>
    ensures { result ≡ splits_off range kept.now }
{
    match kept {
        Record::Took(Place::Split { key, right, .. }) if *right == range => Some(*key),
        _ => None,
    }
}

/// The state from which a range starts, by the entries of the range that it was split off from.
pub(crate) fn split_off(
    alloc: Global,
    range: RangeId,
    left: Standing,
    entries: &[Entry],
) -> Result<Option<Standing>, NoMemory>
    ensures { IfOk result (λ s. s ≡ split_off range (Some left) entries.now) }
{
    let mut standing = left;
    for entry in entries {
        if let Some(key) = splits_off(range, &entry.kept) {
            return standing.right(key);
        }
        if !standing.take_record(alloc, &entry.kept)? {
            return Ok(None);
        }
    }
    Ok(None)
}
