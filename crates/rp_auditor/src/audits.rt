//! The verdict on a report.
ghost use Rattle.std.specs.Prelude.{◌≡◌, IfOk};
ghost use Rattle.std.specs.List.{list_all};
ghost use Rattle.rp_auditor.specs.Audits.{begins_at_0, judged};
ghost use Rattle.rp_auditor.specs.Reached.{JudgesRanges};
ghost use Rattle.rp_auditor.specs.Seen.{is_honest};
ghost use Rattle.rp_auditor.specs.Verdicts.{Audits};

use crate::entries::checked;
use crate::ranges::judge_range;
use crate::seen::{Seen, is_honest};
use crate::verdicts::{AuditFault, Check, Verdict};
use indexmap::IndexMap;
use rp_base::{NoMemory, RangeId};
use rp_reread::{Answer, RangeRead, Report, read_report};
use std::alloc::Global;

/// Whether range 0 is there first.
fn begins_at_0(ranges: &[RangeRead]) -> bool
    ensures { result ≡ begins_at_0 ranges.now }
{
    match ranges {
        [] => false,
        [first, ..] => first.id.get() == 0,
    }
}

/// The checks of all ranges, one after another.
fn judge_ranges(alloc: Global, seen: &mut Seen, ranges: &[RangeRead]) -> Result<Verdict, NoMemory>
    ensures { IfOk result (λ v. JudgesRanges ranges.now seen.old.entries v seen.new.entries) }
{
    for range in ranges {
        let verdict = judge_range(alloc, ranges, seen, range)?;
        match verdict {
            Verdict::Yes => {}
            Verdict::No { .. } => return Ok(verdict),
        }
    }
    Ok(Verdict::Yes)
}

/// Whether what is told of the attempts is what the lists show.
fn are_honest(seen: &Seen, answers: &[Answer]) -> bool
    ensures { result ≡ list_all (is_honest seen.now.entries) answers.now }
{
    answers.iter().all(|answer| is_honest(seen, answer))
}

/// The verdict on a report: the first check that does not hold, by range and index; or yes.
pub fn judge(alloc: Global, report: &Report) -> Result<Verdict, NoMemory>
    ensures { IfOk result (λ v. v ≡ judged report.now) }
{
    let ranges = report.ranges.as_slice();
    let zero = RangeId::new(0).unwrap();
    if !begins_at_0(ranges) {
        return Ok(checked(zero, 0, Check::Start, false));
    }
    let mut seen = IndexMap::new(alloc);
    let verdict = judge_ranges(alloc, &mut seen, ranges)?;
    match verdict {
        Verdict::Yes => {}
        Verdict::No { .. } => return Ok(verdict),
    }
    let holds = are_honest(&seen, report.answers.as_slice());
    Ok(checked(zero, 0, Check::Replies, holds))
}

/// The verdict on a report, from the bytes of its JSON.
pub fn audit(alloc: Global, report: &[u8]) -> Result<Verdict, AuditFault>
    ensures { Audits report.now result }
{
    let read = read_report(alloc, report)?;
    Ok(judge(alloc, &read)?)
}
