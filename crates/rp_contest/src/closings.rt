//! How a race is judged at its close.
ghost use Rattle.std.specs.Prelude.{◌≡◌, ◌≢◌, ◌^◌, ◌<◌, IfOk, length};
ghost use Rattle.rp_race.specs.Race.{IsPlayed};
ghost use Rattle.rp_racelines.specs.Replies.{race_replies};
ghost use Rattle.rp_racelines.specs.Verdicts.{command_count, AreWhole, EndsBy};
ghost use Rattle.rp_switch.specs.Openings.{bare};
ghost use Rattle.rp_contest.specs.Runs.{IsRun, HasFull};

use crate::raced::Raced;
use rp_base::NoMemory;
use rp_buffer::SlotEnd;
use rp_node::Nodes;
use rp_race::RaceRules;
use rp_racelines::{Verdict, is_whole, judge, replies};
use std::alloc::Global;
use std::sync::Wait;
use std::thread::yield_now;

/// What the nodes of a race leave, and how it ended. It goes on only where a node is full.
pub(crate) fn judged<'a>(
    alloc: Global,
    rules: &RaceRules,
    nodes: Nodes<SlotEnd<'a>>,
) -> Result<Raced<'a>, NoMemory>
    requires run { IsRun (length nodes) rules.now (bare nodes) }
    requires clients { length rules.now.requests < 2 ^ 16 }
    requires commands { command_count rules.now < 2 ^ 32 }
    ensures nodes { IfOk result (λ r. r.nodes ≡ nodes.entry) }
    ensures replies { IfOk result (λ r. r.replies ≡ race_replies rules.now (bare nodes.entry)) }
    ensures ends { IfOk result (λ r. EndsBy rules.now (bare nodes.entry) r.verdict) }
    ensures goes_on { IfOk result (λ r. r.verdict ≡ Verdict.GoesOn → HasFull (bare nodes.entry)) }
{
    let replies = replies(alloc, rules, &nodes)?;
    let verdict = judge(rules, &nodes, &replies);
    Ok(Raced {
        nodes,
        replies,
        verdict,
    })
}

/// Waits for ever where the race goes on, or where a round was broken off.
pub(crate) fn ended<'a, R: Wait>(rt: &R, raced: Raced<'a>) -> Raced<'a>
    ensures nodes { result.nodes ≡ raced.entry.nodes }
    ensures replies { result.replies ≡ raced.entry.replies }
    ensures verdict { result.verdict ≡ raced.entry.verdict }
    ensures whole { AreWhole (bare raced.entry.nodes) }
    ensures over { raced.entry.verdict ≢ Verdict.GoesOn }
{
    if raced.verdict != Verdict::GoesOn && is_whole(&raced.nodes) {
        return raced;
    }
    for _ in rt.forever() {
        yield_now();
    }
    unreachable!()
}
