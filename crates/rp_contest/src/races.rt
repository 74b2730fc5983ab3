//! A race: its nodes behind a switch, its threads, and the close.
ghost use Rattle.std.specs.Prelude.{◌≡◌, ◌≢◌, ◌^◌, ◌<◌, ◌≤◌, IfOk, length};
ghost use Rattle.rp_buffer.specs.Passes as passes;
ghost use Rattle.rp_buffer.specs.Slots as slots;
ghost use Rattle.rp_events.specs.Lawful.{IsReached};
ghost use Rattle.rp_quota.specs.Shares as shares;
ghost use Rattle.rp_quota.specs.Units as units;
ghost use Rattle.rp_race.specs.Race.{IsPlayed};
ghost use Rattle.rp_racelines.specs.Replies.{race_replies};
ghost use Rattle.rp_racelines.specs.Rules.{AreOfWorld};
ghost use Rattle.rp_racelines.specs.Verdicts.{command_count, EndsBy};
ghost use Rattle.rp_switch.specs.Openings.{bare};
ghost use Rattle.rp_switch.specs.Rules.{clients_of, first};
ghost use Rattle.rp_switch.specs.Seats.{terms_of, known_by, IsSeatOf};
ghost use Rattle.rp_serving.specs.Playing.{HandsWithin};
ghost use Rattle.rp_racers.specs.Raced.{AreFew};
ghost use Rattle.rp_contest.specs.Runs.{IsRun};

use crate::closings::{ended, judged};
use crate::copies::copied_rules;
use crate::openings::first_nodes;
use crate::raced::{Raced, Setting};
use rp_base::NoMemory;
use rp_buffer::{Pass, SlotEnd, SlotTable};
use rp_clients::Gate;
use rp_desks::laws::what_was_heard_is_so;
use rp_desks::{Rights, Shared};
use rp_node::Nodes;
use rp_quota::Quota;
use rp_race::RaceRules;
use rp_racelines::Verdict;
use rp_racers::{Back, run};
use rp_serving::laws::slot_ends_give_few;
use rp_switch::{Seat, Switch};
use std::alloc::Global;
use std::sync::Wait;
use std::thread::Threads;

/// The nodes behind a switch, with the first seat of it.
fn opened<'a>(
    alloc: Global,
    buffers: &'a SlotTable,
    pass: &mut Pass,
    rules: &RaceRules,
    nodes: u8,
) -> Result<(Switch<SlotEnd<'a>>, Seat<SlotEnd<'a>>), NoMemory>
    requires pass { passes.IsPassOf buffers.now pass.old × (passes.known_by pass.old ≡ slots.first 40) }
    requires nodes { (1 ≤ nodes) × (nodes ≤ 5) }
    requires clients { length rules.now.requests ≤ 64 }
    ensures of { passes.IsPassOf buffers.now pass.new }
    ensures parts { IfOk result (λ r. 1000 ≤ (passes.known_by pass.new).parts) }
    ensures terms { IfOk result (λ r. terms_of r.0 ≡ record { nodes = nodes; rules = rules.now }) }
    ensures seat { IfOk result (λ r. IsSeatOf r.0 r.1) }
    ensures known { IfOk result (λ r. known_by r.1 ≡ first (terms_of r.0)) }
{
    let rules = copied_rules(alloc, rules)?;
    let nodes = first_nodes(alloc, buffers, pass, nodes)?;
    Switch::new(alloc, nodes, rules)
}

/// Runs the threads of a race over what they share, and closes that.
fn closed<'a, R: Threads + Wait + Sync, G: Gate + Sync>(
    rt: &R,
    alloc: Global,
    buffers: &'a SlotTable,
    switch: Switch<SlotEnd<'a>>,
    quota: Quota,
    rights: Rights<SlotEnd<'a>>,
    setting: Setting,
    gate: &G,
) -> Result<Nodes<SlotEnd<'a>>, NoMemory>
    requires workers { (1 ≤ setting.workers) × (setting.workers ≤ 8) }
    requires quota { setting.quota ≡ shares.capacity_of quota }
    requires few { AreFew (terms_of switch).rules }
    requires hands { HandsWithin (terms_of switch).nodes (terms_of switch).rules }
    requires clients { clients_of (terms_of switch) ≤ 64 }
    requires seat { IsSeatOf switch rights.seat }
    requires known { known_by rights.seat ≡ first (terms_of switch) }
    requires pass { passes.IsPassOf buffers.now rights.pass }
    requires pass_parts { 1000 ≤ (passes.known_by rights.pass).parts }
    requires share { shares.IsShareOf quota rights.share }
    requires share_parts { (shares.known_by rights.share).parts ≡ units.all_parts }
    ensures { IfOk result (λ nodes. IsRun (terms_of switch.entry).nodes (terms_of switch.entry).rules (bare nodes)) }
{
    let shared = Shared {
        switch: &switch,
        buffers,
        quota: &quota,
        capacity: setting.quota,
    };
    // Two laws: what a flush takes is little, and what a client heard is so at the close.
    slot_ends_give_few();
    what_was_heard_is_so();
    let Back { rights, is_short } = run(rt, alloc, &shared, rights, gate, setting.workers);
    let Shared {
        switch: _,
        buffers: _,
        quota: _,
        capacity: _,
    } = shared;
    let Rights {
        seat,
        pass: _,
        share,
    } = rights;
    quota.close(share)?;
    if is_short {
        return Err(NoMemory);
    }
    switch.close(alloc, seat)
}

/// One race, from its rules to its nodes at the close. One to five nodes start, and a thread for each
/// client that has requests runs beside the threads of the workers. `buffers` are those of the nodes,
/// and `pass` is their first. Once each client has done all, or no more is waited for, the threads have
/// ended: the nodes are those that they gave back last, with the reply line of each command and how the
/// race ended by them. `NoMemory` where memory was refused, here or to a thread. A race that does not
/// end, as a node is full or a round was broken off, is waited for for ever.
pub fn race<'a, R: Threads + Wait + Sync, G: Gate + Sync>(
    rt: &R,
    alloc: Global,
    buffers: &'a SlotTable,
    mut pass: Pass,
    rules: &RaceRules,
    setting: Setting,
    gate: &G,
) -> Result<Raced<'a>, NoMemory>
    requires pass { passes.IsPassOf buffers.now pass × (passes.known_by pass ≡ slots.first 40) }
    requires nodes { (1 ≤ setting.nodes) × (setting.nodes ≤ 5) }
    requires workers { (1 ≤ setting.workers) × (setting.workers ≤ 8) }
    requires quota { (1 ≤ setting.quota) × (setting.quota ≤ units.most_units) }
    requires world { AreOfWorld setting.nodes rules.now }
    requires clients { length rules.now.requests ≤ 64 }
    requires commands { command_count rules.now < 2 ^ 32 }
    ensures size { IfOk result (λ r. length r.nodes ≡ setting.nodes) }
    ensures reached { IfOk result (λ r. IsReached setting.nodes (bare r.nodes)) }
    ensures played { IfOk result (λ r. IsPlayed rules.now (bare r.nodes)) }
    ensures replies { IfOk result (λ r. r.replies ≡ race_replies rules.now (bare r.nodes)) }
    ensures ends { IfOk result (λ r. EndsBy rules.now (bare r.nodes) r.verdict) }
    ensures over { IfOk result (λ r. r.verdict ≢ Verdict.GoesOn) }
{
    let (switch, seat) = opened(alloc, buffers, &mut pass, rules, setting.nodes)?;
    let (quota, share) = Quota::new(alloc, setting.quota)?;
    let rights = Rights { seat, pass, share };
    let nodes = closed(rt, alloc, buffers, switch, quota, rights, setting, gate)?;
    Ok(ended(rt, judged(alloc, rules, nodes)?))
}
