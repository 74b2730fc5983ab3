//! Ticks of a leader.
ghost use Rattle.std.specs.Prelude.{◌≡◌, ◌+◌, ◌<◌, ◌^◌, length, true};
ghost use Rattle.rp_events.specs.Allows.{MayRefresh};
ghost use Rattle.rp_raftlog.specs.LogState.{last_index};
ghost use Rattle.rp_raftstep.specs.Step.{tick};

use crate::samples::{answers, node};
use crate::turns::{can_rise, happen};
use rp_base::{NodeId, Tick};
use rp_events::{Effects, EventAnswer, ReplicaEvent};
use rp_raftstep::Message;
use rp_replica::Replica;
use rp_snapshot::Snapshot;
use rp_split::first;
use std::test::Fail;

/// Whether all that is pending can stand behind the log.
fn is_short(replica: &Replica) -> bool
    ensures { result ≡ true → last_index replica.now.replica.raft.log
        + length replica.now.replica.pending < 2 ^ 64 }
{
    match replica.pending().standings() {
        Ok(all) => replica
            .raft()
            .last()
            .0
            .checked_add(all.len() as u64)
            .is_some(),
        Err(_) => false,
    }
}

/// Whether a leader may tick.
#[tactic(auto, using(crate::proofs::Keeping::may_tick))]
fn may_tick(replica: &Replica) -> bool
    ensures { result ≡ true → MayRefresh replica.now.replica (tick replica.now.replica.raft) }
{
    replica.raft().is_leader() && can_rise(replica.raft()) && is_short(replica)
}

/// A leader's time goes on.
fn ticks(replica: &mut Replica) -> Option<Effects<Snapshot>> {
    if !may_tick(replica) {
        return None;
    }
    happen(replica, ReplicaEvent::Tick, Tick::new(1))
}

/// Whether a message is an Append of term 1 without entries, behind the empty log, to this node.
fn is_heartbeat(sent: &(NodeId, Message<Snapshot>), to: NodeId) -> bool {
    match &sent.1 {
        Message::Append {
            term: 1,
            prev_index: 0,
            prev_term: 0,
            entries,
            commit: 0,
        } => sent.0 == to && entries.len() == 0,
        _ => false,
    }
}

/// Whether an event sends one heartbeat to each of these nodes, in this order.
fn beats(effects: Option<Effects<Snapshot>>, two: NodeId, three: NodeId) -> bool {
    match effects {
        Some(effects) => match effects.messages.as_slice() {
            [near, far] => is_heartbeat(near, two) && is_heartbeat(far, three),
            _ => false,
        },
        None => false,
    }
}

#[test]
fn a_leader_sends_at_every_second_tick(rt: HostRuntime) -> Result<(), Fail> {
    let (one, two, three) = (node(1)?, node(2)?, node(3)?);
    let mut replica = Replica::start(rt.alloc(), one, 3, first(rt.alloc()), one, (0, 0));
    let silent = answers(ticks(&mut replica), &EventAnswer::Done);
    assert!(rt; silent && beats(ticks(&mut replica), two, three));
    Ok(())
}
