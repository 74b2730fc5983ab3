//! Calls of a replica's Raft, each compared with what it must give.
ghost use Rattle.std.specs.Prelude.{◌≡◌, true};
ghost use Rattle.rp_raftstep.specs.Conditions.{CanRise, MessageFits};

use crate::samples::passed;
use rp_base::{Bytes, NoMemory, NodeId, Seq};
use rp_raft::Raft;
use rp_raftlog::{Entry, Log};
use rp_raftstep::{MakeSnap, Message, Payloads, RaftEvent, RaftOut};
use std::alloc::Global;
use std::test::Fail;

/// What a replica has applied: up to which index, and a state.
#[derive(Clone, Copy)]
struct Applied {
    index: u64,
    state: u64,
}

impl MakeSnap<u64> for Applied {
    ghost index = { λ a. a.index };

    ghost snapshot = { λ a. a.state };

    fn applied(&self) -> u64 {
        self.index
    }

    fn make_snap(&self) -> Result<u64, NoMemory> {
        Ok(self.state)
    }
}

const NOTHING: Applied = Applied { index: 0, state: 0 };

/// One payload of one byte.
fn payloads(alloc: Global, byte: u8) -> Result<Payloads, Fail> {
    let mut payload: Bytes = Seq::new(alloc);
    payload.push(byte)?;
    let mut payloads = Seq::new(alloc);
    payloads.push(payload)?;
    Ok(payloads)
}

fn can_rise(raft: &Raft<u64>) -> bool
    ensures { result ≡ true → CanRise raft.now.raft }
{
    raft.term() < u64::MAX && raft.last().0 < u64::MAX
}

fn fits(message: &Message<u64>) -> bool
    ensures { result ≡ true → MessageFits message.now }
{
    match message {
        Message::Append {
            prev_index,
            entries,
            ..
        } => prev_index.checked_add(entries.len() as u64).is_some(),
        Message::Snap { index, .. } => *index < u64::MAX,
        _ => true,
    }
}

/// Takes a message in.
fn receive(
    raft: &mut Raft<u64>,
    from: NodeId,
    message: Message<u64>,
) -> Result<RaftOut<u64>, Fail> {
    if !can_rise(raft) || !fits(&message) {
        return Err("it may not be planned".into());
    }
    let plan = raft.plan(RaftEvent::Receive { from, message }, &NOTHING)?;
    Ok(raft.commit(plan))
}

/// Time goes on by a tick, and payloads are proposed behind it.
fn tick(raft: &mut Raft<u64>, payloads: Payloads) -> Result<RaftOut<u64>, Fail> {
    if !can_rise(raft) {
        return Err("it may not be planned".into());
    }
    let plan = raft.plan(RaftEvent::Tick, &NOTHING)?;
    if !raft.can_extend(&plan, &payloads) {
        return Err("it may not be extended".into());
    }
    let plan = raft.extend(plan, payloads, &NOTHING)?;
    Ok(raft.commit(plan))
}

/// The log's base becomes this index.
fn cut(raft: &mut Raft<u64>, alloc: Global, to: u64) -> Result<(), Fail> {
    if !can_rise(raft) || to < raft.base().0 || raft.last().0 < to {
        return Err("it may not be planned".into());
    }
    let plan = raft.plan(RaftEvent::Cut { to }, &NOTHING)?;
    if raft.can_extend(&plan, &Seq::new(alloc)) {
        return Err("a cut is extended".into());
    }
    let _ = raft.commit(plan);
    Ok(())
}

fn node(number: u8) -> Result<NodeId, Fail> {
    Ok(NodeId::new(number).ok_or("a node")?)
}

/// The replica of a node where node 1 leads from the start.
fn started(alloc: Global, number: u8, nodes: u8) -> Result<Raft<u64>, Fail> {
    let nodes = nodes.min(5);
    Ok(Raft::start(alloc, node(number)?, nodes, node(1)?, (0, 0)))
}

/// The first message that is sent, with its receiver.
fn first(out: RaftOut<u64>) -> Result<(NodeId, Message<u64>), Fail> {
    let mut messages = out.messages.into_vec();
    if messages.is_empty() {
        return Err("nothing is sent".into());
    }
    Ok(messages.remove(0))
}

fn holds(entry: Option<&Entry>, term: u64, byte: u8) -> bool {
    match entry {
        None => false,
        Some(entry) => entry.term == term && entry.payload.as_slice() == [byte].as_slice(),
    }
}

/// The entry that is known to be there.
fn is_known(raft: &Raft<u64>, index: u64, term: u64, byte: u8) -> bool {
    if index <= raft.base().0 || raft.last().0 < index {
        return false;
    }
    holds(Some(raft.entry(index)), term, byte)
}

#[test]
fn one_node_commits_alone(rt: HostRuntime) -> Result<(), Fail> {
    let raft = started(rt.alloc(), 1, 1)?;
    let mut raft = passed(&rt, raft);
    let out = tick(&mut raft, payloads(rt.alloc(), 7)?)?;
    assert!(rt; out.messages.len() == 0 && out.taken.is_none());
    assert!(rt; raft.commit_index() == 1 && raft.last() == (1, 1));
    assert!(rt; is_known(&raft, 1, 1, 7) && holds(raft.entry_at(1), 1, 7));
    cut(&mut raft, rt.alloc(), 1)?;
    assert!(rt; raft.base() == (1, 1) && raft.entry_at(1).is_none());
    Ok(())
}

#[test]
fn a_leader_commits_with_an_answer(rt: HostRuntime) -> Result<(), Fail> {
    let mut leader = started(rt.alloc(), 1, 3)?;
    let mut follower = started(rt.alloc(), 2, 3)?;
    let sent = first(tick(&mut leader, payloads(rt.alloc(), 7)?)?)?;
    let answer = first(receive(&mut follower, node(1)?, sent.1)?)?;
    let _ = receive(&mut leader, node(2)?, answer.1)?;
    assert!(rt; sent.0.get() == 2 && answer.0.get() == 1);
    assert!(rt; leader.commit_index() == 1 && follower.last() == (1, 1));
    Ok(())
}

#[test]
fn a_snapshot_is_taken_out_of_a_plan(rt: HostRuntime) -> Result<(), Fail> {
    let log = Log::at(rt.alloc(), 10, 3);
    let from = node(1)?;
    let mut raft: Raft<u64> = Raft::revived(rt.alloc(), node(2)?, 3, 4, Some(from), log, 10);
    let message = Message::Snap {
        term: 5,
        index: 12,
        index_term: 5,
        snapshot: 42,
    };
    let mut plan = raft.plan(RaftEvent::Receive { from, message }, &NOTHING)?;
    assert!(rt; plan.term() == 5 && plan.leader() == Some(from) && plan.sends() == 1);
    assert!(rt; raft.term() == 4 && raft.leader().is_none() && raft.vote() == Some(from));
    assert!(rt; plan.taken().copied() == Some(42) && plan.take_snapshot() == Some((12, 42)));
    raft.make_room(&plan)?;
    let out = raft.commit(plan);
    assert!(rt; out.taken.is_none() && raft.base() == (12, 5));
    Ok(())
}

#[test]
fn begins_from_a_snapshot_and_restarts(rt: HostRuntime) -> Result<(), Fail> {
    let leader = node(1)?;
    let mut raft: Raft<u64> = Raft::from_snap(rt.alloc(), node(2)?, 3, 4, leader, (10, 3));
    assert!(rt; raft.node().get() == 2 && raft.term() == 4 && raft.commit_index() == 10);
    assert!(rt; raft.leader() == Some(leader) && raft.vote().is_none());
    raft.restart(10);
    assert!(rt; raft.last() == (10, 3) && !raft.is_leader() && raft.leader().is_none());
    Ok(())
}

/// A leader's first tick is counted and no more, its second beats; a follower's are counted.
#[test]
fn counts_ticks(rt: HostRuntime) -> Result<(), Fail> {
    let mut leader = started(rt.alloc(), 1, 3)?;
    let mut follower = started(rt.alloc(), 2, 3)?;
    assert!(rt; leader.only_counts() && follower.only_counts());
    if leader.only_counts() {
        leader.count_tick();
    }
    if follower.only_counts() {
        follower.count_tick();
    }
    assert!(rt; !leader.only_counts() && follower.only_counts());
    let out = tick(&mut leader, Seq::new(rt.alloc()))?;
    assert!(rt; out.messages.len() == 2);
    Ok(())
}

/// An answer to all that a leader has is heard, and moves its commit index; one that leaves entries to
/// be sent is not.
#[test]
fn hears_an_answer(rt: HostRuntime) -> Result<(), Fail> {
    let mut leader = started(rt.alloc(), 1, 3)?;
    let _ = tick(&mut leader, payloads(rt.alloc(), 7)?)?;
    let _ = tick(&mut leader, payloads(rt.alloc(), 8)?)?;
    if !can_rise(&leader) {
        return Err("no index is left".into());
    }
    assert!(rt; !leader.hear(node(2)?, 1, true, 1) && leader.commit_index() == 0);
    if !can_rise(&leader) {
        return Err("no index is left".into());
    }
    assert!(rt; leader.hear(node(2)?, 1, true, 2) && leader.commit_index() == 2);
    Ok(())
}
