//! The events of a replica that stands alone, each compared with what it must answer.
use crate::applies::apply;
use crate::samples::{answers, ask_of, attempt, ends, first_lease, key, node, one_item, put};
use crate::turns::{admit, alone, ask, collect, cut, peek, proposes, remove, restart, transfer};
use rp_base::{Item, Items, Key, LeaseIndex, LeaseSeq, NodeId, Span, Tick};
use rp_events::{EventAnswer, ReplicaEvent};
use rp_replica::Replica;
use rp_request::{Ambiguity, Outcome, Refusal};
use std::alloc::Global;
use std::test::Fail;

/// An ask that nobody made is dropped.
fn drops(replica: &mut Replica, taken: Items) -> bool {
    answers(collect(replica, taken), &EventAnswer::Done) && replica.inbox().len() == 0
}

/// The lease is asked for, and then it is asked to go.
fn asks(replica: &mut Replica, own: NodeId, other: NodeId) -> bool {
    answers(ask(replica), &EventAnswer::Asked(ask_of(own)))
        && answers(transfer(replica, other), &EventAnswer::Asked(ask_of(other)))
}

/// An absent key is read, the log is cut, and there is nothing to apply.
fn stays(alloc: Global, replica: &mut Replica, a: Key) -> bool {
    let none = EventAnswer::Value {
        value: None,
        applied: 0,
    };
    answers(peek(replica, a), &none)
        && answers(cut(replica), &EventAnswer::Done)
        && answers(apply(alloc, replica), &EventAnswer::Nothing)
}

#[test]
fn a_fresh_replica_answers(rt: HostRuntime) -> Result<(), Fail> {
    let (one, two, a) = (node(1)?, node(2)?, key("a")?);
    let taken = one_item(rt.alloc(), &Item::Lease(ask_of(two)))?;
    let mut replica = alone(rt.alloc(), one);
    let stood = drops(&mut replica, taken) && stays(rt.alloc(), &mut replica, a);
    assert!(rt; stood && asks(&mut replica, one, two));
    Ok(())
}

/// Of two attempts at a key the second is answered so.
fn refuses(replica: &mut Replica, a: Key, refused: &EventAnswer) -> bool {
    admit(replica, attempt(1), put(a)).is_some()
        && answers(admit(replica, attempt(2), put(a)), refused)
}

/// How many messages and outcomes a removal will hand out.
fn sizes_of_removal(replica: &mut Replica) -> Option<(usize, usize)> {
    match replica.plan(ReplicaEvent::Remove, Tick::new(3), 1) {
        Ok(plan) => Some(plan.sizes()),
        Err(_) => None,
    }
}

#[test]
fn a_removal_ends_what_waits(rt: HostRuntime) -> Result<(), Fail> {
    let (one, a) = (node(1)?, key("a")?);
    let latched = EventAnswer::Refused(Refusal::Latched {
        by: attempt(1),
        held: Span::one(a),
    });
    let gone = Outcome::Refused(Refusal::NoReplica);
    let mut replica = alone(rt.alloc(), one);
    let refused = refuses(&mut replica, a, &latched);
    let sized = sizes_of_removal(&mut replica) == Some((0, 1));
    assert!(rt; refused && sized && ends(remove(&mut replica), attempt(1), &gone));
    Ok(())
}

#[test]
fn a_restart_ends_what_is_proposed(rt: HostRuntime) -> Result<(), Fail> {
    let (one, a) = (node(1)?, key("a")?);
    let taken = one_item(rt.alloc(), &Item::Write(attempt(1)))?;
    let own = LeaseIndex::new(1);
    let restarted = Outcome::Ambiguous(Ambiguity::Restarted { own });
    let lease = first_lease(one);
    let refused = EventAnswer::Refused(Refusal::NotLeaseHolder { lease });
    let mut replica = alone(rt.alloc(), one);
    let proposed = proposes(&mut replica, put(a), taken);
    let ended = ends(restart(&mut replica), attempt(1), &restarted);
    let barred = answers(admit(&mut replica, attempt(2), put(a)), &refused);
    assert!(rt; proposed && ended && barred && replica.barrier() == LeaseSeq::new(1));
    Ok(())
}
