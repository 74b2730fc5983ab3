//! How a replica begins, and a copy of a message.
use crate::samples::node;
use rp_apply::ApplyState;
use rp_base::{Bytes, LeaseIndex, LeaseSeq, NodeId, Seq, Tick};
use rp_raft::Raft;
use rp_raftstep::Message;
use rp_range::{first_desc, first_lease};
use rp_replica::{Replica, copy_message};
use rp_snapshot::{Snapshot, make};
use rp_table::Table;
use std::alloc::Global;
use std::test::Fail;

/// The first range without rows, under lease applied index 3.
fn snapshot(alloc: Global) -> Result<Snapshot, Fail> {
    let lai = LeaseIndex::new(3);
    Ok(make(alloc, first_desc(), first_lease(), lai, &Table::new(alloc))?)
}

#[test]
fn begins_from_a_snapshot(rt: HostRuntime) -> Result<(), Fail> {
    let (one, two) = (node(1)?, node(2)?);
    let taken = snapshot(rt.alloc())?;
    let replica = Replica::from_snap(rt.alloc(), two, 3, 4, one, (10, 3), taken);
    let applied = replica.applied();
    assert!(rt;
        replica.term() == 4
            && replica.commit_index() == 10
            && applied.index() == 10
            && applied.lai().get() == 3
            && replica.raft().leader() == Some(one)
    );
    Ok(())
}

/// A replica that is made of what was kept at index 10, under this barrier.
fn kept(alloc: Global, node: NodeId, leader: NodeId) -> Replica {
    let raft = Raft::from_snap(alloc, node, 3, 4, leader, (10, 3));
    let (lai, none) = (LeaseIndex::new(3), Table::new(alloc));
    let applied = ApplyState::start(alloc, first_desc(), first_lease(), lai, none, 10);
    Replica::revived(alloc, LeaseSeq::new(2), raft, applied)
}

#[test]
fn is_revived(rt: HostRuntime) -> Result<(), Fail> {
    let (one, two) = (node(1)?, node(2)?);
    let replica = kept(rt.alloc(), two, one);
    assert!(rt;
        replica.barrier() == LeaseSeq::new(2)
            && replica.term() == 4
            && replica.first_round().is_none()
            && replica.into_applied().index() == 10
    );
    Ok(())
}

/// A follower that has proposed nothing counts its ticks, and no more, until it stands.
#[test]
fn counts_ticks(rt: HostRuntime) -> Result<(), Fail> {
    let (one, two) = (node(1)?, node(2)?);
    let mut replica = kept(rt.alloc(), two, one);
    let mut last = 0;
    for number in 1..20 {
        let tick = Tick::new(number);
        if replica.only_counts(tick)? {
            replica.count_tick(tick);
            last = number;
        }
    }
    assert!(rt; last == 15 && replica.term() == 4);
    Ok(())
}

/// Whether a message forwards a payload of this one byte.
fn forwards(message: &Message<Snapshot>, byte: u8) -> bool {
    match message {
        Message::Forward { payload } => payload.as_slice() == [byte].as_slice(),
        _ => false,
    }
}

#[test]
fn a_message_is_copied(rt: HostRuntime) -> Result<(), Fail> {
    let mut payload: Bytes = Seq::new(rt.alloc());
    payload.push(7)?;
    let message = Message::Forward { payload };
    let copy = copy_message(rt.alloc(), &message)?;
    assert!(rt; forwards(&copy, 7) && forwards(&message, 7));
    Ok(())
}
