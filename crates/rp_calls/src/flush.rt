//! A flush of a worked inbox.
use crate::samples::attempt;
use rp_base::{
    CmdId, Grown, Item, Items, Lease, LeaseAsk, LeaseIndex, LeaseSeq, NodeId, Seq, Tick,
};
use rp_flush::{Assigned, WaitList, assign};
use rp_request::Waiting;
use std::alloc::Global;
use std::test::Fail;

fn ask(expires: u64) -> Result<LeaseAsk, Fail> {
    Ok(LeaseAsk {
        holder: NodeId::new(2).ok_or("node 2")?,
        prev: LeaseSeq::new(3),
        expires: Tick::new(expires),
    })
}

/// A list of commands that wait, each with its lease sequence.
fn waiting(alloc: Global, parts: &[(u32, u64)]) -> Result<WaitList, Fail> {
    let mut list = Seq::new(alloc);
    for part in parts {
        list.push(Waiting {
            id: attempt(part.0),
            seq: LeaseSeq::new(part.1),
        })?;
    }
    Ok(list)
}

fn inbox(alloc: Global, items: &[Item]) -> Result<Items, Fail> {
    let mut list = Grown::new(alloc);
    list.make_room(items.len())?;
    list.append_slice(items);
    Ok(list)
}

/// What becomes of the items under the lease sequence 3, where the lease applied index and the last
/// index assigned are these.
fn flush(
    alloc: Global,
    items: &[Item],
    list: &WaitList,
    lai: u32,
    assigned: u32,
) -> Result<Assigned, Fail> {
    let lease = Lease {
        holder: NodeId::new(1).ok_or("node 1")?,
        seq: LeaseSeq::new(3),
        expires: Tick::new(50),
    };
    let inbox = inbox(alloc, items)?;
    let (lai, assigned) = (
        LeaseIndex::new(u64::from(lai)),
        LeaseIndex::new(u64::from(assigned)),
    );
    Ok(assign(alloc, &inbox, list, lease, lai, assigned)?)
}

fn gives(flushed: &Assigned, writes: &[(CmdId, LeaseIndex)], refused: &[CmdId]) -> bool {
    flushed.writes.as_slice() == writes && flushed.refused.as_slice() == refused
}

#[test]
fn a_command_is_settled_once(rt: HostRuntime) -> Result<(), Fail> {
    let ask = ask(40)?;
    let items = [
        Item::Write(attempt(1)),
        Item::Write(attempt(2)),
        Item::Write(attempt(1)),
        Item::Lease(ask),
        Item::Write(attempt(9)),
        Item::Write(attempt(2)),
        Item::Write(attempt(3)),
    ];
    let list = waiting(rt.alloc(), &[(3, 3), (2, 2), (1, 3)])?;
    let flushed = flush(rt.alloc(), &items, &list, 4, 7)?;
    assert!(rt;
        gives(
            &flushed,
            &[
                (attempt(1), LeaseIndex::new(8)),
                (attempt(3), LeaseIndex::new(9))
            ],
            &[attempt(2)]
        )
    );
    assert!(rt; flushed.last.get() == 9 && flushed.leases.as_slice() == [ask].as_slice());
    Ok(())
}
