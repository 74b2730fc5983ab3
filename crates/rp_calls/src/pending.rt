//! Proposals that are added, flushed, refreshed and finished.
use crate::samples::{attempt, key, passed};
use rp_base::{CmdId, LeaseIndex, LeaseSeq, Tick, Value};
use rp_pending::{Pending, Proposal, Refresh, Stage};
use rp_request::{Batch, Reply, Request};
use std::alloc::Global;
use std::test::Fail;

fn proposal(alloc: Global, number: u32) -> Result<Proposal, Fail> {
    let key = key("a")?;
    Ok(Proposal {
        id: attempt(number),
        request: Request::Put {
            key,
            value: Value::Number(5),
        },
        batch: Batch::new(alloc),
        reply: Reply::Set,
        seq: LeaseSeq::new(1),
        max: LeaseIndex::new(0),
        stage: Stage::Waiting,
        since: Tick::new(0),
        round: None,
    })
}

/// Adds a Waiting proposal, where none has its number.
fn add(pending: &mut Pending, alloc: Global, number: u32) -> Result<(), Fail> {
    let proposal = proposal(alloc, number)?;
    pending.make_room(1)?;
    if pending.find(proposal.id).is_none() {
        pending.add(proposal);
    }
    Ok(())
}

/// The proposals 1 to n.
fn filled(alloc: Global, n: u32) -> Result<Pending, Fail> {
    let mut pending = Pending::new(alloc);
    for number in 1..=n {
        add(&mut pending, alloc, number)?;
    }
    Ok(pending)
}

/// Proposes the one with the number, where it is there.
fn propose(pending: &mut Pending, number: u32, max: u64, since: u64, round: u64) {
    let id = attempt(number);
    if pending.find(id).is_some() {
        pending.propose(id, LeaseIndex::new(max), Tick::new(since), round);
    }
}

fn wait_again(pending: &mut Pending, number: u32) {
    let id = attempt(number);
    if pending.find(id).is_some() {
        pending.back_to_waiting(id);
    }
}

fn has(pending: &Pending, number: u32) -> bool {
    match pending.find(attempt(number)) {
        None => false,
        Some(proposal) => proposal.id == attempt(number),
    }
}

fn finishes(pending: &mut Pending, number: u32) -> bool {
    match pending.finish(attempt(number)) {
        None => false,
        Some(proposal) => proposal.id == attempt(number),
    }
}

/// The attempts are those with these numbers.
fn are(ids: &[CmdId], numbers: &[u32]) -> bool {
    ids.len() == numbers.len()
        && ids
            .iter()
            .zip(numbers)
            .all(|(id, number)| *id == attempt(*number))
}

fn is(refresh: &Refresh, again: &[u32], back: &[u32]) -> bool {
    are(refresh.again.as_slice(), again) && are(refresh.back.as_slice(), back)
}

/// Whether those that wait are the ones with these numbers.
fn wait(pending: &Pending, numbers: &[u32]) -> bool {
    let Ok(waiting) = pending.waiting() else {
        return false;
    };
    let found = waiting.as_slice();
    found.len() == numbers.len()
        && found
            .iter()
            .zip(numbers)
            .all(|(one, number)| one.id == attempt(*number))
}

/// Whether the proposals are those with these numbers.
fn hold(pending: &Pending, numbers: &[u32]) -> bool {
    match pending.ids() {
        Ok(ids) => are(ids.as_slice(), numbers),
        Err(_) => false,
    }
}

#[test]
fn a_proposal_is_added_found_and_finished(rt: HostRuntime) -> Result<(), Fail> {
    let pending = filled(rt.alloc(), 3)?;
    let mut pending = passed(&rt, pending);
    assert!(rt; has(&pending, 2) && !has(&pending, 4));
    assert!(rt; finishes(&mut pending, 1) && !finishes(&mut pending, 1));
    assert!(rt; hold(&pending, &[2, 3]));
    Ok(())
}

#[test]
fn what_goes_back_waits_again(rt: HostRuntime) -> Result<(), Fail> {
    let mut pending = filled(rt.alloc(), 3)?;
    propose(&mut pending, 1, 7, 3, 9);
    propose(&mut pending, 2, 8, 3, 4);
    propose(&mut pending, 2, 8, 9, 2);
    assert!(rt; wait(&pending, &[3]) && pending.first_round() == Some(4));
    wait_again(&mut pending, 2);
    assert!(rt; wait(&pending, &[2, 3]) && pending.first_round() == Some(4));
    Ok(())
}

/// Six that were proposed and one that waits. At tick 5 the third was proposed four ticks ago.
fn proposed(alloc: Global) -> Result<Pending, Fail> {
    let mut pending = filled(alloc, 7)?;
    propose(&mut pending, 1, 7, 0, 1);
    propose(&mut pending, 2, 3, 4, 1);
    propose(&mut pending, 3, 5, 1, 1);
    propose(&mut pending, 4, 7, 0, 1);
    propose(&mut pending, 5, 2, 0, 1);
    propose(&mut pending, 6, 6, 0, 1);
    Ok(pending)
}

#[test]
fn a_tick_refreshes_after_five_ticks(rt: HostRuntime) -> Result<(), Fail> {
    let pending = proposed(rt.alloc())?;
    let refresh = pending.to_refresh(LeaseIndex::new(3), Tick::new(5), false)?;
    assert!(rt; is(&refresh, &[6, 1, 4], &[5, 2]));
    let refresh = pending.to_refresh(LeaseIndex::new(3), Tick::new(4), true)?;
    assert!(rt; is(&refresh, &[3, 6, 1, 4], &[5, 2]));
    Ok(())
}

#[test]
fn many_end_in_order_of_admission(rt: HostRuntime) -> Result<(), Fail> {
    let mut pending = filled(rt.alloc(), 65000)?;
    for number in 1..=65000u32 {
        assert!(rt; has(&pending, number));
        assert!(rt; finishes(&mut pending, number));
    }
    Ok(())
}
