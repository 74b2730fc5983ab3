//! Proposals that are handed out, given up, taken back and repeated, and spans that are held.
use crate::samples::{attempt, key};
use rp_base::{LeaseIndex, LeaseSeq, Span, Spans, Tick, Value};
use rp_latch::Latches;
use rp_pending::{Pending, Proposal, Stage, Standing};
use rp_request::{Batch, Reply, Request};
use std::alloc::Global;
use std::test::Fail;

/// A proposal that waits.
fn waiting(alloc: Global, number: u32) -> Result<Proposal, Fail> {
    Ok(Proposal {
        id: attempt(number),
        request: Request::Put {
            key: key("a")?,
            value: Value::Number(5),
        },
        batch: Batch::new(alloc),
        reply: Reply::Set,
        seq: LeaseSeq::new(1),
        max: LeaseIndex::new(0),
        stage: Stage::Waiting,
        since: Tick::new(0),
        round: None,
    })
}

/// Adds a waiting proposal, where none has its number.
fn add(pending: &mut Pending, alloc: Global, number: u32) -> Result<(), Fail> {
    let proposal = waiting(alloc, number)?;
    pending.make_room(1)?;
    if pending.find(proposal.id).is_none() {
        pending.add(proposal);
    }
    Ok(())
}

fn hand_out(pending: &mut Pending, number: u32, max: u64) -> bool {
    pending.hand_out(attempt(number), LeaseIndex::new(max), Tick::new(3), 1)
}

fn repeat(pending: &mut Pending, number: u32) -> bool {
    pending.repeat(attempt(number), Tick::new(8), 2)
}

fn take_back(pending: &mut Pending, number: u32, lai: u64) -> bool {
    pending.take_back(attempt(number), LeaseIndex::new(lai))
}

/// Whether one is as it says: its number, its maximum, and whether it is proposed.
fn is(one: &Standing, number: u32, max: u64, proposed: bool) -> bool {
    one.id == attempt(number) && one.max.get() == max && (one.stage == Stage::Proposed) == proposed
}

/// Whether all that is pending stands so.
fn stand(pending: &Pending, parts: &[(u32, u64, bool)]) -> bool {
    let Ok(all) = pending.standings() else {
        return false;
    };
    all.len() == parts.len()
        && all
            .as_slice()
            .iter()
            .zip(parts)
            .all(|(one, part)| is(one, part.0, part.1, part.2))
}

/// Holds a key for an attempt, where no held span meets it.
fn hold(latches: &mut Latches, number: u32, text: &str) -> Result<bool, Fail> {
    let spans = Spans {
        first: Span::one(key(text)?),
        second: None,
    };
    latches.make_room(1)?;
    if latches.conflict(spans).is_some() {
        return Ok(false);
    }
    latches.hold_clear(attempt(number), spans);
    Ok(true)
}

#[test]
fn clear_spans_are_held(rt: HostRuntime) -> Result<(), Fail> {
    let mut latches = Latches::new(rt.alloc());
    assert!(rt; hold(&mut latches, 1, "a")? && hold(&mut latches, 2, "b")?);
    assert!(rt; !hold(&mut latches, 3, "b")?);
    Ok(())
}

#[test]
fn each_turn_wants_its_stage(rt: HostRuntime) -> Result<(), Fail> {
    let mut pending = Pending::new(rt.alloc());
    add(&mut pending, rt.alloc(), 1)?;
    add(&mut pending, rt.alloc(), 2)?;
    assert!(rt; hand_out(&mut pending, 1, 7) && !hand_out(&mut pending, 1, 8));
    assert!(rt; repeat(&mut pending, 1) && !repeat(&mut pending, 2));
    assert!(rt; stand(&pending, &[(1, 7, true), (2, 0, false)]));
    assert!(rt; !take_back(&mut pending, 1, 6) && take_back(&mut pending, 1, 7));
    assert!(rt; pending.give_up(attempt(1)) && !pending.give_up(attempt(1)));
    assert!(rt; hand_out(&mut pending, 2, 9));
    pending.drop_back(LeaseIndex::new(9));
    assert!(rt; stand(&pending, &[]));
    Ok(())
}
