//! Each call, by commands, leases, a split and a snapshot.
ghost use Rattle.std.specs.Prelude.{IsTrue, ◌<◌, ◌-◌, ◌^◌};
ghost use Rattle.rp_request.specs.Applicable.{Fits};

use crate::samples::{attempt, key, passed};
use rp_apply::{ApplyState, Verdict, check};
use rp_base::{Key, Lease, LeaseAsk, LeaseIndex, LeaseSeq, NoMemory, NodeId, RangeId, Tick, Value};
use rp_range::{first_desc, first_lease, split_at};
use rp_request::{Batch, Command, Op, Payload, Place, Record, Reply, Request, Why};
use rp_table::Table;
use std::alloc::Global;
use std::test::Fail;

/// The first range, without keys, at index 0.
fn fresh(alloc: Global) -> ApplyState {
    let none = LeaseIndex::new(0);
    ApplyState::start(
        alloc,
        first_desc(),
        first_lease(),
        none,
        Table::new(alloc),
        0,
    )
}

/// A command under this sequence, with this maximum, that sets a key.
fn put(alloc: Global, key: Key, value: u64, seq: u64, max: u64) -> Result<Payload, NoMemory> {
    let mut batch = Batch::new(alloc);
    batch.push(Op::Set {
        key,
        value: Value::Number(value),
    })?;
    Ok(Payload::Write(Command {
        id: attempt(1),
        request: Request::Put {
            key,
            value: Value::Number(value),
        },
        batch,
        reply: Reply::Old(None),
        seq: LeaseSeq::new(seq),
        max: LeaseIndex::new(max),
    }))
}

/// The record of such a command, taken.
fn took(key: Key, value: u64, seq: u64) -> Record {
    let value = Value::Number(value);
    Record::Took(Place::Write {
        id: attempt(1),
        request: Request::Put { key, value },
        seq: LeaseSeq::new(seq),
        reply: Reply::Old(None),
    })
}

/// A command under sequence 1 that splits, with this maximum.
fn split(alloc: Global, key: Key, max: u64) -> Payload {
    Payload::Write(Command {
        id: attempt(1),
        request: Request::Split { key },
        batch: Batch::new(alloc),
        reply: Reply::Set,
        seq: LeaseSeq::new(1),
        max: LeaseIndex::new(max),
    })
}

fn ask(holder: NodeId, prev: u64, expires: u64) -> Payload {
    Payload::Lease(LeaseAsk {
        holder,
        prev: LeaseSeq::new(prev),
        expires: Tick::new(expires),
    })
}

/// Whether a split may be made where it is one.
fn fits(state: &ApplyState, payload: &Payload) -> bool
    ensures { IsTrue result → Fits state.now.history.state payload.now }
{
    let Payload::Write(command) = payload else {
        return true;
    };
    let Request::Split { key } = command.request else {
        return true;
    };
    split_at(state.desc(), key).is_ok()
}

/// Whether a payload may be applied: numbers are left, and a split may be made where it is one.
fn may_apply(state: &ApplyState, payload: &Payload) -> bool
    ensures index { IsTrue result → state.now.history.index < 2 ^ 64 - 1 }
    ensures seq { IsTrue result → state.now.history.state.lease.seq < 2 ^ 64 - 1 }
    ensures split { IsTrue result → Fits state.now.history.state payload.now }
{
    state.index() < u64::MAX && state.lease().seq.get() < u64::MAX && fits(state, payload)
}

/// Applies a payload, in two steps.
fn taken_in(state: &mut ApplyState, payload: &Payload) -> Result<Verdict, NoMemory>
    requires index { state.old.history.index < 2 ^ 64 - 1 }
    requires seq { state.old.history.state.lease.seq < 2 ^ 64 - 1 }
    requires split { Fits state.old.history.state payload.now }
{
    let verdict = state.plan_one(payload)?;
    state.commit_one(payload);
    Ok(verdict)
}

/// Applies a payload. Whether it may be applied, and both the check and the state say this of it.
fn applies(state: &mut ApplyState, payload: &Payload, want: Verdict) -> bool {
    may_apply(state, payload)
        && check(state, payload) == want
        && taken_in(state, payload).is_ok_and(|verdict| verdict == want)
}

/// Whether these are the records at the last indexes, the last one first.
fn lastly(state: &ApplyState, last: Record, before: Record) -> bool {
    let mut records = state.records().iter().rev();
    records.next() == Some(&last) && records.next() == Some(&before)
}

/// Whether this is the lease, taken last, under this lease applied index.
fn leased(state: &ApplyState, want: Lease, lai: u64) -> bool {
    state.lease() == want && state.lai() == LeaseIndex::new(lai)
}

fn lease(holder: NodeId, seq: u64, expires: u64) -> Lease {
    Lease {
        holder,
        seq: LeaseSeq::new(seq),
        expires: Tick::new(expires),
    }
}

/// Nothing is applied, then a command, which is passed the second time.
fn applies_once(state: &mut ApplyState, command: &Payload) -> bool {
    let passed = Verdict::OldIndex {
        lai: LeaseIndex::new(1),
    };
    applies(state, &Payload::Nothing, Verdict::Nothing)
        && applies(state, command, Verdict::Took)
        && applies(state, command, passed)
}

/// Whether key `a` holds 2 by one of three records.
fn was_applied_once(state: &ApplyState, a: Key) -> bool {
    lastly(state, Record::Passed(Why::OldIndex), took(a, 2, 1))
        && state.index() == 3
        && state.lai() == LeaseIndex::new(1)
        && state.before() == 0
        && state.records().len() == 3
        && state.table().len() == 1
        && state.table().get(a) == Some(Value::Number(2))
}

#[test]
fn a_command_applies_once(rt: HostRuntime) -> Result<(), Fail> {
    let a = key("a")?;
    let command = put(rt.alloc(), a, 2, 1, 1)?;
    let mut state = fresh(rt.alloc());
    assert!(rt; applies_once(&mut state, &command) && was_applied_once(&state, a));
    Ok(())
}

#[test]
fn a_state_passes_through_a_thread(rt: HostRuntime) {
    let state = fresh(rt.alloc());
    let state = passed(&rt, state);
    assert!(rt; state.index() == 0);
}

/// Node 2 asks for the lease, and then asks with the former sequence.
fn goes_there(state: &mut ApplyState, two: NodeId) -> bool {
    let moved = Record::Took(Place::Lease(lease(two, 2, 40)));
    applies(state, &ask(two, 1, 40), Verdict::Took)
        && leased(state, lease(two, 2, 40), 0)
        && applies(state, &ask(two, 1, 90), Verdict::LeaseMoved)
        && lastly(state, Record::Passed(Why::LeaseMoved), moved)
}

/// Node 1 asks for the lease, then keeps it to an earlier tick, and a command under sequence 1 is
/// passed.
fn comes_back(state: &mut ApplyState, one: NodeId, command: &Payload) -> bool {
    let passed = Verdict::OldLease {
        now: LeaseSeq::new(3),
    };
    let held = Record::Took(Place::Lease(lease(one, 3, 56)));
    applies(state, &ask(one, 2, 56), Verdict::Took)
        && applies(state, &ask(one, 3, 50), Verdict::Took)
        && applies(state, command, passed)
        && leased(state, lease(one, 3, 56), 0)
        && lastly(state, Record::Passed(Why::OldLease), held)
}

#[test]
fn a_lease_goes_there_and_back(rt: HostRuntime) -> Result<(), Fail> {
    let one = NodeId::new(1).ok_or("1 is a node")?;
    let two = NodeId::new(2).ok_or("2 is a node")?;
    let command = put(rt.alloc(), key("a")?, 5, 1, 1)?;
    let mut state = fresh(rt.alloc());
    assert!(rt; goes_there(&mut state, two) && comes_back(&mut state, one, &command));
    Ok(())
}

/// Whether the range is the left part of a split at this key, without rows.
fn is_left_part(state: &ApplyState, at: Key) -> bool {
    let desc = state.desc();
    desc.level == 1
        && desc.start == 0
        && desc.end == at.bound()
        && state.table().len() == 0
        && state.lai() == LeaseIndex::new(2)
}

/// A put at the right of the key, and then a split at it.
fn splits(state: &mut ApplyState, command: &Payload, split: &Payload, at: Key) -> bool {
    applies(state, command, Verdict::Took)
        && applies(state, split, Verdict::Took)
        && is_left_part(state, at)
}

#[test]
fn a_split_keeps_the_left_part(rt: HostRuntime) -> Result<(), Fail> {
    let (m, z) = (key("m")?, key("z")?);
    let right = RangeId::new(1).ok_or("a range")?;
    let item = Record::Took(Place::Split {
        id: attempt(1),
        key: m,
        right,
        seq: LeaseSeq::new(1),
    });
    let command = put(rt.alloc(), z, 9, 1, 1)?;
    let split = split(rt.alloc(), m, 2);
    let mut state = fresh(rt.alloc());
    assert!(rt; splits(&mut state, &command, &split, m) && lastly(&state, item, took(z, 9, 1)));
    Ok(())
}

/// Whether a state of another node, applied at index 7, is taken in.
fn takes_in(alloc: Global, state: &mut ApplyState) -> bool {
    if state.plan_reset().is_err() {
        return false;
    }
    let none = Table::new(alloc);
    state.reset(first_desc(), first_lease(), LeaseIndex::new(0), none, 7);
    state.index() == 7 && state.before() == 7 && state.records().is_empty()
}

/// Whether the one record of what came before is kept: nothing.
fn keeps_nothing(state: &ApplyState) -> bool {
    let mut pieces = state.earlier().iter();
    let kept = pieces.next().is_some_and(|piece| {
        piece.before() == 0 && piece.as_slice().first() == Some(&Record::Passed(Why::Nothing))
    });
    kept && pieces.next().is_none()
}

/// Nothing is applied, then a state of another node is taken in, and then a command.
fn goes_on(alloc: Global, state: &mut ApplyState, command: &Payload) -> bool {
    applies(state, &Payload::Nothing, Verdict::Nothing)
        && takes_in(alloc, state)
        && applies(state, command, Verdict::Took)
}

/// Whether this is the one record behind the snapshot, at index 8.
fn is_one_record(state: &ApplyState, record: Record) -> bool {
    state.index() == 8 && state.records().len() == 1 && state.records().first() == Some(&record)
}

#[test]
fn a_snapshot_keeps_records(rt: HostRuntime) -> Result<(), Fail> {
    let a = key("a")?;
    let command = put(rt.alloc(), a, 5, 1, 1)?;
    let mut state = fresh(rt.alloc());
    assert!(rt; goes_on(rt.alloc(), &mut state, &command) && keeps_nothing(&state));
    assert!(rt; is_one_record(&state, took(a, 5, 1)));
    Ok(())
}
