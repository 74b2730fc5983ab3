//! A committed entry is applied, and its proposer is told.
ghost use Rattle.std.specs.Prelude.{◌≡◌, ◌-◌, ◌<◌, ◌^◌, true, Some, IfSome, option_copied};
ghost use Rattle.rp_events.specs.Allows.{MayApply, MayApplyNext, MayApplyThis};
ghost use Rattle.rp_events.specs.Applications.{next_entry, payload_of};
ghost use Rattle.rp_replica.specs.Plans.{PlanFits};
ghost use Rattle.rp_request.specs.Applicable.{Fits};

use crate::samples::{answers, attempt, ends, key, node, one_item, put};
use crate::turns::{alone, happen, peek, proposes};
use rp_apply::ApplyState;
use rp_base::{Item, Key, Tick, Value};
use rp_codec::decode;
use rp_events::{Effects, EventAnswer, ReplicaEvent};
use rp_raftlog::Entry;
use rp_range::split_at;
use rp_replica::{Replica, ReplicaPlan};
use rp_request::{Outcome, Payload, Reply, Request};
use rp_snapshot::Snapshot;
use rp_split::RightStart;
use std::alloc::Global;
use std::test::Fail;

/// The payload that an entry carries, where it carries one and memory is left.
fn carried(alloc: Global, entry: &Entry) -> Option<Payload>
    ensures { IfSome result (λ p. payload_of (Some entry.now) ≡ Some p) }
{
    match decode(alloc, entry.payload.as_slice()) {
        Ok(payload) => Some(payload),
        Err(_) => None,
    }
}

/// Whether a split may be made where it is one.
fn fits(state: &ApplyState, payload: &Payload) -> bool
    ensures { result ≡ true → Fits state.now.history.state payload.now }
{
    let Payload::Write(command) = payload else {
        return true;
    };
    let Request::Split { key } = command.request else {
        return true;
    };
    split_at(state.desc(), key).is_ok()
}

/// Whether this entry may be applied next.
fn may_apply_this(alloc: Global, replica: &Replica, entry: &Entry) -> bool
    ensures { result ≡ true → MayApplyThis replica.now.replica entry.now }
{
    match carried(alloc, entry) {
        Some(payload) => fits(replica.applied(), &payload),
        None => false,
    }
}

/// The next entry that is committed and not applied, where there is one.
fn next_entry(replica: &Replica) -> Option<&Entry>
    requires { replica.now.replica.applied.index < 2 ^ 64 - 1 }
    ensures { option_copied result ≡ next_entry replica.now.replica }
{
    let index = replica.applied().index();
    if index < replica.commit_index() {
        replica.raft().entry_at(index + 1)
    } else {
        None
    }
}

/// Whether the next entry, where there is one, may be applied.
fn may_apply_next(alloc: Global, replica: &Replica) -> bool
    requires { replica.now.replica.applied.index < 2 ^ 64 - 1 }
    ensures { result ≡ true → MayApplyNext replica.now.replica (next_entry replica.now.replica) }
{
    match next_entry(replica) {
        Some(entry) => may_apply_this(alloc, replica, entry),
        None => true,
    }
}

fn may_apply(alloc: Global, replica: &Replica) -> bool
    ensures { result ≡ true → MayApply replica.now.replica }
{
    replica.applied().index() < u64::MAX
        && replica.applied().lease().seq.get() < u64::MAX
        && may_apply_next(alloc, replica)
}

/// The next committed entry is applied.
pub(crate) fn apply(alloc: Global, replica: &mut Replica) -> Option<Effects<Snapshot>> {
    if !may_apply(alloc, replica) {
        return None;
    }
    happen(replica, ReplicaEvent::Apply, Tick::new(3))
}

/// Whether the key holds 5 as of index 1.
fn holds_five(replica: &mut Replica, a: Key) -> bool {
    let five = EventAnswer::Value {
        value: Some(Value::Number(5)),
        applied: 1,
    };
    answers(peek(replica, a), &five)
}

#[test]
fn a_put_is_applied(rt: HostRuntime) -> Result<(), Fail> {
    let (one, a) = (node(1)?, key("a")?);
    let taken = one_item(rt.alloc(), &Item::Write(attempt(1)))?;
    let replied = Outcome::Success(Reply::Old(None));
    let mut replica = alone(rt.alloc(), one);
    let proposed = proposes(&mut replica, put(a), taken) && replica.commit_index() == 1;
    let ended = ends(apply(rt.alloc(), &mut replica), attempt(1), &replied);
    assert!(rt; proposed && ended && holds_five(&mut replica, a));
    Ok(())
}

/// An application's plan is given room, its right start is taken, and it is committed.
fn give_right(replica: &mut Replica, mut plan: ReplicaPlan) -> Option<RightStart>
    requires { PlanFits replica.old.replica plan }
{
    match replica.make_room(&plan) {
        Ok(()) => {
            let right = plan.take_right();
            let _ = replica.commit(plan);
            right
        }
        Err(_) => None,
    }
}

/// What the right range starts with that the next application splits off.
fn splits_off(alloc: Global, replica: &mut Replica) -> Option<RightStart> {
    if !may_apply(alloc, replica) {
        return None;
    }
    match replica.plan(ReplicaEvent::Apply, Tick::new(3), 1) {
        Ok(plan) => give_right(replica, plan),
        Err(_) => None,
    }
}

/// Whether the right range is number 1, from this key on to the end, without rows.
fn is_right_of(right: Option<RightStart>, at: Key) -> bool {
    match right {
        Some(right) => {
            let desc = right.desc();
            desc.id.get() == 1
                && desc.start == at.bound()
                && desc.end == u128::MAX
                && right.table().len() == 0
        }
        None => false,
    }
}

#[test]
fn a_split_starts_the_right_range(rt: HostRuntime) -> Result<(), Fail> {
    let (one, m) = (node(1)?, key("m")?);
    let taken = one_item(rt.alloc(), &Item::Write(attempt(1)))?;
    let mut replica = alone(rt.alloc(), one);
    let proposed = proposes(&mut replica, Request::Split { key: m }, taken);
    let right = splits_off(rt.alloc(), &mut replica);
    assert!(rt; proposed && is_right_of(right, m));
    Ok(())
}
