//! Events of a replica, each planned, given room and committed.
ghost use Rattle.std.specs.Prelude.{◌≡◌, ◌+◌, ◌<◌, ◌≤◌, ◌^◌, length, true};
ghost use Rattle.rp_events.specs.Allows.{Allows, MayCut, MayFlush};
ghost use Rattle.rp_raftstep.specs.Conditions.{CanRise};
ghost use Rattle.rp_replica.specs.Plans.{IsCollect, PlanFits};

use crate::samples::{answers, attempt};
use rp_base::{CmdId, Items, Key, NodeId, Tick};
use rp_events::{Effects, EventAnswer, ReplicaEvent};
use rp_raft::Raft;
use rp_replica::{Replica, ReplicaPlan};
use rp_request::Request;
use rp_snapshot::Snapshot;
use rp_split::first;
use std::alloc::Global;

/// A plan is given room and committed.
fn give(replica: &mut Replica, plan: ReplicaPlan) -> Option<Effects<Snapshot>>
    requires { PlanFits replica.old.replica plan }
{
    match replica.make_room(&plan) {
        Ok(()) => Some(replica.commit(plan)),
        Err(_) => None,
    }
}

/// An event happens.
pub(crate) fn happen(
    replica: &mut Replica,
    happens: ReplicaEvent<Snapshot>,
    ticks: Tick,
) -> Option<Effects<Snapshot>>
    requires { Allows replica.old.replica happens ticks }
{
    match replica.plan(happens, ticks, 1) {
        Ok(plan) => give(replica, plan),
        Err(_) => None,
    }
}

/// The replica of node 1 of one node, which leads from the start and holds the first lease.
pub(crate) fn alone(alloc: Global, node: NodeId) -> Replica {
    Replica::start(alloc, node, 1, first(alloc), node, (0, 0))
}

/// An attempt asks to be admitted, where it is not pending.
pub(crate) fn admit(
    replica: &mut Replica,
    id: CmdId,
    request: Request,
) -> Option<Effects<Snapshot>> {
    if replica.pending().find(id).is_some() {
        return None;
    }
    happen(replica, ReplicaEvent::Admit { id, request }, Tick::new(0))
}

/// The node asks for the lease.
pub(crate) fn ask(replica: &mut Replica) -> Option<Effects<Snapshot>> {
    happen(replica, ReplicaEvent::Ask, Tick::new(0))
}

/// The holder asks for the lease to go to another node.
pub(crate) fn transfer(replica: &mut Replica, to: NodeId) -> Option<Effects<Snapshot>> {
    happen(replica, ReplicaEvent::Transfer { to }, Tick::new(0))
}

pub(crate) fn can_rise(raft: &Raft<Snapshot>) -> bool
    ensures { result ≡ true → CanRise raft.now.raft }
{
    raft.term() < u64::MAX && raft.last().0 < u64::MAX
}

fn may_flush(replica: &Replica) -> bool
    ensures { result ≡ true → MayFlush replica.now.replica }
{
    let items = replica.inbox().len() as u64;
    let assigned = replica.assigned().get().max(replica.applied().lai().get());
    can_rise(replica.raft())
        && assigned.checked_add(items).is_some()
        && replica.raft().last().0.checked_add(items).is_some()
}

/// The inbox goes to Raft.
pub(crate) fn flush(replica: &mut Replica) -> Option<Effects<Snapshot>> {
    if !may_flush(replica) {
        return None;
    }
    happen(replica, ReplicaEvent::Flush, Tick::new(3))
}

fn may_cut(replica: &Replica) -> bool
    ensures { result ≡ true → MayCut replica.now.replica }
{
    let index = replica.applied().index();
    can_rise(replica.raft()) && replica.raft().base().0 <= index && index <= replica.raft().last().0
}

/// The log is cut up to the applied index.
pub(crate) fn cut(replica: &mut Replica) -> Option<Effects<Snapshot>> {
    if !may_cut(replica) {
        return None;
    }
    happen(replica, ReplicaEvent::Cut, Tick::new(3))
}

/// The replica is taken down.
pub(crate) fn remove(replica: &mut Replica) -> Option<Effects<Snapshot>> {
    happen(replica, ReplicaEvent::Remove, Tick::new(3))
}

/// The node starts again.
pub(crate) fn restart(replica: &mut Replica) -> Option<Effects<Snapshot>> {
    happen(replica, ReplicaEvent::Restart, Tick::new(3))
}

/// The applied value of a key is read.
pub(crate) fn peek(replica: &mut Replica, key: Key) -> Option<Effects<Snapshot>> {
    happen(replica, ReplicaEvent::Peek { key }, Tick::new(3))
}

/// A collect's plan is given room, and then what the buffer gave.
fn give_taken(
    replica: &mut Replica,
    mut plan: ReplicaPlan,
    taken: Items,
) -> Option<Effects<Snapshot>>
    requires fits { PlanFits replica.old.replica plan }
    requires collect { IsCollect plan }
    requires few { length taken.list ≤ 16 }
{
    match replica.make_room(&plan) {
        Ok(()) => {
            plan.put_taken(taken);
            Some(replica.commit(plan))
        }
        Err(_) => None,
    }
}

/// What the buffer gives joins the inbox, where it is at most 16 items.
pub(crate) fn collect(replica: &mut Replica, taken: Items) -> Option<Effects<Snapshot>> {
    if 16 < taken.len() {
        return None;
    }
    match replica.plan(ReplicaEvent::Collect, Tick::new(3), 1) {
        Ok(plan) => give_taken(replica, plan, taken),
        Err(_) => None,
    }
}

/// Attempt 1 is admitted, its item collected, and the inbox flushed.
pub(crate) fn proposes(replica: &mut Replica, request: Request, taken: Items) -> bool {
    answers(admit(replica, attempt(1), request), &EventAnswer::Admitted)
        && answers(collect(replica, taken), &EventAnswer::Done)
        && answers(flush(replica), &EventAnswer::Done)
}
