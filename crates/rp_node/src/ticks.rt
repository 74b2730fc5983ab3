//! An event of every live replica of a node: a tick, and the node's restart.
ghost use Rattle.std.specs.Prelude.{◌≡◌, ℕ, ◌+◌, ◌≤◌, IfOk, OnErr, length, map, slice_index_or, sum_by};
ghost use Rattle.rp_events.specs.MaySteps.{MayTick, SeatAllows};
ghost use Rattle.rp_events.specs.NodeEvents.{all_turns, done};
ghost use Rattle.rp_events.specs.Nodes.{Absent, range_numbers, seat, written};
ghost use Rattle.rp_events.specs.declared.answers.EventAnswer.TheVariants as answers;
ghost use Rattle.rp_events.specs.declared.journals.PastEvent.TheVariants as past;
ghost use Rattle.rp_events.specs.declared.replica_events.ReplicaEvent.TheVariants as at_replica;
ghost use Rattle.rp_node.specs.Cores.{node_of, status_of};
ghost use Rattle.rp_node.specs.Plans.{answered};
ghost use Rattle.rp_node.specs.Ticks.{AllReady, ArePrepared, event_of, seat_ends, seat_sends, with_ticks};

use crate::cores::{Core, sizes};
use crate::seats::Seat;
use rp_base::{NoMemory, RangeId, Tick};
use rp_events::{EventAnswer, PastEvent, ReplicaEvent};
use rp_replica::ReplicaPlan;
use rp_snapshot::Snapshot;
use std::alloc::Global;

/// What happens at every live replica of a node.
#[derive(Clone, Copy)]
pub(crate) enum NodeWide {
    Tick,
    Restart,
}

impl NodeWide {
    /// The event at one replica.
    fn event(self) -> ReplicaEvent<Snapshot>
        ensures { result ≡ event_of self }
    {
        match self {
            NodeWide::Tick => ReplicaEvent::Tick,
            NodeWide::Restart => ReplicaEvent::Restart,
        }
    }
}

/// The event is planned at every seat, with room made for each plan. It leaves the seats as they
/// were, room aside.
fn plan_all(
    alloc: Global,
    seats: &mut [Seat],
    happens: NodeWide,
    ticks: Tick,
    rounds: u64,
) -> Result<Vec<Option<ReplicaPlan>>, NoMemory>
    requires { (range : ℕ) → SeatAllows (slice_index_or (map status_of seats.old) range Absent)
        (event_of happens) ticks }
    ensures seats { map status_of seats.new ≡ map status_of seats.old }
    ensures plans { IfOk result (λ plans. AllReady seats.new (event_of happens) ticks rounds plans.items) }
{
    let mut plans = Vec::with_capacity(alloc, seats.len())?;
    for seat in seats {
        let plan = seat.plan(happens.event(), ticks, rounds)?;
        plans.push(plan)?;
    }
    Ok(plans)
}

/// The sum; want of memory where no number holds it.
fn add(left: usize, right: usize) -> Result<usize, NoMemory>
    ensures { IfOk result (λ sum. sum ≡ left + right) }
{
    left.checked_add(right).ok_or(NoMemory)
}

/// How many messages and outcomes plans will hand out; want of memory where no number holds them.
fn sum_sizes(plans: &[Option<ReplicaPlan>]) -> Result<(usize, usize), NoMemory>
    ensures { IfOk result (λ sum. (sum_by seat_sends plans.now ≤ sum.0) × (sum_by seat_ends plans.now ≤ sum.1)) }
{
    let (mut sends, mut ends) = (0usize, 0usize);
    for plan in plans {
        let (more_sends, more_ends) = sizes(plan);
        sends = add(sends, more_sends)?;
        ends = add(ends, more_ends)?;
    }
    Ok((sends, ends))
}

impl Core {
    /// The event is planned at every seat, with room made for all that they take together. It leaves
    /// all that contracts see, room aside.
    fn prepare_all(
        &mut self,
        happens: NodeWide,
        ticks: Tick,
    ) -> Result<Vec<Option<ReplicaPlan>>, NoMemory>
        requires { (range : ℕ) → SeatAllows (seat (node_of self.old) range) (event_of happens) ticks }
        ensures node { node_of self.new ≡ node_of self.old }
        ensures plans { IfOk result (λ plans. ArePrepared self.new.seats self.new.logs (event_of happens)
            ticks self.new.rounds plans.items) }
        ensures nodes { self.new.nodes ≡ self.old.nodes }
        ensures seats { length self.new.seats ≡ 8 }
    {
        let plans = plan_all(self.alloc, &mut self.seats, happens, ticks, self.rounds)?;
        let (sends, ends) = sum_sizes(&plans)?;
        self.logs.make_room(sends, ends)?;
        Ok(plans)
    }

    /// An event of every live replica, by ascending range, at this tick of the node. At want of
    /// memory nothing happens.
    fn happen_all(
        &mut self,
        happens: NodeWide,
        ticks: Tick,
        past: PastEvent,
    ) -> Result<EventAnswer, NoMemory>
        requires nodes { self.old.nodes ≤ 5 }
        requires allowed { (range : ℕ) → SeatAllows (seat (node_of self.old) range) (event_of happens) ticks }
        ensures ok { IfOk result (λ answer. answered (node_of self.new) answer ≡ written past
            (done (all_turns (event_of happens) (with_ticks (node_of self.old) ticks) range_numbers))) }
        ensures err { OnErr result (node_of self.new ≡ node_of self.old) }
    {
        let plans = self.prepare_all(happens, ticks)?;
        self.ticks = ticks;
        let mut number = 0;
        for plan in plans {
            self.turn(RangeId::new(number).unwrap(), plan);
            number += 1;
        }
        self.logs.write(past, &EventAnswer::Done);
        Ok(EventAnswer::Done)
    }

    /// Time goes on by one tick in all ranges. At want of memory nothing happens.
    #[inline(never)]
    pub(crate) fn tick(&mut self) -> Result<EventAnswer, NoMemory>
        requires nodes { self.old.nodes ≤ 5 }
        requires allowed { MayTick (node_of self.old) }
        ensures ok { IfOk result (λ answer. answered (node_of self.new) answer ≡ written past.Tick
            (done (all_turns at_replica.Tick (with_ticks (node_of self.old) (self.old.ticks + 1)) range_numbers))) }
        ensures err { OnErr result (node_of self.new ≡ node_of self.old) }
    {
        let ticks = Tick::new(self.ticks.get() + 1);
        if self.only_counts(ticks)? {
            return self.count_tick(ticks);
        }
        self.happen_all(NodeWide::Tick, ticks, PastEvent::Tick)
    }

    /// The node starts again with what it keeps. At want of memory nothing happens.
    #[cold]
    pub(crate) fn restart(&mut self) -> Result<EventAnswer, NoMemory>
        requires { self.old.nodes ≤ 5 }
        ensures ok { IfOk result (λ answer. answered (node_of self.new) answer ≡ written past.Restart
            (done (all_turns at_replica.Restart (node_of self.old) range_numbers))) }
        ensures err { OnErr result (node_of self.new ≡ node_of self.old) }
    {
        self.happen_all(NodeWide::Restart, self.ticks, PastEvent::Restart)
    }
}
