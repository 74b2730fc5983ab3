//! A node without its buffer end: its replicas, its time, and its lists.
ghost use Rattle.std.specs.Prelude.{◌≡◌, ◌<◌, ◌≤◌, Some, IfOk, MatchOption, length};
ghost use Rattle.rp_events.specs.Replicas as replicas;
ghost use Rattle.rp_events.specs.Nodes.{first_node, opened, seat};
ghost use Rattle.rp_replica.specs.Plans.{planned};
ghost use Rattle.rp_node.specs.Cores.{node_of, seat_in};
ghost use Rattle.rp_events.specs.MaySteps.{SeatAllows};
ghost use Rattle.rp_node.specs.Plans.{IsPrepared, TurnReady, answered, turned};
ghost use Rattle.rp_node.specs.Ticks.{TurnedAt};

use crate::journals::Journal;
use crate::logs::{Logs, Outcomes, Requests, Sent};
use crate::reserves::Reserves;
use crate::seats::Seat;
use rp_base::{NoMemory, NodeId, RangeId, Tick};
use rp_events::{Effects, EventAnswer, ReplicaEvent};
use rp_replica::{Replica, ReplicaPlan};
use rp_request::Refusal;
use rp_snapshot::Snapshot;
use rp_split::{RightStart, first};
use std::alloc::Global;

/// The index and the term behind which the log of a right range begins.
const RIGHT_BASE: (u64, u64) = (10, 1);

/// The seats of the ranges 0 to 7, and all that a node keeps.
#[derive(Drop)]
pub struct Core {
    pub(crate) alloc: Global,
    pub(crate) node: NodeId,
    pub(crate) nodes: u8,
    pub(crate) seats: [Seat; 8],
    pub(crate) ticks: Tick,
    pub(crate) rounds: u64,
    pub(crate) waited: u64,
    pub(crate) logs: Logs,
    pub(crate) reserves: Reserves,
}

/// How many messages and outcomes a plan will hand out.
pub(crate) fn sizes(plan: &Option<ReplicaPlan>) -> (usize, usize)
    ensures { MatchOption plan.now (Unit {0}) (λ p. (r : replicas.Replica) →
        (result.0 ≡ length (planned r p).messages) × (result.1 ≡ length (planned r p).outcomes)) }
{
    match plan {
        None => (0, 0),
        Some(plan) => plan.sizes(),
    }
}

impl Core {
    /// A node as it starts. It takes no memory.
    pub(crate) fn start(alloc: Global, node: NodeId, nodes: u8) -> Core
        requires { nodes ≤ 5 }
        ensures { node_of result ≡ first_node node nodes }
    {
        let leader = NodeId::new(1).unwrap();
        let replica = Replica::start(alloc, node, nodes, first(alloc), leader, (0, 0));
        Core {
            alloc,
            node,
            nodes,
            seats: [
                Seat::Live { replica },
                Seat::Absent,
                Seat::Absent,
                Seat::Absent,
                Seat::Absent,
                Seat::Absent,
                Seat::Absent,
                Seat::Absent,
            ],
            ticks: Tick::new(0),
            rounds: 0,
            waited: 0,
            logs: Logs {
                sent: Sent::new(alloc),
                journal: Journal::new(alloc),
                requests: Requests::new(alloc),
                outcomes: Outcomes::new(alloc),
            },
            reserves: Reserves::new(alloc),
        }
    }

    /// The event is planned at the range's replica, where there is one, with room made for all that
    /// it takes. It leaves all that contracts see, room aside.
    #[inline(never)]
    pub(crate) fn prepare(
        &mut self,
        range: RangeId,
        happens: ReplicaEvent<Snapshot>,
    ) -> Result<Option<ReplicaPlan>, NoMemory>
        requires { SeatAllows (seat (node_of self.old) range) happens self.old.ticks }
        ensures node { node_of self.new ≡ node_of self.old }
        ensures plan { IfOk result (λ p. IsPrepared (seat_in self.new.seats range) self.new.logs
            happens self.new.ticks self.new.rounds p) }
        ensures seat { range < length self.new.seats }
        ensures nodes { self.new.nodes ≡ self.old.nodes }
        ensures reserves { self.new.reserves ≡ self.old.reserves }
    {
        let (ticks, rounds) = (self.ticks, self.rounds);
        let plan = self.seats[usize::from(range.get())].plan(happens, ticks, rounds)?;
        let (sends, ends) = sizes(&plan);
        self.logs.make_room(sends, ends)?;
        Ok(plan)
    }

    /// The right range's replica starts at a node that has neither a replica nor a tombstone of it.
    /// It takes no memory.
    #[cold]
    fn open(&mut self, right: RightStart)
        requires { self.old.nodes ≤ 5 }
        ensures node { node_of self.new ≡ opened (node_of self.old) (Some right) }
        ensures logs { self.new.logs ≡ self.old.logs }
        ensures nodes { self.new.nodes ≡ self.old.nodes }
    {
        let place = usize::from(right.desc().id.get());
        let leader = right.lease().holder;
        if self.seats[place].is_absent() {
            let (alloc, node, nodes) = (self.alloc, self.node, self.nodes);
            let replica = Replica::start(alloc, node, nodes, right, leader, RIGHT_BASE);
            self.seats[place] = Seat::Live { replica };
        }
    }

    /// What was planned at the range's replica is done, and the right range that it starts is
    /// opened. It takes no memory.
    #[inline(never)]
    pub(crate) fn turn(&mut self, range: RangeId, plan: Option<ReplicaPlan>) -> EventAnswer
        requires nodes { self.old.nodes ≤ 5 }
        requires ready { TurnReady (seat_in self.old.seats range) plan
            self.old.logs.sent.spare self.old.logs.outcomes.spare }
        ensures done { answered (node_of self.new) result
            ≡ turned (node_of self.old) range plan (seat_in self.old.seats range) }
        ensures journal { self.new.logs.journal ≡ self.old.logs.journal }
        ensures nodes { self.new.nodes ≡ self.old.nodes }
        ensures stays { TurnedAt range plan self.old self.new }
    {
        let refused = EventAnswer::Refused(Refusal::NoReplica);
        let Some(mut plan) = plan else {
            return refused;
        };
        let right = plan.take_right();
        let effects = self.seats[usize::from(range.get())].commit(plan);
        let Some(effects) = effects else {
            return refused;
        };
        let Effects {
            answer,
            messages,
            outcomes,
        } = effects;
        self.logs.keep(range, messages, outcomes);
        if let Some(right) = right {
            self.open(right);
        }
        answer
    }
}
