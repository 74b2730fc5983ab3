//! What an event will do, once it is planned.
ghost use Rattle.std.specs.Prelude.{◌≡◌, ℕ, ◌≤◌, [], length};
ghost use Rattle.rp_events.specs.declared.replica_events.ReplicaEvent.TheVariants.{Collect};
ghost use Rattle.rp_events.specs.ReplicaEvents.{event};
ghost use Rattle.rp_events.specs.Replicas.{Replica, Done};
ghost use Rattle.rp_replica.specs.declared.plans.ReplicaPlan.TheVariants.{Collects};
ghost use Rattle.rp_replica.specs.Plans.{HasRoom, IsCollect, IsPlan, Makes, PlanFits, planned, right_in, without_right};
ghost use Rattle.rp_replica.specs.Rooms.{Room};

use crate::boxed::Boxed;
use rp_base::{CmdId, Items, LeaseAsk, LeaseIndex, Seq, Tick};
use rp_events::{EventAnswer, Move, Outcomes};
use rp_pending::Proposal;
use rp_raft::RaftPlan;
use rp_request::Payload;
use rp_snapshot::Snapshot;
use rp_split::RightStart;

/// What an applied entry makes of the proposal that it came of (CockroachDB's proposer).
#[derive(Clone, Copy, PartialEq, Eq)]
pub enum Turn {
    /// The entry is of no proposal here.
    Stays,
    /// The proposal ends, and frees its latches.
    Ends { id: CmdId },
    /// The proposal waits for another lease index.
    WaitsAgain { id: CmdId },
}

/// What an application will do.
#[derive(Drop)]
pub struct Application {
    /// What the entry carries.
    pub payload: Boxed<Payload>,
    pub turn: Turn,
    /// The end of the proposal, where the entry ends one.
    pub outcomes: Outcomes,
    /// What the right range starts with, where the entry is a split that is taken.
    pub right: Option<Boxed<RightStart>>,
}

/// What an event of Raft will do with payloads behind it, and what becomes of proposals before.
#[derive(Drop)]
pub struct HandOver {
    pub raft: Boxed<RaftPlan<Snapshot>>,
    pub moves: Seq<Move>,
    /// The tick and the round of the node.
    pub ticks: Tick,
    pub round: u64,
    /// At a flush the last lease index that is given; the inbox is then emptied.
    pub last: Option<LeaseIndex>,
    /// How many items go back to the inbox at most.
    pub back: usize,
    pub outcomes: Outcomes,
}

/// What an event will do. To drop it changes nothing.
#[derive(Drop)]
pub enum ReplicaPlan {
    /// Nothing changes.
    Answers { answer: EventAnswer },
    /// The proposal takes its latches and waits.
    Admits { proposal: Boxed<Proposal> },
    /// The ask is to be put in the buffer, and stands among those that a collect lets through.
    Asks { ask: LeaseAsk },
    /// What the buffer gave, at most 16 items, which are handed in last.
    Collects { taken: Items },
    /// The next committed entry is applied.
    Applies { application: Application },
    /// A flush, a tick or a message: an event of Raft with payloads behind it.
    HandsOver { hand: HandOver },
    /// The log is cut.
    Cuts { raft: Boxed<RaftPlan<Snapshot>> },
    /// All that is pending ends, and the replica is taken down.
    Removes { outcomes: Outcomes },
    /// All that is pending ends, and the replica starts again.
    Restarts { outcomes: Outcomes },
}

impl ReplicaPlan {
    /// How many messages and how many outcomes `commit` will hand out.
    pub fn sizes(&self) -> (usize, usize)
        ensures messages { (r : Replica) → result.0 ≡ length (planned r self.now).messages }
        ensures outcomes { (r : Replica) → result.1 ≡ length (planned r self.now).outcomes }
    {
        match self {
            ReplicaPlan::Answers { .. }
            | ReplicaPlan::Admits { .. }
            | ReplicaPlan::Asks { .. }
            | ReplicaPlan::Collects { .. } => (0, 0),
            ReplicaPlan::Applies { application } => (0, application.outcomes.len()),
            ReplicaPlan::HandsOver { hand } => (hand.raft.get().sends(), hand.outcomes.len()),
            ReplicaPlan::Cuts { raft } => (raft.get().sends(), 0),
            ReplicaPlan::Removes { outcomes } => (0, outcomes.len()),
            ReplicaPlan::Restarts { outcomes } => (0, outcomes.len()),
        }
    }

    /// Hands out what the right range starts with, where the event takes a split, so that the node
    /// makes that replica before `commit`. All else that the plan does stays.
    pub fn take_right(&mut self) -> Option<RightStart>
        ensures right { result ≡ right_in self.old }
        ensures plan { self.new ≡ without_right self.old }
        ensures does { (r : Replica) → planned r self.new ≡ planned r self.old }
        ensures makes { (r : Replica) (d : Done) → Makes r self.old d → Makes r self.new d }
        ensures fits { (r : Replica) → PlanFits r self.old → PlanFits r self.new }
        ensures room { (room : Room) → HasRoom room self.old → HasRoom room self.new }
    {
        match self {
            ReplicaPlan::Applies { application } => {
                application.right.take().map(Boxed::into_inner)
            }
            _ => None,
        }
    }

    /// Hands in what the buffer gave, at most 16 items, before `commit` and once all room is made.
    /// The plan is a collect's. It takes no memory.
    pub fn put_taken(&mut self, taken: Items)
        requires collect { IsCollect self.old }
        requires few { length taken.list ≤ 16 }
        ensures plan { self.new ≡ Collects taken }
        ensures makes { (r : Replica) (ticks : ℕ) (round : ℕ)
            → Makes r self.new (event r Collect ticks round taken.list) }
        ensures room { (room : Room) → HasRoom room self.old → HasRoom room self.new }
    {
        *self = ReplicaPlan::Collects { taken };
    }
}
