//! Events of one replica in brief: what a node makes of most of its own events. The events
//! themselves are as large as a request.
ghost use Rattle.std.specs.Prelude.{◌≡◌, ◌≤◌, [], IfOk, OnErr};
ghost use Rattle.rp_events.specs.MaySteps.{SeatAllows};
ghost use Rattle.rp_events.specs.NodeEvents.{by_replica};
ghost use Rattle.rp_events.specs.Nodes.{seat, written};
ghost use Rattle.rp_node.specs.Briefs.{event_in_full, past_in_full};
ghost use Rattle.rp_node.specs.Cores.{node_of};
ghost use Rattle.rp_node.specs.Plans.{answered};

use crate::cores::Core;
use rp_base::{Key, NoMemory, NodeId, RangeId};
use rp_events::{EventAnswer, PastEvent, ReplicaEvent};
use rp_snapshot::Snapshot;

/// What happens at one replica, where neither a request nor a message comes with it, and the replica
/// stays.
#[derive(Clone, Copy)]
pub(crate) enum Brief {
    Ask,
    Transfer { to: NodeId },
    Apply,
    Cut,
    Peek { key: Key },
}

impl Brief {
    /// The replica's event.
    fn event(&self) -> ReplicaEvent<Snapshot>
        ensures { result ≡ event_in_full self.now }
    {
        match *self {
            Brief::Ask => ReplicaEvent::Ask,
            Brief::Transfer { to } => ReplicaEvent::Transfer { to },
            Brief::Apply => ReplicaEvent::Apply,
            Brief::Cut => ReplicaEvent::Cut,
            Brief::Peek { key } => ReplicaEvent::Peek { key },
        }
    }

    /// The event as the node's journal keeps it.
    fn past(&self, range: RangeId) -> PastEvent
        ensures { result ≡ past_in_full range self.now }
    {
        match *self {
            Brief::Ask => PastEvent::Ask { range },
            Brief::Transfer { to } => PastEvent::Transfer { range, to },
            Brief::Apply => PastEvent::Apply { range },
            Brief::Cut => PastEvent::Cut { range },
            Brief::Peek { key } => PastEvent::Peek { range, key },
        }
    }
}

impl Core {
    /// Such an event of the range's replica. At want of memory nothing happens.
    #[inline(never)]
    #[tactic(auto, using(crate::proofs::Briefly::stays_live))]
    pub(crate) fn happen_briefly(
        &mut self,
        range: RangeId,
        brief: Brief,
    ) -> Result<EventAnswer, NoMemory>
        requires nodes { self.old.nodes ≤ 5 }
        requires allowed { SeatAllows (seat (node_of self.old) range) (event_in_full brief)
            self.old.ticks }
        ensures ok { IfOk result (λ answer. answered (node_of self.new) answer
            ≡ written (past_in_full range brief)
            (by_replica (node_of self.old) range (event_in_full brief) [])) }
        ensures err { OnErr result (node_of self.new ≡ node_of self.old) }
    {
        self.happen(range, brief.event(), brief.past(range))
    }
}
