//! A flush at a node. Where the inbox is empty and the replica does not lead, there is nothing to hand
//! to Raft: it stands in the journal alone.
ghost use Rattle.std.specs.Prelude.{◌≡◌, ◌≤◌, IfOk, IsTrue, OnErr, []};
ghost use Rattle.rp_events.specs.MaySteps.{SeatAllows};
ghost use Rattle.rp_events.specs.NodeEvents.{by_replica};
ghost use Rattle.rp_events.specs.Nodes.{Live, seat, written};
ghost use Rattle.rp_events.specs.declared.journals.PastEvent.TheVariants as past;
ghost use Rattle.rp_events.specs.declared.replica_events.ReplicaEvent.TheVariants as at_replica;
ghost use Rattle.rp_node.specs.Cores.{node_of, status_of};
ghost use Rattle.rp_node.specs.Idles.{IsIdle};
ghost use Rattle.rp_node.specs.Plans.{answered};

use crate::cores::Core;
use crate::seats::Seat;
use rp_base::{NoMemory, RangeId};
use rp_events::{EventAnswer, PastEvent, ReplicaEvent};
use rp_replica::Replica;

/// Whether a replica does not lead and has nothing in its inbox.
fn is_idle(replica: &Replica) -> bool
    ensures { IsTrue result → IsIdle (Live replica.now.replica) }
{
    replica.inbox().is_empty() && !replica.raft().is_leader()
}

impl Seat {
    /// Whether a replica stands here at which a flush has nothing to do.
    fn is_idle(&self) -> bool
        ensures { IsTrue result → IsIdle (status_of self.now) }
    {
        match self {
            Seat::Live { replica } => is_idle(replica),
            Seat::Absent | Seat::Removed { .. } => false,
        }
    }
}

impl Core {
    /// A flush that has nothing to do stands in the journal. At want of memory nothing happens.
    fn flush_nothing(&mut self, range: RangeId) -> Result<EventAnswer, NoMemory>
        requires { IsIdle (seat (node_of self.old) range) }
        ensures ok { IfOk result (λ answer. answered (node_of self.new) answer
            ≡ written (past.Flush range) (by_replica (node_of self.old) range at_replica.Flush [])) }
        ensures err { OnErr result (node_of self.new ≡ node_of self.old) }
    {
        self.logs.make_room(0, 0)?;
        let answer = EventAnswer::Done;
        self.logs.write(PastEvent::Flush { range }, &answer);
        Ok(answer)
    }

    /// The inbox of the range's replica goes to Raft. At want of memory nothing happens.
    #[inline(never)]
    pub(crate) fn flush(&mut self, range: RangeId) -> Result<EventAnswer, NoMemory>
        requires nodes { self.old.nodes ≤ 5 }
        requires allowed { SeatAllows (seat (node_of self.old) range) at_replica.Flush self.old.ticks }
        ensures ok { IfOk result (λ answer. answered (node_of self.new) answer
            ≡ written (past.Flush range) (by_replica (node_of self.old) range at_replica.Flush [])) }
        ensures err { OnErr result (node_of self.new ≡ node_of self.old) }
    {
        if self.seats[usize::from(range.get())].is_idle() {
            return self.flush_nothing(range);
        }
        self.happen(range, ReplicaEvent::Flush, PastEvent::Flush { range })
    }
}
