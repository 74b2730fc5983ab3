//! Events of a node, each at one of its replicas.
ghost use Rattle.std.specs.Prelude.{◌≡◌, ◌+◌, ◌<◌, ◌≤◌, ◌^◌, [], IfOk, OnErr, length};
ghost use Rattle.rp_events.specs.NodeEvents.{by_replica, with_request};
ghost use Rattle.rp_events.specs.Nodes.{seat, written};
ghost use Rattle.rp_events.specs.declared.journals.PastEvent.TheVariants as past;
ghost use Rattle.rp_events.specs.declared.replica_events.ReplicaEvent.TheVariants as at_replica;
ghost use Rattle.rp_node.specs.Cores.{node_of};
ghost use Rattle.rp_events.specs.MaySteps.{SeatAllows};
ghost use Rattle.rp_node.specs.Plans.{StaysLive, answered, taken_down_in};

use crate::cores::Core;
use rp_base::{CmdId, NoMemory, RangeId};
use rp_events::{EventAnswer, PastEvent, ReplicaEvent};
use rp_request::Request;
use rp_snapshot::Snapshot;

impl Core {
    /// An event of the range's replica, which stays live. At want of memory nothing happens.
    pub(crate) fn happen(
        &mut self,
        range: RangeId,
        happens: ReplicaEvent<Snapshot>,
        past: PastEvent,
    ) -> Result<EventAnswer, NoMemory>
        requires nodes { self.old.nodes ≤ 5 }
        requires live { StaysLive happens }
        requires allowed { SeatAllows (seat (node_of self.old) range) happens self.old.ticks }
        ensures ok { IfOk result (λ answer. answered (node_of self.new) answer
            ≡ written past (by_replica (node_of self.old) range happens [])) }
        ensures err { OnErr result (node_of self.new ≡ node_of self.old) }
    {
        let plan = self.prepare(range, happens)?;
        let answer = self.turn(range, plan);
        self.logs.write(past, &answer);
        Ok(answer)
    }

    /// A client's attempt asks to be admitted; its request is kept. At want of memory nothing
    /// happens.
    #[inline(never)]
    pub(crate) fn admit(
        &mut self,
        range: RangeId,
        id: CmdId,
        request: &Request,
    ) -> Result<EventAnswer, NoMemory>
        requires nodes { self.old.nodes ≤ 5 }
        requires allowed { SeatAllows (seat (node_of self.old) range)
            (at_replica.Admit id request.now) self.old.ticks }
        ensures ok { IfOk result (λ answer. answered (node_of self.new) answer
            ≡ written (past.Admit range id (length self.old.logs.requests.list))
            (by_replica (with_request (node_of self.old) request.now) range
            (at_replica.Admit id request.now) [])) }
        ensures err { OnErr result (node_of self.new ≡ node_of self.old) }
    {
        let admit = ReplicaEvent::Admit {
            id,
            request: *request,
        };
        let plan = self.prepare(range, admit)?;
        let place = self.logs.requests.len() as u64;
        self.logs.requests.push(*request);
        let answer = self.turn(range, plan);
        self.logs
            .write(PastEvent::Admit { range, id, place }, &answer);
        Ok(answer)
    }

    /// The range's replica is taken down, and leaves a tombstone. At want of memory nothing happens.
    #[cold]
    pub(crate) fn remove(&mut self, range: RangeId) -> Result<EventAnswer, NoMemory>
        requires nodes { self.old.nodes ≤ 5 }
        ensures ok { IfOk result (λ answer. answered (node_of self.new) answer
            ≡ written (past.Remove range) (by_replica (node_of self.old) range at_replica.Remove [])) }
        ensures err { OnErr result (node_of self.new ≡ node_of self.old) }
    {
        let plan = self.prepare(range, ReplicaEvent::Remove)?;
        let answer = self.turn(range, plan);
        self.take_down(range);
        self.logs.write(PastEvent::Remove { range }, &answer);
        Ok(answer)
    }

    /// A replica becomes a tombstone. It takes no memory.
    #[cold]
    fn take_down(&mut self, range: RangeId)
        ensures node { node_of self.new ≡ taken_down_in (node_of self.old) range }
        ensures logs { self.new.logs ≡ self.old.logs }
    {
        self.seats[usize::from(range.get())].take_down();
    }
}
