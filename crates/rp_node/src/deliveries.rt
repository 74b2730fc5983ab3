//! A message comes at a node.
ghost use Rattle.std.specs.Prelude.{◌≡◌, ◌≤◌, ◌++◌, IfOk, OnErr, OnOk};
ghost use Rattle.std.specs.Option.{option_to_list};
ghost use Rattle.rp_raftstep.specs.Conditions.{MessageFits};
ghost use Rattle.rp_raftstep.specs.Step.{absent_answer};
ghost use Rattle.rp_events.specs.MaySteps.{MayCome};
ghost use Rattle.rp_events.specs.NodeEvents.{answered_absent, delivered, done, seat_by_message};
ghost use Rattle.rp_events.specs.Nodes.{parcels, seat, written};
ghost use Rattle.rp_events.specs.declared.journals.PastEvent.TheVariants as past;
ghost use Rattle.rp_node.specs.Cores.{node_of, status_of};
ghost use Rattle.rp_node.specs.Plans.{answered};

use crate::cores::Core;
use crate::logs::Sent;
use crate::seats::Seat;
use rp_base::{NoMemory, NodeId, RangeId};
use rp_events::{EventAnswer, Parcel, PastEvent, ReplicaEvent};
use rp_raftstep::Message;
use rp_replica::Replica;
use rp_snapshot::Snapshot;

/// What a node that has nothing of the range answers: an Append finds no log, and a snapshot is
/// taken in.
fn absent_answer(from: NodeId, message: &Message<Snapshot>) -> Option<(NodeId, Message<Snapshot>)>
    ensures { option_to_list result ≡ absent_answer from message.now }
{
    let (term, ok, index) = match message {
        Message::Append { term, .. } => (*term, false, 0),
        Message::Snap { term, index, .. } => (*term, true, *index),
        Message::Vote { .. }
        | Message::VoteReply { .. }
        | Message::AppendReply { .. }
        | Message::Forward { .. } => return None,
    };
    Some((from, Message::AppendReply { term, ok, index }))
}

/// Sends an answer, where there is one. It takes no memory.
fn send(sent: &mut Sent, range: RangeId, answer: Option<(NodeId, Message<Snapshot>)>)
    requires { 1 ≤ sent.old.spare }
    ensures { sent.new.list ≡ sent.old.list ++ parcels range (option_to_list answer) }
{
    if let Some((to, message)) = answer {
        sent.push(Parcel { to, range, message });
    }
}

impl Core {
    /// What a message makes of a seat that has nothing: a snapshot makes a replica. It takes no
    /// memory.
    fn seat_by_message(&self, from: NodeId, message: Message<Snapshot>) -> Seat
        requires nodes { self.now.nodes ≤ 5 }
        requires fits { MessageFits message }
        ensures { status_of result ≡ seat_by_message (node_of self.now) from message }
    {
        let Message::Snap {
            term,
            index,
            index_term,
            snapshot,
        } = message
        else {
            return Seat::Absent;
        };
        let base = (index, index_term);
        let (alloc, node, nodes) = (self.alloc, self.node, self.nodes);
        let replica = Replica::from_snap(alloc, node, nodes, term, from, base, snapshot);
        Seat::Live { replica }
    }

    /// A message comes where the node has nothing of the range. It takes no memory.
    #[cold]
    fn receive_absent(&mut self, from: NodeId, range: RangeId, message: Message<Snapshot>)
        requires nodes { self.old.nodes ≤ 5 }
        requires fits { MessageFits message }
        requires room { 1 ≤ self.old.logs.sent.spare }
        ensures node { node_of self.new ≡ answered_absent (node_of self.old) range from message }
        ensures journal { self.new.logs.journal ≡ self.old.logs.journal }
    {
        let answer = absent_answer(from, &message);
        let seat = self.seat_by_message(from, message);
        self.seats[usize::from(range.get())] = seat;
        send(&mut self.logs.sent, range, answer);
    }

    /// A message comes at the seat of its range. At want of memory nothing happens.
    fn receive(
        &mut self,
        from: NodeId,
        range: RangeId,
        message: Message<Snapshot>,
    ) -> Result<(), NoMemory>
        requires nodes { self.old.nodes ≤ 5 }
        requires may { MayCome (node_of self.old) from range message }
        ensures ok { OnOk result (node_of self.new
            ≡ delivered (node_of self.old) from range message (seat (node_of self.old) range)) }
        ensures room { OnOk result (1 ≤ self.new.logs.journal.spare) }
        ensures err { OnErr result (node_of self.new ≡ node_of self.old) }
    {
        if self.seats[usize::from(range.get())].is_absent() {
            self.logs.make_room(1, 0)?;
            self.receive_absent(from, range, message);
            return Ok(());
        }
        let plan = self.prepare(range, ReplicaEvent::Deliver { from, message })?;
        self.turn(range, plan);
        Ok(())
    }

    /// A message comes at the seat of its range: an answer behind which nothing is sent at once, and
    /// any other by a plan. At want of memory nothing happens.
    fn take_message(
        &mut self,
        from: NodeId,
        range: RangeId,
        message: Message<Snapshot>,
    ) -> Result<(), NoMemory>
        requires nodes { self.old.nodes ≤ 5 }
        requires may { MayCome (node_of self.old) from range message }
        ensures ok { OnOk result (node_of self.new
            ≡ delivered (node_of self.old) from range message (seat (node_of self.old) range)) }
        ensures room { OnOk result (1 ≤ self.new.logs.journal.spare) }
        ensures err { OnErr result (node_of self.new ≡ node_of self.old) }
    {
        if self.hears(from, range, &message)? {
            return Ok(());
        }
        self.receive(from, range, message)
    }

    /// The message that the sender sent under this number comes. At want of memory nothing happens.
    #[inline(never)]
    pub(crate) fn deliver(
        &mut self,
        from: NodeId,
        range: RangeId,
        number: u64,
        message: Message<Snapshot>,
    ) -> Result<EventAnswer, NoMemory>
        requires nodes { self.old.nodes ≤ 5 }
        requires may { MayCome (node_of self.old) from range message }
        ensures ok { IfOk result (λ answer. answered (node_of self.new) answer
            ≡ written (past.Deliver from number) (done (delivered (node_of self.old) from range
            message (seat (node_of self.old) range)))) }
        ensures err { OnErr result (node_of self.new ≡ node_of self.old) }
    {
        self.take_message(from, range, message)?;
        let answer = EventAnswer::Done;
        self.logs
            .write(PastEvent::Deliver { from, number }, &answer);
        Ok(answer)
    }
}
