//! What a node keeps of all that happened to it. These lists only grow.
ghost use Rattle.std.specs.Prelude.{◌≡◌, ◌+◌, ◌≤◌, ◌++◌, ◌∷◌, [], length, OnOk};
ghost use Rattle.rp_events.specs.Nodes.{parcels};
ghost use Rattle.rp_node.specs.Cores.{AreAlike, HasSpare};

use crate::journals::Journal;
use rp_base::{Grown, NoMemory, NodeId, RangeId, Seq};
use rp_events::{Ended, EventAnswer, Parcel, PastEvent};
use rp_raftstep::Message;
use rp_request::Request;
use rp_snapshot::Snapshot;

/// All that a node has sent, in order; the first one has the number 1.
pub type Sent = Grown<Parcel<Snapshot>>;

/// The requests that were to be admitted, in order.
pub type Requests = Grown<Request>;

/// How admitted attempts ended, in order.
pub type Outcomes = Grown<Ended>;

/// The lists of a node.
#[derive(Drop)]
pub struct Logs {
    pub(crate) sent: Sent,
    pub(crate) journal: Journal,
    pub(crate) requests: Requests,
    pub(crate) outcomes: Outcomes,
}

/// Puts messages of a range at the end. It takes no memory.
fn push_parcels(sent: &mut Sent, range: RangeId, messages: Seq<(NodeId, Message<Snapshot>)>)
    requires { length messages ≤ sent.old.spare }
    ensures list { sent.new.list ≡ sent.old.list ++ parcels range messages }
    ensures spare { sent.old.spare ≤ sent.new.spare + length messages }
{
    for (to, message) in messages.into_vec() {
        sent.push(Parcel { to, range, message });
    }
}

impl Logs {
    /// Makes room for so many messages and outcomes, an event and a request.
    pub(crate) fn make_room(&mut self, sends: usize, ends: usize) -> Result<(), NoMemory>
        ensures lists { AreAlike self.old self.new }
        ensures room { OnOk result (HasSpare self.new sends ends) }
    {
        self.journal.make_room(1)?;
        self.requests.make_room(1)?;
        self.sent.make_room(sends)?;
        self.outcomes.make_room(ends)
    }

    /// What an event of a range's replica hands out is kept. It takes no memory.
    pub(crate) fn keep(
        &mut self,
        range: RangeId,
        messages: Seq<(NodeId, Message<Snapshot>)>,
        outcomes: Seq<Ended>,
    )
        requires sent { length messages ≤ self.old.sent.spare }
        requires outcomes { length outcomes ≤ self.old.outcomes.spare }
        ensures sent { self.new.sent.list ≡ self.old.sent.list ++ parcels range messages }
        ensures outcomes { self.new.outcomes.list ≡ self.old.outcomes.list ++ outcomes }
        ensures journal { self.new.journal ≡ self.old.journal }
        ensures requests { self.new.requests ≡ self.old.requests }
        ensures sent_spare { self.old.sent.spare ≤ self.new.sent.spare + length messages }
        ensures outcomes_spare { self.old.outcomes.spare
            ≤ self.new.outcomes.spare + length outcomes }
    {
        push_parcels(&mut self.sent, range, messages);
        self.outcomes.append(outcomes);
    }

    /// An event and its answer stand in the journal. It takes no memory.
    pub(crate) fn write(&mut self, event: PastEvent, answer: &EventAnswer)
        requires { 1 ≤ self.old.journal.spare }
        ensures journal { self.new.journal.list
            ≡ self.old.journal.list ++ record { event = event; answer = answer.now } ∷ [] }
        ensures sent { self.new.sent ≡ self.old.sent }
        ensures outcomes { self.new.outcomes ≡ self.old.outcomes }
        ensures requests { self.new.requests ≡ self.old.requests }
    {
        self.journal.push(event, answer);
    }
}
