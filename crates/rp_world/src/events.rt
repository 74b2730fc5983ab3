//! Events of a world, counted and weighed.
ghost use Rattle.std.specs.Prelude.{◌≡◌, ◌≤◌, ◌==◌, false, length, Some, IfOk, OnOk, OnErr};
ghost use Rattle.rp_book.specs.Books.{booking_of, told_of};
ghost use Rattle.rp_events.specs.declared.world_events.WorldEvent.TheVariants as events;
ghost use Rattle.rp_events.specs.Lawful.{IsReached};
ghost use Rattle.rp_lawful.specs.Comings.{Comes, IsPlain, node_in};
ghost use Rattle.rp_script.specs.Bounds.{IsNode};
ghost use Rattle.rp_lines.specs.Commands.{asks, buffer_at};
ghost use Rattle.rp_lines.specs.Players.{did, last_answer, most_events, weighed, with_booking};
ghost use Rattle.rp_told.specs.Outcomes.{first_outcome};
ghost use Rattle.rp_world.specs.Comes.{IsNoAdmission, answer_in, is_peek, is_value};
ghost use Rattle.rp_world.specs.Keeping.{told_after};
ghost use Rattle.rp_base.specs.declared.ids.CmdId.{CmdId};
ghost use Rattle.rp_world.specs.Going.{AsMany, Going};
ghost use Rattle.rp_world.specs.Plays.{Does, admission, happened, one_event_more, place_in, unspent};

use crate::faults::PlayFault;
use crate::scenes::{behind, node_of};
use crate::worlds::World;
use rp_base::{CmdId, Item, NoMemory, NodeId, RangeId, Which};
use rp_book::{Book, Booked};
use rp_events::{Ended, EventAnswer, WorldEvent};
use rp_request::Outcome;

/// How many events may come.
const MOST_EVENTS: u64 = 4_194_304;

/// What all messages may weigh.
const MOST_WEIGHT: u64 = 2_097_152;

/// What ended is told to the book.
fn tell_all(book: &mut Book, ends: &[Ended])
    ensures entries { book.new.entries ≡ book.old.entries }
    ensures told { (id : CmdId) → told_of id book.new.told
        ≡ told_after ends.now id (told_of id book.old.told) }
    ensures spare { book.old.spare ≤ book.new.spare }
{
    for ended in ends {
        book.tell(ended.id, ended.outcome);
    }
}

impl World {
    /// The limit of events is met where as many as may come have come.
    pub(crate) fn unspent(&self) -> Result<(), PlayFault>
        ensures { Does result self.now (unspent self.now) }
    {
        if self.events == MOST_EVENTS {
            return Err(PlayFault::Limit {
                which: Which::Events,
                count: MOST_EVENTS,
            });
        }
        Ok(())
    }

    /// The limit of weight is met where all messages weigh more than they may.
    pub(crate) fn weighed(&self) -> Result<(), PlayFault>
        ensures { Does result self.now (weighed self.now) }
    {
        let count = self.stage.weight();
        if count > MOST_WEIGHT {
            return Err(PlayFault::Limit {
                which: Which::Weight,
                count,
            });
        }
        Ok(())
    }

    /// One more event is counted.
    pub(crate) fn count(&mut self)
        requires { (self.old.events == most_events) ≡ false }
        ensures { self.new ≡ one_event_more self.old }
    {
        self.events += 1;
    }

    /// An event of a node that asks for no admission happens, and what it ended is told to the book.
    /// At want of memory nothing happens.
    #[inline(never)]
    pub(crate) fn happen(&mut self, event: &WorldEvent) -> Result<EventAnswer, NoMemory>
        requires reached { IsReached (length self.old.world.nodes) self.old.world.nodes }
        requires comes { Comes self.old.world event.now }
        requires no_admission { IsNoAdmission event.now }
        ensures ok { OnOk result (self.new ≡ happened event.now self.old) }
        ensures answer { IfOk result (λ answer. answer
            ≡ answer_in self.new.world.nodes (node_in event.now)) }
        ensures value { is_peek event.now ≡ false
            → IfOk result (λ answer. is_value answer ≡ false) }
        ensures err { OnErr result (self.new ≡ self.old) }
    {
        let node = node_of(event);
        let before = self.stage.ended(node).len();
        let answer = self.stage.step(event)?;
        tell_all(&mut self.book, behind(self.stage.ended(node), before));
        Ok(answer)
    }

    /// An event of a node that asks for no admission.
    pub(crate) fn event(&mut self, event: &WorldEvent) -> Result<EventAnswer, PlayFault>
        requires going { Going self.old }
        requires comes { Comes self.old.world event.now }
        requires no_admission { IsNoAdmission event.now }
        ensures does { Does result self.new (did event.now self.old) }
        ensures answer { IfOk result (λ answer. answer
            ≡ last_answer self.new (node_in event.now)) }
        ensures value { is_peek event.now ≡ false
            → IfOk result (λ answer. is_value answer ≡ false) }
        // An event that a script may always make leaves a player that goes on.
        ensures going { IsPlain (length self.old.world.nodes) event.now
            → OnOk result (Going self.new) }
        ensures nodes { OnOk result (AsMany self.old self.new) }
    {
        self.unspent()?;
        let answer = self.happen(event)?;
        self.count();
        self.weighed()?;
        Ok(answer)
    }

    /// An attempt that was not asked before asks to be admitted, and stands in the book. At want of
    /// memory nothing happens.
    #[inline(never)]
    pub(crate) fn admit(&mut self, id: CmdId, booked: &Booked) -> Result<EventAnswer, NoMemory>
        requires reached { IsReached (length self.old.world.nodes) self.old.world.nodes }
        requires comes { Comes self.old.world (admission id booked.now) }
        ensures ok { OnOk result (self.new
            ≡ happened (admission id booked.now) (with_booking id booked.now self.old)) }
        ensures answer { IfOk result (λ answer. answer
            ≡ answer_in self.new.world.nodes booked.now.node) }
        ensures err { OnErr result (self.new ≡ self.old) }
    {
        self.book.make_room(1)?;
        let answer = self.stage.step(&admission(id, booked))?;
        self.book.put(id, *booked);
        self.book.tell(id, first_outcome(&answer));
        Ok(answer)
    }

    /// An attempt that was not asked before asks to be admitted, and stands in the book.
    pub(crate) fn ask(&mut self, id: CmdId, booked: &Booked) -> Result<EventAnswer, PlayFault>
        requires reached { IsReached (length self.old.world.nodes) self.old.world.nodes }
        requires comes { Comes self.old.world (admission id booked.now) }
        ensures does { Does result self.new (asks id booked.now self.old) }
        ensures answer { IfOk result (λ answer. answer ≡ last_answer self.new booked.now.node) }
        ensures booked { OnOk result (booking_of id self.new.book ≡ Some booked.now) }
        ensures nodes { OnOk result (AsMany self.old self.new) }
    {
        self.unspent()?;
        let answer = self.admit(id, booked)?;
        self.count();
        self.weighed()?;
        Ok(answer)
    }

    /// A place is drawn in the buffer of a node and a range, where there is one; that is counted.
    pub(crate) fn draw(&mut self, node: NodeId, range: RangeId) -> Result<Option<u8>, PlayFault>
        requires { IsNode (length self.old.world.nodes) node }
        ensures does { Does result self.new (did (events.Draw node range) self.old) }
        ensures place { IfOk result (λ place. place ≡ place_in (buffer_at self.old node range)) }
        ensures book { self.new.book ≡ self.old.book }
        ensures nodes { self.new.world.nodes ≡ self.old.world.nodes }
    {
        self.unspent()?;
        let place = self.stage.draw(node, range).ok();
        self.count();
        self.weighed()?;
        Ok(place)
    }

    /// An item is published at a place in the buffer of a node and a range.
    pub(crate) fn publish(
        &mut self,
        node: NodeId,
        range: RangeId,
        place: u8,
        item: Item,
    ) -> Result<(), PlayFault>
        requires { IsNode (length self.old.world.nodes) node }
        ensures does { Does result self.new
            (did (events.Publish node range place item) self.old) }
        ensures book { self.new.book ≡ self.old.book }
        ensures nodes { self.new.world.nodes ≡ self.old.world.nodes }
    {
        self.unspent()?;
        let _published = self.stage.publish(node, range, place, item);
        self.count();
        self.weighed()
    }
}

/// What the answer to its admission tells of an attempt.
fn first_outcome(answer: &EventAnswer) -> Outcome
    ensures { result ≡ first_outcome answer.now }
{
    match answer {
        EventAnswer::Refused(refusal) => Outcome::Refused(*refusal),
        _ => Outcome::Pending,
    }
}

/// An attempt's admission as an event.
fn admission(id: CmdId, booked: &Booked) -> WorldEvent
    ensures { result ≡ admission id booked.now }
{
    WorldEvent::Admit {
        node: booked.node,
        range: booked.range,
        id,
        request: booked.request,
    }
}
