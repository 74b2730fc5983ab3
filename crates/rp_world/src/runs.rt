//! Single events, where they are lawful.
ghost use Rattle.std.specs.Prelude.{◌≡◌, ◌≤◌, ℕ, true, take, length, OnOk, OnErr};
ghost use Rattle.rp_events.specs.Buffered.{buffered_run};
ghost use Rattle.rp_lines.specs.Players.{with_booking};
ghost use Rattle.rp_events.specs.Lawful.{IsReached, is_sent_to, may_begin, was_refused};
ghost use Rattle.rp_events.specs.Worlds.{was_asked};
ghost use Rattle.rp_events.specs.declared.world_events.WorldEvent.TheVariants as events;
ghost use Rattle.rp_request.specs.Requests.{same_request};
ghost use Rattle.rp_lawful.specs.Comings.{Comes};
ghost use Rattle.rp_world.specs.Comes.{IsNoAdmission};
ghost use Rattle.rp_world.specs.Plays.{admission, happened};
ghost use Rattle.rp_world.specs.Runs.{IsAtNode, has_room, is_allowed_in, is_lawful_in, ran, ran_all, was_refused_for};

use crate::commands::booking;
use crate::scenes::node_of;
use crate::widths::event_fits;
use crate::worlds::World;
use rp_base::{CmdId, Item, NoMemory, NodeId, RangeId};
use rp_book::Booked;
use rp_events::WorldEvent;
use rp_request::{Outcome, Request};

/// They are the same request.
fn is_same(first: &Request, second: &Request) -> bool
    ensures { result ≡ same_request first.now second.now }
{
    first == second
}

impl World {
    /// How many nodes there are.
    fn size(&self) -> usize
        ensures { result ≡ length self.now.world.nodes }
    {
        self.stage.nodes().len()
    }

    /// The world has this node, and its journal is not full.
    fn has_room(&self, node: NodeId) -> bool
        ensures { result ≡ has_room self.now.world.nodes node }
    {
        match self.stage.nodes().get(node) {
            Some(node) => !node.is_full(),
            None => false,
        }
    }

    /// The attempt was asked.
    fn was_asked(&self, id: CmdId) -> bool
        ensures { result ≡ was_asked self.now.world.nodes id }
    {
        self.book.get(id).is_some()
    }

    /// The attempt was refused.
    fn was_refused(&self, id: CmdId) -> bool
        ensures { result ≡ was_refused self.now.world.nodes id }
    {
        match self.book.outcome(id) {
            Some(Outcome::Refused(_)) => true,
            Some(Outcome::Success(_) | Outcome::Ambiguous(_) | Outcome::Pending) | None => false,
        }
    }

    /// The attempt was refused, and asked for this request.
    fn was_refused_for(&self, id: CmdId, request: &Request) -> bool
        ensures { result ≡ was_refused_for self.now.world.nodes id request.now }
    {
        match self.book.get(id) {
            Some(booked) => self.was_refused(id) && is_same(request, &booked.request),
            None => false,
        }
    }

    /// An attempt may ask: it was not asked, and is the first of its command, or the one before it
    /// was for the same request and was refused.
    fn may_begin(&self, id: CmdId, request: &Request) -> bool
        ensures { result ≡ may_begin self.now.world.nodes id request.now }
    {
        if self.was_asked(id) || id.attempt == 0 {
            return false;
        }
        if id.attempt == 1 {
            return true;
        }
        let previous = CmdId {
            attempt: id.attempt - 1,
            ..id
        };
        self.was_refused_for(previous, request)
    }

    /// The message was sent, to this node.
    fn is_sent_to(&self, node: NodeId, from: NodeId, number: u64) -> bool
        ensures { result ≡ is_sent_to self.now.world.nodes node from number }
    {
        if number == 0 {
            return false;
        }
        match self.receiver(from, number) {
            Some(to) => to == node,
            None => false,
        }
    }

    /// What happens at the node is allowed there.
    fn is_allowed(&self, event: &WorldEvent) -> bool
        ensures { result ≡ is_allowed_in self.now.world event.now }
    {
        self.stage.few_given();
        match event {
            WorldEvent::Admit { id, request, .. } => self.may_begin(*id, request),
            WorldEvent::Transfer { to, .. } => usize::from(to.get()) <= self.size(),
            WorldEvent::Deliver { node, from, number } => self.is_sent_to(*node, *from, *number),
            WorldEvent::Collect { .. }
            | WorldEvent::Ask { .. }
            | WorldEvent::Flush { .. }
            | WorldEvent::Tick { .. }
            | WorldEvent::Apply { .. }
            | WorldEvent::Cut { .. }
            | WorldEvent::Remove { .. }
            | WorldEvent::Peek { .. }
            | WorldEvent::Restart { .. }
            | WorldEvent::Round { .. } => true,
            WorldEvent::Draw { .. } | WorldEvent::Publish { .. } => false,
        }
    }

    /// What happens at the node is lawful there.
    #[tactic(auto, using(crate::proofs::Running::lawful_parts))]
    fn is_lawful(&self, event: &WorldEvent) -> bool
        ensures { result ≡ is_lawful_in self.now.world event.now }
    {
        self.has_room(node_of(event)) && self.is_allowed(event)
    }

    /// A lawful admission happens. At want of memory nothing happens.
    fn run_admission(&mut self, id: CmdId, booked: &Booked) -> Result<(), NoMemory>
        requires reached { IsReached (length self.old.world.nodes) self.old.world.nodes }
        requires comes { Comes self.old.world (admission id booked.now) }
        ensures ok { OnOk result (self.new
            ≡ happened (admission id booked.now) (with_booking id booked.now self.old)) }
        ensures err { OnErr result (self.new ≡ self.old) }
    {
        match self.admit(id, booked) {
            Ok(_answer) => Ok(()),
            Err(refused) => Err(refused),
        }
    }

    /// Another lawful event of a node happens. At want of memory nothing happens.
    fn run_other(&mut self, event: &WorldEvent) -> Result<(), NoMemory>
        requires reached { IsReached (length self.old.world.nodes) self.old.world.nodes }
        requires comes { Comes self.old.world event.now }
        requires no_admission { IsNoAdmission event.now }
        ensures ok { OnOk result (self.new ≡ happened event.now self.old) }
        ensures err { OnErr result (self.new ≡ self.old) }
    {
        match self.happen(event) {
            Ok(_answer) => Ok(()),
            Err(refused) => Err(refused),
        }
    }

    /// What is lawful at its node happens. At want of memory nothing happens.
    fn run_lawful(&mut self, event: &WorldEvent) -> Result<(), NoMemory>
        requires reached { IsReached (length self.old.world.nodes) self.old.world.nodes }
        requires lawful { is_lawful_in self.old.world event.now ≡ true }
        ensures ok { OnOk result (self.new ≡ ran event.now self.old) }
        ensures err { OnErr result (self.new ≡ self.old) }
    {
        event_fits(event);
        match event {
            WorldEvent::Admit {
                node,
                range,
                id,
                request,
            } => self.run_admission(*id, &booking(request, *node, *range)),
            _ => self.run_other(event),
        }
    }

    /// An event of a node happens where it is lawful. At want of memory nothing happens.
    #[tactic(auto, using(crate::proofs::Running::unlawful_ran))]
    fn run_at_node(&mut self, event: &WorldEvent) -> Result<(), NoMemory>
        requires reached { IsReached (length self.old.world.nodes) self.old.world.nodes }
        requires at_node { IsAtNode event.now }
        ensures ok { OnOk result (self.new ≡ ran event.now self.old) }
        ensures err { OnErr result (self.new ≡ self.old) }
    {
        if self.is_lawful(event) {
            return self.run_lawful(event);
        }
        Ok(())
    }

    /// A place is drawn in the buffer of a node and a range, where they are there.
    fn run_draw(&mut self, node: NodeId, range: RangeId)
        ensures { self.new ≡ happened (events.Draw node range) self.old }
    {
        if usize::from(node.get()) <= self.stage.nodes().len() {
            let _place = self.stage.draw(node, range);
        }
    }

    /// An item is published in the buffer of a node and a range, where they are there.
    fn run_publish(&mut self, node: NodeId, range: RangeId, place: u8, item: Item)
        ensures { self.new ≡ happened (events.Publish node range place item) self.old }
    {
        if usize::from(node.get()) <= self.stage.nodes().len() {
            let _published = self.stage.publish(node, range, place, item);
        }
    }

    /// An event comes; one that is not lawful is skipped. At want of memory nothing happens.
    fn run_one(&mut self, event: &WorldEvent) -> Result<(), NoMemory>
        requires { IsReached (length self.old.world.nodes) self.old.world.nodes }
        ensures ok { OnOk result (self.new ≡ ran event.now self.old) }
        ensures err { OnErr result (self.new ≡ self.old) }
    {
        match *event {
            WorldEvent::Draw { node, range } => {
                self.run_draw(node, range);
                Ok(())
            }
            WorldEvent::Publish {
                node,
                range,
                place,
                item,
            } => {
                self.run_publish(node, range, place, item);
                Ok(())
            }
            _ => self.run_at_node(event),
        }
    }

    /// Plays single events, one after another; one that is not lawful is skipped, and none is counted. At
    /// want of memory those before it stand.
    pub fn run(&mut self, events: &[WorldEvent]) -> Result<(), NoMemory>
        requires { IsReached (length self.old.world.nodes) self.old.world.nodes }
        ensures ok { OnOk result (self.new ≡ ran_all events.now self.old) }
        ensures world { OnOk result (self.new.world ≡ buffered_run self.old.world events.now) }
        ensures err { OnErr result ((k : ℕ)
            × (self.new ≡ ran_all (take k events.now) self.old)) }
        ensures reached { IsReached (length self.new.world.nodes) self.new.world.nodes }
    {
        for event in events {
            event_fits(event);
            self.run_one(event)?;
        }
        Ok(())
    }
}
