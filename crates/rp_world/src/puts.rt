//! First in a round of a settling: attempts go to their buffers.
ghost use Rattle.std.specs.Prelude.{◌≡◌, ◌<◌, ◌&&◌, true, false, IfOk, IfErr, OnOk, OnErr, Some, None, MatchOption, length};
ghost use Rattle.rp_base.specs.Gives.{Fails};
ghost use Rattle.rp_book.specs.declared.bookings.Booked.{Booked};
ghost use Rattle.rp_book.specs.declared.bookings.Draw.TheVariants as draw_states;
ghost use Rattle.rp_book.specs.Books.{booking_of};
ghost use Rattle.rp_book.specs.Queueing.{IsLeast, drawn_queue, queue_count, queue_of};
ghost use Rattle.rp_request.specs.declared.outcomes.Outcome.TheVariants.{Pending};
ghost use Rattle.rp_events.specs.Worlds.{outcome_of};
ghost use Rattle.rp_world.specs.declared.turns.Went.TheVariants as wents;
ghost use Rattle.rp_events.specs.declared.world_events.WorldEvent.TheVariants as events;
ghost use Rattle.rp_lawful.specs.Onward.{IsBookedAs};
ghost use Rattle.rp_lines.specs.Commands.{buffer_at, publishes};
ghost use Rattle.rp_lines.specs.Players.{Player};
ghost use Rattle.rp_lines.specs.Settling.{is_latest, puts, puts_all};
ghost use Rattle.rp_script.specs.Bounds.{IsNode};
ghost use Rattle.rp_world.specs.Going.{AsMany, Going};
ghost use Rattle.rp_world.specs.Plays.{Does, happened, limit_of, place_in};
ghost use Rattle.rp_world.specs.Putting.{AllGo, IsUnderWay, WentAs, counted, counted_if, drawn_if, put, put_if, turns};

use crate::faults::PlayFault;
use crate::seats::is_waiting;
use crate::turns::Went;
use crate::worlds::World;
use rp_base::{CmdId, NoMemory, NodeId, RangeId};
use rp_book::{Booked, Draw, QUEUES, Queues, queue_of};
use rp_request::Outcome;

impl World {
    /// The attempt is the latest of its command.
    fn is_latest(&self, id: CmdId) -> bool
        ensures { result ≡ is_latest self.now id }
    {
        match self.book.latest(id.client, id.seq) {
            Some((latest, _)) => latest == id,
            None => false,
        }
    }

    /// One more event is counted, and the weight is judged.
    fn counted(&mut self) -> Result<(), PlayFault>
        ensures { Does result self.new (counted self.old) }
    {
        self.unspent()?;
        self.count();
        self.weighed()
    }

    /// A draw is counted where it gave a place.
    fn counted_if(&mut self, place: Option<u8>) -> Result<(), PlayFault>
        ensures { Does result self.new (counted_if place self.old) }
    {
        match place {
            Some(_) => self.counted(),
            None => Ok(()),
        }
    }

    /// A place is drawn, where there is one.
    fn draws_there(&mut self, node: NodeId, range: RangeId) -> Option<u8>
        requires { IsNode (length self.old.world.nodes) node }
        ensures place { result ≡ place_in (buffer_at self.old node range) }
        ensures drawn { self.new ≡ happened (events.Draw node range) self.old }
    {
        self.stage.draw(node, range).ok()
    }

    /// A place is drawn where there is one, and that is counted; where there is none nothing happens.
    fn draws_if_room(&mut self, node: NodeId, range: RangeId) -> Result<Option<u8>, PlayFault>
        requires { IsNode (length self.old.world.nodes) node }
        ensures does { Does result self.new (drawn_if node range self.old) }
        ensures place { IfOk result (λ place. place ≡ place_in (buffer_at self.old node range)) }
        ensures book { OnOk result (self.new.book ≡ self.old.book) }
        ensures nodes { OnOk result (self.new.world.nodes ≡ self.old.world.nodes) }
    {
        let place = self.draws_there(node, range);
        self.counted_if(place)?;
        Ok(place)
    }

    /// An attempt goes to its buffer, where there is room.
    fn puts_if_room(&mut self, id: CmdId, booked: &Booked) -> Result<Went, PlayFault>
        requires node { IsNode (length self.old.world.nodes) booked.now.node }
        requires has { IsBookedAs self.old id booked.now }
        requires undrawn { booked.now.draw ≡ draw_states.Undrawn }
        ensures does { Does result self.new (put_if id booked.now self.old) }
        ensures went { IfOk result (λ went. WentAs went id booked.now self.old self.new) }
    {
        match self.draws_if_room(booked.node, booked.range)? {
            Some(place) => self.is_put(id, booked, place),
            None => Ok(Went::Full),
        }
    }

    /// An attempt is published at the place that it has drawn.
    fn is_put(&mut self, id: CmdId, booked: &Booked, place: u8) -> Result<Went, PlayFault>
        requires node { IsNode (length self.old.world.nodes) booked.now.node }
        requires has { IsBookedAs self.old id booked.now }
        ensures does { Does result self.new (publishes id booked.now place self.old) }
        ensures went { IfOk result (λ went. went ≡ wents.Put) }
        ensures put { OnOk result (WentAs wents.Put id booked.now self.old self.new) }
    {
        self.publishes(id, booked, place)?;
        Ok(Went::Put)
    }

    /// An attempt that had no place goes to the buffer, where it is its command's latest, waits, and
    /// there is room.
    fn puts_undrawn(&mut self, id: CmdId, booked: &Booked) -> Result<Went, PlayFault>
        requires node { IsNode (length self.old.world.nodes) booked.now.node }
        requires has { IsBookedAs self.old id booked.now }
        requires undrawn { booked.now.draw ≡ draw_states.Undrawn }
        ensures does { Does result self.new (puts id booked.now draw_states.Undrawn self.old) }
        ensures went { IfOk result (λ went. WentAs went id booked.now self.old self.new) }
    {
        if self.is_latest(id) && is_waiting(self.stage.nodes(), id, booked) {
            return self.puts_if_room(id, booked);
        }
        Ok(Went::Not)
    }

    /// An attempt is put, by how far it has come: a drawn place is published.
    fn puts_by(&mut self, id: CmdId, booked: &Booked) -> Result<Went, PlayFault>
        requires node { IsNode (length self.old.world.nodes) booked.now.node }
        requires has { booking_of id self.old.book ≡ Some booked.now }
        ensures does { Does result self.new (puts id booked.now booked.now.draw self.old) }
        ensures went { IfOk result (λ went. WentAs went id booked.now self.old self.new) }
    {
        match booked.draw {
            Draw::Undrawn => self.puts_undrawn(id, booked),
            Draw::Drawn { place } => self.is_put(id, booked, place),
            Draw::Published => Ok(Went::Put),
        }
    }

    /// So it goes on.
    #[tactic(auto, unfolding(crate::specs::Putting::put))]
    fn puts(&mut self, id: CmdId, booked: &Booked) -> Result<Went, PlayFault>
        requires going { Going self.old }
        requires has { booking_of id self.old.book ≡ Some booked.now }
        ensures does { Does result self.new (put (id, booked.now) self.old) }
        ensures went { IfOk result (λ went. WentAs went id booked.now self.old self.new) }
        ensures going { OnOk result (Going self.new) }
        ensures nodes { OnOk result (AsMany self.old self.new) }
    {
        self.puts_by(id, booked)
    }

    /// What the book has of an attempt, where this is its queue.
    fn booked_in(&self, queue: usize, id: CmdId) -> Option<Booked>
        ensures { MatchOption result
            ((b : Booked) → booking_of id self.now.book ≡ Some b → queue_of b ≡ Some queue → ⊥)
            (λ b. (booking_of id self.now.book ≡ Some b) × (queue_of b ≡ Some queue)
            × (b.draw ≡ draw_states.Undrawn → queue < drawn_queue)) }
    {
        let booked = self.book.get(id)?;
        if queue_of(booked) == Some(queue) {
            return Some(*booked);
        }
        None
    }

    /// What is told of an attempt is that it is pending.
    fn is_pending(&self, id: CmdId) -> bool
        ensures { result ≡ false → outcome_of self.now.world.nodes id ≡ Some Pending → ⊥ }
    {
        matches!(self.book.outcome(id), Some(Outcome::Pending))
    }

    /// An attempt has its turn in its queue: it leaves it, but where its buffer is full, and then the
    /// queue is passed over. Whether all that may still be put stand in queues is answered, as far as
    /// they did.
    fn puts_booked(
        &mut self,
        queues: &mut Queues,
        passed: &mut [bool; QUEUES],
        queue: usize,
        id: CmdId,
        booked: &Booked,
    ) -> Result<bool, PlayFault>
        requires going { Going self.old }
        requires many { length queues.old ≡ queue_count }
        requires first { IsLeast queues.old passed.old queue_count queue id }
        requires has { booking_of id self.old.book ≡ Some booked.now }
        requires here { queue_of booked.now ≡ Some queue }
        requires below { booked.now.draw ≡ draw_states.Undrawn → queue < drawn_queue }
        ensures ok { OnOk result ((start : Player) → IsUnderWay start queues.old passed.old self.old
            → IsUnderWay start queues.new passed.new self.new) }
        ensures err { IfErr result (λ fault. (start : Player)
            → IsUnderWay start queues.old passed.old self.old
            → Fails (limit_of fault) (puts_all start)) }
        ensures going { OnOk result (Going self.new) }
        ensures whole { IfOk result (λ whole. AllGo self.old queues.old → whole ≡ true
            → AllGo self.new queues.new) }
        ensures fewer { OnOk result (turns queues.new passed.new < turns queues.old passed.old) }
    {
        match self.puts(id, booked)? {
            Went::Full => {
                passed[queue] = true;
                Ok(true)
            }
            Went::Put => {
                queues.remove(queue, id);
                Ok(true)
            }
            Went::Not => {
                queues.remove(queue, id);
                Ok(!self.is_pending(id))
            }
        }
    }

    /// What stands first in the queues has its turn.
    fn puts_first(
        &mut self,
        queues: &mut Queues,
        passed: &mut [bool; QUEUES],
        queue: usize,
        id: CmdId,
    ) -> Result<bool, PlayFault>
        requires going { Going self.old }
        requires many { length queues.old ≡ queue_count }
        requires first { IsLeast queues.old passed.old queue_count queue id }
        ensures ok { OnOk result ((start : Player) → IsUnderWay start queues.old passed.old self.old
            → IsUnderWay start queues.new passed.new self.new) }
        ensures err { IfErr result (λ fault. (start : Player)
            → IsUnderWay start queues.old passed.old self.old
            → Fails (limit_of fault) (puts_all start)) }
        ensures going { OnOk result (Going self.new) }
        ensures whole { IfOk result (λ whole. AllGo self.old queues.old → whole ≡ true
            → AllGo self.new queues.new) }
        ensures fewer { OnOk result (turns queues.new passed.new < turns queues.old passed.old) }
    {
        match self.booked_in(queue, id) {
            Some(booked) => self.puts_booked(queues, passed, queue, id, &booked),
            None => {
                queues.remove(queue, id);
                Ok(true)
            }
        }
    }

    /// Attempts go from their queues to their buffers, by client, command and attempt. Whether those
    /// that may still be put stand in their queues is answered.
    fn puts_queued(&mut self, queues: &mut Queues) -> Result<bool, PlayFault>
        requires going { Going self.old }
        requires all { AllGo self.old queues.old }
        ensures does { Does result self.new (puts_all self.old) }
        ensures going { OnOk result (Going self.new) }
        ensures nodes { OnOk result (AsMany self.old self.new) }
        ensures whole { IfOk result (λ whole. whole ≡ true → AllGo self.new queues.new) }
    {
        let mut passed = [false; QUEUES];
        let mut whole = true;
        while let Some((queue, id)) = queues.first(&passed) {
            let stays = self.puts_first(queues, &mut passed, queue, id)?;
            whole = whole && stays;
        }
        Ok(whole)
    }

    /// The queues of the attempts that may still be put.
    fn take_queues(&mut self) -> Result<Queues, NoMemory>
        ensures stays { self.new ≡ self.old }
        ensures queued { IfOk result (AllGo self.old) }
    {
        self.book.take_queues()
    }

    /// The queues are given back.
    fn keep_queues(&mut self, queues: Queues)
        requires { AllGo self.old queues }
        ensures { self.new ≡ self.old }
    {
        self.book.keep_queues(queues);
    }

    /// Attempts go to their buffers, by client, command and attempt.
    pub(crate) fn puts_all(&mut self) -> Result<(), PlayFault>
        requires { Going self.old }
        ensures does { Does result self.new (puts_all self.old) }
        ensures going { OnOk result (Going self.new) }
        ensures nodes { OnOk result (AsMany self.old self.new) }
    {
        let mut queues = self.take_queues()?;
        if self.puts_queued(&mut queues)? {
            self.keep_queues(queues);
        }
        Ok(())
    }
}
