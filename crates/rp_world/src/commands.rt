//! Lines of clients' commands: send, admit, again, draw, publish.
ghost use Rattle.std.specs.Option.{option_map_or};
ghost use Rattle.std.specs.Prelude.{◌≡◌, ◌+◌, ◌<◌, ◌^◌, false, true, None, Some, IfOk, OnOk, length};
ghost use Rattle.rp_base.specs.ClientCounts.{count_of};
ghost use Rattle.rp_request.specs.Fits.{FitsRequest};
ghost use Rattle.rp_book.specs.Books.{booking_of, latest_of};
ghost use Rattle.rp_book.specs.declared.bookings.Draw.TheVariants as draw_states;
ghost use Rattle.rp_events.specs.Lawful.{IsReached, is_refusal};
ghost use Rattle.rp_lawful.specs.Comings.{Comes};
ghost use Rattle.rp_lawful.specs.Onward.{IsBookedAs};
ghost use Rattle.rp_lines.specs.Commands.{asks, asks_and_goes_on, booking, buffer_at, draws, draws_and_publishes, draws_latest, following, publishes, publishes_by, publishes_latest, tries_again, with_draw};
ghost use Rattle.rp_lines.specs.Players.{counted, next_command};
ghost use Rattle.rp_lines.specs.Scripts.{played};
ghost use Rattle.rp_script.specs.Bounds.{Fits, IsClient, IsCommand, IsNode};
ghost use Rattle.rp_world.specs.Going.{AsMany, Going, is_command, with_place};
ghost use Rattle.rp_world.specs.Latest.{refused_latest, undrawn_latest};
ghost use Rattle.rp_world.specs.Plays.{Does, admission, place_in};

use crate::faults::PlayFault;
use crate::seats::is_waiting;
use crate::worlds::World;
use rp_base::{CmdId, Item, NoMemory, NodeId, RangeId};
use rp_book::{Booked, Draw};
use rp_events::EventAnswer;
use rp_request::{Outcome, Request};
use rp_script::ScriptLine;

/// An attempt at a node and a range, without a place.
pub(crate) fn booking(request: &Request, node: NodeId, range: RangeId) -> Booked
    ensures { result ≡ booking request.now node range }
{
    Booked {
        request: *request,
        node,
        range,
        draw: Draw::Undrawn,
    }
}

/// The attempt behind this one.
fn following(id: CmdId) -> CmdId
    requires { id.attempt + 1 < 2 ^ 16 }
    ensures { result ≡ following id }
{
    CmdId {
        attempt: id.attempt + 1,
        ..id
    }
}

/// This was told of an attempt: it was refused.
fn is_refused(outcome: Option<Outcome>) -> bool
    ensures { result ≡ option_map_or is_refusal outcome false }
{
    matches!(outcome, Some(Outcome::Refused(_)))
}

impl World {
    /// An attempt has come so far in its buffer.
    pub(crate) fn set_draw(
        &mut self,
        id: CmdId,
        booked: &Booked,
        draw: Draw,
    ) -> Result<(), NoMemory>
        requires { IsBookedAs self.old id booked.now }
        ensures { OnOk result (self.new ≡ with_draw id booked.now draw self.old) }
    {
        self.book.set_draw(id, draw);
        Ok(())
    }

    /// An attempt draws a place: where there is none, the line is told.
    fn draws(&mut self, line: u32, id: CmdId, booked: &Booked) -> Result<Option<u8>, PlayFault>
        requires node { IsNode (length self.old.world.nodes) booked.now.node }
        requires has { booking_of id self.old.book ≡ Some booked.now }
        ensures does { Does result self.new (draws line id booked.now self.old) }
        ensures place { IfOk result (λ place. place
            ≡ place_in (buffer_at self.old booked.now.node booked.now.range)) }
        ensures booked { IfOk result (λ place. booking_of id self.new.book
            ≡ Some (with_place booked.now place)) }
        ensures nodes { OnOk result (AsMany self.old self.new) }
    {
        let place = self.draw(booked.node, booked.range)?;
        match place {
            Some(place) => self.set_draw(id, booked, Draw::Drawn { place })?,
            None => self.note_words(line, "full 16")?,
        }
        Ok(place)
    }

    /// An attempt's item is published at the place that was drawn.
    pub(crate) fn publishes(
        &mut self,
        id: CmdId,
        booked: &Booked,
        place: u8,
    ) -> Result<(), PlayFault>
        requires node { IsNode (length self.old.world.nodes) booked.now.node }
        requires has { IsBookedAs self.old id booked.now }
        ensures { Does result self.new (publishes id booked.now place self.old) }
    {
        self.publish(booked.node, booked.range, place, Item::Write(id))?;
        Ok(self.set_draw(id, booked, Draw::Published)?)
    }

    /// An attempt that had no place draws one, and is published there.
    pub(crate) fn draws_and_publishes(
        &mut self,
        line: u32,
        id: CmdId,
        booked: &Booked,
    ) -> Result<(), PlayFault>
        requires node { IsNode (length self.old.world.nodes) booked.now.node }
        requires has { booking_of id self.old.book ≡ Some booked.now }
        requires undrawn { booked.now.draw ≡ draw_states.Undrawn }
        ensures { Does result self.new (draws_and_publishes line id booked.now self.old) }
    {
        match self.draws(line, id, booked)? {
            Some(place) => self.publishes(id, booked, place),
            None => Ok(()),
        }
    }

    /// An attempt asks to be admitted; an admitted one goes on to the buffer.
    fn asks_and_goes_on(&mut self, line: u32, id: CmdId, booked: &Booked) -> Result<(), PlayFault>
        requires reached { IsReached (length self.old.world.nodes) self.old.world.nodes }
        requires comes { Comes self.old.world (admission id booked.now) }
        requires is_new { booking_of id self.old.book ≡ None }
        requires node { IsNode (length self.old.world.nodes) booked.now.node }
        requires undrawn { booked.now.draw ≡ draw_states.Undrawn }
        ensures { Does result self.new (asks_and_goes_on line id booked.now self.old) }
    {
        match self.ask(id, booked) {
            Ok(EventAnswer::Admitted) => self.draws_and_publishes(line, id, booked),
            Ok(_) => Ok(()),
            Err(fault) => Err(fault),
        }
    }

    /// The first attempt of a client's next command, which is counted.
    fn next_command(&mut self, client: u16) -> CmdId
        requires client { IsClient client }
        requires few { count_of self.old.sent client + 1 < 2 ^ 32 }
        ensures id { result ≡ next_command self.old client }
        ensures counted { self.new ≡ counted client self.old }
    {
        CmdId {
            client,
            seq: self.sent.add_one(client),
            attempt: 1,
        }
    }

    /// A client's next command is admitted, and goes to the buffer.
    fn sends(&mut self, line: u32, client: u16, booked: &Booked) -> Result<(), PlayFault>
        requires going { Going self.old }
        requires node { IsNode (length self.old.world.nodes) booked.now.node }
        requires client { IsClient client }
        requires request { FitsRequest booked.now.request }
        requires undrawn { booked.now.draw ≡ draw_states.Undrawn }
        ensures { Does result self.new
            (asks_and_goes_on line (next_command self.old client) booked.now (counted client self.old)) }
    {
        let id = self.next_command(client);
        self.asks_and_goes_on(line, id, booked)
    }

    /// A client's next command is admitted.
    fn admits(&mut self, client: u16, booked: &Booked) -> Result<(), PlayFault>
        requires going { Going self.old }
        requires node { IsNode (length self.old.world.nodes) booked.now.node }
        requires client { IsClient client }
        requires request { FitsRequest booked.now.request }
        ensures { Does result self.new
            (asks (next_command self.old client) booked.now (counted client self.old)) }
    {
        let id = self.next_command(client);
        match self.ask(id, booked) {
            Ok(_) => Ok(()),
            Err(fault) => Err(fault),
        }
    }

    /// A command's latest attempt, where it was refused, with its request.
    fn refused_latest(&self, client: u16, seq: u32) -> Option<(CmdId, Booked)>
        ensures { result ≡ refused_latest self.now client seq }
    {
        let (id, booked) = self.book.latest(client, seq)?;
        if is_refused(self.book.outcome(id)) {
            return Some((id, booked));
        }
        None
    }

    /// A further attempt of a command whose latest was refused.
    fn tries_again(
        &mut self,
        line: u32,
        node: NodeId,
        range: RangeId,
        client: u16,
        seq: u32,
    ) -> Result<(), PlayFault>
        requires going { Going self.old }
        requires node { IsNode (length self.old.world.nodes) node }
        requires command { IsCommand self.old.sent client seq }
        ensures { Does result self.new
            (tries_again line node range (latest_of client seq self.old.book) self.old) }
    {
        let Some((id, booked)) = self.refused_latest(client, seq) else {
            return Ok(self.note_words(line, "not-refused")?);
        };
        let next = booking(&booked.request, node, range);
        self.asks_and_goes_on(line, following(id), &next)
    }

    /// A command's latest attempt, where it waits and had no place.
    fn undrawn_latest(&self, client: u16, seq: u32) -> Option<(CmdId, Booked)>
        ensures { result ≡ undrawn_latest self.now client seq }
    {
        let (id, booked) = self.book.latest(client, seq)?;
        if is_waiting(self.stage.nodes(), id, &booked) && booked.draw == Draw::Undrawn {
            return Some((id, booked));
        }
        None
    }

    /// A command's latest attempt draws a place, where it waits and had none.
    fn draws_latest(&mut self, line: u32, client: u16, seq: u32) -> Result<(), PlayFault>
        requires going { Going self.old }
        requires command { IsCommand self.old.sent client seq }
        ensures { Does result self.new
            (draws_latest line (latest_of client seq self.old.book) self.old) }
    {
        let Some((id, booked)) = self.undrawn_latest(client, seq) else {
            return Ok(self.note_words(line, "nothing")?);
        };
        self.draws(line, id, &booked)?;
        Ok(())
    }

    /// An attempt is published at the place that it has drawn, where it has one.
    fn publishes_by(&mut self, line: u32, id: CmdId, booked: &Booked) -> Result<(), PlayFault>
        requires node { IsNode (length self.old.world.nodes) booked.now.node }
        requires has { IsBookedAs self.old id booked.now }
        ensures { Does result self.new (publishes_by line id booked.now booked.now.draw self.old) }
    {
        match booked.draw {
            Draw::Drawn { place } => self.publishes(id, booked, place),
            Draw::Undrawn | Draw::Published => Ok(self.note_words(line, "nothing")?),
        }
    }

    /// A command's latest attempt is published at the place that it has drawn.
    fn publishes_latest(&mut self, line: u32, client: u16, seq: u32) -> Result<(), PlayFault>
        requires going { Going self.old }
        requires command { IsCommand self.old.sent client seq }
        ensures { Does result self.new
            (publishes_latest line (latest_of client seq self.old.book) self.old) }
    {
        match self.book.latest(client, seq) {
            Some((id, booked)) => self.publishes_by(line, id, &booked),
            None => Ok(self.note_words(line, "nothing")?),
        }
    }

    /// A line of a client's command.
    pub(crate) fn play_command(&mut self, number: u32, line: &ScriptLine) -> Result<(), PlayFault>
        requires going { Going self.old }
        requires fits { Fits (length self.old.world.nodes) self.old.sent line.now }
        requires command { is_command line.now ≡ true }
        ensures { Does result self.new (played number line.now self.old) }
    {
        match *line {
            ScriptLine::Send {
                node,
                range,
                client,
                request,
            } => self.sends(number, client, &booking(&request, node, range)),
            ScriptLine::Admit {
                node,
                range,
                client,
                request,
            } => self.admits(client, &booking(&request, node, range)),
            ScriptLine::Again {
                node,
                range,
                client,
                seq,
            } => self.tries_again(number, node, range, client, seq),
            ScriptLine::Draw { client, seq } => self.draws_latest(number, client, seq),
            ScriptLine::Publish { client, seq } => self.publishes_latest(number, client, seq),
            _ => Ok(()),
        }
    }
}
