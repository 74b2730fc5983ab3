//! Lines of events at a node, and how a line is played.
ghost use Rattle.std.specs.Prelude.{◌≡◌, ◌≤◌, ℕ, false, Some, OnOk, length};
ghost use Rattle.std.specs.Option.{option_map};
ghost use Rattle.rp_events.specs.Nodes.{parcel_of};
ghost use Rattle.rp_events.specs.Worlds.{sent_by};
ghost use Rattle.rp_events.specs.declared.world_events.WorldEvent.TheVariants as events;
ghost use Rattle.rp_lawful.specs.Comings.{IsPlain, node_in};
ghost use Rattle.rp_lawful.specs.Playable.{CanPlay};
ghost use Rattle.rp_lines.specs.Players.{did, noted};
ghost use Rattle.rp_report.specs.Notes.{peek_text};
ghost use Rattle.rp_lines.specs.Scripts.{does, flushes, played, puts_ask, tells, tells_refusal, told_absent};
ghost use Rattle.rp_lines.specs.Settling.{delivers, ticks, with_handled};
ghost use Rattle.rp_script.specs.Bounds.{Fits, IsNode};
ghost use Rattle.rp_world.specs.Comes.{is_peek, is_value};
ghost use Rattle.rp_world.specs.Going.{AsMany, Going, is_command};
ghost use Rattle.rp_world.specs.Plays.{Does};

use crate::faults::PlayFault;
use crate::notes::{held_text, not_holder_text, peek_text};
use crate::scenes::{node_of, sent_by};
use crate::seats::has_live;
use crate::worlds::{Loss, World};
use rp_base::{Item, Key, LeaseAsk, NoMemory, NodeId, RangeId, Value};
use rp_events::{EventAnswer, WorldEvent};
use rp_request::Refusal;
use rp_script::ScriptLine;

/// A line of a client's command.
fn is_command(line: &ScriptLine) -> bool
    ensures { result ≡ is_command line.now }
{
    matches!(
        line,
        ScriptLine::Send { .. }
            | ScriptLine::Admit { .. }
            | ScriptLine::Again { .. }
            | ScriptLine::Draw { .. }
            | ScriptLine::Publish { .. }
    )
}

impl World {
    /// A line at a range that has no live replica at its node is told so.
    fn tell_absent(&mut self, line: u32, node: NodeId, range: RangeId) -> Result<(), NoMemory>
        ensures { OnOk result (self.new ≡ told_absent line node range self.old) }
    {
        if has_live(self.stage.nodes(), node, range) {
            return Ok(());
        }
        self.note_words(line, "no-replica")
    }

    /// An ask is put in the buffer, where there is room; else the line is told.
    fn puts_ask(
        &mut self,
        line: u32,
        node: NodeId,
        range: RangeId,
        ask: LeaseAsk,
    ) -> Result<(), PlayFault>
        requires { IsNode (length self.old.world.nodes) node }
        ensures { Does result self.new (puts_ask line node range ask self.old) }
    {
        match self.draw(node, range)? {
            Some(place) => self.publish(node, range, place, Item::Lease(ask)),
            None => Ok(self.note_words(line, "full 16")?),
        }
    }

    /// What a refusal tells.
    fn tell_refusal(&mut self, line: u32, refusal: &Refusal) -> Result<(), NoMemory>
        ensures { OnOk result (self.new ≡ tells_refusal line refusal.now self.old) }
    {
        match refusal {
            Refusal::NotLeaseHolder { lease } => {
                let text = not_holder_text(self.alloc, lease)?;
                self.note(line, text)
            }
            _ => Ok(()),
        }
    }

    /// What follows an answer that tells no value.
    fn tell(
        &mut self,
        line: u32,
        node: NodeId,
        range: RangeId,
        answer: &EventAnswer,
    ) -> Result<(), PlayFault>
        requires node { IsNode (length self.old.world.nodes) node }
        requires no_value { is_value answer.now ≡ false }
        ensures { (key : ℕ) → Does result self.new (tells line node range key answer.now self.old) }
    {
        match answer {
            EventAnswer::Done | EventAnswer::Admitted | EventAnswer::Value { .. } => Ok(()),
            EventAnswer::Nothing => Ok(self.note_words(line, "nothing")?),
            EventAnswer::Asked(ask) => self.puts_ask(line, node, range, *ask),
            EventAnswer::Refused(refusal) => Ok(self.tell_refusal(line, refusal)?),
            EventAnswer::LeaseHeld { lease, ticks } => {
                let text = held_text(self.alloc, lease, *ticks)?;
                Ok(self.note(line, text)?)
            }
        }
    }

    /// A line of one event at a node and a range that reads no key.
    fn does(&mut self, line: u32, range: RangeId, event: &WorldEvent) -> Result<(), PlayFault>
        requires going { Going self.old }
        requires plain { IsPlain (length self.old.world.nodes) event.now }
        requires no_value { is_peek event.now ≡ false }
        ensures { Does result self.new (does line (node_in event.now) range 0 event.now self.old) }
    {
        let node = node_of(event);
        self.tell_absent(line, node, range)?;
        match self.event(event) {
            Ok(answer) => self.tell(line, node, range, &answer),
            Err(fault) => Err(fault),
        }
    }

    /// A key's applied value, and the applied index, are told.
    fn tell_value(
        &mut self,
        line: u32,
        key: Key,
        value: Option<Value>,
        applied: u64,
    ) -> Result<(), NoMemory>
        ensures { OnOk result (self.new ≡ noted line (peek_text key value applied) self.old) }
    {
        let text = peek_text(self.alloc, key, value, applied)?;
        self.note(line, text)
    }

    /// The applied value of a key is told.
    fn peeks(&mut self, line: u32, node: NodeId, range: RangeId, key: Key) -> Result<(), PlayFault>
        requires going { Going self.old }
        requires node { IsNode (length self.old.world.nodes) node }
        ensures { Does result self.new
            (does line node range key (events.Peek node range key) self.old) }
    {
        self.tell_absent(line, node, range)?;
        match self.event(&WorldEvent::Peek { node, range, key }) {
            Ok(EventAnswer::Value { value, applied }) => {
                Ok(self.tell_value(line, key, value, applied)?)
            }
            Ok(answer) => self.tell(line, node, range, &answer),
            Err(fault) => Err(fault),
        }
    }

    /// What the buffer gives is collected, and the inbox flushed.
    fn flushes(&mut self, line: u32, node: NodeId, range: RangeId) -> Result<(), PlayFault>
        requires going { Going self.old }
        requires node { IsNode (length self.old.world.nodes) node }
        ensures { Does result self.new (flushes line node range self.old) }
    {
        self.tell_absent(line, node, range)?;
        self.quietly(&WorldEvent::Collect { node, range })?;
        self.quietly(&WorldEvent::Flush { node, range })
    }

    /// So many ticks of a node.
    fn ticks(&mut self, node: NodeId, count: u64) -> Result<(), PlayFault>
        requires going { Going self.old }
        requires node { IsNode (length self.old.world.nodes) node }
        ensures does { Does result self.new (ticks node count self.old) }
        ensures going { OnOk result (Going self.new) }
        ensures nodes { OnOk result (AsMany self.old self.new) }
    {
        for _turn in 0..count {
            self.quietly(&WorldEvent::Tick { node })?;
        }
        Ok(())
    }

    /// A message that the node has sent comes to its receiver.
    fn delivers(&mut self, line: u32, sender: NodeId, number: u64) -> Result<(), PlayFault>
        requires going { Going self.old }
        requires node { IsNode (length self.old.world.nodes) sender }
        requires number { 1 ≤ number }
        ensures { Does result self.new (delivers line sender number
            (parcel_of (sent_by self.old.world.nodes sender) number) self.old) }
    {
        let Some(to) = self.receiver(sender, number) else {
            return Ok(self.note_words(line, "nothing")?);
        };
        self.comes(to, sender, number)
    }

    /// To whom a message of a sender goes; `None` where it was not sent.
    pub(crate) fn receiver(&self, sender: NodeId, number: u64) -> Option<NodeId>
        requires { 1 ≤ number }
        ensures { result ≡ option_map (λ p. p.to)
            (parcel_of (sent_by self.now.world.nodes sender) number) }
    {
        let sent = sent_by(self.stage.nodes(), sender);
        let parcel = sent.get(number as usize - 1)?;
        Some(parcel.to)
    }

    /// A message comes to its receiver, and is handled.
    pub(crate) fn comes(&mut self, to: NodeId, sender: NodeId, number: u64) -> Result<(), PlayFault>
        requires going { Going self.old }
        requires sent { option_map (λ p. p.to)
            (parcel_of (sent_by self.old.world.nodes sender) number) ≡ Some to }
        ensures { Does result self.new
            (did (events.Deliver to sender number) (with_handled sender number self.old)) }
    {
        self.handle(sender, number)?;
        let event = WorldEvent::Deliver {
            node: to,
            from: sender,
            number,
        };
        match self.event(&event) {
            Ok(_) => Ok(()),
            Err(fault) => Err(fault),
        }
    }

    /// A message is handled from now on.
    pub(crate) fn handle(&mut self, sender: NodeId, number: u64) -> Result<(), NoMemory>
        requires sender { sender ≤ length self.old.handled }
        requires number { 1 ≤ number }
        ensures { OnOk result (self.new ≡ with_handled sender number self.old) }
    {
        self.handled[usize::from(sender.get()) - 1].handle(number)
    }

    /// A line that is no client's command.
    fn play_other(&mut self, number: u32, line: &ScriptLine) -> Result<(), PlayFault>
        requires going { Going self.old }
        requires fits { Fits (length self.old.world.nodes) self.old.sent line.now }
        requires no_command { is_command line.now ≡ false }
        ensures { Does result self.new (played number line.now self.old) }
    {
        match *line {
            ScriptLine::Ask { node, range } => {
                self.does(number, range, &WorldEvent::Ask { node, range })
            }
            ScriptLine::Transfer { node, range, to } => {
                self.does(number, range, &WorldEvent::Transfer { node, range, to })
            }
            ScriptLine::Flush { node, range } => self.flushes(number, node, range),
            ScriptLine::Apply { node, range } => {
                self.does(number, range, &WorldEvent::Apply { node, range })
            }
            ScriptLine::Cut { node, range } => {
                self.does(number, range, &WorldEvent::Cut { node, range })
            }
            ScriptLine::Remove { node, range } => {
                self.does(number, range, &WorldEvent::Remove { node, range })
            }
            ScriptLine::Peek { node, range, key } => self.peeks(number, node, range, key),
            ScriptLine::Restart { node } => self.restarts(node),
            ScriptLine::Tick { node, count } => self.ticks(node, count),
            ScriptLine::Deliver { node, number: sent } => self.delivers(number, node, sent),
            ScriptLine::Loss { percent, salt } => {
                self.loss = Loss { percent, salt };
                Ok(())
            }
            ScriptLine::Settle { rounds } => self.settles(rounds),
            _ => Ok(()),
        }
    }

    /// The node starts again with what it keeps.
    fn restarts(&mut self, node: NodeId) -> Result<(), PlayFault>
        requires going { Going self.old }
        requires node { IsNode (length self.old.world.nodes) node }
        ensures { Does result self.new (did (events.Restart node) self.old) }
    {
        self.quietly(&WorldEvent::Restart { node })
    }

    /// Plays the next line of a script. A limit that it meets, and want of memory, end the play.
    pub fn play(&mut self, number: u32, line: &ScriptLine) -> Result<(), PlayFault>
        requires { CanPlay (length self.old.world.nodes) self.old
            (record { number = number; line = line.now }) }
        ensures { Does result self.new (played number line.now self.old) }
    {
        if is_command(line) {
            return self.play_command(number, line);
        }
        self.play_other(number, line)
    }
}
