//! What a worker keeps of a node.
ghost use Rattle.std.specs.Prelude.{◌≡◌, ◌-◌, ◌≤◌, [], true, Some, OnOk, OnErr, length};
ghost use Rattle.rp_events.specs.Nodes as events;
ghost use Rattle.rp_events.specs.Worlds.{World};
ghost use Rattle.rp_race.specs.declared.rules.RaceRules as race;
ghost use Rattle.rp_serving.specs.declared.lanes.Lane.{Lane};
ghost use Rattle.rp_serving.specs.Mails.{lane_in, IsMailOf, IsWhole};
ghost use Rattle.rp_race.specs.Gives.{NoneBehind};
ghost use Rattle.rp_serving.specs.Playing.{HasIt, IsTaken, HandsWithin, GivesFew, taken_from};
ghost use Rattle.rp_switch.specs.Gifts.{IsRound, IsBrokenRound};
ghost use Rattle.rp_switch.specs.Seats.{known_by};
ghost use Rattle.rp_bench.specs.Stations.{Copies, PlaysBy, HasPosted, IsDue, settled, may_play_on};

use rp_base::{NoMemory, NodeId, Seq};
use rp_bufcore::BufferEnd;
use rp_events::{Ended, Outcomes};
use rp_node::Node;
use rp_race::RaceRules;
use rp_serving::{BrokenOff, Inserts, Mail, play};
use rp_switch::Seat;
use std::alloc::Global;

/// What a worker keeps of a node: its rounds and how long an attempt waited there, as it was seen
/// last; how many of its outcomes were posted; whether the worker may play its rounds; and what was
/// copied for these.
#[derive(Drop)]
pub struct Station {
    pub(crate) rounds: u64,
    pub(crate) waited: u64,
    pub(crate) posted: usize,
    pub(crate) may_play: bool,
    pub(crate) mail: Mail,
}

impl Station {
    /// Nothing is kept of the node yet. It takes no memory.
    pub(crate) fn new(alloc: Global, node: NodeId, may_play: bool) -> Station
        ensures looks { (result.rounds ≡ 0) × (result.waited ≡ 0) }
        ensures may_play { result.may_play ≡ may_play }
        ensures mail { (rules : race.RaceRules) (seen : World) (n : events.Node) → n.journal ≡ []
            → IsMailOf rules node seen n result.mail }
    {
        Station {
            rounds: 0,
            waited: 0,
            posted: 0,
            may_play,
            mail: Mail::new(alloc, node),
        }
    }

    /// Notes how the node is now.
    pub(crate) fn note<E: BufferEnd + Drop>(&mut self, node: &Node<E>)
        ensures { self.new ≡ record (self.old) { rounds = node.now.node.rounds; waited = node.now.node.waited } }
    {
        self.rounds = node.rounds();
        self.waited = node.waited();
    }

    /// Copies what another node has sent since the last time, where the rounds of this one may be
    /// played.
    pub(crate) fn copy_from<E: BufferEnd + Drop>(
        &mut self,
        rules: &RaceRules,
        from: NodeId,
        sender: &Node<E>,
    ) -> Result<(), NoMemory>
        requires { (lane : Lane) → self.old.may_play ≡ true → lane_in self.old.mail from ≡ Some lane
            → lane.copied ≤ length sender.now.node.sent }
        ensures same { self.new ≡ record (self.old) { mail = self.new.mail } }
        ensures copies { self.old.may_play ≡ true
            → Copies rules.now from sender.now.node self.old.mail result self.new.mail }
    {
        if self.may_play {
            self.mail.copy_from(rules, from, sender)
        } else {
            Ok(())
        }
    }

    /// The outcomes of the node behind those that were posted; from now on they are.
    pub(crate) fn new_outcomes<E: BufferEnd + Drop>(
        &mut self,
        alloc: Global,
        node: &Node<E>,
    ) -> Result<Outcomes, NoMemory>
        ensures { HasPosted node.now.node result self.old self.new }
    {
        let all = node.outcomes().as_slice();
        let new: &[Ended] = match all.get(self.posted..) {
            Some(new) => new,
            None => &[],
        };
        let ends = Vec::from_slice(alloc, new)?;
        self.posted = all.len();
        Ok(Seq::from_vec(ends))
    }

    /// Whether a round of the node is to be played now: the worker may, and no other of so many nodes,
    /// as it was copied from, is behind.
    pub(crate) fn is_due(&self, nodes: u8) -> bool
        requires { nodes ≤ 5 }
        ensures { result ≡ true → IsDue nodes self.now }
    {
        self.may_play && !self.mail.is_behind(nodes, self.rounds)
    }

    /// Plays a round of the node, which the seat has taken.
    pub(crate) fn play<E: BufferEnd + Drop, I: Inserts>(
        &mut self,
        seat: &Seat<E>,
        rules: &RaceRules,
        nodes: u8,
        number: NodeId,
        node: &mut Node<E>,
        inserts: &mut I,
    ) -> Result<(), BrokenOff>
        requires has { HasIt (known_by seat.now) number }
        requires taken { IsTaken (known_by seat.now) number node.old.node }
        requires rules { rules.now ≡ (known_by seat.now).terms.rules }
        requires nodes { nodes ≡ (known_by seat.now).terms.nodes }
        requires hands { HandsWithin nodes rules.now }
        requires few { GivesFew E.gives }
        requires mail { IsMailOf rules.now number (known_by seat.now).seen node.old.node self.old.mail }
        requires whole { IsWhole number (known_by seat.now).seen self.old.mail }
        requires behind { NoneBehind number (known_by seat.now).seen node.old.node }
        ensures whole { OnOk result (IsRound (known_by seat.now) (number - 1) (taken_from (known_by seat.now)) node.new.node) }
        ensures broken_off { OnErr result
            (IsBrokenRound (known_by seat.now) (number - 1) (taken_from (known_by seat.now)) node.new.node) }
        ensures plays { PlaysBy rules.now number (known_by seat.now).seen node.new.node result self.old self.new }
    {
        play(seat, rules, nodes, number, node, &mut self.mail, inserts)
    }

    /// After a round: where it was broken off, no more are played. `NoMemory` where memory was refused.
    pub(crate) fn settle(&mut self, played: Result<(), BrokenOff>) -> Result<(), NoMemory>
        ensures after { self.new ≡ record (self.old) { may_play = may_play_on played self.old.may_play } }
        ensures result { result ≡ settled played }
    {
        match played {
            Ok(()) => Ok(()),
            Err(BrokenOff::Full) => {
                self.may_play = false;
                Ok(())
            }
            Err(BrokenOff::NoMemory) => {
                self.may_play = false;
                Err(NoMemory)
            }
        }
    }
}
