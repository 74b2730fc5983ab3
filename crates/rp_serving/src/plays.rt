//! A worker's round at a node.
ghost use Rattle.std.specs.Prelude.{◌≡◌, ◌-◌, true, OnOk, OnErr, IfErr, length};
ghost use Rattle.rp_events.specs.declared.journals.PastEvent.TheVariants as past;
ghost use Rattle.rp_race.specs.Gives.{NoneBehind};
ghost use Rattle.rp_race.specs.Rounds.{between, handed_over, may_come, stage_of};
ghost use Rattle.rp_switch.specs.Gifts.{IsRound, IsBrokenRound};
ghost use Rattle.rp_switch.specs.Seats.{known_by};
ghost use Rattle.rp_serving.specs.Mails.{IsMailOf, IsWhole, IsEmptied};
ghost use Rattle.rp_serving.specs.Turns.{Has, known_of, AllHeard, UnderWay, PlaysWhole};
ghost use Rattle.rp_serving.specs.Playing.{HasIt, IsTaken, HandsWithin, GivesFew, taken_from, WhyBroken};

use crate::faults::BrokenOff;
use crate::inserts::Inserts;
use crate::mails::Mail;
use crate::turns::Turn;
use rp_base::NodeId;
use rp_bufcore::BufferEnd;
use rp_events::Event;
use rp_node::Node;
use rp_race::RaceRules;
use rp_switch::Seat;

impl<'a, E: BufferEnd + Drop> Turn<'a, E> {
    /// The inside of one round.
    fn inside<I: Inserts>(
        &self,
        node: &mut Node<E>,
        mail: &mut Mail,
        inserts: &mut I,
    ) -> Result<(), BrokenOff>
        requires has { Has self.now }
        requires under_way { UnderWay self.now node.old.node }
        requires begins { stage_of node.old.node.journal ≡ between }
        requires mail { IsMailOf (known_of self.now).terms.rules self.now.node (known_of self.now).seen node.old.node mail.old }
        requires whole { IsWhole self.now.node (known_of self.now).seen mail.old }
        ensures heard { OnOk result (AllHeard self.now node.new.node) }
        ensures may { OnOk result (may_come (known_of self.now).terms.rules node.new.node (past.Round (length node.new.node.sent)) ≡ true) }
        ensures emptied { OnOk result (IsEmptied self.now.nodes mail.old mail.new) }
        ensures handed { OnOk result (mail.new.handed ≡ handed_over node.new.node.journal) }
        ensures under_way { UnderWay self.now node.new.node }
        ensures why { IfErr result (λ why. WhyBroken why node.new.node) }
    {
        self.deliver_all(node, mail)?;
        self.happen(node, Event::Tick)?;
        self.flush_all(node)?;
        self.hand_over(node, &mut mail.handed, inserts)?;
        self.apply_all(node)?;
        Ok(())
    }

    /// One round.
    fn play<I: Inserts>(
        &self,
        node: &mut Node<E>,
        mail: &mut Mail,
        inserts: &mut I,
    ) -> Result<(), BrokenOff>
        requires has { Has self.now }
        requires taken { IsTaken (known_of self.now) self.now.node node.old.node }
        requires mail { IsMailOf (known_of self.now).terms.rules self.now.node (known_of self.now).seen node.old.node mail.old }
        requires whole { IsWhole self.now.node (known_of self.now).seen mail.old }
        requires behind { NoneBehind self.now.node (known_of self.now).seen node.old.node }
        ensures whole { OnOk result (PlaysWhole (known_of self.now) self.now.node node.new.node) }
        ensures emptied { OnOk result (IsEmptied self.now.nodes mail.old mail.new) }
        ensures mail { OnOk result (IsMailOf (known_of self.now).terms.rules self.now.node (known_of self.now).seen node.new.node mail.new) }
        ensures broken_off { OnErr result (UnderWay self.now node.new.node) }
        ensures why { IfErr result (λ why. WhyBroken why node.new.node) }
    {
        mail.five();
        self.inside(node, mail, inserts)?;
        self.end(node)?;
        Ok(())
    }
}

/// Plays one round of a node that a seat has taken: all that was copied for it is delivered, by
/// sender and number; a tick; a collect and a flush for each live range; in every sixteenth round
/// the node's next handover; what waits is applied; and the round ends. Where the node is full or
/// memory is refused the round is broken off, and the node stands as it is.
pub fn play<E: BufferEnd + Drop, I: Inserts>(
    seat: &Seat<E>,
    rules: &RaceRules,
    nodes: u8,
    number: NodeId,
    node: &mut Node<E>,
    mail: &mut Mail,
    inserts: &mut I,
) -> Result<(), BrokenOff>
    requires has { HasIt (known_by seat.now) number }
    requires taken { IsTaken (known_by seat.now) number node.old.node }
    requires rules { rules.now ≡ (known_by seat.now).terms.rules }
    requires nodes { nodes ≡ (known_by seat.now).terms.nodes }
    requires hands { HandsWithin nodes rules.now }
    requires few { GivesFew E.gives }
    requires mail { IsMailOf rules.now number (known_by seat.now).seen node.old.node mail.old }
    requires whole { IsWhole number (known_by seat.now).seen mail.old }
    requires behind { NoneBehind number (known_by seat.now).seen node.old.node }
    // A whole round leads on from the world from which the seat took the node; all of the mail is delivered.
    ensures whole { OnOk result (IsRound (known_by seat.now) (number - 1) (taken_from (known_by seat.now)) node.new.node) }
    ensures emptied { OnOk result (IsEmptied nodes mail.old mail.new) }
    ensures mail { OnOk result (IsMailOf rules.now number (known_by seat.now).seen node.new.node mail.new) }
    // So does one that was broken off, as far as it came.
    ensures broken_off { OnErr result
        (IsBrokenRound (known_by seat.now) (number - 1) (taken_from (known_by seat.now)) node.new.node) }
    ensures why { IfErr result (λ why. WhyBroken why node.new.node) }
{
    let turn = Turn {
        seat,
        rules,
        nodes,
        node: number,
    };
    turn.play(node, mail, inserts)
}
