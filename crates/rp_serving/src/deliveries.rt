//! What was copied is delivered.
ghost use Rattle.std.specs.Prelude.{◌≡◌, ◌≢◌, true, OnOk, OnErr, IfErr};
ghost use Rattle.rp_race.specs.Rounds.{between, handed_over, stage_of, may_deliver, may_tick};
ghost use Rattle.rp_serving.specs.Mails.{IsMailOf, IsWhole, IsEmptied};
ghost use Rattle.rp_serving.specs.Playing.{WhyBroken};
ghost use Rattle.rp_serving.specs.Turns.{Has, known_of, UnderWay, AllHeard, IsNextOf, IsLeftOf, Delivers, DeliversAll};

use crate::faults::BrokenOff;
use crate::letters::Letter;
use crate::mails::Mail;
use crate::turns::Turn;
use rp_base::NodeId;
use rp_bufcore::BufferEnd;
use rp_events::{Event, Parcel};
use rp_node::Node;

impl<'a, E: BufferEnd + Drop> Turn<'a, E> {
    /// A message is delivered.
    fn deliver(&self, node: &mut Node<E>, from: NodeId, letter: Letter) -> Result<(), BrokenOff>
        requires has { Has self.now }
        requires under_way { UnderWay self.now node.old.node }
        requires next { IsNextOf (known_of self.now) self.now.node from node.old.node letter }
        requires stage { may_deliver from (stage_of node.old.node.journal) ≡ true }
        ensures ok { OnOk result (Delivers from letter node.old.node node.new.node) }
        ensures under_way { UnderWay self.now node.new.node }
        ensures why { IfErr result (λ why. WhyBroken why node.new.node) }
    {
        let Letter { number, parcel } = letter;
        let Parcel {
            to: _,
            range,
            message,
        } = parcel;
        self.happen(
            node,
            Event::Deliver {
                from,
                range,
                number,
                message,
            },
        )
    }

    /// The messages of a sender are delivered, in order.
    fn deliver_from(
        &self,
        node: &mut Node<E>,
        from: NodeId,
        letters: Vec<Letter>,
    ) -> Result<(), BrokenOff>
        requires has { Has self.now }
        requires under_way { UnderWay self.now node.old.node }
        requires left { IsLeftOf (known_of self.now) self.now.node from node.old.node letters.items }
        requires stage { may_deliver from (stage_of node.old.node.journal) ≡ true }
        ensures ok { OnOk result (DeliversAll (known_of self.now) self.now.node from node.old.node node.new.node) }
        ensures under_way { UnderWay self.now node.new.node }
        ensures why { IfErr result (λ why. WhyBroken why node.new.node) }
    {
        for letter in letters {
            self.deliver(node, from, letter)?;
        }
        Ok(())
    }

    /// All of the mail is delivered, by sender and number.
    pub(crate) fn deliver_all(&self, node: &mut Node<E>, mail: &mut Mail) -> Result<(), BrokenOff>
        requires has { Has self.now }
        requires under_way { UnderWay self.now node.old.node }
        requires mail { IsMailOf (known_of self.now).terms.rules self.now.node (known_of self.now).seen node.old.node mail.old }
        requires whole { IsWhole self.now.node (known_of self.now).seen mail.old }
        requires stage { stage_of node.old.node.journal ≡ between }
        ensures heard { OnOk result (AllHeard self.now node.new.node) }
        ensures stage { OnOk result (may_tick (stage_of node.new.node.journal) ≡ true) }
        ensures handed { OnOk result (handed_over node.new.node.journal ≡ handed_over node.old.node.journal) }
        ensures emptied { OnOk result (IsEmptied self.now.nodes mail.old mail.new) }
        ensures counted { OnOk result (mail.new.handed ≡ mail.old.handed) }
        ensures under_way { UnderWay self.now node.new.node }
        ensures why { IfErr result (λ why. WhyBroken why node.new.node) }
    {
        for place in 0..self.nodes {
            let from = NodeId::new(place + 1).unwrap();
            if from != self.node {
                let letters = mail.take_from(from);
                self.deliver_from(node, from, letters)?;
            }
        }
        Ok(())
    }
}
