//! A handover of a node, in every sixteenth round.
ghost use Rattle.std.specs.Prelude.{◌≡◌, ◌<◌, ◌≤◌, ℕ, true, Some, OnOk, IfErr, slice_get, length};
ghost use Rattle.rp_race.specs.Rounds.{due_handover, handed_over, handovers_of, may_apply, stage_of};
ghost use Rattle.rp_serving.specs.Playing.{WhyBroken};
ghost use Rattle.rp_serving.specs.Turns.{Has, known_of, UnderWay, HearsSame, HasFlushed};

use crate::faults::BrokenOff;
use crate::inserts::Inserts;
use crate::turns::Turn;
use rp_base::{Item, NodeId};
use rp_bufcore::BufferEnd;
use rp_node::Node;
use rp_race::{Handover, RaceRules};

/// How many rounds a node's handovers are apart.
const APART: u64 = 16;

/// The handover of a node behind so many of its others.
fn next_handover(rules: &RaceRules, node: NodeId, handed: usize) -> Option<Handover>
    ensures { result ≡ slice_get (handovers_of rules.now node) handed }
{
    let mut left = handed;
    for handover in rules.transfers.as_slice() {
        if handover.node == node {
            if left == 0 {
                return Some(*handover);
            }
            left -= 1;
        }
    }
    None
}

impl<'a, E: BufferEnd + Drop> Turn<'a, E> {
    /// The handover that is due in this round, behind so many.
    fn due_handover(&self, node: &Node<E>, handed: usize) -> Option<Handover>
        requires has { Has self.now }
        requires under_way { UnderWay self.now node.now.node }
        requires handed { handed ≡ handed_over node.now.node.journal }
        ensures { result ≡ due_handover (known_of self.now).terms.rules node.now.node }
    {
        if node.rounds() % APART == APART - 1 {
            next_handover(self.rules, self.node, handed)
        } else {
            None
        }
    }

    /// The handover that is due, if one is, is tried, and its ask goes into the buffer if there is room.
    pub(crate) fn hand_over<I: Inserts>(
        &self,
        node: &mut Node<E>,
        handed: &mut usize,
        inserts: &mut I,
    ) -> Result<(), BrokenOff>
        requires has { Has self.now }
        requires under_way { UnderWay self.now node.old.node }
        requires flushed { HasFlushed node.old.node }
        requires handed { handed.old ≡ handed_over node.old.node.journal }
        ensures may { OnOk result (may_apply (known_of self.now).terms.rules node.new.node (stage_of node.new.node.journal) ≡ true) }
        ensures handed { OnOk result (handed.new ≡ handed_over node.new.node.journal) }
        ensures heard { OnOk result (HearsSame node.old.node node.new.node) }
        ensures under_way { UnderWay self.now node.new.node }
        ensures why { IfErr result (λ why. WhyBroken why node.new.node) }
    {
        let Some(handover) = self.due_handover(node, *handed) else {
            return Ok(());
        };
        let asked = self.transfer(node, handover.range, handover.to)?;
        *handed += 1;
        if let Some(ask) = asked {
            inserts.insert(self.node, handover.range, Item::Lease(ask));
        }
        Ok(())
    }
}
