//! What waits is applied.
ghost use Rattle.std.specs.Prelude.{◌≡◌, None, true, OnOk, IfErr};
ghost use Rattle.rp_race.specs.Rounds.{first_waiting, may_apply, stage_of};
ghost use Rattle.rp_serving.specs.Playing.{WhyBroken};
ghost use Rattle.rp_serving.specs.Turns.{Has, known_of, UnderWay, HearsNothing};

use crate::faults::BrokenOff;
use crate::ranges::first_waiting;
use crate::turns::Turn;
use rp_bufcore::BufferEnd;
use rp_events::Event;
use rp_node::Node;

impl<'a, E: BufferEnd + Drop> Turn<'a, E> {
    /// Each entry that waits is applied, by ascending range.
    pub(crate) fn apply_all(&self, node: &mut Node<E>) -> Result<(), BrokenOff>
        requires has { Has self.now }
        requires under_way { UnderWay self.now node.old.node }
        requires may { may_apply (known_of self.now).terms.rules node.old.node (stage_of node.old.node.journal) ≡ true }
        ensures may { OnOk result (may_apply (known_of self.now).terms.rules node.new.node (stage_of node.new.node.journal) ≡ true) }
        ensures none { OnOk result (first_waiting node.new.node ≡ None) }
        ensures heard { OnOk result (HearsNothing node.old.node node.new.node) }
        ensures under_way { UnderWay self.now node.new.node }
        ensures why { IfErr result (λ why. WhyBroken why node.new.node) }
    {
        while let Some(range) = first_waiting(node) {
            self.happen(node, Event::Apply { range })?;
        }
        Ok(())
    }
}
