//! What the buffers have goes to Raft.
ghost use Rattle.std.specs.Prelude.{◌≡◌, ◌+◌, Some, OnOk, IfErr, slice_get};
ghost use Rattle.rp_race.specs.Rounds.{flushing, live_ranges, stage_of};
ghost use Rattle.rp_serving.specs.Playing.{WhyBroken};
ghost use Rattle.rp_serving.specs.Turns.{Has, UnderWay, HearsNothing, HasFlushed};

use crate::faults::BrokenOff;
use crate::ranges::{RANGES, live_range};
use crate::turns::Turn;
use rp_base::RangeId;
use rp_bufcore::BufferEnd;
use rp_events::Event;
use rp_node::Node;

impl<'a, E: BufferEnd + Drop> Turn<'a, E> {
    /// A collect and a flush of the live range behind so many others.
    fn flush(&self, node: &mut Node<E>, ranges: u8, range: RangeId) -> Result<(), BrokenOff>
        requires has { Has self.now }
        requires under_way { UnderWay self.now node.old.node }
        requires stage { stage_of node.old.node.journal ≡ flushing ranges }
        requires live { slice_get (live_ranges node.old.node) ranges ≡ Some range }
        ensures stage { OnOk result (stage_of node.new.node.journal ≡ flushing (ranges + 1)) }
        ensures heard { OnOk result (HearsNothing node.old.node node.new.node) }
        ensures under_way { UnderWay self.now node.new.node }
        ensures why { IfErr result (λ why. WhyBroken why node.new.node) }
    {
        self.happen(node, Event::Collect { range })?;
        self.happen(node, Event::Flush { range })
    }

    /// A collect and a flush for each live range, ascending.
    pub(crate) fn flush_all(&self, node: &mut Node<E>) -> Result<(), BrokenOff>
        requires has { Has self.now }
        requires under_way { UnderWay self.now node.old.node }
        requires stage { stage_of node.old.node.journal ≡ flushing 0 }
        ensures flushed { OnOk result (HasFlushed node.new.node) }
        ensures heard { OnOk result (HearsNothing node.old.node node.new.node) }
        ensures under_way { UnderWay self.now node.new.node }
        ensures why { IfErr result (λ why. WhyBroken why node.new.node) }
    {
        for ranges in 0..RANGES {
            let Some(range) = live_range(node, ranges) else {
                return Ok(());
            };
            self.flush(node, ranges, range)?;
        }
        Ok(())
    }
}
