//! Events of a round, each at a node that is not full.
ghost use Rattle.std.specs.Prelude.{◌≡◌, false, OnOk, OnErr, IfErr};
ghost use Rattle.rp_events.specs.declared.node_events.Event.TheVariants as events;
ghost use Rattle.rp_events.specs.Nodes.{is_full};
ghost use Rattle.rp_race.specs.Gives.{after_round};
ghost use Rattle.rp_serving.specs.Playing.{WhyBroken};
ghost use Rattle.rp_serving.specs.Turns.{Has, UnderWay, May, Went};

use crate::faults::BrokenOff;
use crate::turns::Turn;
use rp_base::{LeaseAsk, NodeId, RangeId};
use rp_bufcore::BufferEnd;
use rp_events::{Event, EventAnswer};
use rp_node::Node;
use rp_snapshot::Snapshot;

impl<'a, E: BufferEnd + Drop> Turn<'a, E> {
    /// The round goes on by an event. Where the node is full or memory is refused nothing happens.
    fn answer(&self, node: &mut Node<E>, event: Event<Snapshot>) -> Result<EventAnswer, BrokenOff>
        requires has { Has self.now }
        requires under_way { UnderWay self.now node.old.node }
        requires may { May self.now node.old.node event }
        ensures ok { OnOk result (Went self.now node.old.node event node.new.node) }
        ensures err { OnErr result (node.new.node ≡ node.old.node) }
        ensures why { IfErr result (λ why. WhyBroken why node.new.node) }
    {
        if node.is_full() {
            return Err(BrokenOff::Full);
        }
        match node.step(event) {
            Ok(answer) => Ok(answer),
            Err(_) => Err(BrokenOff::NoMemory),
        }
    }

    /// The round goes on by an event whose answer is no matter.
    pub(crate) fn happen(&self, node: &mut Node<E>, event: Event<Snapshot>) -> Result<(), BrokenOff>
        requires has { Has self.now }
        requires under_way { UnderWay self.now node.old.node }
        requires may { May self.now node.old.node event }
        ensures ok { OnOk result (Went self.now node.old.node event node.new.node) }
        ensures err { OnErr result (node.new.node ≡ node.old.node) }
        ensures why { IfErr result (λ why. WhyBroken why node.new.node) }
    {
        match self.answer(node, event) {
            Ok(_) => Ok(()),
            Err(why) => Err(why),
        }
    }

    /// The node asks that a range's lease goes to another one: the ask, where the node holds the lease.
    pub(crate) fn transfer(
        &self,
        node: &mut Node<E>,
        range: RangeId,
        to: NodeId,
    ) -> Result<Option<LeaseAsk>, BrokenOff>
        requires has { Has self.now }
        requires under_way { UnderWay self.now node.old.node }
        requires may { May self.now node.old.node (events.Transfer range to) }
        ensures ok { OnOk result (Went self.now node.old.node (events.Transfer range to) node.new.node) }
        ensures err { OnErr result (node.new.node ≡ node.old.node) }
        ensures why { IfErr result (λ why. WhyBroken why node.new.node) }
    {
        match self.answer(node, Event::Transfer { range, to }) {
            Ok(EventAnswer::Asked(ask)) => Ok(Some(ask)),
            Ok(_) => Ok(None),
            Err(why) => Err(why),
        }
    }

    /// The round ends. Where the node is full or memory is refused nothing happens.
    pub(crate) fn end(&self, node: &mut Node<E>) -> Result<(), BrokenOff>
        requires has { Has self.now }
        requires under_way { UnderWay self.now node.old.node }
        ensures ok { OnOk result ((node.new.node ≡ after_round node.old.node) × (is_full node.old.node ≡ false)) }
        ensures err { OnErr result (node.new.node ≡ node.old.node) }
        ensures why { IfErr result (λ why. WhyBroken why node.new.node) }
    {
        if node.is_full() {
            return Err(BrokenOff::Full);
        }
        match node.step(Event::Round) {
            Ok(_) => Ok(()),
            Err(_) => Err(BrokenOff::NoMemory),
        }
    }
}
