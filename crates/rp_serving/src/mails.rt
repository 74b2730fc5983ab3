//! What is copied for a node, until a round of it delivers it.
ghost use Rattle.std.specs.Prelude.{◌≡◌, ◌≢◌, ℕ, ◌-◌, ◌≤◌, [], length, slice_get, Some, true, false};
ghost use Rattle.rp_events.specs.Nodes as events;
ghost use Rattle.rp_events.specs.Worlds.{World};
ghost use Rattle.rp_race.specs.declared.rules.RaceRules as race;
ghost use Rattle.rp_race.specs.Gives.{NoneBehind};
ghost use Rattle.rp_serving.specs.declared.lanes.Lane.{Lane};
ghost use Rattle.rp_serving.specs.Mails.{lane_in, IsMailOf, IsWhole, LagsIn, IsCopied, IsEmptiedLane};

use crate::lanes::Lane;
use crate::letters::Letter;
use rp_base::{NoMemory, NodeId};
use rp_bufcore::BufferEnd;
use rp_node::Node;
use rp_race::RaceRules;
use std::alloc::Global;

/// What a worker keeps for the rounds of one node: of each other node the messages that were copied
/// and not delivered yet; and how many of its handovers the node has tried.
#[derive(Drop)]
pub struct Mail {
    pub(crate) alloc: Global,
    pub(crate) node: NodeId,
    pub(crate) lanes: [Lane; 5],
    pub(crate) handed: usize,
}

/// There is a lane for each of five nodes.
fn five(lanes: &[Lane; 5])
    ensures { length lanes.now ≡ 5 }
{}

impl Mail {
    /// The mail of a node to which nothing has happened. It takes no memory.
    pub fn new(alloc: Global, node: NodeId) -> Mail
        ensures { (rules : race.RaceRules) (seen : World) (n : events.Node) → n.journal ≡ []
            → IsMailOf rules node seen n result }
    {
        Mail {
            alloc,
            node,
            lanes: [
                Lane::new(alloc),
                Lane::new(alloc),
                Lane::new(alloc),
                Lane::new(alloc),
                Lane::new(alloc),
            ],
            handed: 0,
        }
    }

    /// Copies the messages of another node that came since the last time, as far as they go to this
    /// node and are not lost; it looks at nothing twice. At want of memory some are copied, in order.
    pub fn copy_from<E: BufferEnd + Drop>(
        &mut self,
        rules: &RaceRules,
        from: NodeId,
        sender: &Node<E>,
    ) -> Result<(), NoMemory>
        requires { (lane : Lane) → lane_in self.old from ≡ Some lane → lane.copied ≤ length sender.now.node.sent }
        ensures lane { (old : Lane) × (new : Lane) × (lane_in self.old from ≡ Some old)
            × (lane_in self.new from ≡ Some new)
            × IsCopied rules.now from self.old.node sender.now.node old result new }
        ensures others { (k : ℕ) → k ≢ from - 1
            → slice_get self.new.lanes k ≡ slice_get self.old.lanes k }
        ensures node { self.new.node ≡ self.old.node }
        ensures handed { self.new.handed ≡ self.old.handed }
    {
        let place = usize::from(from.get()) - 1;
        self.lanes[place].copy(self.alloc, rules, from, self.node, sender)
    }

    /// There is a lane for each of five nodes.
    pub(crate) fn five(&self)
        ensures { length self.now.lanes ≡ 5 }
    {
        five(&self.lanes);
    }

    /// Takes the letters of a sender out. It takes no memory.
    pub(crate) fn take_from(&mut self, from: NodeId) -> Vec<Letter>
        ensures taken { (lane : Lane) × (lane_in self.old from ≡ Some lane)
            × (result.items ≡ lane.letters.list) }
        ensures lane { (before : Lane) (after : Lane) → lane_in self.old from ≡ Some before
            → lane_in self.new from ≡ Some after → IsEmptiedLane before after }
        ensures others { (k : ℕ) → k ≢ from - 1
            → slice_get self.new.lanes k ≡ slice_get self.old.lanes k }
        ensures node { self.new.node ≡ self.old.node }
        ensures handed { self.new.handed ≡ self.old.handed }
    {
        let place = usize::from(from.get()) - 1;
        self.lanes[place].take(self.alloc)
    }

    /// Whether some other of so many nodes, when it was copied from, had more than two rounds less
    /// than this.
    pub fn is_behind(&self, nodes: u8, rounds: u64) -> bool
        requires { nodes ≤ 5 }
        ensures none { (seen : World) → length seen ≡ nodes → IsWhole self.now.node seen self.now → (n : events.Node)
            → n.rounds ≡ rounds → result ≡ false → NoneBehind self.now.node seen n }
        ensures some { result ≡ true → (from : ℕ) × (from ≤ nodes) × LagsIn self.now from rounds }
    {
        self.five();
        for place in 0..nodes {
            let is_other = place + 1 != self.node.get();
            if is_other && self.lanes[usize::from(place)].rounds < rounds.saturating_sub(2) {
                return true;
            }
        }
        false
    }
}
