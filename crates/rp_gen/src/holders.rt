//! Which node holds each range that a script has made so far.
ghost use Rattle.std.specs.Prelude.{◌≡◌, ◌+◌, ◌<◌, ◌≤◌, [], ◌∷◌, ◌++◌, length, slice_index, slice_set, IfOk, OnOk, OnErr};

use rp_base::{NoMemory, NodeId};
use std::alloc::Global;
use std::marker::Model;

/// The holder of each range that is made, by the range's number; 1 to 4 ranges. Contracts see the
/// list of their numbers.
#[derive(Drop)]
pub(crate) struct Holders {
    nodes: Vec<NodeId>,
}

impl Model for Holders {
    ghost use Rattle.std.specs.Prelude.{ℕ, ◌≤◌, List, length};

    ghost Value = { List ℕ };

    ghost view = { λ h. h.nodes.items };

    ghost invariant = { λ h. (1 ≤ length h.nodes.items) × (length h.nodes.items ≤ 4) };
}

impl Holders {
    /// One range, which this node holds.
    pub(crate) fn new(alloc: Global, first: NodeId) -> Result<Holders, NoMemory>
        ensures { IfOk result (λ holders. holders ≡ first ∷ []) }
    {
        let nodes = vec![in alloc; first]?;
        Ok(Holders { nodes })
    }

    /// How many ranges are made.
    pub(crate) fn made(&self) -> u32
        ensures made { result ≡ length self.now }
        ensures some { 1 ≤ result }
        ensures most { result ≤ 4 }
    {
        self.nodes.len() as u32
    }

    /// The holder of a range.
    pub(crate) fn of(&self, range: u32) -> NodeId
        requires { range < length self.now }
        ensures { result ≡ slice_index self.now range }
    {
        self.nodes[range as usize]
    }

    /// The next range is made, and this node holds it.
    pub(crate) fn add(&mut self, holder: NodeId) -> Result<(), NoMemory>
        requires { length self.old < 4 }
        ensures ok { OnOk result (self.new ≡ self.old ++ holder ∷ []) }
        ensures err { OnErr result (self.new ≡ self.old) }
    {
        self.nodes.push(holder)?;
        Ok(())
    }

    /// Another node holds the range.
    pub(crate) fn hand_over(&mut self, range: u32, to: NodeId)
        requires { range < length self.old }
        ensures { self.new ≡ slice_set self.old range to }
    {
        self.nodes[range as usize] = to;
    }
}
