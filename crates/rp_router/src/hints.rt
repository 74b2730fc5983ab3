//! What a client knows of where ranges are served.
ghost use Rattle.std.specs.Prelude.{◌≡◌, ◌≤◌, ◌<◌, IfSome};
ghost use Rattle.rp_router.specs.Hints.{started, unknown, hint_of, holds_at, found_at, found, aimed_range, aimed_node, next_node, newer, with_holder, with_desc, turned, learnt, NamesNode};

use crate::places::Hint;
use rp_base::{Desc, Key, NodeId, RangeId};
use rp_range::first_desc;
use rp_request::Refusal;
use std::marker::Model;

/// How many ranges there are at most.
const RANGES: usize = 8;

/// Hints by which a client of a range cache finds a key's range and its leaseholder (after
/// CockroachDB's DistSender): for each of the eight ranges a description, where one was told, and
/// the node to ask; and the range whose turn it is where no known one has the key. They are hints
/// alone, and a request that they send astray is refused. Contracts see the number of nodes, the
/// hints by range, and the turn.
#[derive(Clone, Copy)]
pub struct Hints {
    nodes: u8,
    hints: [Hint; RANGES],
    turn: u8,
}

impl Model for Hints {
    ghost use Rattle.std.specs.Prelude.{◌≤◌, All};
    ghost use Rattle.rp_router.specs.Hints.{Known};

    ghost Value = { Known };

    ghost view = { λ h. record { nodes = h.nodes; hints = h.hints; turn = h.turn } };

    ghost invariant = { λ h. (1 ≤ h.nodes) × (h.nodes ≤ 5) × All (λ x. x.holder ≤ h.nodes) h.hints };

    ghost inverse = { λ k. record { nodes = k.nodes; hints = k.hints; turn = k.turn } };
}

impl Hints {
    /// What a client of so many nodes knows at first: range 0 has all keys, and node 1 is asked.
    pub fn start(nodes: u8) -> Hints
        requires some { 1 ≤ nodes }
        requires most { nodes ≤ 5 }
        ensures { result ≡ started nodes }
    {
        let first = NodeId::new(1).unwrap();
        let mut hints = [unknown(); RANGES];
        hints[0] = Hint {
            desc: Some(first_desc()),
            holder: first,
        };
        Hints {
            nodes,
            hints,
            turn: 0,
        }
    }

    /// The node to ask for a key, and the range to name.
    pub fn aim(&self, key: Key) -> (NodeId, RangeId)
        ensures node { result.0 ≡ aimed_node self.now key }
        ensures range { result.1 ≡ aimed_range self.now key }
        ensures one { result.0 ≤ self.now.nodes }
    {
        let range = self.range_of(key.bound());
        (self.hint(range).holder, range)
    }

    /// Learns from the refusal of a request that a node was asked for in a range. A refusal that
    /// tells nothing of ranges and nodes changes nothing.
    pub fn learn(&mut self, node: NodeId, range: RangeId, refusal: &Refusal)
        requires node { node ≤ self.old.nodes }
        requires names { NamesNode self.old.nodes refusal.now }
        ensures { self.new ≡ learnt self.old node range refusal.now }
    {
        match *refusal {
            Refusal::NoReplica => {
                let next = self.after(node);
                self.set_holder(range, next);
                self.turn();
            }
            Refusal::NotLeaseHolder { lease } => self.set_holder(range, lease.holder),
            Refusal::RangeMismatch { desc } => {
                self.set_desc(range, desc);
                self.turn();
            }
            Refusal::Latched { .. }
            | Refusal::ConditionFailed { .. }
            | Refusal::IsText { .. }
            | Refusal::Overflow { .. }
            | Refusal::Short { .. }
            | Refusal::TooWide { .. }
            | Refusal::NotInside
            | Refusal::SplitLimit { .. } => {}
        }
    }

    fn hint(&self, range: RangeId) -> Hint
        ensures hint { result ≡ hint_of self.now range }
        ensures one { result.holder ≤ self.now.nodes }
    {
        self.hints[usize::from(range.get())]
    }

    fn range_of(&self, key: u128) -> RangeId
        ensures { result ≡ aimed_range self.now key }
    {
        let range = best(&self.hints, key).unwrap_or(usize::from(self.turn) % RANGES);
        RangeId::new(range as u8).unwrap()
    }

    /// The next node, cyclically.
    fn after(&self, node: NodeId) -> NodeId
        ensures next { result ≡ next_node self.now.nodes node }
        ensures one { result ≤ self.now.nodes }
    {
        NodeId::new(node.get() % self.nodes + 1).unwrap()
    }

    fn set_holder(&mut self, range: RangeId, node: NodeId)
        requires { node ≤ self.old.nodes }
        ensures { self.new ≡ with_holder range node self.old }
    {
        let hint = self.hint(range);
        self.hints[usize::from(range.get())] = Hint {
            desc: hint.desc,
            holder: node,
        };
    }

    fn set_desc(&mut self, range: RangeId, desc: Desc)
        ensures { self.new ≡ with_desc range desc self.old }
    {
        let hint = self.hint(range);
        self.hints[usize::from(range.get())] = Hint {
            desc: Some(newer(hint.desc, desc)),
            holder: hint.holder,
        };
    }

    fn turn(&mut self)
        ensures { self.new ≡ turned self.old }
    {
        self.turn = self.turn.wrapping_add(1);
    }
}

/// Nothing is known of a range, and node 1 is asked.
fn unknown() -> Hint
    ensures { result ≡ unknown }
{
    Hint {
        desc: None,
        holder: NodeId::new(1).unwrap(),
    }
}

fn newer(known: Option<Desc>, desc: Desc) -> Desc
    ensures { result ≡ newer known desc }
{
    match known {
        Some(old) if desc.level < old.level => old,
        _ => desc,
    }
}

/// Whether the description is known, of this level, and its bounds hold the key.
fn holds_at(hint: &Hint, level: u8, key: u128) -> bool
    ensures { result ≡ holds_at level key hint.now }
{
    match hint.desc {
        Some(desc) => desc.level == level && desc.start <= key && key < desc.end,
        None => false,
    }
}

/// The least range of this level that holds the key.
fn found_at(hints: &[Hint; RANGES], level: u8, key: u128) -> Option<usize>
    ensures found { result ≡ found_at level key hints.now }
    ensures below { IfSome result (λ range. range < 8) }
{
    hints.iter().position(|hint| holds_at(hint, level, key))
}

/// The known range that holds the key, of the greatest level.
fn best(hints: &[Hint; RANGES], key: u128) -> Option<usize>
    ensures found { result ≡ found key hints.now }
    ensures below { IfSome result (λ range. range < 8) }
{
    found_at(hints, 3, key)
        .or(found_at(hints, 2, key))
        .or(found_at(hints, 1, key))
        .or(found_at(hints, 0, key))
}
