//! The nodes with their buffers, and what all their messages weigh.
ghost use Rattle.std.specs.Prelude.{◌≡◌, ◌≤◌, ℕ, false, [], ◌∷◌, ◌++◌, length, IfOk, OnOk, OnErr};
ghost use Rattle.rp_script.specs.Bounds.{IsNode};
ghost use Rattle.rp_bufcore.specs.Buffers.{buffer_of, draw_answer, given, publish_answer};
ghost use Rattle.rp_events.specs.Buffered.{buffered_step, buffers_at, first_buffered};
ghost use Rattle.rp_events.specs.declared.world_events.WorldEvent.TheVariants as events;
ghost use Rattle.rp_lines.specs.Players.{weight};
ghost use Rattle.rp_lawful.specs.Comings.{Comes, node_in};
ghost use Rattle.rp_world.specs.Comes.{answer_in, buffered_of, ended_by, first_held, is_peek, is_value};
ghost use Rattle.rp_world.specs.Weighing.{capped};

use crate::scenes::{behind, happen, node_of, sent_by};
use crate::weights::sent_weight;
use rp_base::{Item, NoMemory, NodeId, RangeId};
use rp_bufcore::{Full, NotDrawn, PlainEnd};
use rp_events::{Ended, EventAnswer, WorldEvent};
use rp_node::{Node, Nodes};
use std::alloc::Global;
use std::marker::Model;

/// The nodes with their buffers, and what all their messages weigh. Contracts see the nodes and the
/// buffers.
#[derive(Drop)]
pub(crate) struct Stage {
    alloc: Global,
    nodes: Nodes<PlainEnd>,
    weight: u64,
}

impl Model for Stage {
    ghost use Rattle.std.specs.Coded.{codes};
    ghost use Rattle.rp_base.specs.Tables.{table_code};
    ghost use Rattle.rp_events.specs.Buffered.{Buffered};
    ghost use Rattle.rp_world.specs.Comes.{buffered_of};
    ghost use Rattle.rp_world.specs.Weighing.{IsWeighed};

    ghost Value = { Buffered };

    ghost coded = { Prim.hlevel (codes, table_code) };

    ghost view = { λ s. buffered_of s.nodes };

    ghost invariant = { λ s. IsWeighed s.nodes s.weight };
}

/// So many nodes as they start, each with its buffers.
fn first_nodes(alloc: Global, nodes: u8) -> Result<Nodes<PlainEnd>, NoMemory>
    requires { nodes ≤ 5 }
    ensures { IfOk result (λ list. buffered_of list ≡ first_buffered nodes) }
{
    let mut list = Vec::new(alloc);
    for number in 0..nodes {
        push_node(alloc, &mut list, number + 1, nodes)?;
    }
    Ok(Nodes::from_vec(list))
}

/// The next node stands behind the others.
fn push_node(
    alloc: Global,
    list: &mut Vec<Node<PlainEnd>>,
    number: u8,
    nodes: u8,
) -> Result<(), NoMemory>
    requires from_one { 1 ≤ number }
    requires within { number ≤ nodes }
    requires few { nodes ≤ 5 }
    ensures { OnOk result (list.new.items ≡ list.old.items ++ first_held nodes number ∷ []) }
{
    let node = NodeId::new(number).unwrap();
    list.push(Node::start(alloc, node, nodes, PlainEnd::new()))?;
    Ok(())
}

impl Stage {
    /// So many nodes as they start.
    pub(crate) fn start(alloc: Global, nodes: u8) -> Result<Stage, NoMemory>
        requires { nodes ≤ 5 }
        ensures { IfOk result (λ stage. stage ≡ first_buffered nodes) }
    {
        Ok(Stage {
            alloc,
            nodes: first_nodes(alloc, nodes)?,
            weight: 0,
        })
    }

    /// What is left where no more lines are played: the nodes.
    pub(crate) fn into_nodes(self) -> Nodes<PlainEnd>
        ensures { buffered_of result ≡ self }
    {
        let Stage { nodes, .. } = self;
        nodes
    }

    /// The nodes.
    pub(crate) fn nodes(&self) -> &Nodes<PlainEnd>
        ensures { buffered_of result.now ≡ self.now }
    {
        &self.nodes
    }

    /// What all messages weigh, as far as it can be counted.
    pub(crate) fn weight(&self) -> u64
        ensures { result ≡ capped (weight self.now.nodes) }
    {
        self.weight
    }

    /// A collect gives no more than a buffer holds. There is nothing to do.
    pub(crate) fn few_given(&self)
        ensures { (node : ℕ) (range : ℕ)
            → length (given (buffer_of (buffers_at self.now node) range)) ≤ 16 }
    {
        let _alloc = &self.alloc;
    }

    /// How attempts ended that a node admitted; nothing where there is no such node.
    pub(crate) fn ended(&self, node: NodeId) -> &[Ended]
        ensures { result.now ≡ ended_by self.now.nodes node }
    {
        match self.nodes.get(node) {
            Some(node) => node.outcomes().as_slice(),
            None => &[],
        }
    }

    /// An event of a node. At want of memory nothing happens.
    #[inline(never)]
    pub(crate) fn step(&mut self, event: &WorldEvent) -> Result<EventAnswer, NoMemory>
        requires { Comes self.old event.now }
        ensures stage { OnOk result (self.new ≡ buffered_step self.old event.now) }
        ensures answer { IfOk result (λ answer. answer ≡ answer_in self.new.nodes (node_in event.now)) }
        ensures value { is_peek event.now ≡ false → IfOk result (λ answer. is_value answer ≡ false) }
        ensures err { OnErr result (self.new ≡ self.old) }
    {
        let node = node_of(event);
        let before = sent_by(&self.nodes, node).len();
        let answer = happen(self.alloc, &mut self.nodes, event)?;
        let more = sent_weight(behind(sent_by(&self.nodes, node), before));
        self.weight = self.weight.saturating_add(more);
        Ok(answer)
    }

    /// Draws the next place in the buffer of a node and a range. `Full` exactly where that buffer is
    /// closed or all of its places are drawn.
    pub(crate) fn draw(&mut self, node: NodeId, range: RangeId) -> Result<u8, Full>
        requires { IsNode (length self.old.nodes) node }
        ensures answer { result ≡ draw_answer (buffer_of (buffers_at self.old node) range) }
        ensures stage { self.new ≡ buffered_step self.old (events.Draw node range) }
    {
        self.nodes.draw(node, range)
    }

    /// Publishes an item at a place in the buffer of a node and a range. `NotDrawn` exactly where the
    /// place is not drawn, or has an item already.
    pub(crate) fn publish(
        &mut self,
        node: NodeId,
        range: RangeId,
        place: u8,
        item: Item,
    ) -> Result<(), NotDrawn>
        requires { IsNode (length self.old.nodes) node }
        ensures answer { result
            ≡ publish_answer (buffer_of (buffers_at self.old node) range) place }
        ensures stage { self.new ≡ buffered_step self.old (events.Publish node range place item) }
    {
        self.nodes.publish(node, range, place, item)
    }
}
