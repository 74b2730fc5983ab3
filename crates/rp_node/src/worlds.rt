//! Several nodes.
ghost use Rattle.std.specs.Prelude.{◌≡◌, ◌≤◌, IfOk, MatchOption, OnErr, length};
ghost use Rattle.rp_bufcore.specs.Buffers.{after_draw, after_publish, buffer_of, draw_answer, fresh, publish_answer, with_buffer};
ghost use Rattle.rp_node.specs.Several.{HasThatMay, StepsAt, end_at, held_at, with_end_at};

use crate::nodes::Node;
use rp_base::{Item, NoMemory, NodeId, RangeId};
use rp_bufcore::{BufferEnd, Full, NotDrawn, PlainEnd};
use rp_events::{Event, EventAnswer};
use rp_snapshot::Snapshot;
use std::marker::Model;

/// The nodes 1, 2, .. of a world. Contracts see them in this order.
#[derive(Drop)]
pub struct Nodes<B: BufferEnd + Drop> {
    list: Vec<Node<B>>,
}

impl<B: BufferEnd + Drop> Model for Nodes<B> {
    ghost use Rattle.std.specs.Prelude.{List};
    ghost use Rattle.std.specs.Coded.{codes};
    ghost use Rattle.rp_base.specs.Tables.{table_code};
    ghost use Rattle.rp_node.specs.Steps.{Held};

    ghost Value = { List (Held B) };

    ghost coded = { Prim.hlevel (codes, table_code) };

    ghost view = { λ n. n.list.items };
}

impl<B: BufferEnd + Drop> Nodes<B> {
    /// The nodes of a vector, the first of which has the number 1. It takes no memory.
    pub fn from_vec(list: Vec<Node<B>>) -> Nodes<B>
        ensures { result ≡ list.items }
    {
        Nodes { list }
    }

    /// How many they are.
    pub fn len(&self) -> usize
        ensures { result ≡ length self.now }
    {
        self.list.len()
    }

    /// All of them, in order.
    pub fn as_slice(&self) -> &[Node<B>]
        ensures { result.now ≡ self.now }
    {
        &self.list
    }

    /// The node with this number, `None` where there is none.
    pub fn get(&self, node: NodeId) -> Option<&Node<B>>
        ensures { MatchOption result (held_at self.now node ≡ None)
            (λ n. held_at self.now node ≡ Some n.now) }
    {
        self.list.get(usize::from(node.get()) - 1)
    }

    /// An event happens at one of the nodes. At want of memory nothing happens.
    pub fn step(&mut self, node: NodeId, event: Event<Snapshot>) -> Result<EventAnswer, NoMemory>
        requires { HasThatMay self.old node event }
        ensures ok { IfOk result (λ answer. StepsAt B.gives self.old node event self.new answer) }
        ensures err { OnErr result (self.new ≡ self.old) }
    {
        self.list[usize::from(node.get()) - 1].step(event)
    }
}

impl Nodes<PlainEnd> {
    /// Draws the next place in the buffer of a node and a range. `Full` exactly where that buffer is
    /// closed or all of its places are drawn.
    pub fn draw(&mut self, node: NodeId, range: RangeId) -> Result<u8, Full>
        requires { node ≤ length self.old }
        ensures answer { result ≡ draw_answer (buffer_of (end_at fresh self.old node) range) }
        ensures after { self.new ≡ with_end_at
            (λ end. with_buffer end range (after_draw (buffer_of end range))) self.old node }
    {
        self.list[usize::from(node.get()) - 1].draw(range)
    }

    /// Publishes an item at a drawn place in the buffer of a node and a range. `NotDrawn` exactly where
    /// the place is not drawn, or has an item already.
    pub fn publish(
        &mut self,
        node: NodeId,
        range: RangeId,
        place: u8,
        item: Item,
    ) -> Result<(), NotDrawn>
        requires { node ≤ length self.old }
        ensures answer { result ≡ publish_answer (buffer_of (end_at fresh self.old node) range) place }
        ensures after { self.new ≡ with_end_at
            (λ end. with_buffer end range (after_publish (buffer_of end range) place item)) self.old node }
    {
        self.list[usize::from(node.get()) - 1].publish(range, place, item)
    }
}
