//! A node's buffers, one for each range.
ghost use Rattle.std.specs.Prelude.{◌≡◌, ℕ, ◌+◌, ◌≤◌, List, ◌++◌, length};
ghost use Rattle.rp_base.specs.declared.items.Item.{Item};
ghost use Rattle.rp_base.specs.Limits.{buffer_capacity};
ghost use Rattle.rp_bufcore.specs.Buffers.{fresh, buffer_of, with_buffer, draw_answer, after_draw, publish_answer, after_publish, Collects};

use crate::buffers::{Full, NotDrawn, PlainBuf};
use rp_base::{Item, Items, RangeId};
use std::marker::Model;

/// The end of a node's buffers from which its flushes collect.
pub trait BufferEnd {
    // The end before a collect, the range, the items that it gave, and the end after it.
    ghost gives: { Self → ℕ → List Item → Self → Type 0 };

    /// Appends what is collected from the range's buffer, at most `BUFFER_CAPACITY` items.
    fn collect(&mut self, range: RangeId, out: &mut Items)
        requires { buffer_capacity ≤ out.old.spare }
        ensures { (items : List Item) × (length items ≤ buffer_capacity)
            × (out.new.list ≡ out.old.list ++ items)
            × (out.old.spare ≤ out.new.spare + length items)
            × gives self.old range items self.new };
}

/// A node's buffers, one for each of the eight ranges. Contracts see the list of them.
#[derive(Drop)]
pub struct PlainEnd {
    buffers: [PlainBuf; 8],
}

impl Model for PlainEnd {
    ghost use Rattle.std.specs.Prelude.{List};
    ghost use Rattle.rp_bufcore.specs.Buffers.{Buffer};

    ghost Value = { List Buffer };

    ghost view = { λ e. e.buffers };
}

impl PlainEnd {
    /// Eight open buffers whose places are free. It takes no memory.
    pub fn new() -> PlainEnd
        ensures { result ≡ fresh }
    {
        PlainEnd {
            buffers: [
                PlainBuf::new(),
                PlainBuf::new(),
                PlainBuf::new(),
                PlainBuf::new(),
                PlainBuf::new(),
                PlainBuf::new(),
                PlainBuf::new(),
                PlainBuf::new(),
            ],
        }
    }

    /// Draws the next place of the range's buffer. `Full` exactly where that buffer is closed or
    /// all of its places are drawn.
    pub fn draw(&mut self, range: RangeId) -> Result<u8, Full>
        ensures answer { result ≡ draw_answer (buffer_of self.old range) }
        ensures after { self.new
            ≡ with_buffer self.old range (after_draw (buffer_of self.old range)) }
    {
        let buffer = &mut self.buffers[usize::from(range.get())];
        buffer.draw()
    }

    /// Publishes an item at a drawn place of the range's buffer. `NotDrawn` exactly where the place
    /// is not drawn, or has an item already.
    pub fn publish(&mut self, range: RangeId, place: u8, item: Item) -> Result<(), NotDrawn>
        ensures answer { result ≡ publish_answer (buffer_of self.old range) place }
        ensures after { self.new
            ≡ with_buffer self.old range (after_publish (buffer_of self.old range) place item) }
    {
        let buffer = &mut self.buffers[usize::from(range.get())];
        buffer.publish(place, item)
    }
}

impl BufferEnd for PlainEnd {
    ghost gives = { Collects };

    fn collect(&mut self, range: RangeId, out: &mut Items) {
        let buffer = &mut self.buffers[usize::from(range.get())];
        buffer.collect(out);
    }
}
