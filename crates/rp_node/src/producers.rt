//! What producers do at a node's proposal buffers. It is no event of the node.
ghost use Rattle.std.specs.Prelude.{◌≡◌};
ghost use Rattle.rp_bufcore.specs.Buffers.{after_draw, after_publish, buffer_of, draw_answer, publish_answer, with_buffer};

use crate::nodes::Node;
use rp_base::{Item, RangeId};
use rp_bufcore::{Full, NotDrawn, PlainEnd};

impl Node<PlainEnd> {
    /// Draws the next place of the range's buffer. `Full` exactly where that buffer is closed or
    /// all of its places are drawn.
    pub fn draw(&mut self, range: RangeId) -> Result<u8, Full>
        ensures answer { result ≡ draw_answer (buffer_of self.old.end range) }
        ensures after { self.new.end
            ≡ with_buffer self.old.end range (after_draw (buffer_of self.old.end range)) }
        ensures node { self.new.node ≡ self.old.node }
    {
        self.end.draw(range)
    }

    /// Publishes an item at a drawn place of the range's buffer. `NotDrawn` exactly where the place
    /// is not drawn, or has an item already.
    pub fn publish(&mut self, range: RangeId, place: u8, item: Item) -> Result<(), NotDrawn>
        ensures answer { result ≡ publish_answer (buffer_of self.old.end range) place }
        ensures after { self.new.end ≡ with_buffer self.old.end range
            (after_publish (buffer_of self.old.end range) place item) }
        ensures node { self.new.node ≡ self.old.node }
    {
        self.end.publish(range, place, item)
    }
}
