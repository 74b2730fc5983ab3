//! Laws of what a round asks of the buffers. No program calls these functions.
ghost use Rattle.rp_serving.specs.Playing.{GivesFew};

use rp_bufcore::BufferEnd;
use rp_buffer::SlotEnd;

/// A collect from a slot table gives no more than a buffer holds.
pub fn slot_ends_give_few()
    ensures { GivesFew ⟦<SlotEnd<'static> as BufferEnd>⟧.gives }
{}
