//! Putting items into buffers.
ghost use Rattle.std.specs.Prelude.{◌≡◌, ◌<◌};
ghost use Rattle.rp_buffer.specs.Passes.{known_by, IsPassOf, IsSame, Tells};

use crate::faults::InsertFault;
use crate::plays::{Draw, Load, Publish};
use crate::table::{BUFFERS, Pass, SlotTable};
use rp_base::Item;

/// What a counter shows where no place can be drawn.
const FULL: u64 = 16;

impl SlotTable {
    /// Puts an item into a buffer, by one load and one exchange of its counter. It takes no memory
    /// and does not wait: `Full` where the counter was 16 when it looked, `Raced` where the exchange
    /// saw another number than the one loaded. Both leave the item unput.
    pub fn insert(&self, pass: &mut Pass, buffer: u8, item: Item) -> Result<(), InsertFault>
        requires of { IsPassOf self.now pass.old }
        requires buffer { buffer < 40 }
        ensures same { IsSame pass.old pass.new }
        ensures parts { (known_by pass.new).parts ≡ (known_by pass.old).parts }
        ensures told { Tells (known_by pass.old) buffer item result (known_by pass.new) }
    {
        let shared = &self.table.shared;
        let counter = usize::from(buffer);
        let loaded = shared.load::<Load>(&mut pass.seat, counter);
        let full = loaded == FULL;
        if full {
            return Err(InsertFault::Full { seen: loaded });
        }
        let seen = shared.compare_exchange::<Draw>(&mut pass.seat, counter, loaded, loaded + 1);
        if seen != loaded {
            return Err(InsertFault::Raced { loaded, seen });
        }
        let slot = 16 * counter + loaded as usize;
        shared.exchange(&mut pass.seat, slot, Some(item));
        shared.swap::<Publish>(&mut pass.seat, BUFFERS + slot, 1);
        Ok(())
    }
}
