//! Where a node's lease asks go.
ghost use Rattle.std.specs.Prelude.{◌<◌};
ghost use Rattle.rp_buffer.specs.Passes.{IsPassOf};

use rp_base::{Item, NodeId, RangeId};
use rp_buffer::{InsertFault, Pass, SlotTable};
use std::sync::Wait;
use std::thread::yield_now;

/// The proposal buffers, as one who puts items in comes to them. Nothing that is claimed of a round
/// rests on them.
pub trait Inserts {
    /// Puts an item into the buffer of a node and a range, if there is room.
    fn insert(&mut self, node: NodeId, range: RangeId, item: Item);
}

/// A slot table, with a pass.
#[derive(Drop)]
pub struct SlotInserts<'a, R: Wait> {
    pub(crate) rt: &'a R,
    pub(crate) table: &'a SlotTable,
    pub(crate) pass: Pass,
    ghost of: { IsPassOf table.now pass },
}

impl<'a, R: Wait> SlotInserts<'a, R> {
    /// It takes no memory.
    pub fn new(rt: &'a R, table: &'a SlotTable, pass: Pass) -> SlotInserts<'a, R>
        requires { IsPassOf table.now pass }
    {
        SlotInserts { rt, table, pass }
    }
}

impl<'a, R: Wait> SlotInserts<'a, R> {
    /// Tries once: whether the item is put, or there is no room for it.
    fn is_settled(&mut self, buffer: u8, item: &Item) -> bool
        requires { buffer < 40 }
    {
        match self.table.insert(&mut self.pass, buffer, *item) {
            Ok(()) | Err(InsertFault::Full { .. }) => true,
            Err(InsertFault::Raced { .. }) => false,
        }
    }
}

impl<'a, R: Wait> Inserts for SlotInserts<'a, R> {
    /// Tries again where another thread came between.
    fn insert(&mut self, node: NodeId, range: RangeId, item: Item) {
        let buffer = 8 * (node.get() - 1) + range.get();
        for _ in self.rt.forever() {
            if self.is_settled(buffer, &item) {
                return;
            }
            yield_now();
        }
    }
}
