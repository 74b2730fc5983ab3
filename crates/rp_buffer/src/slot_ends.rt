//! The end of a node's buffers from which its flushes collect.
ghost use Rattle.std.specs.Prelude.{◌≡◌};
ghost use Rattle.rp_buffer.specs.Passes.{IsPassOf};

use crate::flush::FlushPass;
use crate::table::SlotTable;
use rp_base::{Items, RangeId};
use rp_bufcore::BufferEnd;

/// A node's buffers in a slot table, with the pass that collects from them.
#[derive(Drop)]
pub struct SlotEnd<'a> {
    pub(crate) table: &'a SlotTable,
    pub(crate) pass: FlushPass,
    ghost of: { IsPassOf table.now pass.pass },
}

impl<'a> SlotEnd<'a> {
    /// The buffers of the pass's node. It takes no memory.
    pub fn new(table: &'a SlotTable, pass: FlushPass) -> SlotEnd<'a>
        requires { IsPassOf table.now pass.pass }
        ensures pass { result.pass ≡ pass }
    {
        SlotEnd { table, pass }
    }

    /// The pass, with all that it took and keeps.
    pub fn pass(self) -> FlushPass
        ensures { result ≡ self.entry.pass }
    {
        let SlotEnd { table: _, pass } = self;
        pass
    }
}

impl<'a> BufferEnd for SlotEnd<'a> {
    ghost use Rattle.std.specs.Prelude.{◌+◌, ◌-◌, ◌*◌};
    ghost use Rattle.rp_buffer.specs.Passes.{known_by};
    ghost use Rattle.rp_buffer.specs.Collects.{Collects};

    ghost gives = { λ old range items new. Collects (known_by old.pass.pass) (8 * (old.pass.node - 1) + range) items (known_by new.pass.pass) };

    fn collect(&mut self, range: RangeId, out: &mut Items) {
        let buffer = 8 * (self.pass.node.get() - 1) + range.get();
        self.table.collect(&mut self.pass, buffer, out);
    }
}
