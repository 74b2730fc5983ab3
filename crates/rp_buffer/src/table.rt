//! A slot table and its passes.
ghost use Rattle.std.specs.Prelude.{◌≡◌, ◌<◌, []};
ghost use Rattle.rp_buffer.specs.declared.rule.Stage.TheVariants.{Idle};

use crate::rights::Right;
use crate::rule::{Hand, Law};
use atomic_table::{Seat, Table};
use rp_base::Item;
use std::alloc::Global;

/// How many buffers a table has: eight for each of five nodes.
pub(crate) const BUFFERS: usize = 40;

/// Forty proposal buffers. Buffer 8 * (node - 1) + range is that of a node's range. Threads step
/// through a `&SlotTable`, each with a pass of its own.
#[derive(Drop)]
pub struct SlotTable {
    pub(crate) table: Table<Option<Item>, Hand, u64, Law, Global>,
    ghost keyed: { table.shared.key ≡ 40 },
    ghost counted: { (table.shared.table_id.words ≡ 680) × (table.shared.table_id.slots ≡ 640) },
}

/// The right of one thread to step. Contracts see what it knows: its parts of the right to close
/// the table, what it put and took, what its steps told, and its rights to collect.
#[derive(Drop)]
pub struct Pass {
    pub(crate) seat: Seat<Option<Item>, Hand>,
    pub(crate) rights: [Right; 5],
    ghost holds_no_slot: { seat.me.1 ≡ [] },
    ghost is_idle: { seat.me.0.stage ≡ Idle },
    ghost has_part: { 0 < seat.me.0.parts },
    ghost same_rights: { rights ≡ seat.me.0.rights },
}
