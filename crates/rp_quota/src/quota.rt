//! A quota, its shares, and what a closed one leaves.
ghost use Rattle.std.specs.Prelude.{◌≡◌, ◌<◌, []};

use crate::rule::{Holding, Law};
use atomic_table::{Seat, Table};
use std::alloc::Global;

/// The units of a capacity, of which shares hold some and the others are free. Threads take and
/// give through a `&Quota`, each with a share of its own. Contracts see its capacity.
pub struct Quota {
    pub(crate) table: Table<(), Holding, u64, Law, Global>,
    pub(crate) capacity: u64,
    ghost keyed: { capacity ≡ table.shared.key },
    ghost one_word: { (table.shared.table_id.words ≡ 1) × (table.shared.table_id.slots ≡ 0) },
}

/// A share of a quota, with the units that it holds. Contracts see what it knows: its parts of the
/// right to close, those units, and what its steps told.
#[derive(Drop)]
pub struct Share {
    pub(crate) seat: Seat<(), Holding>,
    ghost holds_no_slot: { seat.me.1 ≡ [] },
    ghost has_part: { 0 < seat.me.0.parts },
}

/// What a quota had when it was closed.
#[derive(Clone, Copy, PartialEq, Eq)]
pub struct Closed {
    /// The units that were free.
    pub free: u64,
    /// The units that the last share held.
    pub held: u64,
}
