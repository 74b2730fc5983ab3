//! What the passes of a slot table know, and the rule of its words and slots.
use crate::rights::Right;
use atomic_table::TableRule;
use rp_base::Item;
use std::collections::LinkedList;

/// Where a pass stands between two steps.
pub enum Stage {
    Idle,
    /// It has drawn this place, whose slot is out with it.
    Drew(u64),
    /// It has taken the item of this place, whose slot is out with it.
    Taking(u64),
}

/// What one step told a pass.
pub enum Look {
    /// The number that was loaded from a buffer's counter.
    Loaded(u64, u64),
    /// The number that an exchange of a buffer's counter asked for, and the one that it found.
    Asked(u64, u64, u64),
    /// The number that a buffer's counter had when it was closed.
    Shut(u64, u64),
    /// The item that was taken at a place.
    Found(u64, Item),
    /// The word that a place had, where nothing was taken.
    Missed(u64, u64),
    /// A buffer was opened again.
    Opened(u64),
}

/// What a pass knows. No value of it is made.
pub struct Hand {
    /// Its parts of the right to close the table.
    pub parts: u64,
    pub stage: Stage,
    /// What it put, as pairs of buffer and item, in order.
    pub put: LinkedList<(u64, Item)>,
    /// What it took, as pairs of buffer and item, in order.
    pub taken: LinkedList<(u64, Item)>,
    /// What its steps told, in order.
    pub looks: LinkedList<Look>,
    /// Its rights to collect, by node.
    pub rights: LinkedList<Right>,
}

/// The words, the slots at home and all passes show a buffer machine for each buffer. The key is the
/// number of buffers.
pub struct Law;

impl TableRule<Option<Item>, Hand, u64> for Law {
    ghost use Rattle.rp_buffer.specs.Slots.{Kept, first};

    ghost holds = { Kept };

    ghost first = { first };
}
