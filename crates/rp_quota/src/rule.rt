//! What the shares of a quota know, and the rule of the word that has the free units.
use atomic_table::TableRule;
use std::collections::LinkedList;

/// What one step on the free units told a share.
pub enum Look {
    /// The number that was loaded.
    Loaded(u64),
    /// The number that an exchange asked for, and the one that it found.
    Asked(u64, u64),
}

/// What a share knows. No value of it is made.
pub struct Holding {
    /// Its parts of the right to close the quota.
    pub parts: u64,
    /// The units that it holds.
    pub units: u64,
    /// What its steps told, in order.
    pub looks: LinkedList<Look>,
}

/// Free units and those of all shares are the capacity, which is the table's key.
pub struct Law;

impl TableRule<(), Holding, u64> for Law {
    ghost use Rattle.rp_quota.specs.Units.{Kept, first};

    ghost holds = { Kept };

    ghost first = { first };
}
