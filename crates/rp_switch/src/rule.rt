//! The rule of a switch, which holds between any two steps.
use crate::known::Known;
use crate::slots::Slot;
use crate::terms::Terms;
use atomic_table::TableRule;
use rp_bufcore::BufferEnd;

/// The words, the slots and all seats show a world of nodes and the clients' reply cells.
pub struct Law;

impl<E: BufferEnd + Drop> TableRule<Slot<E>, Known, Terms> for Law {
    ghost use Rattle.rp_switch.specs.Rules.{Kept, first};

    ghost holds = { Kept };

    ghost first = { first };
}
