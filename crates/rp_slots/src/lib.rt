//! Lists into which items are put anywhere, cheaply: what moves are the numbers of slots.
#![tactic(auto)]

mod slotted;

pub use slotted::Slotted;
