//! A range's table: its keys and their values, in the order of the keys.
#![tactic(auto)]

pub mod laws;
mod places;
mod tables;

pub use tables::{KeyList, Table};
