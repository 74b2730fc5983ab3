//! What several nodes show: the one list of each range, and the view of a whole world.
#![tactic(auto)]

mod lists;
mod pieces;
mod replicas;
mod seats;
mod views;

pub use lists::{RangeList, assemble};
pub use views::view;
