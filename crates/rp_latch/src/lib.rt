//! Latches: which spans of keys the pending commands hold (CockroachDB's span latches).
#![tactic(auto)]

mod ages;
mod holds;
mod index;
mod latches;
mod tags;

pub use holds::{Held, Hold};
pub use latches::Latches;
