//! Session adds: a key's number rises exactly once, by commands that may be sent again after an ambiguous
//! end. The machine alone: it sends nothing itself.
#![tactic(auto)]

pub mod laws;
mod sessions;
mod tokens;
mod turns;

pub use sessions::Session;
pub use turns::{Stage, Turn};
