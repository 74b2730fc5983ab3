//! The lines of a script make lawful lists of events, and what a player keeps along them.
#![tactic(auto)]

pub mod laws;
