//! What a report spells, a script reads: the laws that join the two.
#![tactic(auto)]

pub mod laws;
