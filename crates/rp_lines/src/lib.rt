//! What the lines of a script make of a world of nodes, and what a world shows, as definitions. No body
//! stands here.
#![tactic(auto)]

pub mod laws;
