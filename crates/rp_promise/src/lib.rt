//! The promise of a world of nodes, from the machine and Raft's events that stand beside it.
#![tactic(auto)]

pub mod laws;
