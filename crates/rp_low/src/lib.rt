//! The numbers of Raft at the nodes stay below their ends while no journal is full.
#![tactic(auto)]

pub mod laws;
