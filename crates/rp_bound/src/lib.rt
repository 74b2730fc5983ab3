//! The nodes of every world that lawful scenes lead to stand beside the range machine and beside
//! Raft in each range.
#![tactic(auto)]

pub mod laws;
