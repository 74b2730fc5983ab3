//! Raft is safe: laws of the world of one range, for every schedule.
#![tactic(auto)]

pub mod laws;
