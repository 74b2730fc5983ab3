//! One range at the nodes: what an event of a seat is to Raft's world of the range and to the range
//! machine.
#![tactic(auto)]

pub mod laws;
