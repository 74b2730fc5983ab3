//! Snapshots: what a replica has applied, as a leader sends it to one whose entries it has cut away
//! (Raft 2014, section 7).
#![tactic(auto)]

mod snapshots;

pub use snapshots::{Snapshot, make};
