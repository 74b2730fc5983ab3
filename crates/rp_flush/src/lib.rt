//! The order of a flush: which proposals go to Raft, in which order, and the lease index of each.
#![tactic(auto)]

mod assigns;
pub mod laws;
mod waits;

pub use assigns::{Assigned, assign};
pub use rp_request::WaitList;
