//! The check at application, and the applied state of a replica (CockroachDB checks each committed
//! command's lease sequence and lease applied index before a replica applies it).
#![tactic(auto)]

mod batches;
mod machines;
mod pieces;
mod states;

pub use pieces::Piece;
pub use rp_request::Verdict;
pub use states::{ApplyState, check};
