//! Evaluation: what a request writes and replies, by the table of the range (CockroachDB evaluates
//! a command once, at the leaseholder, and replicates its writes).
#![tactic(auto)]

mod bounds;
mod evaluations;

pub use bounds::in_bounds;
pub use evaluations::{EvalFault, evaluate};
pub use rp_request::Evaluated;
