//! Requests and what they do: their types, replies and refusals, commands, payloads, and the
//! items that a range's replicas apply.
#![tactic(auto)]

mod commands;
mod evaluations;
mod items;
pub mod laws;
mod notes;
mod outcomes;
mod requests;
mod verdicts;

pub use commands::{Batch, Command, Op, Payload, WaitList, Waiting};
pub use evaluations::Evaluated;
pub use items::{Place, Record, Why};
pub use notes::{Note, Notes, Replies, ReplyLine};
pub use outcomes::{Ambiguity, End, Outcome, Refusal, Reply};
pub use requests::{Request, RequestList};
pub use verdicts::Verdict;
