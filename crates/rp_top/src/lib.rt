//! The calls of the program: from words and bytes to bytes and a status.
#![tactic(auto)]

mod calls;
mod outputs;
mod plays;
mod races;
mod sources;
mod statuses;
mod stops;
mod tops;

pub use calls::{gen_call, run_call};
pub use races::race_call;
pub use rp_script::LineKind;
pub use rp_words::{Form, RacePlan};
pub use statuses::Status;
pub use tops::top_call;
