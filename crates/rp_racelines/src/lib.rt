//! What a race needs to know of its script and of its nodes: its rules by the lines of the script, and
//! at the close the reply lines of its commands, and how it ended.
#![tactic(auto)]

mod attempts;
pub mod laws;
mod lines;
mod race_ends;
mod reply_lines;
mod verdicts;

pub use lines::rules_of;
pub use race_ends::{is_whole, judge};
pub use reply_lines::replies;
pub use verdicts::Verdict;
