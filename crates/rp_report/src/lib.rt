//! What a run shows: the view of a world, and its text.
#![tactic(auto)]

mod items;
mod json;
mod json_objects;
mod json_parts;
pub mod laws;
mod outcomes;
mod summaries;
mod texts;
mod views;
mod words;

pub use items::{push_reply, push_request};
pub use json::write_json;
pub use outcomes::{push_outcome, push_refusal};
pub use summaries::write_summary;
pub use texts::{push_range_line, push_replica_lines, write_text};
pub use views::{RangeView, ReplicaView, Row, View};
pub use words::{push_spaced, push_spaced_key, push_value_or_none};
