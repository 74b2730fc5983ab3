//! How a range starts: the first one, and the right part of a split (after CockroachDB's split
//! trigger).
#![tactic(auto)]

mod starts;

pub use starts::{RightStart, first, trigger};
