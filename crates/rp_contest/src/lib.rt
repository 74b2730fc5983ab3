//! One race, from its rules to its nodes at the close and the verdict.
//!
//! ```text
//! let (buffers, pass) = SlotTable::new(alloc)?;          // the nodes' ends borrow the buffers
//! let setting = Setting { nodes: 3, workers: 2, quota: 65_536 };
//! let raced = race(rt, alloc, &buffers, pass, &rules, setting, gate)?;
//! match raced.verdict {
//!     Verdict::Ok => ..,                                  // each command has ended
//!     Verdict::Unfinished { unended } => ..,              // no more is waited for
//!     Verdict::GoesOn => unreachable!(),                  // `race` waits
//! }
//! // raced.nodes, raced.replies: what is reported
//! ```
#![tactic(auto)]

mod closings;
mod copies;
mod openings;
mod raced;
mod races;

pub use raced::{Raced, Setting};
pub use races::race;
