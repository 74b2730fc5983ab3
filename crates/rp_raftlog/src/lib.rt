//! The log of a replica: entries behind a base. What stands at or below the base was cut away.
#![tactic(auto)]

mod entries;
mod logs;
mod overlay;
mod payloads;
mod segments;

pub use entries::{Entries, Entry, copies};
pub use logs::{Log, Mismatch};
pub use payloads::SharedBytes;
