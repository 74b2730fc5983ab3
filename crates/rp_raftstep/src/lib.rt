//! One event of a replica's part in Raft, as a definition, and the types that it speaks of (Raft 2014).
#![tactic(auto)]

mod events;
mod heads;
mod messages;
mod snaps;

pub use events::{Payloads, RaftEvent, RaftOut};
pub use heads::{Due, Head, Role};
pub use messages::Message;
pub use snaps::MakeSnap;
