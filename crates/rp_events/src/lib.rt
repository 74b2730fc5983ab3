//! What happens at a replica, at a node and in a world of nodes, as definitions, with the types that
//! they speak of; and what is promised of it. No body stands here: replicas and nodes keep to these
//! definitions, and the laws speak of nothing else.
#![tactic(auto)]

mod answers;
mod journals;
pub mod laws;
mod moves;
mod node_events;
mod parcels;
mod replica_events;
mod world_events;

pub use answers::{Effects, Ended, EventAnswer, Outcomes};
pub use journals::{Journal, JournalEntry, PastEvent};
pub use moves::Move;
pub use node_events::Event;
pub use parcels::{Parcel, Sent};
pub use replica_events::ReplicaEvent;
pub use world_events::WorldEvent;
