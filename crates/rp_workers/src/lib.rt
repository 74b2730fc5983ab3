//! What the workers do that carry messages between the nodes: here, which messages are lost.
#![tactic(auto)]

mod losses;

pub use losses::lost;
