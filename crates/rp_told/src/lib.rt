//! What an event of a node tells of attempts and leaves of a world, so that what is kept beside the nodes
//! is what the definitions say.
#![tactic(auto)]

pub mod laws;
