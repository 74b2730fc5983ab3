//! Who holds a lease is one of the nodes, and so is whom a refusal names: laws of every reached world.
#![tactic(auto)]

pub mod laws;
