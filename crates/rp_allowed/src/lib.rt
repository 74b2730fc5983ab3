//! The conditions of the calls of a node's code hold before every lawful event.
#![tactic(auto)]

pub mod laws;
