//! What no seat of a switch can do: laws of what may be posted and given back. No body stands here.
#![tactic(auto)]

pub mod laws;
