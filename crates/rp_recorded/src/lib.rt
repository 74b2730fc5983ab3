//! What the nodes of a reached world have recorded, and that it can be shown. No body stands here.
#![tactic(auto)]

pub mod laws;
