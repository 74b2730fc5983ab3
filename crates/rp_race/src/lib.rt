//! What a race is: the nodes' journals as clients and workers may write them, which rounds owe which
//! messages, and when a race may end, as definitions over journals and sent lists, with laws of what
//! keeps them. No body stands here.
#![tactic(auto)]

pub mod laws;
mod rules;

pub use rules::{ClientRequests, Handover, RaceRules};
