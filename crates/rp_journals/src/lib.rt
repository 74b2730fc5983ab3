//! What the nodes' own lists say of every lawful schedule: journals, requests, what was sent,
//! outcomes.
#![tactic(auto)]

pub mod laws;
