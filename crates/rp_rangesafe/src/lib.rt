//! At most once: laws of the machine of one range and of the ranges together, for every list of events.
#![tactic(auto)]

pub mod laws;
