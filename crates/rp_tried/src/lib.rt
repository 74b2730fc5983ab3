//! What a client's tries say of the world of a race: laws for desks, for the end of a race and for the
//! replies that are shown of it.
#![tactic(auto)]

pub mod laws;
