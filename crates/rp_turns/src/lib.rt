//! What a lawful scene makes of each range: a turn of the range machine, behind which the range stands
//! beside it at all nodes.
#![tactic(auto)]

pub mod laws;
