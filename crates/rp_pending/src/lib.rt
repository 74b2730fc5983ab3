//! The proposals of a replica that have not ended: commands that wait for a lease index, and those
//! that were handed to the log and are proposed again where they were lost.
#![tactic(auto)]

mod bounds;
pub mod laws;
mod lists;
mod proposals;
mod refreshes;
mod shelf;
mod slots;

pub use lists::Pending;
pub use proposals::{Proposal, Stage, Standing};
pub use refreshes::{Ids, Refresh, Standings};
