//! A store: payloads on a disk, of which the last outlives a crash at any moment.
#![tactic(auto)]

mod append;
mod heads;
pub mod laws;
mod reads;
mod settle;
mod store;
mod troubles;
mod walks;

pub use store::{DISK_BYTES_MOST, OpenFault, SaveFault, Store, open};
