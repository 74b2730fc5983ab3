//! A disk: one file that outlives a crash, with what a crash may leave of it, in memory and over the
//! system.
#![tactic(auto)]

mod calls;
mod disk;
mod histories;
mod memory;
mod sound;
mod system;

pub use calls::{CallKind, DiskCall};
pub use disk::Disk;
pub use memory::MemoryDisk;
pub use sound::SoundDisk;
pub use system::FileDisk;
