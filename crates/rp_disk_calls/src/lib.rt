//! The calls of disks, in memory and over the system.
#![tactic(auto)]

pub mod helpers;
#[cfg(test)]
mod memory;
#[cfg(test)]
mod system;
