//! Each public call of the crates below a replica, once on its happy path, and what no clause says.
#![tactic(auto)]

#[cfg(test)]
mod apply;
#[cfg(test)]
mod base;
#[cfg(test)]
mod bufcore;
#[cfg(test)]
mod codec;
#[cfg(test)]
mod eval;
#[cfg(test)]
mod flush;
#[cfg(test)]
mod generator;
#[cfg(test)]
mod latch;
#[cfg(test)]
mod outside;
#[cfg(test)]
mod pending;
#[cfg(test)]
mod quota;
#[cfg(test)]
mod raft;
#[cfg(test)]
mod raftlog;
#[cfg(test)]
mod range;
#[cfg(test)]
mod request;
#[cfg(test)]
mod samples;
#[cfg(test)]
mod slotted;
#[cfg(test)]
mod snapshot;
#[cfg(test)]
mod split;
#[cfg(test)]
mod table;
#[cfg(test)]
mod turns;
#[cfg(test)]
mod workers;
