//! The router, a client over a desk in memory, and a worker's rounds over a bench in memory.
#![tactic(auto)]

pub mod benches;
pub mod calls;
#[cfg(test)]
mod clients;
pub mod desks;
pub mod fakes;
#[cfg(test)]
mod rounds;
#[cfg(test)]
mod router;
