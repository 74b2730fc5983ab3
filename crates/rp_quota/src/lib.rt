//! A quota of proposals, after CockroachDB's quota pool: the free units of a capacity, and shares
//! that take units and give them back, each by one atomic step.
#![tactic(auto)]

mod calls;
mod faults;
mod plays;
mod quota;
mod rule;

pub use faults::QuotaFault;
pub use quota::{Closed, Quota, Share};
pub use rule::{Holding, Look};
