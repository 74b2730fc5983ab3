//! The audit of a report: it is read back, and its lists are played again on tables of their own.
#![tactic(auto)]

mod audits;
mod entries;
mod items;
pub mod laws;
mod ranges;
mod seen;
mod standings;
mod verdicts;

pub use audits::{audit, judge};
pub use verdicts::{AuditFault, Check, Verdict};
