//! Audits of reports, worked.
#![tactic(auto)]

#[cfg(test)]
mod audits;
