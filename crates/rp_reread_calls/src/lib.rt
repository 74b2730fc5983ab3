//! Reports read back, worked.
#![tactic(auto)]

#[cfg(test)]
mod reports;
