//! Each call of rp_chronicle, once on its happy path, with its answer compared.
#![tactic(auto)]

#[cfg(test)]
mod views;
