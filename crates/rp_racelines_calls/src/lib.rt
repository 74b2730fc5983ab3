//! Each call of rp_racelines, with its answer compared.
#![tactic(auto)]

#[cfg(test)]
mod closes;
#[cfg(test)]
mod rules;
#[cfg(test)]
mod samples;
