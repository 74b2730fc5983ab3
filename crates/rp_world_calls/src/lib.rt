//! Each call of rp_world, once on its happy path, with its answer compared.
#![tactic(auto)]

#[cfg(test)]
mod plays;
#[cfg(test)]
mod runs;
#[cfg(test)]
mod samples;
