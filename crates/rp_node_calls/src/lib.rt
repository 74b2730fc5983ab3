//! Each call of rp_node, once on its happy path, with its answer compared.
#![tactic(auto)]

#[cfg(test)]
mod answers;
#[cfg(test)]
mod buffers;
#[cfg(test)]
mod deliveries;
#[cfg(test)]
mod rounds;
#[cfg(test)]
mod samples;
#[cfg(test)]
mod several;
#[cfg(test)]
mod steps;
