//! Each event of a replica, once on its happy path, with its answer compared.
#![tactic(auto)]

#[cfg(test)]
mod applies;
#[cfg(test)]
mod begins;
#[cfg(test)]
mod deliveries;
#[cfg(test)]
mod events;
#[cfg(test)]
mod samples;
#[cfg(test)]
mod ticks;
#[cfg(test)]
mod turns;
