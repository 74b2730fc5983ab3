//! The calls of a switch, on one thread and on four beside one another.
#![tactic(auto)]

#[cfg(test)]
mod four_threads;
#[cfg(test)]
mod one_thread;
#[cfg(test)]
mod samples;
#[cfg(test)]
mod visits;
