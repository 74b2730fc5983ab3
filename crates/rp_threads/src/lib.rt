//! A slot table, called by one thread and by threads beside one another.
#![tactic(auto)]

#[cfg(test)]
mod one_thread;
#[cfg(test)]
mod producers;
