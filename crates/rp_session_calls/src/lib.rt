//! Session adds, outcome by outcome.
#![tactic(auto)]

#[cfg(test)]
mod adds;
