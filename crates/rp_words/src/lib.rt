//! The words of the program: what they ask for, or that they are no use of it.
#![tactic(auto)]

mod asks;
mod commands;
mod readings;

pub use asks::{Asked, Form, RacePlan, WordsFault};
pub use readings::read_words;
