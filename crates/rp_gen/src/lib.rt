//! Large scripts, made from a number: the same number and size give the same script.
#![tactic(auto)]

mod drafts;
mod holders;
mod ranges;
mod scripts;
mod words;

pub use scripts::make;
