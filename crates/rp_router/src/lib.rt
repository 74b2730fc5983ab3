//! Where a client sends a request: which range it takes for the key's, and which node it asks.
#![tactic(auto)]

mod hints;
mod places;

pub use hints::Hints;
