//! The rounds in which workers serve the nodes.
#![tactic(auto)]

mod benches;
mod rounds;

pub use benches::Bench;
pub use rounds::serve;
