//! A world of one to five nodes that plays the lines of a script.
#![tactic(auto)]

mod commands;
mod events;
mod faults;
mod lines;
mod notes;
mod puts;
mod replies;
mod runs;
mod scenes;
mod seats;
mod settling;
mod stage;
mod turns;
mod weights;
mod widths;
mod worlds;

pub use faults::PlayFault;
pub use worlds::World;
