//! The buffer in which proposals wait for a flush: many producers draw places in it and publish
//! their items there, and one consumer collects what is published.
#![tactic(auto)]

mod buffers;
mod ends;
pub mod laws;

pub use buffers::{Full, NotDrawn, PlainBuf, Slot};
pub use ends::{BufferEnd, PlainEnd};
