//! Payloads as bytes: each payload has one spelling, and bytes are read back exactly where they
//! are one.
#![tactic(auto)]

mod commands;
mod cursors;
mod faults;
mod fields;
pub mod laws;
mod reading;
mod texts;
mod writing;

pub use faults::DecodeFault;
pub use reading::decode;
pub use writing::encode;
