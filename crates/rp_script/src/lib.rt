//! The lines of a script: every form of line is read, or refused at its word.
#![tactic(auto)]

mod faults;
mod forms;
mod keywords;
pub mod laws;
mod lines;
mod readers;
mod requests;
mod scripts;
mod sources;
mod words;

pub use faults::{BadWord, LineFault, LineKind, ScriptFault, ScriptStop};
pub use lines::{NumberedLine, ScriptLine};
pub use requests::read_request;
pub use scripts::Script;
pub use sources::{ScriptReader, read_lines};
