//! A report read back from its JSON, into a value of its own.
#![tactic(auto)]

mod ends;
mod faults;
mod forms;
mod ranges;
mod records;
mod reports;
mod requests;
mod values;
mod words;

pub use faults::{FormFault, NotRead, ReadFault};
pub use ranges::read_report;
pub use reports::{Answer, Ended, Entry, RangeRead, Report};
