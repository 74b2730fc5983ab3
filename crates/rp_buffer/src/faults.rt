//! Why an item is not put.
use std::error::Error;
use std::fmt;

/// Why an insert put nothing. The item is nowhere.
#[derive(Clone, Copy, Debug, PartialEq, Eq)]
pub enum InsertFault {
    /// The counter was 16 when the call looked: all places are drawn, or the buffer is closed.
    Full { seen: u64 },
    /// Another thread changed the counter from the number that was loaded to the one that was seen.
    Raced { loaded: u64, seen: u64 },
}

impl fmt::Display for InsertFault {
    fn fmt<W: fmt::Write>(&self, f: &mut fmt::Formatter<W>) -> fmt::Result {
        match self {
            InsertFault::Full { seen } => write!(f, "no place is left, the counter is {seen}"),
            InsertFault::Raced { loaded, seen } => {
                write!(f, "the counter changed from {loaded} to {seen}")
            }
        }
    }
}

impl Error for InsertFault {}
