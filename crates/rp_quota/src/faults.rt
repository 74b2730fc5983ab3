//! Why units are not had.
use std::error::Error;
use std::fmt;

/// Why a call did not take the units. Nothing has changed.
#[derive(Clone, Copy, Debug, PartialEq, Eq)]
pub enum QuotaFault {
    /// So few units were free when the call looked.
    Low { free: u64 },
    /// Another share changed the free units from the number that was loaded to the one that was seen.
    Raced { loaded: u64, seen: u64 },
}

impl fmt::Display for QuotaFault {
    fn fmt<W: fmt::Write>(&self, f: &mut fmt::Formatter<W>) -> fmt::Result {
        match self {
            QuotaFault::Low { free } => write!(f, "only {free} units are free"),
            QuotaFault::Raced { loaded, seen } => {
                write!(f, "the free units changed from {loaded} to {seen}")
            }
        }
    }
}

impl Error for QuotaFault {}
