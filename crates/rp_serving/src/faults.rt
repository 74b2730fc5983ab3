//! Why a round is broken off.
use rp_base::NoMemory;
use std::error::Error;
use std::fmt;

/// A round is broken off where the node is full or memory is refused.
#[derive(Clone, Copy, Debug, PartialEq, Eq)]
pub enum BrokenOff {
    Full,
    NoMemory,
}

impl From<NoMemory> for BrokenOff {
    fn from(_fault: NoMemory) -> BrokenOff {
        BrokenOff::NoMemory
    }
}

impl fmt::Display for BrokenOff {
    fn fmt<W: fmt::Write>(&self, f: &mut fmt::Formatter<W>) -> fmt::Result {
        f.write_str(match self {
            BrokenOff::Full => "the node is full",
            BrokenOff::NoMemory => "no memory",
        })
    }
}

impl Error for BrokenOff {}
