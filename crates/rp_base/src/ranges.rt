//! What a range is, and why it is not split.
ghost use Rattle.std.specs.Prelude.{◌≡◌, ◌≤◌, ◌<◌, ◌+◌, ◌^◌};

use crate::ids::RangeId;
use std::error::Error;
use std::fmt;

/// A range's description: its number, how many splits led to it, and its bounds, the first number
/// and the one behind the last.
#[derive(Clone, Copy, Debug, PartialEq, Eq, Hash)]
pub struct Desc {
    pub id: RangeId,
    pub level: u8,
    pub start: u128,
    pub end: u128,
    pub ghost level_to_three: { level ≤ 3 },
    pub ghost id_of_level: { id < 2 ^ level },
}

/// Why a range is not split.
#[derive(Clone, Copy, Debug, PartialEq, Eq, Hash)]
pub enum SplitFault {
    /// The key is the range's start.
    NotInside,
    /// The range has been split three times.
    SplitLimit { level: u8 },
}

impl fmt::Display for SplitFault {
    fn fmt<W: fmt::Write>(&self, f: &mut fmt::Formatter<W>) -> fmt::Result {
        match self {
            SplitFault::NotInside => f.write_str("not inside the range"),
            SplitFault::SplitLimit { .. } => f.write_str("split too often"),
        }
    }
}

impl Error for SplitFault {}

impl Desc {
    /// The number of the right part of a split: the range's own plus 2 to its level.
    pub fn right_id(self) -> RangeId
        requires { self.level < 3 }
        ensures { result ≡ self.id + 2 ^ self.level }
    {
        RangeId::new(self.id.get() + (1 << self.level)).unwrap()
    }
}
