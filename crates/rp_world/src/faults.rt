//! Why a play ends.
ghost use Rattle.std.specs.Prelude.{◌≡◌};
ghost use Rattle.rp_world.specs.declared.faults.PlayFault.TheVariants.{NoMemory as no_memory};

use rp_base::{NoMemory, Which};
use std::error::Error;
use std::fmt;

/// Why a play ends before its last line.
#[derive(Clone, Copy, Debug, PartialEq, Eq)]
pub enum PlayFault {
    /// A limit of the program is met, and so much was counted.
    Limit { which: Which, count: u64 },
    /// The system refused memory.
    NoMemory,
}

impl fmt::Display for PlayFault {
    fn fmt<W: fmt::Write>(&self, f: &mut fmt::Formatter<W>) -> fmt::Result {
        match self {
            PlayFault::Limit { count, .. } => write!(f, "a limit is met at {count}"),
            PlayFault::NoMemory => f.write_str("out of memory"),
        }
    }
}

impl Error for PlayFault {}

impl From<NoMemory> for PlayFault {
    ghost from_gives = { λ _ e. e ≡ no_memory };

    fn from(_refused: NoMemory) -> PlayFault {
        PlayFault::NoMemory
    }
}
