//! What words ask for.
ghost use Rattle.std.specs.Prelude.{◌≡◌};
ghost use Rattle.rp_words.specs.declared.asks.WordsFault.TheVariants as faults;

use rp_base::NoMemory;
use std::error::Error;
use std::fmt;

/// The form of an output.
#[derive(Clone, Copy, PartialEq, Eq)]
pub enum Form {
    Text,
    Json,
    Summary,
}

/// How a race is run.
#[derive(Clone, Copy, PartialEq, Eq)]
pub struct RacePlan {
    /// How many workers carry messages, 1 to 8.
    pub workers: u8,
    /// How many of a hundred messages are lost, 0 to 50.
    pub loss: u8,
    /// What picks the messages that are lost.
    pub salt: u64,
    /// How many units the commands under way may take together, 1 to 65,536.
    pub quota: u64,
    pub form: Form,
}

/// What the words ask for.
#[derive(Clone, Copy, PartialEq, Eq)]
pub enum Asked {
    /// A script is played.
    Run(Form),
    /// A script is played by threads.
    Race(RacePlan),
    /// A script of so many commands, 1 to 20,000, is made from a number.
    Gen { number: u64, size: u64 },
}

/// Why words ask for nothing.
#[derive(Clone, Copy, Debug, PartialEq, Eq)]
pub enum WordsFault {
    /// They are no use of the program.
    Usage,
    NoMemory,
}

impl fmt::Display for WordsFault {
    fn fmt<W: fmt::Write>(&self, f: &mut fmt::Formatter<W>) -> fmt::Result {
        match self {
            WordsFault::Usage => f.write_str("wrong usage"),
            WordsFault::NoMemory => f.write_str("out of memory"),
        }
    }
}

impl Error for WordsFault {}

impl From<NoMemory> for WordsFault {
    ghost from_gives = { λ _ fault. fault ≡ faults.NoMemory };

    fn from(_refused: NoMemory) -> WordsFault {
        WordsFault::NoMemory
    }
}
