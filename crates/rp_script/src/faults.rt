//! Why a line or a script is refused.
ghost use Rattle.std.specs.Prelude.{◌≡◌};
ghost use Rattle.rp_script.specs.Readers.{bad_word};
ghost use Rattle.rp_script.specs.Seen.{line_fault};
ghost use Rattle.rp_script.specs.declared.faults.ScriptStop.TheVariants.{Judged as judged_stop, NoMemory as no_memory};

use rp_base::Which;
use std::alloc::{AllocError, AllocFailed};
use thiserror::Error;

/// Why a line of a script is refused (this project).
#[derive(Clone, Copy, Debug, PartialEq, Eq)]
pub enum LineKind {
    /// The first line that is not skipped has another first word than `cluster`, or there is none.
    NoCluster,
    /// A later line begins with `cluster`.
    SecondCluster,
    /// A line that is not skipped follows `end`.
    AfterEnd,
    /// The source ends without `end`.
    NoEnd,
    /// The first word of a line, or of a request, is none that is known.
    UnknownWord,
    /// A race has no such line.
    NotInRace,
    /// The line ends before this word.
    MissingWord,
    /// A number has a byte that is no digit.
    NotNumber,
    /// A number is outside its range.
    OutOfRange,
    /// The word is no key.
    BadKey,
    /// More than 64 bytes follow the apostrophe of a text.
    BadText,
    /// The start of a wipe is not below its end.
    BadSpan,
    /// The client has not sent so many commands.
    NotSent,
    /// The line goes on behind its last word.
    ExtraWord,
    /// A byte is outside 32 to 126.
    BadByte,
    /// A report is no JSON. No script is refused so.
    NotJson,
    /// A report's JSON is not that of a report. No script is refused so.
    NotReport,
}

/// What a line of a script is refused for.
#[derive(Clone, Copy, Debug, PartialEq, Eq, Drop, Error)]
pub enum LineFault {
    /// The word, from 1, or 0 in a line that would be skipped, and why.
    #[error("word {word}: {kind:?}")]
    Refused { word: u32, kind: LineKind },
    /// A limit is passed by this count: 65537 lines, 257 bytes of the line, or 4097 commands of a
    /// race.
    #[error("too many: {count}")]
    TooMany { count: u64 },
    /// Memory was refused.
    #[error("out of memory")]
    NoMemory,
}

/// What ends the reading of a script before its end.
#[derive(Clone, Copy, PartialEq, Eq)]
pub enum ScriptFault {
    /// The line, from 1, its word, from 1 or 0 for none, and why.
    Refused {
        line: u32,
        word: u32,
        kind: LineKind,
    },
    /// A limit, and the count that passes it.
    Limit {
        which: Which,
        count: u64,
    },
}

/// What stops the reading of a script.
#[derive(Clone, Copy, PartialEq, Eq)]
pub enum ScriptStop {
    /// The bytes end it.
    Judged { fault: ScriptFault },
    /// Memory was refused.
    NoMemory,
}

impl From<ScriptFault> for ScriptStop {
    ghost from_gives = { λ fault e. e ≡ judged_stop fault };

    fn from(fault: ScriptFault) -> ScriptStop {
        ScriptStop::Judged { fault }
    }
}

impl<T: Drop> From<AllocFailed<T>> for ScriptStop {
    ghost from_gives = { λ _ e. e ≡ no_memory };

    fn from(_refused: AllocFailed<T>) -> ScriptStop {
        ScriptStop::NoMemory
    }
}

impl From<AllocError> for ScriptStop {
    ghost from_gives = { λ _ e. e ≡ no_memory };

    fn from(_refused: AllocError) -> ScriptStop {
        ScriptStop::NoMemory
    }
}

/// The limit that a line passes, and the count by which it does.
#[derive(Clone, Copy, PartialEq, Eq)]
pub struct Excess {
    pub which: Which,
    pub count: u64,
}

/// The word of a line that is refused, from 1, and why.
#[derive(Clone, Copy, PartialEq, Eq)]
pub struct BadWord {
    pub word: u32,
    pub kind: LineKind,
}

/// Refuses this word.
pub fn bad_word(word: u32, kind: LineKind) -> BadWord
    ensures { result ≡ bad_word word kind }
{
    BadWord { word, kind }
}

/// What a line that is known is refused for.
pub fn line_fault(fault: ScriptFault) -> LineFault
    ensures { result ≡ line_fault fault }
{
    match fault {
        ScriptFault::Refused { word, kind, .. } => LineFault::Refused { word, kind },
        ScriptFault::Limit { count, .. } => LineFault::TooMany { count },
    }
}
