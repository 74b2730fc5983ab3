//! How a call ends, and the exit status.
ghost use Rattle.std.specs.Prelude.{◌≡◌};
ghost use Rattle.rp_top.specs.Status.{code_of};

use rp_base::Which;
use rp_script::LineKind;

/// How a call of the program ended.
#[derive(Clone, Copy, PartialEq, Eq)]
pub enum Status {
    /// The whole output was written.
    Ok,
    /// The words are none of the program's.
    Usage,
    /// The script's first line outside its form: the line and its word, from 1, or 0 for no word.
    Refused {
        line: u32,
        word: u32,
        kind: LineKind,
    },
    /// The script, or its play, passes a limit, by this count.
    Limit {
        which: Which,
        count: u64,
    },
    /// The source failed. Nothing was written.
    ReadFault,
    /// The sink failed. A front of what was due was written.
    WriteFault,
    /// Memory was refused. Nothing was written.
    NoMemory,
    /// A race in which no more is waited for, with so many commands open. The report was written.
    Unfinished {
        unended: u32,
    },
}

impl Status {
    /// The exit status of the program.
    pub fn code(&self) -> u8
        ensures { result ≡ code_of self.now }
    {
        match self {
            Status::Ok => 0,
            Status::Usage => 2,
            Status::Refused { .. } => 3,
            Status::Limit { .. } => 4,
            Status::ReadFault => 5,
            Status::WriteFault => 6,
            Status::NoMemory => 7,
            Status::Unfinished { .. } => 8,
        }
    }
}
