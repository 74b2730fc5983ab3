//! The limits of the program, and the numbers that several crates share.

/// How many items a proposal buffer takes.
pub const BUFFER_CAPACITY: usize = 16;

/// How many writes a batch has at most.
pub const BATCH_MOST: usize = 16;

/// The first term of a range's log.
pub const FIRST_TERM: u64 = 1;

/// Which limit of the program a script or a report passes.
#[derive(Clone, Copy, Debug, PartialEq, Eq, Hash)]
pub enum Which {
    /// Lines of a script.
    Lines,
    /// Bytes of a script's line.
    LineBytes,
    /// Commands of a script.
    Commands,
    /// Events of the nodes.
    Events,
    /// What the messages carry.
    Weight,
    /// Bytes of a report that is read.
    ReportBytes,
    /// Bytes of a disk.
    DiskBytes,
}
