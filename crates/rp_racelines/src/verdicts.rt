//! How a race ended.

/// How a race ended, by its nodes at the close.
#[derive(Clone, Copy, Debug, PartialEq, Eq)]
pub enum Verdict {
    /// Each command has ended.
    Ok,
    /// So many commands are open, and no more is waited for.
    Unfinished { unended: u32 },
    /// Neither: a node is full, or an end may still come.
    GoesOn,
}
