//! The record that a disk in memory keeps of its calls.

/// What was asked of a disk. Places and lengths are in bytes.
#[derive(Clone, Copy, Debug, PartialEq, Eq)]
pub enum CallKind {
    /// The length of the file.
    Len,
    /// At most `len` bytes from `at` on.
    Read { at: u64, len: usize },
    /// A write of `len` bytes at `at`.
    Write { at: u64, len: usize },
    /// A cut to the length `to`.
    Cut { to: u64 },
    /// A sync.
    Sync,
}

/// A call of a disk, and whether it failed.
#[derive(Clone, Copy, Debug, PartialEq, Eq)]
pub struct DiskCall {
    /// What was asked.
    pub kind: CallKind,
    /// Whether it failed.
    pub failed: bool,
}
