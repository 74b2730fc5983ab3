//! What becomes of attempts in their turns.

/// What became of an attempt that was to go to its buffer.
#[derive(Clone, Copy, PartialEq, Eq)]
pub(crate) enum Went {
    /// It is published.
    Put,
    /// Its buffer is full, and it stays as it was.
    Full,
    /// It is not its command's latest, or does not wait, and stays as it was.
    Not,
}
