//! What becomes of a proposal at a flush or a refresh.

use rp_base::{CmdId, LeaseIndex};

/// What becomes of one proposal before payloads go to Raft (after CockroachDB's proposal buffer and
/// its refresh). One that stands otherwise than its move wants stays as it is.
#[derive(Clone, Copy, PartialEq, Eq)]
pub enum Move {
    /// A waiting one is proposed under this lease index.
    HandsOut { id: CmdId, max: LeaseIndex },
    /// A waiting one is refused, with the lease that holds now.
    GivesUp(CmdId),
    /// One that is proposed under an index at or below the lease applied index waits again.
    TakesBack(CmdId),
    /// A proposed one is proposed once more under its index.
    Repeats(CmdId),
}
