//! What entries of a log did where they were applied.
use crate::outcomes::Reply;
use crate::requests::Request;
use rp_base::{CmdId, Key, Lease, LeaseSeq, RangeId};

/// What one entry of a range's log did where it was applied.
#[derive(Clone, Copy, PartialEq, Eq)]
pub enum Place {
    /// A request took effect, under this lease sequence, with this reply.
    Write {
        id: CmdId,
        request: Request,
        seq: LeaseSeq,
        reply: Reply,
    },
    /// The range split at the key; the part from the key on is the range `right`.
    Split {
        id: CmdId,
        key: Key,
        right: RangeId,
        seq: LeaseSeq,
    },
    /// This lease holds from here on.
    Lease(Lease),
}

/// Why an entry of a range's log did nothing (after CockroachDB's checks at application: the lease
/// sequence, then the lease applied index).
#[derive(Clone, Copy, PartialEq, Eq)]
pub enum Why {
    /// It carries nothing.
    Nothing,
    /// Its command was proposed under another lease sequence.
    OldLease,
    /// Its command's maximum is at or below the lease applied index.
    OldIndex,
    /// Its lease ask follows another lease than the present one.
    LeaseMoved,
}

/// What a replica keeps of an entry that it applied.
#[derive(Clone, Copy, PartialEq, Eq)]
pub enum Record {
    Took(Place),
    Passed(Why),
}
