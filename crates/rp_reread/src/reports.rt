//! A report, read back.
use rp_base::{Lease, RangeId, Seq};
use rp_report::ReplicaView;
use rp_request::{Record, Reply};

/// How an attempt ended, as far as an audit looks at it.
#[derive(Clone, Copy, PartialEq, Eq)]
pub enum Ended {
    /// It took effect, with this reply. What a number in it counts is not told.
    Success(Reply),
    /// It was refused, or the last of its tries was.
    Refused,
    /// It is pending, ambiguous, or was never sent.
    Other,
}

/// What a report says of an attempt.
#[derive(Clone, Copy, PartialEq, Eq)]
pub struct Answer {
    pub client: u16,
    pub seq: u32,
    pub attempt: u16,
    pub end: Ended,
}

/// What a report says of an index of a range's log. What a number in a reply counts is not told.
#[derive(Clone, Copy, PartialEq, Eq)]
pub struct Entry {
    pub index: u64,
    pub kept: Record,
}

/// What a report says of a range: its number, its level and bounds, its lease, the entries of its
/// list, and what the nodes have of it, from node 1 on.
#[derive(Drop)]
pub struct RangeRead {
    pub id: RangeId,
    pub level: u8,
    pub start: u128,
    pub end: u128,
    pub lease: Lease,
    pub entries: Seq<Entry>,
    pub replicas: Seq<ReplicaView>,
}

/// A report: what it says of attempts and of ranges, these ascending by their numbers.
#[derive(Drop)]
pub struct Report {
    pub nodes: u8,
    pub answers: Seq<Answer>,
    pub ranges: Seq<RangeRead>,
}
