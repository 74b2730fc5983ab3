//! What a run shows: a view of its nodes, notes, replies and ranges.
use rp_base::{Desc, Key, Lease, LeaseIndex, Seq, Value};
use rp_request::{Notes, Record, Replies};

/// A key that has a value.
#[derive(Clone, Copy, PartialEq, Eq)]
pub struct Row {
    pub key: Key,
    pub value: Value,
}

/// What a node has of a range.
#[derive(Drop)]
pub enum ReplicaView {
    /// A replica: its Raft term, the index up to which it applied, its lease applied index, and its
    /// rows by key, ascending.
    Live {
        term: u64,
        applied: u64,
        lai: LeaseIndex,
        rows: Seq<Row>,
    },
    /// The replica was removed, after it had applied up to this index.
    Removed {
        applied: u64,
    },
    /// The node never had one.
    Absent,
}

/// A range: its description and its lease after the whole applied list, one record for each index
/// from `first` on, and what the nodes have of it, from node 1 on.
#[derive(Drop)]
pub struct RangeView {
    pub desc: Desc,
    pub lease: Lease,
    pub first: u64,
    pub records: Seq<Record>,
    pub replicas: Seq<ReplicaView>,
}

/// What a run shows: how many nodes there are, the notes, the replies, the ranges by number,
/// ascending, and how many messages were sent.
#[derive(Drop)]
pub struct View {
    pub nodes: u8,
    pub notes: Notes,
    pub replies: Replies,
    pub ranges: Seq<RangeView>,
    pub messages: u64,
}
