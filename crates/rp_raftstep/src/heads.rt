//! The numbers of a replica beside its log.

use rp_base::NodeId;

/// What a replica is in its term (Raft 2014, section 5.1).
#[derive(Clone, Copy, PartialEq, Eq)]
pub enum Role {
    Follower,
    Candidate,
    Leader,
}

/// The Raft state of a replica but for its log. The tables have a place for each node, that of node
/// n at n - 1.
#[derive(Clone, Copy, PartialEq, Eq)]
pub struct Head {
    /// The node of this replica.
    pub node: NodeId,
    /// How many nodes there are.
    pub nodes: u8,
    pub term: u64,
    /// Who has this replica's vote in the term.
    pub vote: Option<NodeId>,
    pub role: Role,
    /// Who leads the term, if that is known.
    pub leader: Option<NodeId>,
    /// The greatest index that is known to be committed.
    pub commit: u64,
    /// A candidate's table: who has granted it a vote.
    pub votes: [bool; 5],
    /// A leader's table: the next index to be sent.
    pub next: [u64; 5],
    /// A leader's table: up to which index the log is known to be as the leader's.
    pub matched: [u64; 5],
    /// Ticks since the last sign of a leader.
    pub silent: u64,
    /// A leader's ticks since it last sent to all.
    pub beat: u64,
}

/// Which peers an event sends an `Append` or a `Snap` to.
#[derive(Clone, Copy, PartialEq, Eq)]
pub enum Due {
    Nobody,
    One(NodeId),
    Everyone,
}
