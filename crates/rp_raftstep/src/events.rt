//! Events of a replica, and what they send and take in.

use crate::messages::Message;
use rp_base::{Bytes, NodeId, Seq};

/// Payloads that are proposed together, in their order.
pub type Payloads = Seq<Bytes>;

/// An event of a replica's Raft.
#[derive(Drop)]
pub enum RaftEvent<S> {
    /// Time goes on by one tick.
    Tick,
    /// A message of another replica comes.
    Receive { from: NodeId, message: Message<S> },
    /// Payloads are to be appended by the leader.
    Propose { payloads: Payloads },
    /// The log's base becomes this index.
    Cut { to: u64 },
}

/// What an event sends, and what it takes in.
#[derive(Drop)]
pub struct RaftOut<S> {
    /// Receiver and message.
    pub messages: Seq<(NodeId, Message<S>)>,
    /// The index and the snapshot that was taken in, in place of what was applied.
    pub taken: Option<(u64, S)>,
}
