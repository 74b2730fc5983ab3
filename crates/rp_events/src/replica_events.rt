//! The events of one replica.

use rp_base::{CmdId, Key, NodeId};
use rp_raftstep::Message;
use rp_request::Request;

/// What happens at one replica (this project's events, after CockroachDB's way of a write). `S` is
/// the type of snapshots.
#[derive(Drop)]
pub enum ReplicaEvent<S> {
    /// A client's attempt asks to be admitted.
    Admit { id: CmdId, request: Request },
    /// The node asks for the lease.
    Ask,
    /// The holder asks for the lease to go to another node.
    Transfer { to: NodeId },
    /// What the proposal buffer gave joins the inbox.
    Collect,
    /// The inbox goes to Raft: lease asks first, then commands, each with a lease index.
    Flush,
    /// Time goes on by one tick.
    Tick,
    /// A message of another node's replica comes.
    Deliver { from: NodeId, message: Message<S> },
    /// The next committed entry is checked and applied.
    Apply,
    /// The log is cut up to the applied index.
    Cut,
    /// The replica is taken down for good.
    Remove,
    /// The applied value of a key is read.
    Peek { key: Key },
    /// The node starts again with what it keeps.
    Restart,
}
