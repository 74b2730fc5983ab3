//! The events of one node.

use rp_base::{CmdId, Key, NodeId, RangeId};
use rp_raftstep::Message;
use rp_request::Request;

/// What happens at one node (this project's events). A Collect comes without what it is to take: the
/// node asks its buffer. `S` is the type of snapshots.
#[derive(Drop)]
pub enum Event<S> {
    /// A client's attempt asks a range's replica to be admitted.
    Admit {
        range: RangeId,
        id: CmdId,
        request: Request,
    },
    /// The node asks for a range's lease.
    Ask {
        range: RangeId,
    },
    /// The holder asks for a range's lease to go to another node.
    Transfer {
        range: RangeId,
        to: NodeId,
    },
    /// What a range's proposal buffer has published joins the inbox.
    Collect {
        range: RangeId,
    },
    /// A range's inbox goes to Raft.
    Flush {
        range: RangeId,
    },
    /// Time goes on by one tick in all ranges.
    Tick,
    /// The message with this number, from 1, that the sender sent comes.
    Deliver {
        from: NodeId,
        range: RangeId,
        number: u64,
        message: Message<S>,
    },
    /// A range's next committed entry is checked and applied.
    Apply {
        range: RangeId,
    },
    /// A range's log is cut up to the applied index.
    Cut {
        range: RangeId,
    },
    /// A range's replica is taken down for good.
    Remove {
        range: RangeId,
    },
    /// The applied value of a key is read.
    Peek {
        range: RangeId,
        key: Key,
    },
    /// The node starts again with what it keeps.
    Restart,
    /// A worker's round at the node ends; a race alone has it.
    Round,
}
