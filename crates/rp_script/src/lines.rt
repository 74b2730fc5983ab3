//! What a line of a script says.
use rp_base::{Key, NodeId, RangeId};
use rp_request::Request;

/// A line of a script (this project). Clients are 1 to 64, numbers of commands count from 1 for
/// each client.
#[derive(Clone, Copy, PartialEq, Eq)]
pub enum ScriptLine {
    /// So many nodes, 1 to 5.
    Cluster {
        nodes: u8,
    },
    /// A client sends a request, which gets a place in the buffer at once.
    Send {
        node: NodeId,
        range: RangeId,
        client: u16,
        request: Request,
    },
    /// A client sends a request.
    Admit {
        node: NodeId,
        range: RangeId,
        client: u16,
        request: Request,
    },
    /// A further attempt of a command that was refused.
    Again {
        node: NodeId,
        range: RangeId,
        client: u16,
        seq: u32,
    },
    /// A command draws a place in the buffer.
    Draw {
        client: u16,
        seq: u32,
    },
    /// A command's place in the buffer is published.
    Publish {
        client: u16,
        seq: u32,
    },
    /// A node asks for the lease.
    Ask {
        node: NodeId,
        range: RangeId,
    },
    /// The lease goes to another node.
    Transfer {
        node: NodeId,
        range: RangeId,
        to: NodeId,
    },
    /// The buffer is collected and proposed.
    Flush {
        node: NodeId,
        range: RangeId,
    },
    /// A committed entry is applied.
    Apply {
        node: NodeId,
        range: RangeId,
    },
    /// The applied part of the log is cut.
    Cut {
        node: NodeId,
        range: RangeId,
    },
    /// The replica is removed.
    Remove {
        node: NodeId,
        range: RangeId,
    },
    /// The node starts again from what it keeps.
    Restart {
        node: NodeId,
    },
    /// So many ticks, 1 to 10,000.
    Tick {
        node: NodeId,
        count: u64,
    },
    /// The message with this number, from 1, that the node sent is delivered.
    Deliver {
        node: NodeId,
        number: u64,
    },
    /// The value of a key is noted.
    Peek {
        node: NodeId,
        range: RangeId,
        key: Key,
    },
    /// So many of a hundred messages are lost, 0 to 50.
    Loss {
        percent: u8,
        salt: u64,
    },
    /// So many rounds, 1 to 10,000.
    Settle {
        rounds: u64,
    },
    End,
}

/// A line that is not skipped, and its number, from 1.
#[derive(Clone, Copy, PartialEq, Eq)]
pub struct NumberedLine {
    pub number: u32,
    pub line: ScriptLine,
}
