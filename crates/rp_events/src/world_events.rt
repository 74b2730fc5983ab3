//! The events of a world of nodes with their proposal buffers.

use rp_base::{CmdId, Item, Key, NodeId, RangeId};
use rp_request::Request;

/// What happens in a world: an event of a node, or of one of its proposal buffers (this project).
/// A message is named by its sender and its number there.
#[derive(Clone, Copy, PartialEq, Eq)]
pub enum WorldEvent {
    Admit {
        node: NodeId,
        range: RangeId,
        id: CmdId,
        request: Request,
    },
    Ask {
        node: NodeId,
        range: RangeId,
    },
    Transfer {
        node: NodeId,
        range: RangeId,
        to: NodeId,
    },
    /// What the range's buffer gives joins the inbox.
    Collect {
        node: NodeId,
        range: RangeId,
    },
    Flush {
        node: NodeId,
        range: RangeId,
    },
    Tick {
        node: NodeId,
    },
    Deliver {
        node: NodeId,
        from: NodeId,
        number: u64,
    },
    Apply {
        node: NodeId,
        range: RangeId,
    },
    Cut {
        node: NodeId,
        range: RangeId,
    },
    Remove {
        node: NodeId,
        range: RangeId,
    },
    Peek {
        node: NodeId,
        range: RangeId,
        key: Key,
    },
    Restart {
        node: NodeId,
    },
    Round {
        node: NodeId,
    },
    /// A place is drawn in the range's buffer.
    Draw {
        node: NodeId,
        range: RangeId,
    },
    /// An item is published at a drawn place.
    Publish {
        node: NodeId,
        range: RangeId,
        place: u8,
        item: Item,
    },
}
