//! What a node writes down of its events.

use crate::answers::EventAnswer;
use rp_base::{CmdId, Item, Key, NodeId, RangeId, Seq};

/// An event of a node as its journal keeps it.
#[derive(Drop)]
pub enum PastEvent {
    /// The request stands at this place, from 0, in the node's list of requests.
    Admit {
        range: RangeId,
        id: CmdId,
        place: u64,
    },
    Ask {
        range: RangeId,
    },
    Transfer {
        range: RangeId,
        to: NodeId,
    },
    /// With what the range's buffer gave.
    Collect {
        range: RangeId,
        taken: Seq<Item>,
    },
    Flush {
        range: RangeId,
    },
    Tick,
    /// The message stands in the sender's sent list under this number, from 1.
    Deliver {
        from: NodeId,
        number: u64,
    },
    Apply {
        range: RangeId,
    },
    Cut {
        range: RangeId,
    },
    Remove {
        range: RangeId,
    },
    Peek {
        range: RangeId,
        key: Key,
    },
    Restart,
    /// With the length of the node's sent list as the round ended.
    Round {
        sent: u64,
    },
}

/// An event and its answer.
#[derive(Drop)]
pub struct JournalEntry {
    pub event: PastEvent,
    pub answer: EventAnswer,
}

/// All events of a node, in order.
pub type Journal = Seq<JournalEntry>;
