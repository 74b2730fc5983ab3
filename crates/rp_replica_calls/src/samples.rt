//! Values that several tests use, and what an event hands out.
use rp_base::{CmdId, Item, Items, Key, Lease, LeaseAsk, LeaseSeq, NodeId, Tick, Value};
use rp_events::{Effects, EventAnswer};
use rp_request::{Outcome, Request};
use rp_snapshot::Snapshot;
use std::alloc::Global;
use std::test::Fail;

/// The first attempt of client 1's command with this number.
pub(crate) fn attempt(number: u32) -> CmdId {
    CmdId {
        client: 1,
        seq: number,
        attempt: 1,
    }
}

pub(crate) fn key(text: &str) -> Result<Key, Fail> {
    Ok(Key::read(text.as_bytes()).ok().ok_or("a key")?)
}

pub(crate) fn node(number: u8) -> Result<NodeId, Fail> {
    Ok(NodeId::new(number).ok_or("a node")?)
}

pub(crate) fn put(key: Key) -> Request {
    Request::Put {
        key,
        value: Value::Number(5),
    }
}

/// One item of a buffer.
pub(crate) fn one_item(alloc: Global, item: &Item) -> Result<Items, Fail> {
    let mut taken = Items::new(alloc);
    taken.make_room(1)?;
    taken.push(*item);
    Ok(taken)
}

/// A node asks for the lease behind sequence 1, to tick 40.
pub(crate) fn ask_of(holder: NodeId) -> LeaseAsk {
    LeaseAsk {
        holder,
        prev: LeaseSeq::new(1),
        expires: Tick::new(40),
    }
}

/// The lease that the first range starts with.
pub(crate) fn first_lease(holder: NodeId) -> Lease {
    Lease {
        holder,
        seq: LeaseSeq::new(1),
        expires: Tick::new(40),
    }
}

fn is_quiet(effects: &Effects<Snapshot>, answer: &EventAnswer) -> bool {
    effects.answer == *answer && effects.messages.len() == 0 && effects.outcomes.len() == 0
}

/// Whether an event answers this, and nothing is sent or ended.
pub(crate) fn answers(effects: Option<Effects<Snapshot>>, answer: &EventAnswer) -> bool {
    match effects {
        Some(effects) => is_quiet(&effects, answer),
        None => false,
    }
}

fn is_end(effects: &Effects<Snapshot>, id: CmdId, outcome: &Outcome) -> bool {
    match effects.outcomes.as_slice() {
        [end] => end.id == id && end.outcome == *outcome && effects.messages.len() == 0,
        _ => false,
    }
}

/// Whether an event is done, sends nothing, and ends one attempt, so.
pub(crate) fn ends(effects: Option<Effects<Snapshot>>, id: CmdId, outcome: &Outcome) -> bool {
    match effects {
        Some(effects) => effects.answer == EventAnswer::Done && is_end(&effects, id, outcome),
        None => false,
    }
}
