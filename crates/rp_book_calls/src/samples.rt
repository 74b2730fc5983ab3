//! Values that several tests use.
use rp_base::{CmdId, Key, NodeId, RangeId, Value};
use rp_book::{Booked, Draw};
use rp_request::Request;
use std::test::Fail;

/// An attempt of the first command of a client.
pub(crate) fn attempt(client: u16, attempt: u16) -> CmdId {
    CmdId {
        client,
        seq: 1,
        attempt,
    }
}

pub(crate) fn key() -> Result<Key, Fail> {
    Ok(Key::read(b"a").ok().ok_or("a key")?)
}

/// A put at node 1 and range 0, without a place.
pub(crate) fn put(key: Key, value: &Value) -> Booked {
    Booked {
        request: Request::Put { key, value: *value },
        node: NodeId::new(1).unwrap(),
        range: RangeId::new(0).unwrap(),
        draw: Draw::Undrawn,
    }
}
