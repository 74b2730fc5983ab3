//! Values that several tests use, and nodes as they start.
ghost use Rattle.std.specs.Prelude.{◌≡◌};
ghost use Rattle.rp_bufcore.specs.Buffers.{fresh};
ghost use Rattle.rp_events.specs.Nodes.{first_node};

use rp_base::{CmdId, Key, LeaseAsk, LeaseSeq, NodeId, RangeId, Tick, Value};
use rp_bufcore::PlainEnd;
use rp_node::Node;
use rp_request::Request;
use std::alloc::Global;
use std::test::Fail;

pub(crate) fn key(text: &str) -> Result<Key, Fail> {
    Ok(Key::read(text.as_bytes()).ok().ok_or("a key")?)
}

pub(crate) fn put(key: Key) -> Request {
    Request::Put {
        key,
        value: Value::Number(5),
    }
}

/// The first attempt of client 1's first command.
pub(crate) fn attempt() -> CmdId {
    CmdId {
        client: 1,
        seq: 1,
        attempt: 1,
    }
}

/// The range that there is at the start.
pub(crate) fn first() -> RangeId
    ensures { result ≡ 0 }
{
    RangeId::new(0).unwrap()
}

/// The first range that a split makes.
pub(crate) fn second() -> RangeId
    ensures { result ≡ 1 }
{
    RangeId::new(1).unwrap()
}

/// The node that leads and holds the lease at the start.
pub(crate) fn one() -> NodeId
    ensures { result ≡ 1 }
{
    NodeId::new(1).unwrap()
}

pub(crate) fn two() -> NodeId
    ensures { result ≡ 2 }
{
    NodeId::new(2).unwrap()
}

/// A node asks for the lease behind the first one, to tick 40.
pub(crate) fn ask_of(holder: NodeId) -> LeaseAsk {
    LeaseAsk {
        holder,
        prev: LeaseSeq::new(1),
        expires: Tick::new(40),
    }
}

/// Node 1 as it starts, alone.
pub(crate) fn alone(alloc: Global) -> Node<PlainEnd>
    ensures node { result.node ≡ first_node 1 1 }
    ensures end { result.end ≡ fresh }
{
    Node::start(alloc, one(), 1, PlainEnd::new())
}
