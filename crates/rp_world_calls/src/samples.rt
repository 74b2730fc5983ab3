//! Events that several tests use, and a world as it starts.
ghost use Rattle.std.specs.Prelude.{◌≡◌, length, IfOk};
ghost use Rattle.rp_events.specs.Lawful.{IsReached};

use rp_base::{CmdId, Item, Key, NoMemory, NodeId, RangeId, Value};
use rp_events::WorldEvent;
use rp_request::Request;
use rp_world::World;
use std::alloc::Global;
use std::test::Fail;

pub(crate) fn key() -> Result<Key, Fail> {
    Ok(Key::read(b"a").ok().ok_or("a key")?)
}

/// The first attempt of client 1's first command.
pub(crate) fn attempt() -> CmdId {
    CmdId {
        client: 1,
        seq: 1,
        attempt: 1,
    }
}

pub(crate) fn one() -> NodeId
    ensures { result ≡ 1 }
{
    NodeId::new(1).unwrap()
}

pub(crate) fn first() -> RangeId
    ensures { result ≡ 0 }
{
    RangeId::new(0).unwrap()
}

/// A put is to be admitted at node 1.
pub(crate) fn admit(key: Key, value: &Value) -> WorldEvent {
    WorldEvent::Admit {
        node: one(),
        range: first(),
        id: attempt(),
        request: Request::Put { key, value: *value },
    }
}

/// A place is drawn in the first range's buffer at node 1.
pub(crate) fn draw() -> WorldEvent {
    WorldEvent::Draw {
        node: one(),
        range: first(),
    }
}

/// The attempt's item is published at the first place.
pub(crate) fn publish() -> WorldEvent {
    WorldEvent::Publish {
        node: one(),
        range: first(),
        place: 0,
        item: Item::Write(attempt()),
    }
}

/// A world of so many nodes that has played nothing.
pub(crate) fn world_of_one(alloc: Global) -> Result<World, NoMemory>
    ensures { IfOk result (λ w. IsReached (length w.world.nodes) w.world.nodes) }
{
    World::start(alloc, 1)
}
