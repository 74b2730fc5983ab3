//! The rules of a script, and a world that plays one put.
ghost use Rattle.std.specs.Prelude.{◌<◌, ◌≤◌, ◌^◌, length, IfOk, IfSome};
ghost use Rattle.rp_events.specs.Lawful.{IsReached};
ghost use Rattle.rp_racelines.specs.Verdicts.{command_count};

use rp_base::{CmdId, Item, Key, NoMemory, NodeId, RangeId, Value};
use rp_events::WorldEvent;
use rp_race::RaceRules;
use rp_racelines::rules_of;
use rp_request::Request;
use rp_script::{NumberedLine, read_lines};
use rp_world::World;
use std::alloc::Global;
use std::test::Fail;

/// The rules of a race's lines, with a loss of 5 and a salt of 9.
fn rules_in(alloc: Global, lines: &[NumberedLine]) -> Option<RaceRules>
    requires { length lines.now ≤ 65536 }
    ensures clients { IfSome result (λ r. length r.requests < 2 ^ 16) }
    ensures commands { IfSome result (λ r. command_count r < 2 ^ 32) }
{
    match rules_of(alloc, lines, 5, 9) {
        Ok(rules) => Some(rules),
        Err(_) => None,
    }
}

/// The rules of a race's script.
pub(crate) fn rules(alloc: Global, text: &str) -> Option<RaceRules>
    ensures clients { IfSome result (λ r. length r.requests < 2 ^ 16) }
    ensures commands { IfSome result (λ r. command_count r < 2 ^ 32) }
{
    match read_lines(alloc, true, text.as_bytes()) {
        Ok(lines) => rules_in(alloc, lines.as_slice()),
        Err(_) => None,
    }
}

pub(crate) fn key(text: &str) -> Result<Key, Fail> {
    Ok(Key::read(text.as_bytes()).ok().ok_or("a key")?)
}

pub(crate) fn one() -> NodeId {
    NodeId::new(1).unwrap()
}

pub(crate) fn first() -> RangeId {
    RangeId::new(0).unwrap()
}

/// The first attempt of client 1's first command.
fn attempt() -> CmdId {
    CmdId {
        client: 1,
        seq: 1,
        attempt: 1,
    }
}

/// A world of one node that has played nothing.
pub(crate) fn world_of_one(alloc: Global) -> Result<World, NoMemory>
    ensures { IfOk result (λ w. IsReached (length w.world.nodes) w.world.nodes) }
{
    World::start(alloc, 1)
}

/// Events come, one after another.
fn come(world: &mut World, events: &[WorldEvent]) -> bool
    requires { IsReached (length world.old.world.nodes) world.old.world.nodes }
    ensures { IsReached (length world.new.world.nodes) world.new.world.nodes }
{
    world.run(events).is_ok()
}

/// Client 1's put is admitted at node 1, and goes to the buffer.
pub(crate) fn sends(world: &mut World, key: Key) -> bool
    requires { IsReached (length world.old.world.nodes) world.old.world.nodes }
    ensures { IsReached (length world.new.world.nodes) world.new.world.nodes }
{
    let (node, range, id) = (one(), first(), attempt());
    let value = Value::Number(5);
    let request = Request::Put { key, value };
    come(
        world,
        &[WorldEvent::Admit {
            node,
            range,
            id,
            request,
        }],
    ) && come(
        world,
        &[
            WorldEvent::Draw { node, range },
            WorldEvent::Publish {
                node,
                range,
                place: 0,
                item: Item::Write(id),
            },
        ],
    )
}

/// It is flushed and applied.
pub(crate) fn goes_on(world: &mut World) -> bool
    requires { IsReached (length world.old.world.nodes) world.old.world.nodes }
    ensures { IsReached (length world.new.world.nodes) world.new.world.nodes }
{
    let (node, range) = (one(), first());
    come(
        world,
        &[
            WorldEvent::Collect { node, range },
            WorldEvent::Flush { node, range },
            WorldEvent::Apply { node, range },
        ],
    )
}
