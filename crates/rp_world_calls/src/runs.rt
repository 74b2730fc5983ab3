//! Single events, and what is told of them.
ghost use Rattle.std.specs.Prelude.{length};
ghost use Rattle.rp_events.specs.Lawful.{IsReached};

use crate::samples::{admit, attempt, draw, first, key, one, publish, world_of_one};
use rp_base::{Key, Value};
use rp_bufcore::PlainEnd;
use rp_events::{EventAnswer, WorldEvent};
use rp_node::{Journal, Nodes};
use rp_request::{End, Outcome, Reply, ReplyLine};
use rp_world::World;
use std::test::Fail;

/// Events come, one after another.
fn come(world: &mut World, events: &[WorldEvent]) -> bool
    requires { IsReached (length world.old.world.nodes) world.old.world.nodes }
    ensures { IsReached (length world.new.world.nodes) world.new.world.nodes }
{
    world.run(events).is_ok()
}

/// A put is admitted and goes to the buffer.
fn sends(world: &mut World, key: Key, value: &Value) -> bool
    requires { IsReached (length world.old.world.nodes) world.old.world.nodes }
    ensures { IsReached (length world.new.world.nodes) world.new.world.nodes }
{
    come(world, &[admit(key, value)]) && come(world, &[draw(), publish()])
}

/// It is flushed, applied and read.
fn goes_on(world: &mut World, key: Key) -> bool
    requires { IsReached (length world.old.world.nodes) world.old.world.nodes }
    ensures { IsReached (length world.new.world.nodes) world.new.world.nodes }
{
    let (node, range) = (one(), first());
    come(
        world,
        &[
            WorldEvent::Collect { node, range },
            WorldEvent::Flush { node, range },
            WorldEvent::Apply { node, range },
            WorldEvent::Peek { node, range, key },
        ],
    )
}

/// Whether the fifth event read this value as of index 1.
fn reads(journal: &Journal, value: Value) -> bool {
    let answer = EventAnswer::Value {
        value: Some(value),
        applied: 1,
    };
    journal.len() == 5 && journal.answer(4) == answer
}

/// Whether this is so in the journal of node 1.
fn node_reads(nodes: &Nodes<PlainEnd>, value: Value) -> bool {
    match nodes.get(one()) {
        Some(node) => reads(node.journal(), value),
        None => false,
    }
}

/// Whether the attempt alone was made, and took effect at a key that had no value.
fn is_told(lines: &[ReplyLine]) -> bool {
    match lines {
        [line] => {
            (line.client, line.seq, line.attempt) == (1, 1, attempt().attempt)
                && line.end == End::Outcome(Outcome::Success(Reply::Old(None)))
        }
        _ => false,
    }
}

fn replies(world: &World) -> bool
    requires { IsReached (length world.now.world.nodes) world.now.world.nodes }
{
    match world.replies() {
        Ok(lines) => is_told(lines.as_slice()),
        Err(_) => false,
    }
}

#[test]
fn a_put_takes_effect(rt: HostRuntime) -> Result<(), Fail> {
    let key = key()?;
    let mut world = world_of_one(rt.alloc())?;
    let sent = sends(&mut world, key, &Value::Number(5));
    let done = sent && goes_on(&mut world, key) && replies(&world);
    let (nodes, notes) = world.into_parts();
    assert!(rt; done && notes.len() == 0 && node_reads(&nodes, Value::Number(5)));
    Ok(())
}

/// Whether nothing happened at node 1 behind this many events.
fn has_entries(world: &World, count: usize) -> bool {
    match world.nodes().get(one()) {
        Some(node) => node.journal().len() == count,
        None => false,
    }
}

/// A message that nobody sent, and an attempt that was asked before, are skipped.
fn skips(world: &mut World, key: Key, value: &Value) -> bool
    requires { IsReached (length world.old.world.nodes) world.old.world.nodes }
{
    let lost = WorldEvent::Deliver {
        node: one(),
        from: one(),
        number: 1,
    };
    come(world, &[lost, admit(key, value)])
        && come(world, &[admit(key, value)])
        && has_entries(world, 1)
}

#[test]
fn what_is_not_lawful_is_skipped(rt: HostRuntime) -> Result<(), Fail> {
    let key = key()?;
    let mut world = world_of_one(rt.alloc())?;
    assert!(rt; skips(&mut world, key, &Value::Number(5)) && world.notes().len() == 0);
    Ok(())
}
