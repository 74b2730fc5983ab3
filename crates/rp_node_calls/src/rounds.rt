//! An attempt that is pending while rounds end.
ghost use Rattle.std.specs.Prelude.{◌≡◌, ◌≤◌, true};
ghost use Rattle.rp_events.specs.Allows.{MayFlush};
ghost use Rattle.rp_events.specs.MaySteps.{MayDo};
ghost use Rattle.rp_events.specs.declared.node_events.Event.TheVariants as events;

use crate::samples::{alone, attempt, first, key, put};
use crate::steps::happens;
use rp_base::Item;
use rp_bufcore::PlainEnd;
use rp_events::{Event, EventAnswer};
use rp_node::{Node, Seen};
use rp_replica::Replica;
use std::test::Fail;

fn may_flush(replica: &Replica) -> bool
    ensures { result ≡ true → MayFlush replica.now.replica }
{
    let items = replica.inbox().len() as u64;
    let assigned = replica.assigned().get().max(replica.applied().lai().get());
    let last = replica.raft().last().0;
    replica.raft().term() < u64::MAX
        && last < u64::MAX
        && assigned.checked_add(items).is_some()
        && last.checked_add(items).is_some()
}

/// Whether the first range's replica is live and may be flushed.
fn may_flush_first(node: &Node<PlainEnd>) -> bool
    ensures { result ≡ true → MayDo node.now.node (events.Flush 0) }
{
    match node.seen(first()) {
        Seen::Live(replica) => may_flush(replica),
        Seen::Removed(_) | Seen::Absent => false,
    }
}

/// The attempt's item is published in the first range's buffer, and collected.
fn collects(node: &mut Node<PlainEnd>) -> bool
    requires { node.old.node.nodes ≤ 5 }
    ensures { node.new.node.nodes ≤ 5 }
{
    let published = node.draw(first()) == Ok(0)
        && node.publish(first(), 0, Item::Write(attempt())).is_ok();
    published && happens(node, Event::Collect { range: first() }, &EventAnswer::Done)
}

/// The inbox goes to Raft.
fn flushes(node: &mut Node<PlainEnd>) -> bool
    requires { node.old.node.nodes ≤ 5 }
    ensures { node.new.node.nodes ≤ 5 }
{
    may_flush_first(node) && happens(node, Event::Flush { range: first() }, &EventAnswer::Done)
}

/// A round ends.
fn ends_round(node: &mut Node<PlainEnd>) -> bool
    requires { node.old.node.nodes ≤ 5 }
    ensures { node.new.node.nodes ≤ 5 }
{
    node.rounds() < u64::MAX && happens(node, Event::Round, &EventAnswer::Done)
}

/// What was admitted is flushed, and pending for two rounds.
fn waits_two_rounds(node: &mut Node<PlainEnd>) -> bool
    requires { node.old.node.nodes ≤ 5 }
{
    collects(node) && flushes(node) && ends_round(node) && ends_round(node)
}

#[test]
fn a_pending_attempt_waits(rt: HostRuntime) -> Result<(), Fail> {
    let admit = Event::Admit {
        range: first(),
        id: attempt(),
        request: put(key("a")?),
    };
    let mut node = alone(rt.alloc());
    let admitted = happens(&mut node, admit, &EventAnswer::Admitted);
    let waited = admitted && waits_two_rounds(&mut node);
    assert!(rt; waited && node.rounds() == 2 && node.waited() == 2);
    Ok(())
}
