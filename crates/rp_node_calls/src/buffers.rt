//! What producers put into a node's buffers.
ghost use Rattle.std.specs.Prelude.{◌≡◌, ◌≤◌};

use crate::samples::{alone, ask_of, first, one};
use crate::steps::happens;
use rp_base::{BUFFER_CAPACITY, Item, Items};
use rp_bufcore::{BufferEnd, PlainEnd};
use rp_events::{Event, EventAnswer, PastEvent};
use rp_node::{Node, Seen};
use std::test::Fail;

/// An ask is put into the first place of the first range's buffer.
fn puts(node: &mut Node<PlainEnd>) -> bool
    ensures { node.new.node ≡ node.old.node }
{
    let item = Item::Lease(ask_of(one()));
    node.draw(first()) == Ok(0) && node.publish(first(), 0, item).is_ok()
}

/// Whether the journal has this item as what a collect took.
fn is_taken(events: &[PastEvent], item: &Item) -> bool {
    match events {
        [PastEvent::Collect { taken, .. }] => is_alone(taken.as_slice(), item),
        _ => false,
    }
}

fn is_alone(items: &[Item], item: &Item) -> bool {
    match items {
        [taken] => taken == item,
        _ => false,
    }
}

/// A collect takes what the buffer gives.
fn collects(node: &mut Node<PlainEnd>) -> bool
    requires { node.old.node.nodes ≤ 5 }
{
    let item = Item::Lease(ask_of(one()));
    happens(node, Event::Collect { range: first() }, &EventAnswer::Done)
        && is_taken(node.journal().events(), &item)
}

#[test]
fn what_was_published_is_taken(rt: HostRuntime) {
    let mut node = alone(rt.alloc());
    let put = puts(&mut node);
    assert!(rt; put && collects(&mut node));
}

#[test]
fn the_end_has_what_was_not_taken(rt: HostRuntime) -> Result<(), Fail> {
    let mut items = Items::new(rt.alloc());
    items.make_room(BUFFER_CAPACITY)?;
    let mut node = alone(rt.alloc());
    let put = puts(&mut node);
    let mut end = node.end();
    end.collect(first(), &mut items);
    assert!(rt; put && is_alone(items.as_slice(), &Item::Lease(ask_of(one()))));
    Ok(())
}
