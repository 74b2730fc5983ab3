//! A node among several, by its number.

use crate::samples::{alone, ask_of, first, one, two};
use rp_base::Item;
use rp_bufcore::PlainEnd;
use rp_node::Nodes;
use std::alloc::Global;
use std::test::Fail;

/// One node as it starts.
fn one_node(alloc: Global) -> Result<Nodes<PlainEnd>, Fail> {
    Ok(Nodes::from_vec(Vec::from_array(alloc, [alone(alloc)])?))
}

/// Whether there is node 1 alone.
fn has_node_one(nodes: &Nodes<PlainEnd>) -> bool {
    nodes.len() == 1
        && nodes.as_slice().len() == 1
        && nodes.get(one()).is_some()
        && nodes.get(two()).is_none()
}

/// The first place of the first range's buffer at node 1 is drawn.
fn draws(nodes: &mut Nodes<PlainEnd>) -> bool {
    nodes.len() > 0 && nodes.draw(one(), first()) == Ok(0)
}

/// An item is published at this place; false where the place was not drawn.
fn publishes(nodes: &mut Nodes<PlainEnd>, place: u8) -> bool {
    let item = Item::Lease(ask_of(one()));
    nodes.len() > 0 && nodes.publish(one(), first(), place, item).is_ok()
}

/// An item is published at the place that was drawn, and not at the one behind it.
fn puts(nodes: &mut Nodes<PlainEnd>) -> bool {
    draws(nodes) && !publishes(nodes, 1) && publishes(nodes, 0)
}

#[test]
fn producers_put_at_a_node(rt: HostRuntime) -> Result<(), Fail> {
    let mut nodes = one_node(rt.alloc())?;
    assert!(rt; has_node_one(&nodes) && puts(&mut nodes));
    Ok(())
}
