//! What a race begins with.
ghost use Rattle.std.specs.Prelude.{◌≡◌, ◌+◌, ◌-◌, ◌<◌, ◌≤◌, ◌++◌, ◌∷◌, [], true, length, IfOk, OnOk};
ghost use Rattle.rp_buffer.specs.Hands.{all_parts, is_carried, least, right_at};
ghost use Rattle.rp_buffer.specs.Passes.{known_by, IsPassOf, IsSame};
ghost use Rattle.rp_buffer.specs.Plays.{left};
ghost use Rattle.rp_buffer.specs.Slots.{first};
ghost use Rattle.rp_events.specs.Nodes.{first_node};
ghost use Rattle.rp_events.specs.Worlds.{first_world};
ghost use Rattle.rp_switch.specs.Openings.{bare};

use rp_base::{NoMemory, NodeId};
use rp_buffer::{Pass, SlotEnd, SlotTable};
use rp_node::Node;
use std::alloc::Global;

/// The next node stands behind the others, with the right to collect from its buffers.
fn push_node<'a>(
    alloc: Global,
    buffers: &'a SlotTable,
    pass: &mut Pass,
    list: &mut Vec<Node<SlotEnd<'a>>>,
    node: NodeId,
    nodes: u8,
) -> Result<(), NoMemory>
    requires of { IsPassOf buffers.now pass.old }
    requires parts { 2 ≤ (known_by pass.old).parts }
    requires carries { is_carried (right_at (least (known_by pass.old).rights) (node - 1)) ≡ true }
    requires few { nodes ≤ 5 }
    ensures same { IsSame pass.old pass.new }
    ensures pass { known_by pass.new ≡ left (known_by pass.old) }
    ensures pushed { OnOk result
        (bare list.new.items ≡ bare list.old.items ++ first_node node nodes ∷ []) }
{
    let part = buffers.split(pass);
    let end = SlotEnd::new(buffers, buffers.flusher(part, node));
    list.push(Node::start(alloc, node, nodes, end))?;
    Ok(())
}

/// So many nodes as they start, each with the right to collect from its buffers.
pub(crate) fn first_nodes<'a>(
    alloc: Global,
    buffers: &'a SlotTable,
    pass: &mut Pass,
    nodes: u8,
) -> Result<Vec<Node<SlotEnd<'a>>>, NoMemory>
    requires of { IsPassOf buffers.now pass.old }
    requires known { known_by pass.old ≡ first 40 }
    requires few { nodes ≤ 5 }
    ensures same { IsSame pass.old pass.new }
    ensures parts { OnOk result ((known_by pass.new).parts + nodes ≡ all_parts) }
    ensures size { IfOk result (λ list. length list.items ≡ nodes) }
    ensures nodes { IfOk result (λ list. bare list.items ≡ first_world nodes) }
{
    let mut list = Vec::new(alloc);
    for place in 0..nodes {
        let node = NodeId::new(place + 1).unwrap();
        push_node(alloc, buffers, pass, &mut list, node, nodes)?;
    }
    Ok(list)
}
