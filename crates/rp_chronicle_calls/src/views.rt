//! What two nodes show as they start.
ghost use Rattle.std.specs.Prelude.{length, IfOk};
ghost use Rattle.rp_chronicle.specs.Worlds.{world_of};
ghost use Rattle.rp_events.specs.Lawful.{IsReached};

use rp_base::{NoMemory, NodeId, RangeId, Seq};
use rp_bufcore::PlainEnd;
use rp_chronicle::{assemble, view};
use rp_node::{Node, Nodes};
use rp_report::{RangeView, ReplicaView, View};
use std::alloc::Global;
use std::test::Fail;

/// Two nodes as they start.
fn two_nodes(alloc: Global) -> Result<Nodes<PlainEnd>, NoMemory>
    ensures { IfOk result (λ nodes. IsReached (length nodes) (world_of nodes)) }
{
    let first = Node::start(alloc, NodeId::new(1).unwrap(), 2, PlainEnd::new());
    let second = Node::start(alloc, NodeId::new(2).unwrap(), 2, PlainEnd::new());
    let nodes = Vec::from_array(alloc, [first, second])?;
    Ok(Nodes::from_vec(nodes))
}

/// Whether a replica stands where the first range starts, without rows.
fn is_at_start(replica: &ReplicaView) -> bool {
    match replica {
        ReplicaView::Live {
            term,
            applied,
            lai,
            rows,
        } => *term == 1 && *applied == 0 && lai.get() == 0 && rows.len() == 0,
        ReplicaView::Removed { .. } | ReplicaView::Absent => false,
    }
}

/// Whether this is the first range as it starts at two nodes.
fn is_first(range: &RangeView) -> bool {
    range.desc.id.get() == 0
        && range.lease.holder.get() == 1
        && range.first == 1
        && range.records.len() == 0
        && range.replicas.len() == 2
        && range.replicas.as_slice().iter().all(is_at_start)
}

/// Whether two nodes as they start are shown, and nothing beside them.
fn shows_the_start(view: &View) -> bool {
    view.nodes == 2
        && view.messages == 0
        && view.notes.len() == 0
        && view.replies.len() == 0
        && view.ranges.len() == 1
        && view.ranges.as_slice().iter().all(is_first)
}

#[test]
fn lists_no_record_at_first(rt: HostRuntime) -> Result<(), Fail> {
    let nodes = two_nodes(rt.alloc())?;
    let list = assemble(rt.alloc(), &nodes, RangeId::new(0).unwrap())?;
    assert!(rt; list.first == 1 && list.records.len() == 0);
    Ok(())
}

#[test]
fn shows_the_first_range(rt: HostRuntime) -> Result<(), Fail> {
    let nodes = two_nodes(rt.alloc())?;
    let shown = view(
        rt.alloc(),
        &nodes,
        Seq::new(rt.alloc()),
        Seq::new(rt.alloc()),
    )?;
    assert!(rt; shows_the_start(&shown));
    Ok(())
}
