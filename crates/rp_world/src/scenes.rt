//! What happens at a node.
ghost use Rattle.std.specs.Prelude.{◌≡◌, ◌≤◌, Some, IfOk, IsSome, OnErr, drop, length, map};
ghost use Rattle.std.specs.Option.{option_map};
ghost use Rattle.rp_events.specs.Nodes.{parcel_of};
ghost use Rattle.rp_events.specs.Worlds.{delivery, sent_by};
ghost use Rattle.rp_lawful.specs.Comings.{Comes, node_in};
ghost use Rattle.rp_world.specs.Comes.{Happens, buffered_of, node_event};

use rp_base::{NoMemory, NodeId};
use rp_bufcore::PlainEnd;
use rp_events::{Event, EventAnswer, Parcel, WorldEvent};
use rp_node::Nodes;
use rp_replica::copy_message;
use rp_snapshot::Snapshot;
use std::alloc::Global;

/// The node of an event.
pub(crate) fn node_of(event: &WorldEvent) -> NodeId
    ensures { result ≡ node_in event.now }
{
    match *event {
        WorldEvent::Admit { node, .. }
        | WorldEvent::Ask { node, .. }
        | WorldEvent::Transfer { node, .. }
        | WorldEvent::Collect { node, .. }
        | WorldEvent::Flush { node, .. }
        | WorldEvent::Tick { node }
        | WorldEvent::Deliver { node, .. }
        | WorldEvent::Apply { node, .. }
        | WorldEvent::Cut { node, .. }
        | WorldEvent::Remove { node, .. }
        | WorldEvent::Peek { node, .. }
        | WorldEvent::Restart { node }
        | WorldEvent::Round { node }
        | WorldEvent::Draw { node, .. }
        | WorldEvent::Publish { node, .. } => node,
    }
}

/// All that a node has sent; nothing where there is no such node.
pub(crate) fn sent_by(nodes: &Nodes<PlainEnd>, node: NodeId) -> &[Parcel<Snapshot>]
    ensures { result.now ≡ sent_by (map (λ h. h.node) nodes.now) node }
{
    match nodes.get(node) {
        Some(node) => node.sent().as_slice(),
        None => &[],
    }
}

/// What stands behind so many items.
pub(crate) fn behind<T>(list: &[T], count: usize) -> &[T]
    requires { count ≤ length list.now }
    ensures { result.now ≡ drop count list.now }
{
    &list[count..]
}

/// The message with this number, as an event of its receiver.
#[inline(never)]
fn delivery_of(
    alloc: Global,
    from: NodeId,
    number: u64,
    sent: &[Parcel<Snapshot>],
) -> Result<Event<Snapshot>, NoMemory>
    requires { IsSome (parcel_of sent.now number) }
    ensures { IfOk result (λ e. option_map (delivery from number) (parcel_of sent.now number) ≡ Some e) }
{
    let parcel = &sent[number as usize - 1];
    let message = copy_message(alloc, &parcel.message)?;
    Ok(Event::Deliver {
        from,
        range: parcel.range,
        number,
        message,
    })
}

/// The event as its node takes it.
#[inline(never)]
fn event_of(
    alloc: Global,
    nodes: &Nodes<PlainEnd>,
    event: &WorldEvent,
) -> Result<Event<Snapshot>, NoMemory>
    requires { Comes (buffered_of nodes.now) event.now }
    ensures { IfOk result (λ e. node_event (buffered_of nodes.now) event.now ≡ Some e) }
{
    Ok(match *event {
        WorldEvent::Admit {
            range,
            id,
            request,
            ..
        } => Event::Admit { range, id, request },
        WorldEvent::Ask { range, .. } => Event::Ask { range },
        WorldEvent::Transfer { range, to, .. } => Event::Transfer { range, to },
        WorldEvent::Collect { range, .. } => Event::Collect { range },
        WorldEvent::Flush { range, .. } => Event::Flush { range },
        WorldEvent::Tick { .. } => Event::Tick,
        WorldEvent::Deliver { from, number, .. } => {
            return delivery_of(alloc, from, number, sent_by(nodes, from));
        }
        WorldEvent::Apply { range, .. } => Event::Apply { range },
        WorldEvent::Cut { range, .. } => Event::Cut { range },
        WorldEvent::Remove { range, .. } => Event::Remove { range },
        WorldEvent::Peek { range, key, .. } => Event::Peek { range, key },
        WorldEvent::Restart { .. } => Event::Restart,
        WorldEvent::Round { .. } => Event::Round,
        WorldEvent::Draw { .. } | WorldEvent::Publish { .. } => unreachable!(),
    })
}

/// An event happens at its node. At want of memory nothing happens.
pub(crate) fn happen(
    alloc: Global,
    nodes: &mut Nodes<PlainEnd>,
    event: &WorldEvent,
) -> Result<EventAnswer, NoMemory>
    requires { Comes (buffered_of nodes.old) event.now }
    ensures ok { IfOk result (λ answer. Happens nodes.old event.now nodes.new answer) }
    ensures err { OnErr result (nodes.new ≡ nodes.old) }
{
    let happens = event_of(alloc, nodes, event)?;
    nodes.step(node_of(event), happens)
}
