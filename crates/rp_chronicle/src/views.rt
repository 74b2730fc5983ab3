//! What a world shows.
ghost use Rattle.std.specs.Prelude.{◌≡◌, ◌≤◌, ◌<◌, ◌^◌, length, sum_by, All, IfOk, Some};
ghost use Rattle.rp_events.specs.Lawful.{IsReached};
ghost use Rattle.rp_lines.specs.Views.{IsRangeView, IsViewWith, ShowsRanges};
ghost use Rattle.rp_report.specs.Shown.{IsShownAnswer, IsShownView};
ghost use Rattle.rp_chronicle.specs.Worlds.{furthest_of, world_of};

use crate::pieces::{base_of, records_to};
use crate::replicas::replica_views;
use crate::seats::furthest;
use rp_apply::ApplyState;
use rp_base::{NoMemory, RangeId, Seq};
use rp_bufcore::BufferEnd;
use rp_events::Parcel;
use rp_node::{Node, Nodes};
use rp_report::{RangeView, View};
use rp_request::{Notes, Replies};
use rp_snapshot::Snapshot;
use std::alloc::Global;

/// A range, where this is what the node has applied that has applied most of it.
fn range_view<B: BufferEnd + Drop>(
    alloc: Global,
    nodes: &[Node<B>],
    range: RangeId,
    state: &ApplyState,
) -> Result<RangeView, NoMemory>
    requires reached { IsReached (length nodes.now) (world_of nodes.now) }
    requires furthest { furthest_of (world_of nodes.now) range ≡ Some state.now.history }
    ensures { IfOk result (IsRangeView (world_of nodes.now) range) }
{
    let records = records_to(alloc, nodes, range, state.index())?;
    let replicas = replica_views(alloc, nodes, range)?;
    Ok(RangeView {
        desc: state.desc(),
        lease: state.lease(),
        first: base_of(range) + 1,
        records,
        replicas,
    })
}

/// The ranges that some node has or had, by number.
fn range_views<B: BufferEnd + Drop>(
    alloc: Global,
    nodes: &[Node<B>],
) -> Result<Seq<RangeView>, NoMemory>
    requires { IsReached (length nodes.now) (world_of nodes.now) }
    ensures { IfOk result (ShowsRanges (world_of nodes.now)) }
{
    let mut views = Vec::new(alloc);
    for number in 0..8 {
        let range = RangeId::new(number).unwrap();
        if let Some(state) = furthest(nodes, range) {
            views.push(range_view(alloc, nodes, range, state)?)?;
        }
    }
    Ok(Seq::from_vec(views))
}

/// How many messages these are.
fn count_of(sent: &[Parcel<Snapshot>]) -> u64
    ensures count { result ≡ length sent.now }
    ensures few { result < 2 ^ 61 }
{
    sent.len() as u64
}

/// How many messages the nodes have sent.
fn messages<B: BufferEnd + Drop>(nodes: &[Node<B>]) -> u64
    requires { length nodes.now ≤ 5 }
    ensures { result ≡ sum_by (λ n. length n.sent) (world_of nodes.now) }
{
    let mut count = 0;
    for node in nodes {
        count += count_of(node.sent().as_slice());
    }
    count
}

/// What these nodes show beside these replies and notes.
fn view_of<B: BufferEnd + Drop>(
    alloc: Global,
    nodes: &[Node<B>],
    replies: Replies,
    notes: Notes,
) -> Result<View, NoMemory>
    requires { IsReached (length nodes.now) (world_of nodes.now) }
    ensures view { IfOk result (IsViewWith (world_of nodes.now) replies notes) }
    ensures shown { All IsShownAnswer replies → IfOk result IsShownView }
{
    Ok(View {
        nodes: nodes.len() as u8,
        messages: messages(nodes),
        ranges: range_views(alloc, nodes)?,
        replies,
        notes,
    })
}

/// What the nodes of a world show beside these replies and notes: each range that some node has or
/// had, with its one list, its state after the whole list, and what each node has of it.
pub fn view<B: BufferEnd + Drop>(
    alloc: Global,
    nodes: &Nodes<B>,
    replies: Replies,
    notes: Notes,
) -> Result<View, NoMemory>
    requires { IsReached (length nodes.now) (world_of nodes.now) }
    ensures view { IfOk result (IsViewWith (world_of nodes.now) replies notes) }

    // It can be written where the replies can.
    ensures shown { All IsShownAnswer replies → IfOk result IsShownView }
{
    view_of(alloc, nodes.as_slice(), replies, notes)
}
