//! What each node has of a range.
ghost use Rattle.std.specs.Prelude.{◌≡◌, map, IfOk};
ghost use Rattle.std.specs.FinMap.{entries};
ghost use Rattle.rp_events.specs.Nodes.{Live, seat};
ghost use Rattle.rp_lines.specs.Views.{row_of, status_view};
ghost use Rattle.rp_chronicle.specs.Worlds.{world_of};

use rp_base::{NoMemory, RangeId, Seq};
use rp_bufcore::BufferEnd;
use rp_node::{Node, Seen};
use rp_replica::Replica;
use rp_report::{ReplicaView, Row};
use rp_table::Table;
use std::alloc::Global;

/// The rows of a table, by key.
fn rows_of(alloc: Global, table: &Table) -> Result<Seq<Row>, NoMemory>
    ensures { IfOk result (λ rows. rows ≡ map row_of (entries table.now.map)) }
{
    let mut rows = Vec::new(alloc);
    for at in 0..table.len() {
        let (key, value) = table.row(at);
        rows.push(Row { key, value })?;
    }
    Ok(Seq::from_vec(rows))
}

/// A replica's term, how far it has come, and its rows.
fn live_view(alloc: Global, replica: &Replica) -> Result<ReplicaView, NoMemory>
    ensures { IfOk result (λ view. view ≡ status_view (Live replica.now.replica)) }
{
    let applied = replica.applied();
    let rows = rows_of(alloc, applied.table())?;
    Ok(ReplicaView::Live {
        term: replica.term(),
        applied: applied.index(),
        lai: applied.lai(),
        rows,
    })
}

/// What a node has of a range.
fn replica_view<B: BufferEnd + Drop>(
    alloc: Global,
    node: &Node<B>,
    range: RangeId,
) -> Result<ReplicaView, NoMemory>
    ensures { IfOk result (λ view. view ≡ status_view (seat node.now.node range)) }
{
    match node.seen(range) {
        Seen::Live(replica) => live_view(alloc, replica),
        Seen::Removed(kept) => Ok(ReplicaView::Removed {
            applied: kept.index(),
        }),
        Seen::Absent => Ok(ReplicaView::Absent),
    }
}

/// What each node has of a range.
pub(crate) fn replica_views<B: BufferEnd + Drop>(
    alloc: Global,
    nodes: &[Node<B>],
    range: RangeId,
) -> Result<Seq<ReplicaView>, NoMemory>
    ensures { IfOk result (λ views. views ≡ map (λ n. status_view (seat n range)) (world_of nodes.now)) }
{
    let mut views = Vec::new(alloc);
    for node in nodes {
        views.push(replica_view(alloc, node, range)?)?;
    }
    Ok(Seq::from_vec(views))
}
