//! What the seats of nodes show of ranges and attempts.
ghost use Rattle.std.specs.Prelude.{◌≡◌, None, Some, MatchOption};
ghost use Rattle.rp_events.specs.Nodes.{Live};
ghost use Rattle.rp_events.specs.Buffered.{has_live};
ghost use Rattle.rp_lines.specs.Commands.{is_waiting, waits_in};
ghost use Rattle.rp_world.specs.Comes.{buffered_of, live_at};

use rp_base::{CmdId, NodeId, RangeId};
use rp_book::Booked;
use rp_bufcore::PlainEnd;
use rp_node::{Nodes, Seen};
use rp_pending::Stage;
use rp_replica::Replica;

/// The live replica of a range at a node, where there is one.
pub(crate) fn live_at(nodes: &Nodes<PlainEnd>, node: NodeId, range: RangeId) -> Option<&Replica>
    ensures { MatchOption result (live_at (buffered_of nodes.now).nodes node range ≡ None)
        (λ r. live_at (buffered_of nodes.now).nodes node range ≡ Some r.now.replica) }
{
    match nodes.get(node)?.seen(range) {
        Seen::Live(replica) => Some(replica),
        Seen::Removed(_) | Seen::Absent => None,
    }
}

/// The node has a live replica of the range.
pub(crate) fn has_live(nodes: &Nodes<PlainEnd>, node: NodeId, range: RangeId) -> bool
    ensures { result ≡ has_live (buffered_of nodes.now).nodes node range }
{
    live_at(nodes, node, range).is_some()
}

/// The replica's attempt is pending and waits.
fn waits(replica: &Replica, id: CmdId) -> bool
    ensures { result ≡ waits_in id (Live replica.now.replica) }
{
    match replica.pending().find(id) {
        Some(proposal) => proposal.stage == Stage::Waiting,
        None => false,
    }
}

/// The attempt is pending where it was asked, and waits.
pub(crate) fn is_waiting(nodes: &Nodes<PlainEnd>, id: CmdId, booked: &Booked) -> bool
    ensures { result ≡ is_waiting (buffered_of nodes.now).nodes id booked.now }
{
    match live_at(nodes, booked.node, booked.range) {
        Some(replica) => waits(replica, id),
        None => false,
    }
}
