//! What has been applied of a range, and by which node the most.
ghost use Rattle.std.specs.Prelude.{◌≡◌};
ghost use Rattle.std.specs.Option.{option_map};
ghost use Rattle.rp_events.specs.Lists.{history_in};
ghost use Rattle.rp_events.specs.Nodes.{seat};
ghost use Rattle.rp_chronicle.specs.Worlds.{further, furthest_of, world_of};

use rp_apply::ApplyState;
use rp_base::RangeId;
use rp_bufcore::BufferEnd;
use rp_node::{Node, Seen};

/// What a node has applied of a range, also where its replica was removed.
pub(crate) fn applied_at<B: BufferEnd + Drop>(node: &Node<B>, range: RangeId) -> Option<&ApplyState>
    ensures { option_map (λ s. s.now.history) result ≡ history_in (seat node.now.node range) }
{
    match node.seen(range) {
        Seen::Live(replica) => Some(replica.applied()),
        Seen::Removed(kept) => Some(kept),
        Seen::Absent => None,
    }
}

/// The one of two that has applied more, the first where they have applied the same.
fn further<'a>(
    first: Option<&'a ApplyState>,
    second: Option<&'a ApplyState>,
) -> Option<&'a ApplyState>
    ensures { option_map (λ s. s.now.history) result ≡ further
        (option_map (λ s. s.now.history) first.entry) (option_map (λ s. s.now.history) second.entry) }
{
    let Some(one) = first else {
        return second;
    };
    let Some(other) = second else {
        return first;
    };
    if one.index() < other.index() {
        second
    } else {
        first
    }
}

/// What has been applied of a range by the node that has applied most of it; `None` where no node
/// has or had a replica.
pub(crate) fn furthest<B: BufferEnd + Drop>(
    nodes: &[Node<B>],
    range: RangeId,
) -> Option<&ApplyState>
    ensures { option_map (λ s. s.now.history) result ≡ furthest_of (world_of nodes.now) range }
{
    let mut most = None;
    for node in nodes {
        most = further(most, applied_at(node, range));
    }
    most
}
