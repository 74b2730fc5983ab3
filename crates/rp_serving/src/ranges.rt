//! The ranges of a node.
ghost use Rattle.std.specs.Prelude.{◌≡◌, slice_get};
ghost use Rattle.rp_events.specs.Buffered as buffered;
ghost use Rattle.rp_events.specs.Nodes.{seat};
ghost use Rattle.rp_race.specs.Rounds.{first_waiting, live_ranges, waits};

use rp_base::RangeId;
use rp_bufcore::BufferEnd;
use rp_node::{Node, Seen};

/// How many ranges there may be.
pub(crate) const RANGES: u8 = 8;

/// Whether a node has a live replica of a range.
fn is_live<E: BufferEnd + Drop>(node: &Node<E>, range: RangeId) -> bool
    ensures { result ≡ buffered.is_live (seat node.now.node range) }
{
    match node.seen(range) {
        Seen::Live(_) => true,
        Seen::Removed(_) | Seen::Absent => false,
    }
}

/// The live range of a node that has so many others before it.
pub(crate) fn live_range<E: BufferEnd + Drop>(node: &Node<E>, place: u8) -> Option<RangeId>
    ensures { result ≡ slice_get (live_ranges node.now.node) place }
{
    let mut left = place;
    for number in 0..RANGES {
        let range = RangeId::new(number).unwrap();
        if is_live(node, range) {
            if left == 0 {
                return Some(range);
            }
            left -= 1;
        }
    }
    None
}

/// Whether an entry of a range is committed and not applied.
fn waits<E: BufferEnd + Drop>(node: &Node<E>, range: RangeId) -> bool
    ensures { result ≡ waits (seat node.now.node range) }
{
    match node.seen(range) {
        Seen::Live(replica) => replica.applied().index() < replica.commit_index(),
        Seen::Removed(_) | Seen::Absent => false,
    }
}

/// The first range in which an entry waits.
pub(crate) fn first_waiting<E: BufferEnd + Drop>(node: &Node<E>) -> Option<RangeId>
    ensures { result ≡ first_waiting node.now.node }
{
    for number in 0..RANGES {
        let range = RangeId::new(number).unwrap();
        if waits(node, range) {
            return Some(range);
        }
    }
    None
}
