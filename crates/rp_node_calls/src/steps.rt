//! An attempt that waits as its replica is taken down.
ghost use Rattle.std.specs.Prelude.{◌≤◌};
ghost use Rattle.rp_events.specs.MaySteps.{MayDo};

use crate::samples::{alone, attempt, first, key, put};
use rp_base::Key;
use rp_bufcore::PlainEnd;
use rp_events::{Ended, Event, EventAnswer, PastEvent};
use rp_node::{Journal, Node, Seen};
use rp_request::{Outcome, Refusal, Request};
use rp_snapshot::Snapshot;
use std::test::Fail;

/// An event happens, where the journal is not full, and is answered so.
#[tactic(auto, using(crate::proofs::Keeping::still_few, crate::proofs::Keeping::as_few))]
pub(crate) fn happens(
    node: &mut Node<PlainEnd>,
    event: Event<Snapshot>,
    answer: &EventAnswer,
) -> bool
    requires nodes { node.old.node.nodes ≤ 5 }
    requires may { MayDo node.old.node event }
    ensures { node.new.node.nodes ≤ 5 }
{
    if node.is_full() {
        return false;
    }
    match node.step(event) {
        Ok(answered) => answered == *answer,
        Err(_) => false,
    }
}

/// The first range's replica is taken down.
fn removes(node: &mut Node<PlainEnd>) -> bool
    requires { node.old.node.nodes ≤ 5 }
{
    happens(node, Event::Remove { range: first() }, &EventAnswer::Done)
}

/// Whether the first two events stand in the journal.
fn have_happened(events: &[PastEvent]) -> bool {
    match events {
        [
            PastEvent::Admit { id, place: 0, .. },
            PastEvent::Remove { .. },
        ] => *id == attempt(),
        _ => false,
    }
}

/// Whether the event at a place was answered so.
fn was_answered(journal: &Journal, place: usize, answer: &EventAnswer) -> bool {
    place < journal.len() && journal.answer(place) == *answer
}

/// Whether the first two events stand in the journal, with their answers.
fn are_written(journal: &Journal) -> bool {
    have_happened(journal.events())
        && was_answered(journal, 0, &EventAnswer::Admitted)
        && was_answered(journal, 1, &EventAnswer::Done)
}

/// Whether the attempt alone ended, and was refused.
fn is_refused(ends: &[Ended]) -> bool {
    match ends {
        [end] => end.id == attempt() && end.outcome == Outcome::Refused(Refusal::NoReplica),
        _ => false,
    }
}

/// Whether a request alone was to be admitted.
fn is_asked(requests: &[Request], key: Key) -> bool {
    match requests {
        [request] => *request == put(key),
        _ => false,
    }
}

/// Whether a tombstone stands in the first range's seat.
fn has_tombstone(node: &Node<PlainEnd>) -> bool {
    match node.seen(first()) {
        Seen::Removed(_) => true,
        Seen::Live(_) | Seen::Absent => false,
    }
}

/// Whether the admission and the removal are kept, and a tombstone stands in the seat.
fn keeps_both(node: &Node<PlainEnd>, key: Key) -> bool {
    are_written(node.journal())
        && is_refused(node.outcomes().as_slice())
        && is_asked(node.requests().as_slice(), key)
        && has_tombstone(node)
}

#[test]
fn a_removal_ends_what_waits(rt: HostRuntime) -> Result<(), Fail> {
    let key = key("a")?;
    let admit = Event::Admit {
        range: first(),
        id: attempt(),
        request: put(key),
    };
    let mut node = alone(rt.alloc());
    let admitted = happens(&mut node, admit, &EventAnswer::Admitted);
    assert!(rt; admitted && removes(&mut node) && keeps_both(&node, key));
    Ok(())
}
