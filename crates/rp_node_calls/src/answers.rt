//! What a node answers to its first event, by the kind of the event.
ghost use Rattle.rp_events.specs.MaySteps.{MayDo};
ghost use Rattle.rp_events.specs.Nodes.{first_node};

use crate::samples::{alone, ask_of, attempt, first, key, one, put, second, two};
use rp_bufcore::PlainEnd;
use rp_events::{Event, EventAnswer};
use rp_node::{Node, Seen};
use rp_request::Refusal;
use rp_snapshot::Snapshot;
use std::alloc::Global;
use std::test::Fail;

/// Whether a node that stands alone answers this to its first event.
fn answers(alloc: Global, event: Event<Snapshot>, answer: &EventAnswer) -> bool
    requires { MayDo (first_node 1 1) event }
{
    let mut node = alone(alloc);
    match node.step(event) {
        Ok(answered) => answered == *answer,
        Err(_) => false,
    }
}

/// Whether it is done.
fn is_done(alloc: Global, event: Event<Snapshot>) -> bool
    requires { MayDo (first_node 1 1) event }
{
    answers(alloc, event, &EventAnswer::Done)
}

#[test]
fn events_of_the_first_range_are_answered(rt: HostRuntime) -> Result<(), Fail> {
    let (alloc, range, key) = (rt.alloc(), first(), key("a")?);
    let none = EventAnswer::Value {
        value: None,
        applied: 0,
    };
    let admit = Event::Admit {
        range,
        id: attempt(),
        request: put(key),
    };
    assert!(rt; answers(alloc, admit, &EventAnswer::Admitted));
    assert!(rt;
        answers(
            alloc,
            Event::Ask { range },
            &EventAnswer::Asked(ask_of(one()))
        )
    );
    assert!(rt;
        answers(
            alloc,
            Event::Transfer { range, to: two() },
            &EventAnswer::Asked(ask_of(two()))
        )
    );
    assert!(rt; answers(alloc, Event::Apply { range }, &EventAnswer::Nothing));
    assert!(rt; answers(alloc, Event::Peek { range, key }, &none));
    Ok(())
}

#[test]
fn events_that_tell_nothing_are_done(rt: HostRuntime) {
    let (alloc, range) = (rt.alloc(), first());
    assert!(rt; is_done(alloc, Event::Collect { range }) && is_done(alloc, Event::Flush { range }));
    assert!(rt; is_done(alloc, Event::Cut { range }) && is_done(alloc, Event::Remove { range }));
    assert!(rt;
        is_done(alloc, Event::Tick)
            && is_done(alloc, Event::Restart)
            && is_done(alloc, Event::Round)
    );
}

#[test]
fn a_range_that_is_not_there_is_refused(rt: HostRuntime) {
    let (alloc, range) = (rt.alloc(), second());
    let refused = EventAnswer::Refused(Refusal::NoReplica);
    assert!(rt; answers(alloc, Event::Flush { range }, &refused));
}

/// Whether nothing is kept yet.
fn keeps_nothing(node: &Node<PlainEnd>) -> bool {
    node.journal().len() == 0
        && node.requests().len() == 0
        && node.sent().len() == 0
        && node.outcomes().len() == 0
}

/// Whether the node has the first range as it starts.
fn has_the_first_range(node: &Node<PlainEnd>) -> bool {
    match node.seen(first()) {
        Seen::Live(replica) => replica.term() == 1 && replica.applied().index() == 0,
        Seen::Removed(_) | Seen::Absent => false,
    }
}

/// Whether the node has nothing of the second range.
fn lacks_the_second_range(node: &Node<PlainEnd>) -> bool {
    match node.seen(second()) {
        Seen::Absent => true,
        Seen::Live(_) | Seen::Removed(_) => false,
    }
}

#[test]
fn a_node_starts(rt: HostRuntime) {
    let node = alone(rt.alloc());
    assert!(rt;
        keeps_nothing(&node) && has_the_first_range(&node) && lacks_the_second_range(&node)
    );
    assert!(rt; !node.is_full() && node.rounds() == 0 && node.waited() == 0);
}
