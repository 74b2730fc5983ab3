//! A first message at a node that follows.
ghost use Rattle.std.specs.Prelude.{◌≡◌, []};
ghost use Rattle.rp_raftstep.specs.declared.messages.Message.TheVariants as messages;

use crate::samples::{first, one, second, two};
use rp_base::{RangeId, Seq};
use rp_bufcore::PlainEnd;
use rp_events::{Event, Parcel};
use rp_node::Node;
use rp_raftstep::Message;
use rp_snapshot::Snapshot;
use std::alloc::Global;

/// The first Append of the first leader, without entries.
fn append(alloc: Global) -> Message<Snapshot>
    ensures { result ≡ messages.Append 1 0 0 [] 0 }
{
    Message::Append {
        term: 1,
        prev_index: 0,
        prev_term: 0,
        entries: Seq::new(alloc),
        commit: 0,
    }
}

/// Whether one message was sent: to node 1, in this range, that the log is as its own up to index 0
/// or is not.
fn is_reply(sent: &[Parcel<Snapshot>], in_range: RangeId, agrees: bool) -> bool {
    match sent {
        [
            Parcel {
                to,
                range,
                message: Message::AppendReply {
                    term: 1,
                    ok,
                    index: 0,
                },
            },
        ] => *to == one() && *range == in_range && *ok == agrees,
        _ => false,
    }
}

/// Whether node 2 of three answers so to the first Append in the first range.
fn answers_in_first(alloc: Global) -> bool {
    let message = append(alloc);
    let mut node = Node::start(alloc, two(), 3, PlainEnd::new());
    let heard = node.step(Event::Deliver {
        from: one(),
        range: first(),
        number: 1,
        message,
    });
    heard.is_ok() && is_reply(node.sent().as_slice(), first(), true)
}

/// Whether it answers so in a range that it lacks.
fn answers_in_second(alloc: Global) -> bool {
    let message = append(alloc);
    let mut node = Node::start(alloc, two(), 3, PlainEnd::new());
    let heard = node.step(Event::Deliver {
        from: one(),
        range: second(),
        number: 1,
        message,
    });
    heard.is_ok() && is_reply(node.sent().as_slice(), second(), false)
}

#[test]
fn an_append_is_answered(rt: HostRuntime) {
    assert!(rt; answers_in_first(rt.alloc()) && answers_in_second(rt.alloc()));
}
