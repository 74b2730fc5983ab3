//! A first message at a node that follows.
use crate::samples::node;
use crate::turns::happen;
use rp_base::{NodeId, Seq, Tick};
use rp_events::{Effects, EventAnswer, ReplicaEvent};
use rp_raftstep::Message;
use rp_replica::Replica;
use rp_snapshot::Snapshot;
use rp_split::first;
use std::alloc::Global;
use std::test::Fail;

/// Another node than the leader hears its first Append, without entries.
fn first_append(alloc: Global, two: NodeId, one: NodeId) -> Option<Effects<Snapshot>> {
    let message = Message::Append {
        term: 1,
        prev_index: 0,
        prev_term: 0,
        entries: Seq::new(alloc),
        commit: 0,
    };
    let mut replica = Replica::start(alloc, two, 3, first(alloc), one, (0, 0));
    happen(
        &mut replica,
        ReplicaEvent::Deliver { from: one, message },
        Tick::new(1),
    )
}

/// Whether one message is sent: to this node, that the log is as its own up to index 0.
fn agrees(effects: Option<Effects<Snapshot>>, to: NodeId) -> bool {
    match effects {
        Some(effects) => {
            effects.answer == EventAnswer::Done && is_reply(effects.messages.as_slice(), to)
        }
        None => false,
    }
}

fn is_reply(messages: &[(NodeId, Message<Snapshot>)], to: NodeId) -> bool {
    match messages {
        [
            (
                receiver,
                Message::AppendReply {
                    term: 1,
                    ok: true,
                    index: 0,
                },
            ),
        ] => *receiver == to,
        _ => false,
    }
}

#[test]
fn an_append_is_answered(rt: HostRuntime) -> Result<(), Fail> {
    let (one, two) = (node(1)?, node(2)?);
    assert!(rt; agrees(first_append(rt.alloc(), two, one), one));
    Ok(())
}
