//! Copies of messages.
ghost use Rattle.std.specs.Prelude.{◌≡◌, IfOk};

use rp_base::NoMemory;
use rp_raftlog::copies;
use rp_raftstep::Message;
use rp_snapshot::Snapshot;
use std::alloc::Global;

/// An equal message.
#[inline(never)]
pub fn copy_message(
    alloc: Global,
    message: &Message<Snapshot>,
) -> Result<Message<Snapshot>, NoMemory>
    ensures { IfOk result (λ copy. copy ≡ message.now) }
{
    Ok(match message {
        Message::Vote {
            term,
            last_index,
            last_term,
        } => Message::Vote {
            term: *term,
            last_index: *last_index,
            last_term: *last_term,
        },
        Message::VoteReply { term, granted } => Message::VoteReply {
            term: *term,
            granted: *granted,
        },
        Message::Append {
            term,
            prev_index,
            prev_term,
            entries,
            commit,
        } => Message::Append {
            term: *term,
            prev_index: *prev_index,
            prev_term: *prev_term,
            entries: copies(alloc, entries.as_slice())?,
            commit: *commit,
        },
        Message::AppendReply { term, ok, index } => Message::AppendReply {
            term: *term,
            ok: *ok,
            index: *index,
        },
        Message::Forward { payload } => Message::Forward {
            payload: payload.copy()?,
        },
        Message::Snap {
            term,
            index,
            index_term,
            snapshot,
        } => Message::Snap {
            term: *term,
            index: *index,
            index_term: *index_term,
            snapshot: snapshot.copy()?,
        },
    })
}
