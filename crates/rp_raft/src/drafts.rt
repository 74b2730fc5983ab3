//! The simplest drafts, of which the others are made.

ghost use Rattle.std.specs.Prelude.{◌≡◌, [], ◌∷◌, IfOk, OnOk};
ghost use Rattle.rp_raftstep.specs.Step.{nothing};
ghost use Rattle.rp_raft.specs.Plans.{quiet_draft, with_message};

use crate::plans::{LogEdit, RaftDraft};
use rp_base::{Bytes, NoMemory, NodeId, Seq};
use rp_raftlog::{Entries, Entry, SharedBytes};
use rp_raftstep::{Due, Head, Message};
use std::alloc::Global;

/// Nothing is sent. It takes no memory.
pub(crate) fn quiet<S>(alloc: Global, head: &Head) -> RaftDraft<S>
    ensures { result ≡ quiet_draft head.now }
{
    RaftDraft {
        head: *head,
        edit: LogEdit::Stays,
        messages: Seq::new(alloc),
        due: Due::Nobody,
        taken: None,
    }
}

/// One message more is sent.
pub(crate) fn answer<S: Drop>(
    draft: &mut RaftDraft<S>,
    to: NodeId,
    message: Message<S>,
) -> Result<(), NoMemory>
    ensures { OnOk result (draft.new ≡ with_message draft.old to message) }
{
    draft.messages.push((to, message))
}

/// One entry.
pub(crate) fn one_entry(alloc: Global, term: u64, payload: Bytes) -> Result<Entries, NoMemory>
    ensures { IfOk result (λ entries. entries ≡ record { term = term; payload = payload } ∷ []) }
{
    let mut entries = Seq::new(alloc);
    let payload = SharedBytes::new(payload)?;
    entries.push(Entry { term, payload })?;
    Ok(entries)
}

/// The payload Nothing, that a new leader appends.
pub(crate) fn nothing(alloc: Global) -> Result<Bytes, NoMemory>
    ensures { IfOk result (λ payload. payload ≡ nothing) }
{
    let mut payload = Seq::new(alloc);
    payload.push(1)?;
    payload.push(0)?;
    Ok(payload)
}
