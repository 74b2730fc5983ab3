//! Payloads that are proposed, behind what an event did before.

ghost use Rattle.std.specs.Prelude.{◌≡◌, ◌+◌, ◌<◌, ◌++◌, false, true, if◌then◌else◌, map, nat_lt, IfOk, OnOk};
ghost use Rattle.rp_raftstep.specs.declared.messages.Message.TheVariants.{Forward};
ghost use Rattle.rp_raftstep.specs.declared.heads.Due.TheVariants.{Everyone};
ghost use Rattle.rp_raftstep.specs.RaftState.{is_leader};
ghost use Rattle.rp_raftstep.specs.Conditions.{CanAppend};
ghost use Rattle.rp_raftstep.specs.Step.{then_proposed};
ghost use Rattle.rp_raft.specs.Plans.{DraftFits, Drafts, draft_of, edit_behind, leads_to};

use crate::plans::{LogEdit, Messages, RaftDraft};
use crate::rafts::Raft;
use rp_base::{NoMemory, NodeId, Seq};
use rp_raftlog::{Entries, Entry, SharedBytes};
use rp_raftstep::{Due, Message, Payloads, Role};
use std::alloc::Global;

/// The payloads as entries of a term.
fn entries_of(alloc: Global, term: u64, payloads: Payloads) -> Result<Entries, NoMemory>
    ensures { IfOk result (λ entries. entries
        ≡ map (λ payload. record { term = term; payload = payload }) payloads) }
{
    let mut entries = Vec::with_capacity(alloc, payloads.len())?;
    for payload in payloads.into_vec() {
        let payload = SharedBytes::new(payload)?;
        entries.push(Entry { term, payload })?;
    }
    Ok(Seq::from_vec(entries))
}

/// Puts a `Forward` for each payload behind other messages.
fn push_forwards<S: Drop>(
    messages: &mut Messages<S>,
    leader: NodeId,
    payloads: Payloads,
) -> Result<(), NoMemory>
    ensures { OnOk result (messages.new
        ≡ messages.old ++ map (λ payload. (leader, Forward payload)) payloads) }
{
    for payload in payloads.into_vec() {
        messages.push((leader, Message::Forward { payload }))?;
    }
    Ok(())
}

/// Whom a leader sends to, where it proposes so many payloads behind.
fn due_behind(due: Due, payloads: usize) -> Due
    ensures { result ≡ (if nat_lt 0 payloads then Everyone else due) }
{
    if payloads > 0 {
        return Due::Everyone;
    }
    due
}

/// Puts more entries behind, where the edit leaves the log or puts entries behind it.
fn edit_behind(edit: &mut LogEdit, more: Entries) -> Result<(), NoMemory>
    ensures { OnOk result (edit.new ≡ edit_behind edit.old more) }
{
    match edit {
        LogEdit::Stays => {
            *edit = LogEdit::Appends { entries: more };
            Ok(())
        }
        LogEdit::Appends { entries } => entries.append(more),
        _ => Ok(()),
    }
}

impl<S: Drop> Raft<S> {
    /// A leader appends the payloads, and all are sent to.
    fn append_behind(&self, draft: &mut RaftDraft<S>, payloads: Payloads) -> Result<(), NoMemory>
        requires fits { DraftFits self.now.raft.log draft.old }
        requires room { CanAppend (leads_to draft.old.head self.now.raft.log draft.old.edit)
            payloads }
        requires leads { is_leader draft.old.head.role ≡ true }
        ensures { OnOk result (Drafts self.now.raft.log draft.new
            (then_proposed (draft_of self.now.raft.log draft.old) payloads)) }
    {
        let due = due_behind(draft.due, payloads.len());
        let entries = entries_of(self.alloc, draft.head.term, payloads)?;
        edit_behind(&mut draft.edit, entries)?;
        draft.due = due;
        Ok(())
    }

    /// One that knows the leader forwards the payloads to it. Else they are lost.
    #[cold]
    #[inline(never)]
    fn forward_behind(&self, draft: &mut RaftDraft<S>, payloads: Payloads) -> Result<(), NoMemory>
        requires fits { DraftFits self.now.raft.log draft.old }
        requires follows { is_leader draft.old.head.role ≡ false }
        ensures { OnOk result (Drafts self.now.raft.log draft.new
            (then_proposed (draft_of self.now.raft.log draft.old) payloads)) }
    {
        match draft.head.leader {
            Some(leader) => push_forwards(&mut draft.messages, leader, payloads),
            None => Ok(()),
        }
    }

    /// A Propose of these payloads, in one event with what came before it.
    pub(crate) fn propose_behind(
        &self,
        draft: &mut RaftDraft<S>,
        payloads: Payloads,
    ) -> Result<(), NoMemory>
        requires fits { DraftFits self.now.raft.log draft.old }
        requires room { is_leader draft.old.head.role ≡ true
            → CanAppend (leads_to draft.old.head self.now.raft.log draft.old.edit) payloads }
        ensures { OnOk result (Drafts self.now.raft.log draft.new
            (then_proposed (draft_of self.now.raft.log draft.old) payloads)) }
    {
        if draft.head.role == Role::Leader {
            return self.append_behind(draft, payloads);
        }
        self.forward_behind(draft, payloads)
    }
}
