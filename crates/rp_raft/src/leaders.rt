//! What a leader does with answers and payloads (Raft 2014, section 5.3).

ghost use Rattle.std.specs.Prelude.{◌≡◌, ◌+◌, ◌<◌, ◌^◌, OnOk};
ghost use Rattle.rp_raftlog.specs.LogState.{last_index};
ghost use Rattle.rp_raftstep.specs.Step.{on_append_reply, on_forward, on_match, on_mismatch, sends_to};
ghost use Rattle.rp_raft.specs.Held.{IsSound};
ghost use Rattle.rp_raft.specs.Plans.{Drafts, IsBegun, with_head};

use crate::drafts::one_entry;
use crate::heads::place;
use crate::plans::{LogEdit, RaftDraft};
use crate::rafts::Raft;
use rp_base::{Bytes, NoMemory, NodeId};
use rp_raftstep::{Due, Head, Role};

impl<S: Drop> Raft<S> {
    /// `AppendReply` of a mismatch: the peer is sent to from there on.
    #[cold]
    #[inline(never)]
    fn note_mismatch(&self, head: &mut Head, from: NodeId, index: u64) -> Due
        requires last { last_index self.now.raft.log + 1 < 2 ^ 64 }
        requires sound { IsSound (with_head self.now.raft head.old) }
        ensures notes { sends_to {S = S} (with_head self.now.raft head.new) result
            ≡ on_mismatch (with_head self.now.raft head.old) from index }
        ensures sound { IsSound (with_head self.now.raft head.new) }
    {
        let last = self.log.last().0;
        let known = head.matched[place(from)].max(index);
        head.next[place(from)] = known.min(last) + 1;
        Due::One(from)
    }

    /// `AppendReply` of a match: what is left is sent.
    fn note_match(&self, head: &mut Head, from: NodeId, index: u64) -> Due
        requires last { last_index self.now.raft.log + 1 < 2 ^ 64 }
        requires sound { IsSound (with_head self.now.raft head.old) }
        ensures notes { sends_to {S = S} (with_head self.now.raft head.new) result
            ≡ on_match (with_head self.now.raft head.old) from index }
        ensures sound { IsSound (with_head self.now.raft head.new) }
    {
        let last = self.log.last().0;
        let known = head.matched[place(from)].max(index);
        let ahead = head.next[place(from)]
            .max(known.min(last) + 1)
            .min(last + 1);
        head.matched[place(from)] = known;
        head.next[place(from)] = ahead;
        if ahead <= last {
            return Due::One(from);
        }
        Due::Nobody
    }

    /// `AppendReply`: what it makes of a head, and whom the leader sends to.
    pub(crate) fn note_reply(
        &self,
        head: &mut Head,
        from: NodeId,
        term: u64,
        ok: bool,
        index: u64,
    ) -> Due
        requires last { last_index self.now.raft.log + 1 < 2 ^ 64 }
        requires sound { IsSound (with_head self.now.raft head.old) }
        ensures notes { sends_to {S = S} (with_head self.now.raft head.new) result
            ≡ on_append_reply (with_head self.now.raft head.old) from term ok index }
        ensures sound { IsSound (with_head self.now.raft head.new) }
    {
        if head.role != Role::Leader || term != head.term {
            return Due::Nobody;
        }
        if ok {
            self.note_match(head, from, index)
        } else {
            self.note_mismatch(head, from, index)
        }
    }

    /// `AppendReply`.
    pub(crate) fn plan_append_reply(
        &self,
        draft: &mut RaftDraft<S>,
        from: NodeId,
        term: u64,
        ok: bool,
        index: u64,
    )
        requires begun { IsBegun self.now.raft draft.old }
        requires last { last_index self.now.raft.log + 1 < 2 ^ 64 }
        ensures { Drafts self.now.raft.log draft.new
            (on_append_reply (with_head self.now.raft draft.old.head) from term ok index) }
    {
        draft.due = self.note_reply(&mut draft.head, from, term, ok, index);
    }

    /// `Forward`.
    #[cold]
    #[inline(never)]
    pub(crate) fn plan_forward(
        &self,
        draft: &mut RaftDraft<S>,
        payload: Bytes,
    ) -> Result<(), NoMemory>
        requires begun { IsBegun self.now.raft draft.old }
        requires last { last_index self.now.raft.log + 1 < 2 ^ 64 }
        ensures { OnOk result (Drafts self.now.raft.log draft.new
            (on_forward (with_head self.now.raft draft.old.head) payload)) }
    {
        if draft.head.role != Role::Leader {
            return Ok(());
        }
        let entries = one_entry(self.alloc, draft.head.term, payload)?;
        draft.edit = LogEdit::Appends { entries };
        draft.due = Due::Everyone;
        Ok(())
    }
}
