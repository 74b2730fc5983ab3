//! What a leader's entries and snapshots do to a replica (Raft 2014, sections 5.3 and 7).

ghost use Rattle.std.specs.Prelude.{◌≡◌, ◌+◌, ◌<◌, ◌^◌, false, length, OnOk};
ghost use Rattle.rp_raftlog.specs.LogState.{has_term};
ghost use Rattle.rp_raftstep.specs.RaftState.{is_leader};
ghost use Rattle.rp_raftstep.specs.declared.messages.Message.TheVariants.{AppendReply};
ghost use Rattle.rp_raftstep.specs.Step.{on_append, on_snap, take_append, take_snap};
ghost use Rattle.rp_raft.specs.Plans.{Drafts, IsBegun, with_head, with_message};

use crate::drafts::answer;
use crate::heads::follow;
use crate::plans::{LogEdit, RaftDraft};
use crate::rafts::Raft;
use rp_base::{NoMemory, NodeId};
use rp_raftlog::Entries;
use rp_raftstep::Message;

impl<S: Drop> Raft<S> {
    /// An answer to a leader.
    fn reply(
        &self,
        draft: &mut RaftDraft<S>,
        to: NodeId,
        ok: bool,
        index: u64,
    ) -> Result<(), NoMemory>
        ensures { OnOk result (draft.new
            ≡ with_message draft.old to (AppendReply draft.old.head.term ok index)) }
    {
        let term = draft.head.term;
        answer(draft, to, Message::AppendReply { term, ok, index })
    }

    /// `Append` of the present term: the log takes the entries in where it matches.
    fn take_append(
        &self,
        draft: &mut RaftDraft<S>,
        from: NodeId,
        prev_index: u64,
        prev_term: u64,
        entries: Entries,
        commit: u64,
    ) -> Result<(), NoMemory>
        requires begun { IsBegun self.now.raft draft.old }
        requires index { prev_index + length entries < 2 ^ 64 }
        requires follows { is_leader draft.old.head.role ≡ false }
        ensures { OnOk result (Drafts self.now.raft.log draft.new
            (take_append (with_head self.now.raft draft.old.head) from prev_index prev_term
            entries commit)) }
    {
        if !self.log.matches(prev_index, prev_term) {
            let known = draft.head.commit;
            return self.reply(draft, from, false, known);
        }
        let end = prev_index + entries.len() as u64;
        let accepted = end.max(self.log.base().0);
        draft.head.commit = draft.head.commit.max(commit.min(end));
        draft.edit = LogEdit::Accepts {
            prev_index,
            prev_term,
            entries,
        };
        self.reply(draft, from, true, accepted)
    }

    /// `Append`.
    pub(crate) fn plan_append(
        &self,
        draft: &mut RaftDraft<S>,
        from: NodeId,
        term: u64,
        prev_index: u64,
        prev_term: u64,
        entries: Entries,
        commit: u64,
    ) -> Result<(), NoMemory>
        requires begun { IsBegun self.now.raft draft.old }
        requires index { prev_index + length entries < 2 ^ 64 }
        ensures { OnOk result (Drafts self.now.raft.log draft.new
            (on_append (with_head self.now.raft draft.old.head) from term prev_index prev_term
            entries commit)) }
    {
        if term < draft.head.term {
            let known = draft.head.commit;
            return self.reply(draft, from, false, known);
        }
        follow(&mut draft.head, from);
        self.take_append(draft, from, prev_index, prev_term, entries, commit)
    }

    /// Whether the log has this term at this index.
    fn has_term(&self, index: u64, term: u64) -> bool
        ensures { result ≡ has_term self.now.raft.log index term }
    {
        self.log.term_at(index) == Some(term)
    }

    /// `Snap` of the present term: the log begins anew behind it, unless it shows the index.
    fn take_snap(
        &self,
        draft: &mut RaftDraft<S>,
        from: NodeId,
        index: u64,
        index_term: u64,
        snapshot: S,
    ) -> Result<(), NoMemory>
        requires begun { IsBegun self.now.raft draft.old }
        requires index { index + 1 < 2 ^ 64 }
        requires follows { is_leader draft.old.head.role ≡ false }
        ensures { OnOk result (Drafts self.now.raft.log draft.new
            (take_snap (with_head self.now.raft draft.old.head) from index index_term snapshot)) }
    {
        if index <= draft.head.commit {
            let known = draft.head.commit;
            return self.reply(draft, from, true, known);
        }
        draft.head.commit = index;
        self.reply(draft, from, true, index)?;
        if !self.has_term(index, index_term) {
            draft.edit = LogEdit::Resets {
                index,
                term: index_term,
            };
            draft.taken = Some((index, snapshot));
        }
        Ok(())
    }

    /// `Snap`.
    #[cold]
    #[inline(never)]
    pub(crate) fn plan_snap(
        &self,
        draft: &mut RaftDraft<S>,
        from: NodeId,
        term: u64,
        index: u64,
        index_term: u64,
        snapshot: S,
    ) -> Result<(), NoMemory>
        requires begun { IsBegun self.now.raft draft.old }
        requires index { index + 1 < 2 ^ 64 }
        ensures { OnOk result (Drafts self.now.raft.log draft.new
            (on_snap (with_head self.now.raft draft.old.head) from term index index_term
            snapshot)) }
    {
        if term < draft.head.term {
            let known = draft.head.commit;
            return self.reply(draft, from, false, known);
        }
        follow(&mut draft.head, from);
        self.take_snap(draft, from, index, index_term, snapshot)
    }
}
