//! What a message of another replica is planned to do.

ghost use Rattle.std.specs.Prelude.{OnOk};
ghost use Rattle.rp_raftstep.specs.Conditions.{CanRise, MessageFits};
ghost use Rattle.rp_raftstep.specs.Step.{received};
ghost use Rattle.rp_raft.specs.Plans.{Drafts, IsBegun, with_head};

use crate::heads::observe;
use crate::plans::RaftDraft;
use crate::rafts::Raft;
use rp_base::{NoMemory, NodeId};
use rp_raftstep::Message;

impl<S: Drop> Raft<S> {
    /// A message comes. A higher term comes first, but at `Forward`.
    pub(crate) fn plan_message(
        &self,
        draft: &mut RaftDraft<S>,
        from: NodeId,
        message: Message<S>,
    ) -> Result<(), NoMemory>
        requires begun { IsBegun self.now.raft draft.old }
        requires rise { CanRise (with_head self.now.raft draft.old.head) }
        requires fits { MessageFits message }
        ensures { OnOk result (Drafts self.now.raft.log draft.new
            (received (with_head self.now.raft draft.old.head) from message)) }
    {
        match message {
            Message::Vote {
                term,
                last_index,
                last_term,
            } => {
                observe(&mut draft.head, term);
                self.plan_vote(draft, from, term, last_index, last_term)
            }
            Message::VoteReply { term, granted } => {
                observe(&mut draft.head, term);
                self.plan_vote_reply(draft, from, term, granted)
            }
            Message::Append {
                term,
                prev_index,
                prev_term,
                entries,
                commit,
            } => {
                observe(&mut draft.head, term);
                self.plan_append(draft, from, term, prev_index, prev_term, entries, commit)
            }
            Message::AppendReply { term, ok, index } => {
                observe(&mut draft.head, term);
                self.plan_append_reply(draft, from, term, ok, index);
                Ok(())
            }
            Message::Forward { payload } => self.plan_forward(draft, payload),
            Message::Snap {
                term,
                index,
                index_term,
                snapshot,
            } => {
                observe(&mut draft.head, term);
                self.plan_snap(draft, from, term, index, index_term, snapshot)
            }
        }
    }
}
