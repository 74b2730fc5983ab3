//! An event in two phases: it is planned, with all memory that it takes, and committed.

ghost use Rattle.std.specs.Prelude.{◌≡◌, ◌+◌, ◌<◌, ◌≤◌, ◌++◌, true, IfOk, OnOk};
ghost use Rattle.rp_raftlog.specs.LogState.{last_index};
ghost use Rattle.rp_raftstep.specs.Conditions.{Allows, CanRise};
ghost use Rattle.rp_raftstep.specs.Step.{advanced, cut_away, due_peers, sends_among, sent, step_then, then_proposed};
ghost use Rattle.rp_raft.specs.Plans.{BeginsAt, CanExtend, DraftFits, EditFits, IsMadeIn, Makes, PlanFits, Plans, ahead, behind_of, done_by, draft_of, drafted_by, edited, room_of, with_commit};

use crate::ahead::last_in;
use crate::commits::commit_after;
use crate::drafts::quiet;
use crate::plans::{LogEdit, RaftDraft, RaftPlan, behind_of, is_no_cut, room_of};
use crate::rafts::Raft;
use rp_base::NoMemory;
use rp_raftlog::Log;
use rp_raftstep::{MakeSnap, Payloads, RaftEvent, RaftOut, Role};

/// Makes the edit, without memory.
fn make_edit(log: &mut Log, edit: LogEdit)
    requires fits { EditFits log.old.log edit }
    requires room { room_of edit ≤ log.old.spare }
    ensures { log.new.log ≡ edited log.old.log edit }
{
    match edit {
        LogEdit::Stays => {}
        LogEdit::Appends { entries } => log.append_all(entries),
        LogEdit::Accepts {
            prev_index,
            prev_term,
            entries,
        } => {
            let _ = log.accept(prev_index, prev_term, entries);
        }
        LogEdit::Cuts { to } => log.cut_front(to),
        LogEdit::Resets { index, term } => log.reset(index, term),
    }
}

impl<S: Drop> Raft<S> {
    /// Puts the messages that are made last behind the replies. The answer is the commit index
    /// that the event leaves.
    fn finish<M: MakeSnap<S>>(&self, draft: &mut RaftDraft<S>, snap: &M) -> Result<u64, NoMemory>
        requires { DraftFits self.now.raft.log draft.old }
        ensures state { IfOk result (λ commit. ahead (with_commit draft.old.head commit)
            self.now.raft.log (behind_of draft.old.edit)
            ≡ advanced (ahead draft.old.head self.now.raft.log (behind_of draft.old.edit))) }
        ensures draft { IfOk result (λ commit. draft.new ≡ record draft.old {
          messages = draft.old.messages
              ++ sends_among (M.index snap.now) (M.snapshot snap.now)
              (ahead (with_commit draft.old.head commit) self.now.raft.log
              (behind_of draft.old.edit))
              (due_peers (with_commit draft.old.head commit) draft.old.due);
        }) }
    {
        let RaftDraft {
            head,
            edit,
            messages,
            due,
            ..
        } = draft;
        let added = behind_of(edit);
        let commit = commit_after(head, &self.log, added);
        self.push_sends(messages, *due, head, commit, added, snap)?;
        Ok(commit)
    }

    /// The plan of a draft: the messages that are made last come from the state that the event
    /// leaves.
    fn fill<M: MakeSnap<S>>(&self, plan: &mut RaftPlan<S>, snap: &M) -> Result<(), NoMemory>
        requires { DraftFits self.now.raft.log plan.old.draft }
        ensures plan { OnOk result (Makes self.now.raft plan.new
            (draft_of self.now.raft.log plan.old.draft)
            (sent (M.index snap.now) (M.snapshot snap.now)
            (draft_of self.now.raft.log plan.old.draft))) }
        ensures made { OnOk result (IsMadeIn self.now.raft plan.new) }
    {
        plan.replies = plan.draft.messages.len();
        plan.commit = self.finish(&mut plan.draft, snap)?;
        Ok(())
    }

    /// A plan that does nothing yet.
    fn begin(&self) -> RaftPlan<S>
        ensures { BeginsAt self.now.raft result }
    {
        RaftPlan {
            draft: quiet(self.alloc, &self.head),
            commit: self.head.commit,
            replies: 0,
        }
    }

    /// A Cut: the base becomes this index.
    #[cold]
    #[inline(never)]
    fn plan_cut(&self, plan: &mut RaftPlan<S>, to: u64)
        requires begun { BeginsAt self.now.raft plan.old }
        requires rise { CanRise self.now.raft }
        requires behind { self.now.raft.log.base ≤ to }
        requires within { to ≤ last_index self.now.raft.log }
        ensures does { done_by self.now.raft plan.new ≡ cut_away self.now.raft to }
        ensures made { IsMadeIn self.now.raft plan.new }
    {
        plan.draft.edit = LogEdit::Cuts { to };
    }

    /// The plan of an event, but for the room in the log.
    fn planned<M: MakeSnap<S>>(
        &self,
        plan: &mut RaftPlan<S>,
        event: RaftEvent<S>,
        snap: &M,
    ) -> Result<(), NoMemory>
        requires begun { BeginsAt self.now.raft plan.old }
        requires event { Allows self.now.raft event }
        ensures plan { OnOk result (Plans (M.index snap.now) (M.snapshot snap.now)
            self.now.raft event plan.new) }
        ensures made { OnOk result (IsMadeIn self.now.raft plan.new) }
    {
        match event {
            RaftEvent::Tick => {
                self.plan_tick(&mut plan.draft)?;
                self.fill(plan, snap)
            }
            RaftEvent::Receive { from, message } => {
                self.plan_message(&mut plan.draft, from, message)?;
                self.fill(plan, snap)
            }
            RaftEvent::Propose { payloads } => {
                self.propose_behind(&mut plan.draft, payloads)?;
                self.fill(plan, snap)
            }
            RaftEvent::Cut { to } => {
                self.plan_cut(plan, to);
                Ok(())
            }
        }
    }

    /// Plans an event, and makes all room that it takes. What contracts see, room aside, stays.
    pub fn plan<M: MakeSnap<S>>(
        &mut self,
        event: RaftEvent<S>,
        snap: &M,
    ) -> Result<RaftPlan<S>, NoMemory>
        requires { Allows self.old.raft event }
        ensures raft { self.new.raft ≡ self.old.raft }
        ensures room { self.old.spare ≤ self.new.spare }
        ensures plan { IfOk result (λ p. Plans (M.index snap.now) (M.snapshot snap.now)
            self.old.raft event p) }
        ensures fits { IfOk result (λ p. PlanFits self.new.raft self.new.spare p) }
    {
        let mut plan = self.begin();
        self.planned(&mut plan, event, snap)?;
        self.log.make_room(room_of(&plan.draft.edit))?;
        Ok(plan)
    }

    /// Makes the room that a plan of this state takes. What contracts see, room aside, stays.
    pub fn make_room(&mut self, plan: &RaftPlan<S>) -> Result<(), NoMemory>
        requires { IsMadeIn self.old.raft plan.now }
        ensures raft { self.new.raft ≡ self.old.raft }
        ensures room { self.old.spare ≤ self.new.spare }
        ensures fits { OnOk result (PlanFits self.new.raft self.new.spare plan.now) }
    {
        self.log.make_room(room_of(&plan.draft.edit))
    }

    /// Whether a plan of this state may be extended by these payloads: it is no Cut, and where the
    /// event leaves a leader, the log's indexes with the payloads behind stay below 2^64.
    #[tactic(auto, using(crate::proofs::Extends::extends, crate::proofs::Extends::extended))]
    pub fn can_extend(&self, plan: &RaftPlan<S>, payloads: &Payloads) -> bool
        requires { IsMadeIn self.now.raft plan.now }
        ensures yes { result ≡ true → CanExtend self.now.raft plan.now payloads.now }
        ensures no { CanExtend self.now.raft plan.now payloads.now → result ≡ true }
    {
        let more = payloads.len() as u64;
        if !is_no_cut(&plan.draft.edit) {
            return false;
        }
        if plan.draft.head.role != Role::Leader {
            return true;
        }
        last_in(&self.log, behind_of(&plan.draft.edit))
            .checked_add(more)
            .is_some()
    }

    /// The plan of that event and of a Propose of these payloads, as one event.
    pub fn extend<M: MakeSnap<S>>(
        &mut self,
        mut plan: RaftPlan<S>,
        payloads: Payloads,
        snap: &M,
    ) -> Result<RaftPlan<S>, NoMemory>
        requires made { IsMadeIn self.old.raft plan }
        requires more { CanExtend self.old.raft plan payloads }
        ensures raft { self.new.raft ≡ self.old.raft }
        ensures room { self.old.spare ≤ self.new.spare }
        ensures plan { IfOk result (λ p. Makes self.old.raft p
            (then_proposed (drafted_by self.old.raft plan) payloads)
            (step_then (M.index snap.now) (M.snapshot snap.now) (drafted_by self.old.raft plan)
            payloads)) }
        ensures fits { IfOk result (λ p. PlanFits self.new.raft self.new.spare p) }
    {
        plan.draft.messages.truncate(plan.replies);
        self.propose_behind(&mut plan.draft, payloads)?;
        self.fill(&mut plan, snap)?;
        self.log.make_room(room_of(&plan.draft.edit))?;
        Ok(plan)
    }

    /// Does what was planned. It takes no memory.
    pub fn commit(&mut self, plan: RaftPlan<S>) -> RaftOut<S>
        requires { PlanFits self.old.raft self.old.spare plan }
        ensures { record { state = self.new.raft; out = result } ≡ done_by self.old.raft plan }
    {
        let RaftPlan {
            draft: RaftDraft {
                head,
                edit,
                messages,
                taken,
                ..
            },
            commit,
            ..
        } = plan;
        make_edit(&mut self.log, edit);
        self.head = head;
        self.head.commit = commit;
        RaftOut { messages, taken }
    }
}
