//! The application of the next committed entry, and what it makes of its proposal.
ghost use Rattle.std.specs.Prelude.{◌≡◌, ◌≤◌, ◌+◌, ◌-◌, ◌^◌, ◌<◌, option_copied, IfOk, OnOk, None, Some};
ghost use Rattle.rp_apply.specs.Rooms.{IsWithin, needed};
ghost use Rattle.rp_request.specs.Applicable.{Fits, MaySplit};
ghost use Rattle.rp_request.specs.States.{right_by, right_by_request, right_of};
ghost use Rattle.rp_request.specs.declared.verdicts.Verdict.TheVariants as verdicts;
ghost use Rattle.rp_raftlog.specs.declared.entries.Entry.{Entry};
ghost use Rattle.rp_events.specs.Applications.{applied, is_own, next_entry, payload_of};
ghost use Rattle.rp_events.specs.Allows.{MayApply};
ghost use Rattle.rp_replica.specs.Plans.{ApplicationFits, IsKnown, IsPlan, places_of, recorded, turned};
ghost use Rattle.rp_replica.specs.Turns.{payload_told, payload_turn, told, told_of, turn, turn_by};

use crate::boxed::Boxed;
use crate::plans::{Application, ReplicaPlan, Turn};
use crate::replicas::Replica;
use rp_apply::check;
use rp_base::{Item, Lease, NoMemory};
use rp_codec::{DecodeFault, decode};
use rp_events::{Ended, EventAnswer, Outcomes};
use rp_pending::Stage;
use rp_raftlog::Entry;
use rp_request::{Command, Outcome, Payload, Refusal, Request, Verdict};
use rp_split::{RightStart, trigger};
use std::alloc::Global;

/// The payload that an entry of the log carries.
#[inline(never)]
fn payload_of(alloc: Global, entry: &Entry) -> Result<Boxed<Payload>, NoMemory>
    requires { (p : Payload) × (payload_of (Some entry.now) ≡ Some p) }
    ensures { IfOk result (λ p. payload_of (Some entry.now) ≡ Some p) }
{
    match decode(alloc, entry.payload.as_slice()) {
        Ok(payload) => Boxed::new(alloc, payload),
        Err(DecodeFault::NoMemory) => Err(NoMemory),
        Err(DecodeFault::Bad { .. }) => unreachable!(),
    }
}

/// What the verdict on its own entry makes of a proposal.
fn turn(command: &Command, verdict: &Verdict) -> Turn
    ensures { result ≡ turn command.now verdict.now }
{
    match verdict {
        Verdict::Took | Verdict::OldLease { .. } => Turn::Ends { id: command.id },
        Verdict::OldIndex { .. } => Turn::WaitsAgain { id: command.id },
        Verdict::LeaseMoved | Verdict::Nothing => Turn::Stays,
    }
}

/// What its attempt is told.
fn told(
    alloc: Global,
    lease: Lease,
    command: &Command,
    verdict: &Verdict,
) -> Result<Outcomes, NoMemory>
    ensures { IfOk result (λ o. o ≡ told lease command.now verdict.now) }
{
    let outcome = match verdict {
        Verdict::Took => Outcome::Success(command.reply),
        Verdict::OldLease { .. } => Outcome::Refused(Refusal::NotLeaseHolder { lease }),
        Verdict::OldIndex { .. } | Verdict::LeaseMoved | Verdict::Nothing => {
            return Ok(Outcomes::new(alloc));
        }
    };
    let end = Ended {
        id: command.id,
        outcome,
    };
    let mut ends = Vec::new(alloc);
    ends.extend_from_slice(std::slice::from_ref(&end))?;
    Ok(Outcomes::from_vec(ends))
}

impl Replica {
    /// The next entry that is committed and not applied, where there is one.
    fn next_entry(&self) -> Option<&Entry>
        requires { self.now.replica.applied.index < 2 ^ 64 - 1 }
        ensures { option_copied result ≡ next_entry self.now.replica }
    {
        let index = self.source.state.index();
        if index < self.raft.commit_index() {
            self.raft.entry_at(index + 1)
        } else {
            None
        }
    }

    /// Whether the replica itself has proposed the command, under this lease index.
    fn is_own(&self, command: &Command) -> bool
        ensures { result ≡ is_own self.now.replica command.now }
    {
        match self.pending.find(command.id) {
            None => false,
            Some(proposal) => proposal.stage == Stage::Proposed && proposal.max == command.max,
        }
    }

    /// What a command makes of the proposal that it came of, and what its attempt is told.
    #[inline(never)]
    fn turn_and_end(
        &self,
        command: &Command,
        verdict: &Verdict,
    ) -> Result<(Turn, Outcomes), NoMemory>
        ensures turn { IfOk result
            (λ r. r.0 ≡ turn_by (is_own self.now.replica command.now) command.now verdict.now) }
        ensures told { IfOk result (λ r. r.1 ≡ told_of (is_own self.now.replica command.now)
            self.now.replica.applied.state.lease command.now verdict.now) }
        ensures known { IfOk result (λ r. IsKnown self.now.replica.pending r.0) }
    {
        let alloc = self.source.alloc;
        if !self.is_own(command) {
            return Ok((Turn::Stays, Outcomes::new(alloc)));
        }
        let turn = turn(command, verdict);
        let outcomes = told(alloc, self.source.state.lease(), command, verdict)?;
        Ok((turn, outcomes))
    }

    /// What the right range of a request starts with: only a split has one.
    #[cold]
    fn right_of(&self, request: &Request) -> Result<Option<Boxed<RightStart>>, NoMemory>
        requires { MaySplit self.now.replica.applied.state.desc request.now }
        ensures { IfOk result
            (λ o. o ≡ right_by_request self.now.replica.applied.state request.now) }
    {
        let Request::Split { key } = *request else {
            return Ok(None);
        };
        let alloc = self.source.alloc;
        let state = &self.source.state;
        let start = trigger(alloc, state.table(), state.desc(), state.lease(), key)?;
        let right = Boxed::new(alloc, start)?;
        Ok(Some(right))
    }

    /// What the right range starts with, where the command is a split that is taken.
    fn right(
        &self,
        command: &Command,
        verdict: &Verdict,
    ) -> Result<Option<Boxed<RightStart>>, NoMemory>
        requires { verdict.now ≡ verdicts.Took
            → MaySplit self.now.replica.applied.state.desc command.now.request }
        ensures { IfOk result
            (λ o. o ≡ right_by self.now.replica.applied.state command.now verdict.now) }
    {
        match verdict {
            Verdict::Took => self.right_of(&command.request),
            Verdict::OldLease { .. }
            | Verdict::OldIndex { .. }
            | Verdict::LeaseMoved
            | Verdict::Nothing => Ok(None),
        }
    }

    /// What the application of a payload will do, from one verdict on it.
    fn application(&self, payload: Boxed<Payload>) -> Result<Application, NoMemory>
        requires { Fits self.now.replica.applied.state payload }
        ensures payload { IfOk result (λ a. a.payload ≡ payload) }
        ensures turn { IfOk result (λ a. a.turn ≡ payload_turn self.now.replica payload) }
        ensures told { IfOk result (λ a. a.outcomes ≡ payload_told self.now.replica payload) }
        ensures right { IfOk result
            (λ a. a.right ≡ right_of self.now.replica.applied.state payload) }
        ensures known { IfOk result (λ a. IsKnown self.now.replica.pending a.turn) }
    {
        let Payload::Write(command) = payload.get() else {
            return Ok(Application {
                payload,
                turn: Turn::Stays,
                outcomes: Outcomes::new(self.source.alloc),
                right: None,
            });
        };
        let verdict = check(&self.source.state, payload.get());
        let (turn, outcomes) = self.turn_and_end(command, &verdict)?;
        let right = self.right(command, &verdict)?;
        Ok(Application {
            payload,
            turn,
            outcomes,
            right,
        })
    }

    /// The next committed entry is checked and applied.
    #[inline(never)]
    pub(crate) fn plan_application(&self) -> Result<ReplicaPlan, NoMemory>
        requires { MayApply self.now.replica }
        ensures { IfOk result
            (λ p. IsPlan self.now.replica None p (applied self.now.replica)) }
    {
        let Some(entry) = self.next_entry() else {
            return Ok(ReplicaPlan::Answers {
                answer: EventAnswer::Nothing,
            });
        };
        let payload = payload_of(self.source.alloc, entry)?;
        let application = self.application(payload)?;
        Ok(ReplicaPlan::Applies { application })
    }

    /// The proposal turns so.
    fn turn_so(&mut self, turn: Turn)
        requires known { IsKnown self.old.replica.pending turn }
        requires room { places_of turn ≤ self.old.room.inbox }
        ensures { self.new.replica ≡ turned self.old.replica turn }
    {
        match turn {
            Turn::Stays => {}
            Turn::Ends { id } => {
                self.latches.free(id);
                self.pending.finish(id);
            }
            Turn::WaitsAgain { id } => {
                self.pending.back_to_waiting(id);
                self.inbox.push(Item::Write(id));
            }
        }
    }

    /// The payload is applied, its record is kept, and its proposal turns. It takes no memory.
    #[inline(never)]
    pub(crate) fn apply(&mut self, application: &Application)
        requires fits { ApplicationFits self.old.replica application.now }
        requires applied { IsWithin (needed application.now.payload) self.old.room.applied }
        requires inbox { places_of application.now.turn ≤ self.old.room.inbox }
        ensures { self.new.replica
            ≡ turned (recorded self.old.replica application.now) application.now.turn }
    {
        self.source.state.commit_one(application.payload.get());
        self.turn_so(application.turn);
    }
}
