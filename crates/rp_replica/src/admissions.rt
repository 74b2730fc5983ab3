//! The admission of an attempt: guards, evaluation, latches.
ghost use Rattle.std.specs.Prelude.{◌≡◌, ◌≤◌, None, IfOk, Result};
ghost use Rattle.rp_request.specs.declared.evaluations.Evaluated.{Evaluated};
ghost use Rattle.rp_request.specs.declared.outcomes.Refusal.{Refusal};
ghost use Rattle.rp_eval.specs.Faults.{Gives};
ghost use Rattle.rp_pending.specs.Proposals.{proposal_of};
ghost use Rattle.rp_events.specs.Admissions.{admitted, guarded, may_admit, proposal, with_proposal};
ghost use Rattle.rp_replica.specs.Plans.{AdmitFits, IsPlan};

use crate::boxed::Boxed;
use crate::plans::ReplicaPlan;
use crate::replicas::Replica;
use rp_base::{CmdId, LeaseIndex, LeaseSeq, NoMemory, Tick};
use rp_eval::{EvalFault, Evaluated, evaluate, in_bounds};
use rp_events::EventAnswer;
use rp_pending::{Proposal, Stage};
use rp_request::{Refusal, Request};

/// An evaluation's answer as what a client is told of it, apart from want of memory.
fn refusal_apart(
    answer: Result<Evaluated, EvalFault>,
) -> Result<Result<Evaluated, Refusal>, NoMemory>
    ensures { (v : Result Evaluated Refusal) → Gives answer v
        → IfOk result (λ answered. answered ≡ v) }
{
    match answer {
        Ok(evaluated) => Ok(Ok(evaluated)),
        Err(fault) => match fault.refusal() {
            Some(refusal) => Ok(Err(refusal)),
            None => Err(NoMemory),
        },
    }
}

/// A proposal as it is admitted.
fn proposal(id: CmdId, request: Request, evaluated: Evaluated, seq: LeaseSeq) -> Proposal
    ensures { result ≡ proposal id request evaluated seq }
{
    Proposal {
        id,
        request,
        batch: evaluated.batch,
        reply: evaluated.reply,
        seq,
        max: LeaseIndex::new(0),
        stage: Stage::Waiting,
        since: Tick::new(0),
        round: None,
    }
}

impl Replica {
    /// Whether the node holds the applied lease, under a sequence past its last restart.
    fn may_admit(&self) -> bool
        ensures { result ≡ may_admit self.now.replica }
    {
        self.holds_lease() && self.barrier < self.source.state.lease().seq
    }

    /// What the guards let through: the lease, the bounds, the latches, and then the evaluation.
    #[inline(never)]
    fn guarded(&self, request: &Request) -> Result<Result<Evaluated, Refusal>, NoMemory>
        ensures { IfOk result (λ g. g ≡ guarded self.now.replica request.now) }
    {
        let state = &self.source.state;
        if !self.may_admit() {
            let lease = state.lease();
            return Ok(Err(Refusal::NotLeaseHolder { lease }));
        }
        if !in_bounds(state.desc(), request) {
            let desc = state.desc();
            return Ok(Err(Refusal::RangeMismatch { desc }));
        }
        if let Some(held) = self.latches.conflict(request.spans()) {
            return Ok(Err(Refusal::Latched {
                by: held.by,
                held: held.held,
            }));
        }
        let desc = state.desc();
        refusal_apart(evaluate(self.source.alloc, state.table(), desc, *request))
    }

    /// An attempt asks to be admitted.
    #[inline(never)]
    pub(crate) fn plan_admission(
        &self,
        id: CmdId,
        request: Request,
    ) -> Result<ReplicaPlan, NoMemory>
        requires { proposal_of id self.now.replica.pending ≡ None }
        ensures { IfOk result
            (λ p. IsPlan self.now.replica None p (admitted self.now.replica id request)) }
    {
        let evaluated = match self.guarded(&request)? {
            Ok(evaluated) => evaluated,
            Err(refusal) => {
                let answer = EventAnswer::Refused(refusal);
                return Ok(ReplicaPlan::Answers { answer });
            }
        };
        let seq = self.source.state.lease().seq;
        let proposal = Boxed::new(self.source.alloc, proposal(id, request, evaluated, seq))?;
        Ok(ReplicaPlan::Admits { proposal })
    }

    /// The attempt takes its latches and waits. It takes no memory.
    #[inline(never)]
    pub(crate) fn admit(&mut self, proposal: Boxed<Proposal>)
        requires fits { AdmitFits self.old.replica proposal }
        requires latches { 1 ≤ self.old.room.latches }
        requires pending { 1 ≤ self.old.room.pending }
        ensures { self.new.replica ≡ with_proposal self.old.replica proposal }
    {
        let proposal = proposal.into_inner();
        let spans = proposal.request.spans();
        self.latches.hold_clear(proposal.id, spans);
        self.pending.add(proposal);
    }
}
