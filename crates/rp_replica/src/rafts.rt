//! Plans of a replica's Raft. One is large, so it has memory of its own from its making on.
ghost use Rattle.std.specs.Prelude.{◌≡◌, ◌≤◌, IfOk};
ghost use Rattle.rp_raftstep.specs.Conditions.{Allows};
ghost use Rattle.rp_raftstep.specs.Step.{step_then, then_proposed};
ghost use Rattle.rp_raft.specs.Plans.{CanExtend, IsMadeIn, Makes, PlanFits, Plans, done_by, drafted_by};

use crate::boxed::Boxed;
use crate::sources::Source;
use rp_base::NoMemory;
use rp_raft::{Raft, RaftPlan};
use rp_raftstep::{Payloads, RaftEvent, RaftOut};
use rp_snapshot::Snapshot;

/// Plans an event.
#[inline(never)]
pub(crate) fn plan(
    raft: &mut Raft<Snapshot>,
    event: RaftEvent<Snapshot>,
    source: &Source,
) -> Result<Boxed<RaftPlan<Snapshot>>, NoMemory>
    requires { Allows raft.old.raft event }
    ensures raft { raft.new.raft ≡ raft.old.raft }
    ensures room { raft.old.spare ≤ raft.new.spare }
    ensures plan { IfOk result (λ p. Plans source.now.state.history.index
        source.now.state.history.state raft.old.raft event p) }
    ensures fits { IfOk result (λ p. PlanFits raft.new.raft raft.new.spare p) }
{
    let plan = raft.plan(event, source)?;
    Boxed::new(source.alloc, plan)
}

/// The plan of that event and of a Propose of these payloads, as one event.
#[cold]
pub(crate) fn extend(
    raft: &mut Raft<Snapshot>,
    plan: Boxed<RaftPlan<Snapshot>>,
    payloads: Payloads,
    source: &Source,
) -> Result<Boxed<RaftPlan<Snapshot>>, NoMemory>
    requires made { IsMadeIn raft.old.raft plan }
    requires more { CanExtend raft.old.raft plan payloads }
    ensures raft { raft.new.raft ≡ raft.old.raft }
    ensures room { raft.old.spare ≤ raft.new.spare }
    ensures plan { IfOk result (λ p. Makes raft.old.raft p
        (then_proposed (drafted_by raft.old.raft plan) payloads)
        (step_then source.now.state.history.index source.now.state.history.state
        (drafted_by raft.old.raft plan) payloads)) }
    ensures fits { IfOk result (λ p. PlanFits raft.new.raft raft.new.spare p) }
{
    let plan = raft.extend(plan.into_inner(), payloads, source)?;
    Boxed::new(source.alloc, plan)
}

/// Does what was planned. It takes no memory.
#[inline(never)]
pub(crate) fn commit(
    raft: &mut Raft<Snapshot>,
    plan: Boxed<RaftPlan<Snapshot>>,
) -> RaftOut<Snapshot>
    requires { PlanFits raft.old.raft raft.old.spare plan }
    ensures { record { state = raft.new.raft; out = result } ≡ done_by raft.old.raft plan }
{
    raft.commit(plan.into_inner())
}
