//! What ends proposals beside their own entry: a snapshot, the removal of the replica, a restart.
ghost use Rattle.std.specs.Prelude.{◌≡◌, ◌++◌, ◌∷◌, [], filter_map, map, None, IfOk, OnOk};
ghost use Rattle.rp_base.specs.declared.ids.CmdId.{CmdId};
ghost use Rattle.rp_events.specs.Ends.{end_of, held_by_others, removed, restarted_as, restarts};
ghost use Rattle.rp_replica.specs.Ends.{end_by, ends_by, outcome_by};
ghost use Rattle.rp_replica.specs.Plans.{IsPlan};

use crate::plans::ReplicaPlan;
use crate::replicas::Replica;
use crate::snapshots::free_all;
use rp_base::{Lease, LeaseIndex, NoMemory};
use rp_events::{Ended, Outcomes};
use rp_pending::{Pending, Stage, Standing};
use rp_request::{Ambiguity, Outcome, Refusal};
use std::alloc::Global;

/// Why proposals end all at once.
#[derive(Clone, Copy)]
pub(crate) enum Cause {
    /// A snapshot with this lease applied index overtook what is proposed at or below it.
    Overtaken { lai: LeaseIndex },
    /// The replica is taken down.
    Removed,
    /// The node starts again, under this applied lease.
    Restarted { lease: Lease },
}

/// How a proposal ends for this cause, where it does: what is proposed may still take effect, and
/// what waits never will.
fn outcome_by(cause: &Cause, standing: &Standing) -> Option<Outcome>
    ensures { result ≡ outcome_by cause.now standing.now }
{
    let own = standing.max;
    let proposed = standing.stage == Stage::Proposed;
    match *cause {
        Cause::Overtaken { lai } => {
            if proposed && own <= lai {
                return Some(Outcome::Ambiguous(Ambiguity::Snapshot { own, passed: lai }));
            }
            None
        }
        Cause::Removed => {
            if proposed {
                return Some(Outcome::Ambiguous(Ambiguity::Removed { own }));
            }
            Some(Outcome::Refused(Refusal::NoReplica))
        }
        Cause::Restarted { lease } => {
            if proposed {
                return Some(Outcome::Ambiguous(Ambiguity::Restarted { own }));
            }
            Some(Outcome::Refused(Refusal::NotLeaseHolder { lease }))
        }
    }
}

/// Puts the end of a proposal at the end, where it ends.
fn push_end(ends: &mut Vec<Ended>, cause: &Cause, standing: &Standing) -> Result<(), NoMemory>
    ensures { OnOk result (ends.new.items
        ≡ ends.old.items ++ filter_map (end_by cause.now) (standing.now ∷ [])) }
{
    match outcome_by(cause, standing) {
        None => Ok(()),
        Some(outcome) => {
            let end = Ended {
                id: standing.id,
                outcome,
            };
            ends.extend_from_slice(std::slice::from_ref(&end))?;
            Ok(())
        }
    }
}

/// The ends of proposals for this cause, in their order.
fn ends_of(alloc: Global, cause: &Cause, standings: &[Standing]) -> Result<Outcomes, NoMemory>
    ensures { IfOk result (λ o. o ≡ filter_map (end_by cause.now) standings.now) }
{
    let mut ends = Vec::new(alloc);
    for standing in standings {
        push_end(&mut ends, cause, standing)?;
    }
    Ok(Outcomes::from_vec(ends))
}

impl Replica {
    /// How the pending proposals end for this cause, in order of admission.
    #[cold]
    pub(crate) fn ends(&self, cause: &Cause) -> Result<Outcomes, NoMemory>
        ensures { IfOk result
            (λ o. o ≡ filter_map (end_of (ends_by cause.now)) self.now.replica.pending) }
    {
        let standings = self.pending.standings()?;
        ends_of(self.source.alloc, cause, standings.as_slice())
    }

    /// The replica is taken down for good.
    #[cold]
    pub(crate) fn plan_removal(&self) -> Result<ReplicaPlan, NoMemory>
        ensures { IfOk result (λ p. IsPlan self.now.replica None p (removed self.now.replica)) }
    {
        let outcomes = self.ends(&Cause::Removed)?;
        Ok(ReplicaPlan::Removes { outcomes })
    }

    /// All that is pending has ended, and its latches are free. It takes no memory.
    #[cold]
    pub(crate) fn remove(&mut self, ended: &[Ended])
        ensures { self.new.replica ≡ record self.old.replica {
          latches = held_by_others ended.now self.old.replica.latches;
          pending = [];
        } }
    {
        free_all(&mut self.latches, ended);
        self.pending = Pending::new(self.source.alloc);
    }

    /// The node starts again with what it keeps.
    #[cold]
    pub(crate) fn plan_restart(&self) -> Result<ReplicaPlan, NoMemory>
        ensures { IfOk result (λ p. IsPlan self.now.replica None p (restarts self.now.replica)) }
    {
        let lease = self.source.state.lease();
        let outcomes = self.ends(&Cause::Restarted { lease })?;
        Ok(ReplicaPlan::Restarts { outcomes })
    }

    /// What a restart leaves. It takes no memory.
    #[cold]
    pub(crate) fn restart(&mut self)
        ensures { self.new.replica ≡ (restarted_as self.old.replica []).replica }
    {
        self.raft.restart(self.source.state.index());
        self.latches.clear();
        self.pending = Pending::new(self.source.alloc);
        self.assigned = LeaseIndex::new(0);
        self.inbox.keep_front(0);
        self.asks.clear();
        self.barrier = self.source.state.lease().seq;
    }
}
