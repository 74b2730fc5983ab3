//! Events after which a replica sends nothing and ends no attempt. They happen at once, without a plan.
ghost use Rattle.std.specs.Prelude.{◌≡◌, ℕ, false, [], IfOk, IsTrue};
ghost use Rattle.rp_raftstep.specs.declared.messages.Message.TheVariants.{AppendReply};
ghost use Rattle.rp_raft.specs.Quiet.{leaves_nothing};
ghost use Rattle.rp_events.specs.Allows.{MayDeliver};
ghost use Rattle.rp_events.specs.ReplicaEvents.{event};
ghost use Rattle.rp_events.specs.Replicas.{leaves};
ghost use Rattle.rp_events.specs.declared.answers.EventAnswer.TheVariants as answers;
ghost use Rattle.rp_events.specs.declared.replica_events.ReplicaEvent.TheVariants as at_replica;
ghost use Rattle.rp_replica.specs.Quiet.{only_counts};

use crate::replicas::Replica;
use rp_base::{NoMemory, NodeId, Tick};

impl Replica {
    /// Whether this tick is counted and no more: Raft sends nothing and begins no term, and no
    /// proposal goes back or is proposed again. It goes through all that is pending.
    pub fn only_counts(&self, ticks: Tick) -> Result<bool, NoMemory>
        ensures { IfOk result (λ only. only ≡ only_counts self.now.replica ticks) }
    {
        if !self.raft.only_counts() {
            return Ok(false);
        }
        let lai = self.source.state.lai();
        let refresh = self.pending.to_refresh(lai, ticks, false)?;
        Ok(refresh.again.len() == 0 && refresh.back.len() == 0)
    }

    /// Time goes on to this tick, which is counted and no more. It takes no memory.
    #[tactic(auto, using(crate::proofs::Silence::counts))]
    pub fn count_tick(&mut self, ticks: Tick)
        requires { IsTrue (only_counts self.old.replica ticks) }
        ensures event { (round : ℕ) → event self.old.replica at_replica.Tick ticks round []
            ≡ leaves self.new.replica answers.Done }
        ensures room { self.new.room ≡ self.old.room }
    {
        self.raft.count_tick();
    }

    /// The answer of another node's replica to an `Append` or a `Snap` comes. Where something is left
    /// to be sent the answer is `false`, and nothing has happened. It takes no memory.
    #[tactic(auto, using(crate::proofs::Silence::hears))]
    pub fn hear(&mut self, from: NodeId, term: u64, ok: bool, index: u64) -> bool
        requires { MayDeliver self.old.replica from (AppendReply term ok index) }
        ensures heard { result ≡ leaves_nothing self.old.replica.raft from term ok index }
        ensures event { IsTrue result → (ticks : ℕ) (round : ℕ)
            → event self.old.replica (at_replica.Deliver from (AppendReply term ok index)) ticks round []
            ≡ leaves self.new.replica answers.Done }
        ensures stays { result ≡ false → self.new.replica ≡ self.old.replica }
        ensures room { self.new.room ≡ self.old.room }
    {
        self.raft.hear(from, term, ok, index)
    }
}
