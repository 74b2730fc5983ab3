//! Ticks and messages: Raft's event, and behind it a refresh of what may have been lost.
ghost use Rattle.std.specs.Prelude.{◌≡◌, ◌≤◌, ◌+◌, ◌<◌, ◌^◌, ◌++◌, true, length, map, IfOk, OnOk, Some};
ghost use Rattle.rp_base.specs.declared.ids.CmdId.{CmdId};
ghost use Rattle.rp_raftlog.specs.LogState.{last_index};
ghost use Rattle.rp_raftstep.specs.Step.{received, sent, step_then, then_proposed, tick};
ghost use Rattle.rp_raft.specs.Plans.{CanExtend, IsMadeIn, IsNoCut, Makes, done_by, drafted_by, head_after, taken_in};
ghost use Rattle.rp_events.specs.Refreshes.{delivered, refresh_moves, refreshed_by, refreshing, ticked};
ghost use Rattle.rp_events.specs.Replicas.{has_new_leader};
ghost use Rattle.rp_events.specs.declared.moves.Move.TheVariants.{Repeats, TakesBack};
ghost use Rattle.rp_events.specs.Allows.{MayDeliver, MayRefresh};
ghost use Rattle.rp_replica.specs.Handing.{EachReads};
ghost use Rattle.rp_replica.specs.Plans.{IsPlan};
ghost use Rattle.rp_replica.specs.Refreshing.{IsRefresh, after_taken, draft_in, refresh_behind};
ghost use Rattle.rp_replica.specs.Rooms.{IsRoomWithin};

use crate::boxed::Boxed;
use crate::ends::Cause;
use crate::payloads::push_moves;
use crate::plans::{HandOver, ReplicaPlan};
use crate::rafts::{extend, plan};
use crate::replicas::Replica;
use rp_base::{CmdId, NoMemory, NodeId, Seq, Tick};
use rp_events::{Move, Outcomes};
use rp_pending::{Ids, Refresh};
use rp_raft::RaftPlan;
use rp_raftstep::{Message, Payloads, RaftEvent};
use rp_snapshot::Snapshot;
use std::alloc::Global;

/// Puts the moves of attempts that wait again at the end.
fn push_back(moves: &mut Vec<Move>, ids: &[CmdId]) -> Result<(), NoMemory>
    ensures { OnOk result (moves.new.items ≡ moves.old.items ++ map TakesBack ids.now) }
{
    for id in ids {
        moves.push(Move::TakesBack(*id))?;
    }
    Ok(())
}

/// Puts the moves of attempts that are proposed again at the end.
fn push_again(moves: &mut Vec<Move>, ids: &[CmdId]) -> Result<(), NoMemory>
    ensures { OnOk result (moves.new.items ≡ moves.old.items ++ map Repeats ids.now) }
{
    for id in ids {
        moves.push(Move::Repeats(*id))?;
    }
    Ok(())
}

/// The moves of a refresh.
#[inline(never)]
fn moves_of(alloc: Global, refresh: &Refresh) -> Result<Seq<Move>, NoMemory>
    ensures { IfOk result (λ m. m ≡ refresh_moves refresh.now) }
{
    let mut moves = Vec::new(alloc);
    push_back(&mut moves, refresh.back.as_slice())?;
    push_again(&mut moves, refresh.again.as_slice())?;
    Ok(Seq::from_vec(moves))
}

impl Replica {
    /// Whether a planned event of Raft leaves another term or leader, and the leader is known.
    fn has_new_leader(&self, raft: &Boxed<RaftPlan<Snapshot>>) -> bool
        ensures { result ≡ has_new_leader self.now.replica.raft.head (head_after raft.now) }
    {
        let raft = raft.get();
        let leader = raft.leader();
        leader.is_some() && !(raft.term() == self.raft.term() && leader == self.raft.leader())
    }

    /// The ends of what a snapshot overtakes that the planned event takes in.
    fn overtaken(&self, raft: &Boxed<RaftPlan<Snapshot>>) -> Result<Outcomes, NoMemory>
        ensures { IfOk result (λ o. o ≡ (after_taken self.now.replica raft.now).ended) }
    {
        match raft.get().taken() {
            None => Ok(Outcomes::new(self.source.alloc)),
            Some(snapshot) => {
                let lai = snapshot.lai();
                self.ends(&Cause::Overtaken { lai })
            }
        }
    }

    /// A refresh of all behind a planned event. What a snapshot overtakes is not there any more.
    #[cold]
    fn refresh_all(
        &self,
        raft: &Boxed<RaftPlan<Snapshot>>,
        ticks: Tick,
    ) -> Result<Refresh, NoMemory>
        ensures { IfOk result (λ f. f
            ≡ refreshing (after_taken self.now.replica raft.now).replica ticks true) }
    {
        match raft.get().taken() {
            None => self
                .pending
                .to_refresh(self.source.state.lai(), ticks, true),
            Some(snapshot) => {
                let lai = snapshot.lai();
                let refresh = self.pending.to_refresh(lai, ticks, true)?;
                Ok(Refresh {
                    again: refresh.again,
                    back: Ids::new(self.source.alloc),
                })
            }
        }
    }

    /// A refresh behind a message: of all where it makes a new leader known, and else of nothing.
    fn refresh_behind(
        &self,
        raft: &Boxed<RaftPlan<Snapshot>>,
        ticks: Tick,
    ) -> Result<Refresh, NoMemory>
        ensures { IfOk result (λ f. f ≡ refresh_behind self.now.replica raft.now ticks) }
    {
        if self.has_new_leader(raft) {
            return self.refresh_all(raft, ticks);
        }
        let alloc = self.source.alloc;
        Ok(Refresh {
            again: Ids::new(alloc),
            back: Ids::new(alloc),
        })
    }

    /// The planned event of Raft with these payloads behind it.
    fn extended(
        &mut self,
        raft: Boxed<RaftPlan<Snapshot>>,
        bytes: Payloads,
    ) -> Result<Boxed<RaftPlan<Snapshot>>, NoMemory>
        requires made { IsMadeIn self.old.replica.raft raft }
        requires more { CanExtend self.old.replica.raft raft bytes }
        requires does { done_by self.old.replica.raft raft
            ≡ sent self.old.replica.applied.index self.old.replica.applied.state
            (draft_in self.old.replica raft) }
        ensures replica { self.new.replica ≡ self.old.replica }
        ensures room { IsRoomWithin self.old.room self.new.room }
        ensures plan { IfOk result (λ p. Makes self.old.replica.raft p
            (then_proposed (draft_in self.old.replica raft) bytes)
            (step_then self.old.replica.applied.index self.old.replica.applied.state
            (draft_in self.old.replica raft) bytes)) }
        ensures made { IfOk result (λ p. IsMadeIn self.old.replica.raft p) }
    {
        if bytes.len() == 0 {
            return Ok(raft);
        }
        extend(&mut self.raft, raft, bytes, &self.source)
    }

    /// A planned event of Raft, and behind it a refresh.
    fn plan_refresh(
        &mut self,
        raft: Boxed<RaftPlan<Snapshot>>,
        refresh: Refresh,
        ticks: Tick,
        round: u64,
    ) -> Result<ReplicaPlan, NoMemory>
        requires made { IsMadeIn self.old.replica.raft raft }
        requires whole { IsNoCut raft.draft.edit }
        requires does { done_by self.old.replica.raft raft
            ≡ sent self.old.replica.applied.index self.old.replica.applied.state
            (draft_in self.old.replica raft) }
        requires refresh { IsRefresh (after_taken self.old.replica raft).replica refresh }
        requires last { last_index (draft_in self.old.replica raft).state.log
            + length self.old.replica.pending < 2 ^ 64 }
        ensures replica { self.new.replica ≡ self.old.replica }
        ensures room { IsRoomWithin self.old.room self.new.room }
        ensures plan { IfOk result (λ p. IsPlan self.old.replica
            (Some (draft_in self.old.replica raft)) p
            (refreshed_by self.old.replica (draft_in self.old.replica raft) ticks round
            (after_taken self.old.replica raft) refresh)) }
        ensures read { OnOk result (EachReads (refreshed_by self.old.replica
            (draft_in self.old.replica raft) ticks round (after_taken self.old.replica raft)
            refresh).proposed) }
    {
        // An id is looked up, so none may stand twice.
        self.pending.ids_are_distinct();
        let alloc = self.source.alloc;
        let outcomes = self.overtaken(&raft)?;
        let back = refresh.back.len();
        let moves = moves_of(alloc, &refresh)?;
        let mut bytes = Payloads::new(alloc);
        push_moves(alloc, &mut bytes, &self.pending, moves.as_slice())?;
        let raft = self.extended(raft, bytes)?;
        Ok(ReplicaPlan::HandsOver {
            hand: HandOver {
                raft,
                moves,
                ticks,
                round,
                last: None,
                back,
                outcomes,
            },
        })
    }

    /// Time goes on to this tick.
    #[inline(never)]
    pub(crate) fn plan_tick(&mut self, ticks: Tick, round: u64) -> Result<ReplicaPlan, NoMemory>
        requires { MayRefresh self.old.replica (tick self.old.replica.raft) }
        ensures replica { self.new.replica ≡ self.old.replica }
        ensures room { IsRoomWithin self.old.room self.new.room }
        ensures plan { IfOk result (λ p. IsPlan self.old.replica
            (Some (tick self.old.replica.raft)) p (ticked self.old.replica ticks round)) }
        ensures read { OnOk result (EachReads (ticked self.old.replica ticks round).proposed) }
    {
        let raft = plan(&mut self.raft, RaftEvent::Tick, &self.source)?;
        let all = self.has_new_leader(&raft);
        let lai = self.source.state.lai();
        let refresh = self.pending.to_refresh(lai, ticks, all)?;
        self.plan_refresh(raft, refresh, ticks, round)
    }

    /// A message of another node's replica comes.
    #[inline(never)]
    pub(crate) fn plan_delivery(
        &mut self,
        from: NodeId,
        message: Message<Snapshot>,
        ticks: Tick,
        round: u64,
    ) -> Result<ReplicaPlan, NoMemory>
        requires { MayDeliver self.old.replica from message }
        ensures replica { self.new.replica ≡ self.old.replica }
        ensures room { IsRoomWithin self.old.room self.new.room }
        ensures plan { IfOk result (λ p. IsPlan self.old.replica
            (Some (received self.old.replica.raft from message)) p
            (delivered self.old.replica from message ticks round)) }
        ensures read { OnOk result
            (EachReads (delivered self.old.replica from message ticks round).proposed) }
    {
        let receive = RaftEvent::Receive { from, message };
        let raft = plan(&mut self.raft, receive, &self.source)?;
        let refresh = self.refresh_behind(&raft, ticks)?;
        self.plan_refresh(raft, refresh, ticks, round)
    }
}
