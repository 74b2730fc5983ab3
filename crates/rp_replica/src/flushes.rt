//! The flush: the inbox becomes payloads for Raft, each command under a lease index.
ghost use Rattle.std.specs.Prelude.{◌≡◌, ◌≤◌, ◌+◌, ◌++◌, map, filter_map, IfOk, OnOk, Some};
ghost use Rattle.rp_raftstep.specs.Step.{quiet};
ghost use Rattle.rp_base.specs.declared.ids.CmdId.{CmdId};
ghost use Rattle.rp_events.specs.Flushes.{assigning, flush_moves, flushed};
ghost use Rattle.rp_events.specs.declared.moves.Move.TheVariants.{HandsOut, GivesUp};
ghost use Rattle.rp_events.specs.Allows.{MayFlush};
ghost use Rattle.rp_replica.specs.Handing.{EachReads, asks_spelled, moves_spelled, told_by};
ghost use Rattle.rp_replica.specs.Plans.{IsPlan};
ghost use Rattle.rp_replica.specs.Rooms.{IsRoomWithin};

use crate::payloads::{push_asks, push_moves, told};
use crate::plans::{HandOver, ReplicaPlan};
use crate::rafts::plan;
use crate::replicas::Replica;
use crate::waits::assign_inbox;
use rp_base::{CmdId, LeaseAsk, LeaseIndex, NoMemory, Seq, Tick};
use rp_events::{Move, Outcomes};
use rp_flush::Assigned;
use rp_raftstep::{Payloads, RaftEvent};
use std::alloc::Global;

/// Puts the moves of refused attempts at the end.
fn push_refused(moves: &mut Vec<Move>, refused: &[CmdId]) -> Result<(), NoMemory>
    ensures { OnOk result (moves.new.items ≡ moves.old.items ++ map GivesUp refused.now) }
{
    for id in refused {
        moves.push(Move::GivesUp(*id))?;
    }
    Ok(())
}

/// Puts the moves of attempts that get a lease index at the end.
fn push_writes(moves: &mut Vec<Move>, writes: &[(CmdId, LeaseIndex)]) -> Result<(), NoMemory>
    ensures { OnOk result (moves.new.items
        ≡ moves.old.items ++ map (λ write. HandsOut write.0 write.1) writes.now) }
{
    for write in writes {
        moves.push(Move::HandsOut {
            id: write.0,
            max: write.1,
        })?;
    }
    Ok(())
}

/// The moves of a flush: an attempt that was evaluated under another sequence is refused, and each
/// other one gets its index.
fn moves_of(alloc: Global, assigned: &Assigned) -> Result<Seq<Move>, NoMemory>
    ensures { IfOk result (λ m. m ≡ flush_moves assigned.now) }
{
    let mut moves = Vec::new(alloc);
    push_refused(&mut moves, assigned.refused.as_slice())?;
    push_writes(&mut moves, assigned.writes.as_slice())?;
    Ok(Seq::from_vec(moves))
}

/// What a flush will do, but for Raft.
#[derive(Drop)]
struct FlushDraft {
    moves: Seq<Move>,
    bytes: Payloads,
    outcomes: Outcomes,
    last: LeaseIndex,
}

impl Replica {
    /// What a flush will do, but for Raft.
    #[inline(never)]
    fn draft_flush(&self) -> Result<FlushDraft, NoMemory>
        requires { MayFlush self.now.replica }
        ensures moves { IfOk result
            (λ d. d.moves ≡ flush_moves (assigning self.now.replica)) }
        ensures bytes { IfOk result (λ d. d.bytes
            ≡ asks_spelled (assigning self.now.replica).leases
            ++ moves_spelled self.now.replica.pending d.moves) }
        ensures read { IfOk result (λ d. EachReads d.bytes) }
        ensures outcomes { IfOk result (λ d. d.outcomes
            ≡ filter_map (told_by self.now.replica.applied.state.lease) d.moves) }
        ensures last { IfOk result (λ d. d.last ≡ (assigning self.now.replica).last) }
    {
        let alloc = self.source.alloc;
        let lai = self.source.state.lai();
        let assigned = assign_inbox(
            alloc,
            &self.inbox,
            &self.pending,
            self.source.state.lease(),
            lai,
            self.assigned,
        )?;
        let moves = moves_of(alloc, &assigned)?;
        let mut bytes = Payloads::new(alloc);
        push_asks(alloc, &mut bytes, assigned.leases.as_slice())?;
        push_moves(alloc, &mut bytes, &self.pending, moves.as_slice())?;
        let lease = self.source.state.lease();
        let outcomes = told(alloc, &lease, moves.as_slice())?;
        Ok(FlushDraft {
            moves,
            bytes,
            outcomes,
            last: assigned.last,
        })
    }

    /// The inbox goes to Raft: lease asks first, then commands, each with a lease index.
    #[inline(never)]
    pub(crate) fn plan_flush(&mut self, ticks: Tick, round: u64) -> Result<ReplicaPlan, NoMemory>
        requires { MayFlush self.old.replica }
        ensures replica { self.new.replica ≡ self.old.replica }
        ensures room { IsRoomWithin self.old.room self.new.room }
        ensures plan { IfOk result (λ p. IsPlan self.old.replica
            (Some (quiet self.old.replica.raft)) p (flushed self.old.replica ticks round)) }
        ensures read { OnOk result (EachReads (flushed self.old.replica ticks round).proposed) }
    {
        // An id is looked up, so none may stand twice.
        self.pending.ids_are_distinct();
        let draft = self.draft_flush()?;
        let FlushDraft {
            moves,
            bytes,
            outcomes,
            last,
        } = draft;
        let propose = RaftEvent::Propose { payloads: bytes };
        let raft = plan(&mut self.raft, propose, &self.source)?;
        Ok(ReplicaPlan::HandsOver {
            hand: HandOver {
                raft,
                moves,
                ticks,
                round,
                last: Some(last),
                back: 0,
                outcomes,
            },
        })
    }
}
