//! The payloads of lease asks and of proposals, and what attempts are told that are given up.
ghost use Rattle.std.specs.Prelude.{◌≡◌, ◌++◌, ◌∷◌, [], filter_map, option_map, IfOk, OnOk};
ghost use Rattle.rp_codec.specs.Spelling.{spelling};
ghost use Rattle.rp_replica.specs.Handing.{EachReads, asks_spelled, moves_spelled, payload_by, told_by, write_again, write_under};
ghost use Rattle.rp_pending.specs.Proposals.{proposal_of};

use rp_base::{CmdId, Lease, LeaseAsk, LeaseIndex, NoMemory};
use rp_codec::encode;
use rp_events::{Ended, Move, Outcomes};
use rp_pending::{Pending, Proposal};
use rp_raftstep::Payloads;
use rp_request::{Command, Outcome, Payload, Refusal};
use std::alloc::Global;

/// A proposal as a payload, under a lease index. The proposal stays, so its writes are copied.
fn write_under(proposal: &Proposal, max: LeaseIndex) -> Result<Payload, NoMemory>
    ensures { IfOk result (λ p. p ≡ write_under max proposal.now) }
{
    let batch = proposal.batch.copy()?;
    Ok(Payload::Write(Command {
        id: proposal.id,
        request: proposal.request,
        batch,
        reply: proposal.reply,
        seq: proposal.seq,
        max,
    }))
}

/// Puts the bytes of a payload at the end.
#[tactic(auto, using(crate::proofs::Reading::reads_more))]
#[inline(never)]
fn push_payload(alloc: Global, bytes: &mut Payloads, payload: &Payload) -> Result<(), NoMemory>
    requires { EachReads bytes.old }
    ensures bytes { OnOk result (bytes.new ≡ bytes.old ++ spelling payload.now ∷ []) }
    ensures read { OnOk result (EachReads bytes.new) }
{
    let spelled = encode(alloc, payload)?;
    bytes.push(spelled)
}

/// Puts the bytes of lease asks at the end.
pub(crate) fn push_asks(
    alloc: Global,
    bytes: &mut Payloads,
    asks: &[LeaseAsk],
) -> Result<(), NoMemory>
    requires { EachReads bytes.old }
    ensures bytes { OnOk result (bytes.new ≡ bytes.old ++ asks_spelled asks.now) }
    ensures read { OnOk result (EachReads bytes.new) }
{
    for ask in asks {
        push_payload(alloc, bytes, &Payload::Lease(*ask))?;
    }
    Ok(())
}

/// What a move hands to Raft.
fn payload_by(pending: &Pending, one: Move) -> Result<Option<Payload>, NoMemory>
    ensures { IfOk result (λ o. o ≡ payload_by pending.now.list one) }
{
    match one {
        Move::HandsOut { id, max } => match pending.find(id) {
            None => Ok(None),
            Some(proposal) => Ok(Some(write_under(proposal, max)?)),
        },
        Move::Repeats(id) => match pending.find(id) {
            None => Ok(None),
            Some(proposal) => Ok(Some(write_under(proposal, proposal.max)?)),
        },
        Move::GivesUp(_) | Move::TakesBack(_) => Ok(None),
    }
}

/// Puts the bytes of what a move hands to Raft at the end.
#[inline(never)]
fn push_move(
    alloc: Global,
    bytes: &mut Payloads,
    pending: &Pending,
    one: Move,
) -> Result<(), NoMemory>
    requires { EachReads bytes.old }
    ensures bytes { OnOk result
        (bytes.new ≡ bytes.old ++ moves_spelled pending.now.list (one ∷ [])) }
    ensures read { OnOk result (EachReads bytes.new) }
{
    match payload_by(pending, one)? {
        None => Ok(()),
        Some(payload) => push_payload(alloc, bytes, &payload),
    }
}

/// Puts the bytes of what moves hand to Raft at the end.
pub(crate) fn push_moves(
    alloc: Global,
    bytes: &mut Payloads,
    pending: &Pending,
    moves: &[Move],
) -> Result<(), NoMemory>
    requires { EachReads bytes.old }
    ensures bytes { OnOk result
        (bytes.new ≡ bytes.old ++ moves_spelled pending.now.list moves.now) }
    ensures read { OnOk result (EachReads bytes.new) }
{
    for one in moves {
        push_move(alloc, bytes, pending, *one)?;
    }
    Ok(())
}

/// Puts the end of an attempt at the end, where the move gives it up: the present lease.
#[inline(never)]
fn push_told(ends: &mut Vec<Ended>, lease: &Lease, one: &Move) -> Result<(), NoMemory>
    ensures { OnOk result (ends.new.items
        ≡ ends.old.items ++ filter_map (told_by lease.now) (one.now ∷ [])) }
{
    let Move::GivesUp(id) = *one else {
        return Ok(());
    };
    let outcome = Outcome::Refused(Refusal::NotLeaseHolder { lease: *lease });
    let end = Ended { id, outcome };
    ends.extend_from_slice(std::slice::from_ref(&end))?;
    Ok(())
}

/// What attempts are told that moves give up, in their order.
pub(crate) fn told(alloc: Global, lease: &Lease, moves: &[Move]) -> Result<Outcomes, NoMemory>
    ensures { IfOk result (λ o. o ≡ filter_map (told_by lease.now) moves.now) }
{
    let mut ends = Vec::new(alloc);
    for one in moves {
        push_told(&mut ends, lease, one)?;
    }
    Ok(Outcomes::from_vec(ends))
}
