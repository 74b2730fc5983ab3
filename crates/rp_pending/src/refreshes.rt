//! Which proposals a refresh sends back, and which it proposes again.
ghost use Rattle.std.specs.Prelude.{◌≡◌, ◌≤◌, ℕ, List, filter_map, map, IfOk, OnOk};
ghost use Rattle.std.specs.List.{filter};
ghost use Rattle.std.specs.Option.{option_and_then};
ghost use Rattle.rp_pending.specs.Proposals.{is_proposed};
ghost use Rattle.rp_pending.specs.Refreshes.{by_key, first_round, goes_again, goes_back, ids_by_max, to_refresh, waiting_of, waits};
ghost use Rattle.rp_pending.specs.Slots.{proposals_in};
ghost use Rattle.rp_pending.specs.Dues.{again_due, back_due, due, id_of, standing, standing_of};

use crate::bounds::Wanted;
use crate::proposals::{Proposal, Stage, Standing};
use crate::shelf::Shelf;
use crate::slots::Slots;
use rp_base::{CmdId, LeaseIndex, NoMemory, Seq, Tick};
use rp_request::{WaitList, Waiting};
use std::alloc::{AllocError, Global};

/// Attempts in an order that the function says.
pub type Ids = Seq<CmdId>;

/// How far proposals have come, in order of admission.
pub type Standings = Seq<Standing>;

/// What a refresh does with the proposals of a replica.
#[derive(Drop)]
pub struct Refresh {
    /// Proposed again under the lease index that they have.
    pub again: Ids,
    /// Their lease index can no longer be taken: they wait for another.
    pub back: Ids,
}

/// A proposal that a refresh concerns.
#[derive(Clone, Copy)]
pub(crate) struct Due {
    pub max: LeaseIndex,
    pub id: CmdId,
}

/// A refresh proposes a proposal again after so many ticks.
pub(crate) const REFRESH_TICKS: u64 = 5;

impl Stage {
    pub(crate) fn is_proposed(self) -> bool
        ensures { result ≡ is_proposed self }
    {
        match self {
            Stage::Waiting => false,
            Stage::Proposed => true,
        }
    }
}

impl Proposal {
    pub(crate) fn goes_back(&self, lai: LeaseIndex) -> bool
        ensures { result ≡ goes_back lai self.now }
    {
        self.stage.is_proposed() && self.max <= lai
    }

    fn goes_again(&self, lai: LeaseIndex, now: Tick, all: bool) -> bool
        ensures { result ≡ goes_again lai now all self.now }
    {
        self.stage.is_proposed()
            && self.max > lai
            && (all || now.get().saturating_sub(self.since.get()) >= REFRESH_TICKS)
    }

    fn due(&self) -> Due
        ensures { result ≡ due self.now }
    {
        Due {
            max: self.max,
            id: self.id,
        }
    }

    fn back(&self, lai: LeaseIndex) -> Option<Due>
        ensures { result ≡ back_due lai self.now }
    {
        if self.goes_back(lai) {
            Some(self.due())
        } else {
            None
        }
    }

    fn again(&self, lai: LeaseIndex, now: Tick, all: bool) -> Option<Due>
        ensures { result ≡ again_due lai now all self.now }
    {
        if self.goes_again(lai, now, all) {
            Some(self.due())
        } else {
            None
        }
    }

    fn waits(&self) -> Option<Waiting>
        ensures { result ≡ waits self.now }
    {
        match self.stage {
            Stage::Waiting => Some(Waiting {
                id: self.id,
                seq: self.seq,
            }),
            Stage::Proposed => None,
        }
    }
}

fn waits_in(slot: &Option<Proposal>) -> Option<Waiting>
    ensures { result ≡ option_and_then waits slot.now }
{
    match slot {
        None => None,
        Some(proposal) => proposal.waits(),
    }
}

fn waits_of(slots: &Slots) -> Result<Vec<Waiting>, AllocError>
    ensures { IfOk result (λ v. v.items ≡ waiting_of (proposals_in slots.now.entries)) }
{
    let alloc = *slots.allocator();
    slots
        .values()
        .filter_map(|slot| waits_in(slot))
        .collect(alloc)
}

/// The proposals that wait for a lease index, in order of admission.
pub(crate) fn waiting(slots: &Slots) -> Result<WaitList, NoMemory>
    ensures { IfOk result (λ w. w ≡ waiting_of (proposals_in slots.now.entries)) }
{
    Ok(Seq::from_vec(waits_of(slots)?))
}

fn id_in(slot: &Option<Proposal>) -> Option<CmdId>
    ensures { result ≡ option_and_then id_of slot.now }
{
    match slot {
        None => None,
        Some(proposal) => Some(proposal.id),
    }
}

fn all_ids(slots: &Slots) -> Result<Vec<CmdId>, AllocError>
    ensures { IfOk result (λ v. v.items ≡ filter_map id_of (proposals_in slots.now.entries)) }
{
    let alloc = *slots.allocator();
    slots.values().filter_map(|slot| id_in(slot)).collect(alloc)
}

/// The ids of all proposals, in order of admission.
#[tactic(auto, using(crate::proofs::Reading::ids_are))]
pub(crate) fn ids(slots: &Slots) -> Result<Ids, NoMemory>
    ensures { IfOk result (λ ids. ids ≡ map (λ p. p.id) (proposals_in slots.now.entries)) }
{
    Ok(Seq::from_vec(all_ids(slots)?))
}

fn standing_in(slot: &Option<Proposal>) -> Option<Standing>
    ensures { result ≡ option_and_then standing_of slot.now }
{
    match slot {
        None => None,
        Some(proposal) => Some(Standing {
            id: proposal.id,
            max: proposal.max,
            stage: proposal.stage,
        }),
    }
}

fn all_standings(slots: &Slots) -> Result<Vec<Standing>, AllocError>
    ensures { IfOk result
        (λ v. v.items ≡ filter_map standing_of (proposals_in slots.now.entries)) }
{
    let alloc = *slots.allocator();
    slots
        .values()
        .filter_map(|slot| standing_in(slot))
        .collect(alloc)
}

/// How far all proposals have come, in order of admission.
#[tactic(auto, using(crate::proofs::Reading::standings_are))]
pub(crate) fn standings(slots: &Slots) -> Result<Standings, NoMemory>
    ensures { IfOk result (λ all. all ≡ map standing (proposals_in slots.now.entries)) }
{
    Ok(Seq::from_vec(all_standings(slots)?))
}

fn round_in(slot: &Option<Proposal>) -> Option<u64>
    ensures { result ≡ option_and_then (λ p. p.round) slot.now }
{
    match slot {
        None => None,
        Some(proposal) => proposal.round,
    }
}

pub(crate) fn first_round(slots: &Slots) -> Option<u64>
    ensures { result ≡ first_round (proposals_in slots.now.entries) }
{
    slots.values().filter_map(|slot| round_in(slot)).min()
}

pub(crate) fn back_in(slot: &Option<Proposal>, lai: LeaseIndex) -> Option<Due>
    ensures { result ≡ option_and_then (back_due lai) slot.now }
{
    match slot {
        None => None,
        Some(proposal) => proposal.back(lai),
    }
}

pub(crate) fn again_in(
    slot: &Option<Proposal>,
    lai: LeaseIndex,
    now: Tick,
    all: bool,
) -> Option<Due>
    ensures { result ≡ option_and_then (again_due lai now all) slot.now }
{
    match slot {
        None => None,
        Some(proposal) => proposal.again(lai, now, all),
    }
}

fn again_dues(slots: &Slots, lai: LeaseIndex, now: Tick, all: bool) -> Result<Vec<Due>, AllocError>
    ensures { IfOk result
        (λ v. v.items ≡ filter_map (again_due lai now all) (proposals_in slots.now.entries)) }
{
    let alloc = *slots.allocator();
    slots
        .values()
        .filter_map(|slot| again_in(slot, lai, now, all))
        .collect(alloc)
}

fn ids_of(alloc: Global, dues: &[Due]) -> Result<Vec<CmdId>, AllocError>
    ensures { IfOk result (λ v. v.items ≡ map (λ d. d.id) dues.now) }
{
    dues.iter().map(|due| due.id).collect(alloc)
}

/// The ids by ascending maximum, equal ones in their order, by a stable sort.
fn in_order(mut dues: Vec<Due>) -> Result<Ids, NoMemory>
    ensures { IfOk result (λ ids. ids ≡ map (λ d. d.id) (by_key (λ d. d.max) dues.items)) }
{
    dues.sort_by_key(|due| due.max.get())?;
    let ids = ids_of(*dues.allocator(), &dues)?;
    Ok(Seq::from_vec(ids))
}

/// What is proposed again. Where that is not all, blocks in which nothing is due are passed over.
fn dues_again(shelf: &Shelf, lai: LeaseIndex, now: Tick, all: bool) -> Result<Vec<Due>, AllocError>
    ensures { IfOk result
        (λ v. v.items ≡ filter_map (again_due lai now all) (proposals_in shelf.now.entries)) }
{
    if !all {
        return shelf.dues(Wanted::Again { lai, now });
    }
    again_dues(shelf.slots(), lai, now, all)
}

/// What a refresh is to do: of all in one pass, else only where something may be due; and a sort
/// of what is.
pub(crate) fn to_refresh(
    shelf: &Shelf,
    lai: LeaseIndex,
    now: Tick,
    all: bool,
) -> Result<Refresh, NoMemory>
    ensures { IfOk result (λ r. r ≡ to_refresh lai now all (proposals_in shelf.now.entries)) }
{
    let again = dues_again(shelf, lai, now, all)?;
    let back = shelf.dues(Wanted::Back { lai })?;
    Ok(Refresh {
        again: in_order(again)?,
        back: in_order(back)?,
    })
}
