//! The slots of proposals with bounds on what their blocks hold, so that a refresh of what is due
//! goes through no more than the blocks where something may be.
ghost use Rattle.std.specs.Prelude.{◌≡◌, ℕ, ◌+◌, ◌<◌, ◌≤◌, ◌^◌, [], ◌∷◌, ◌++◌, take, length, slice_get, filter_map, Option, None, Some, IfOk, OnOk};
ghost use Rattle.std.specs.List.{cons_option, filter, IsDistinct};
ghost use Rattle.std.specs.Map.{keys_of};
ghost use Rattle.rp_base.specs.Ids.{same_id};
ghost use Rattle.std.specs.Option.{option_and_then, option_copied, option_flatten, option_map};
ghost use Rattle.rp_pending.specs.declared.proposals.Proposal.{Proposal};
ghost use Rattle.rp_pending.specs.Bounds.{seen, wanted_of};
ghost use Rattle.rp_pending.specs.Slots.{changed, proposals_in, slot_of, stays, with_slot, AreSound};
ghost use Rattle.rp_pending.specs.Turns.{is_made_at};

use crate::bounds::{Bounds, Wanted, grow, note, passed, rebuild};
use crate::proposals::{Change, Proposal};
use crate::refreshes::{Due, again_in, back_in};
use crate::slots::{self, Slots};
use rp_base::{CmdId, LeaseIndex, NoMemory};
use std::alloc::{AllocError, Global};
use std::marker::Model;

/// Slots with their bounds. Contracts see the slots, and how many more take no memory.
#[derive(Drop)]
pub(crate) struct Shelf {
    slots: Slots,
    bounds: Bounds,
}

impl Model for Shelf {
    ghost use Rattle.indexmap.specs.IndexMap.{spare};
    ghost use Rattle.rp_pending.specs.Bounds.{Shelved, Covers, Spans};

    ghost Value = { Shelved };

    ghost view = { λ s. record { entries = s.slots.entries; spare = spare s.slots } };

    ghost invariant = { λ s. Covers s.bounds.narrow.items s.slots.entries
        × Spans s.bounds.wide.items s.bounds.narrow.items };
}

/// What is wanted of a slot.
fn wanted_in(slot: &Option<Proposal>, wanted: &Wanted) -> Option<Due>
    ensures { result ≡ option_and_then (wanted_of wanted.now) slot.now }
{
    match *wanted {
        Wanted::Back { lai } => back_in(slot, lai),
        Wanted::Again { lai, now } => again_in(slot, lai, now, false),
    }
}

/// Puts what is wanted of a slot behind the others.
fn push_wanted(
    dues: &mut Vec<Due>,
    slot: &Option<Proposal>,
    wanted: &Wanted,
) -> Result<(), AllocError>
    ensures { OnOk result (dues.new.items
        ≡ dues.old.items ++ cons_option (option_and_then (wanted_of wanted.now) slot.now) []) }
{
    if let Some(due) = wanted_in(slot, wanted) {
        dues.push(due)?;
    }
    Ok(())
}

impl Shelf {
    pub(crate) fn new(alloc: Global) -> Shelf
        ensures { result.entries ≡ [] }
    {
        Shelf {
            slots: Slots::new(alloc),
            bounds: Bounds {
                narrow: Vec::new(alloc),
                wide: Vec::new(alloc),
            },
        }
    }

    /// Makes room for n slots more.
    pub(crate) fn reserve(&mut self, n: usize) -> Result<(), NoMemory>
        ensures entries { self.new.entries ≡ self.old.entries }
        ensures room { OnOk result (n ≤ self.new.spare) }
        ensures kept { self.old.spare ≤ self.new.spare }
    {
        self.slots.reserve(n)?;
        grow(&mut self.bounds, &self.slots, n)
    }

    /// The slots alone.
    pub(crate) fn slots(&self) -> &Slots
        ensures { result.now.entries ≡ self.now.entries }
    {
        &self.slots
    }

    /// How many slots there are.
    pub(crate) fn len(&self) -> usize
        ensures len { result ≡ length self.now.entries }
        ensures small { result < 2 ^ 63 }
    {
        self.slots.len()
    }

    /// The slot of this id, where there is one.
    pub(crate) fn get(&self, id: CmdId) -> Option<&Option<Proposal>>
        ensures { option_copied result ≡ slot_of id self.now.entries }
    {
        slots::get(&self.slots, id)
    }

    /// Changes the proposal with this id, and says whether it did.
    pub(crate) fn change(&mut self, id: CmdId, change: Change) -> bool
        ensures made { result ≡ is_made_at change (option_flatten (slot_of id self.old.entries)) }
        ensures none { slot_of id self.old.entries ≡ None → self.new.entries ≡ self.old.entries }
        ensures entries { (slot : Option Proposal) → slot_of id self.old.entries ≡ Some slot
            → self.new.entries ≡ with_slot id self.old.entries (option_map (changed change) slot) }
        ensures spare { self.old.spare ≤ self.new.spare }
    {
        let place = slots::place_of(&self.slots, id);
        let made = slots::change(&mut self.slots, id, change);
        if let Some(place) = place {
            note(&mut self.bounds, &self.slots, place);
        }
        made
    }

    /// Empties the slot of this id and gives its proposal.
    pub(crate) fn take(&mut self, id: CmdId) -> Option<Proposal>
        ensures taken { result ≡ option_flatten (slot_of id self.old.entries) }
        ensures entries { self.new.entries ≡ with_slot id self.old.entries None }
        ensures spare { self.old.spare ≤ self.new.spare }
    {
        let place = slots::place_of(&self.slots, id);
        let taken = slots::take(&mut self.slots, id);
        if let Some(place) = place {
            note(&mut self.bounds, &self.slots, place);
        }
        taken
    }

    /// Puts a proposal into a new slot at the end, without memory.
    pub(crate) fn put(&mut self, id: CmdId, proposal: Proposal)
        requires room { 1 ≤ self.old.spare }
        requires new_id { slot_of id self.old.entries ≡ None }
        ensures entries { self.new.entries ≡ self.old.entries ++ (id, Some proposal) ∷ [] }
        ensures distinct { IsDistinct same_id (keys_of self.new.entries) }
        ensures spare { self.old.spare ≤ self.new.spare + 1 }
    {
        let place = self.slots.len();
        slots::put(&mut self.slots, id, proposal);
        note(&mut self.bounds, &self.slots, place);
    }

    /// Takes an empty slot of this id out. Where no slot is empty, there is none.
    pub(crate) fn clear(&mut self, id: CmdId, count: usize)
        requires sound { AreSound self.old.entries count }
        requires new_id { option_flatten (slot_of id self.old.entries) ≡ None }
        ensures sound { AreSound self.new.entries count }
        ensures same { proposals_in self.new.entries ≡ proposals_in self.old.entries }
        ensures new_id { slot_of id self.new.entries ≡ None }
        ensures small { count < 2 ^ 63 }
        ensures spare { self.old.spare ≤ self.new.spare }
    {
        let before = self.slots.len();
        slots::clear(&mut self.slots, id, count);
        if self.slots.len() != before {
            rebuild(&mut self.bounds, &self.slots);
        }
    }

    /// Takes the empty slots out once they are many, and more than the others.
    pub(crate) fn tidy(&mut self, count: usize)
        requires { AreSound self.old.entries count }
        ensures sound { AreSound self.new.entries count }
        ensures same { proposals_in self.new.entries ≡ proposals_in self.old.entries }
        ensures spare { self.old.spare ≤ self.new.spare }
    {
        let before = self.slots.len();
        slots::tidy(&mut self.slots, count);
        if self.slots.len() != before {
            rebuild(&mut self.bounds, &self.slots);
        }
    }

    /// Takes the slots out that are empty or whose proposals go back under a lease applied index.
    pub(crate) fn keep_staying(&mut self, lai: LeaseIndex)
        ensures entries { self.new.entries ≡ filter (λ s. stays lai s.1) self.old.entries }
        ensures distinct { IsDistinct same_id (keys_of self.new.entries) }
        ensures spare { self.old.spare ≤ self.new.spare }
    {
        slots::keep_staying(&mut self.slots, lai);
        rebuild(&mut self.bounds, &self.slots);
    }

    /// Puts what is wanted of this slot behind the others.
    fn look(&self, at: usize, wanted: &Wanted, dues: &mut Vec<Due>) -> Result<(), AllocError>
        requires { at < length self.now.entries }
        ensures { OnOk result (dues.old.items ≡ seen wanted.now (take at self.now.entries)
            → dues.new.items ≡ seen wanted.now (take (at + 1) self.now.entries)) }
    {
        match self.slots.get_index(at) {
            None => Ok(()),
            Some((_, slot)) => push_wanted(dues, slot, wanted),
        }
    }

    /// Looks at this slot, or passes over it and those behind it in which nothing is wanted. It
    /// gives the next slot to look at.
    fn step(&self, at: usize, wanted: &Wanted, dues: &mut Vec<Due>) -> Result<usize, AllocError>
        requires { at < length self.now.entries }
        ensures next { IfOk result (λ next. at < next) }
        ensures dues { IfOk result (λ next.
            dues.old.items ≡ seen wanted.now (take at self.now.entries)
            → dues.new.items ≡ seen wanted.now (take next self.now.entries)) }
    {
        // There are fewer slots than 2^63.
        let _ = self.slots.len();
        let over = passed(&self.bounds, at, wanted);
        if over > 0 {
            return Ok(at + over);
        }
        self.look(at, wanted, dues)?;
        Ok(at + 1)
    }

    /// What is wanted of the proposals, in order of admission.
    pub(crate) fn dues(&self, wanted: Wanted) -> Result<Vec<Due>, AllocError>
        ensures { IfOk result
            (λ v. v.items ≡ filter_map (wanted_of wanted) (proposals_in self.now.entries)) }
    {
        let mut dues = Vec::new(*self.slots.allocator());
        let mut at = 0;
        while at < self.slots.len() {
            at = self.step(at, &wanted, &mut dues)?;
        }
        Ok(dues)
    }
}
