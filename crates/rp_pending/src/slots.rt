//! Slots of proposals, by id and in order of admission.
ghost use Rattle.std.specs.Prelude.{◌≡◌, ◌+◌, ◌≤◌, ◌<◌, ◌^◌, [], ◌∷◌, ◌++◌, is_some, length, position, Option, filter};
ghost use Rattle.std.specs.List.{IsDistinct};
ghost use Rattle.std.specs.Map.{keys_of, remove_entry};
ghost use Rattle.std.specs.Option.{option_copied, option_flatten, option_map};
ghost use Rattle.indexmap.specs.IndexMap.{spare};
ghost use Rattle.rp_pending.specs.declared.proposals.Proposal.{Proposal};
ghost use Rattle.rp_base.specs.Ids.{same_id};
ghost use Rattle.rp_pending.specs.Turns.{is_made_at};
ghost use Rattle.rp_pending.specs.Slots.{changed, proposals_in, slot_of, stays, with_slot, AreSound};

use crate::proposals::{Change, Proposal};
use indexmap::IndexMap;
use rp_base::{CmdId, LeaseIndex};

/// A slot for each id, in order of admission, empty where the proposal has ended.
pub(crate) type Slots = IndexMap<CmdId, Option<Proposal>>;

/// So few empty slots are left as they are.
const FEW_SLOTS: usize = 64;

/// Changes the proposal of a slot, and says whether it did.
fn change_in(slot: &mut Option<Proposal>, change: Change) -> bool
    ensures made { result ≡ is_made_at change slot.old }
    ensures slot { slot.new ≡ option_map (changed change) slot.old }
{
    match slot {
        None => false,
        Some(proposal) => proposal.change(change),
    }
}

/// Changes the proposal with this id, and says whether it did.
pub(crate) fn change(slots: &mut Slots, id: CmdId, change: Change) -> bool
    ensures made { result ≡ is_made_at change (option_flatten (slot_of id slots.old.entries)) }
    ensures none { slot_of id slots.old.entries ≡ None → slots.new.entries ≡ slots.old.entries }
    ensures entries { (slot : Option Proposal) → slot_of id slots.old.entries ≡ Some slot
        → slots.new.entries ≡ with_slot id slots.old.entries (option_map (changed change) slot) }
    ensures spare { spare slots.old ≤ spare slots.new }
{
    let Some(slot) = slots.get_mut(&id) else {
        return false;
    };
    change_in(slot, change)
}

/// Empties the slot of this id and gives its proposal.
#[tactic(auto, using(crate::proofs::Finding::no_slot_stays))]
pub(crate) fn take(slots: &mut Slots, id: CmdId) -> Option<Proposal>
    ensures taken { result ≡ option_flatten (slot_of id slots.old.entries) }
    ensures entries { slots.new.entries ≡ with_slot id slots.old.entries None }
    ensures spare { spare slots.old ≤ spare slots.new }
{
    match slots.get_mut(&id) {
        None => None,
        Some(slot) => slot.take(),
    }
}

/// The slot of this id, where there is one.
pub(crate) fn get(slots: &Slots, id: CmdId) -> Option<&Option<Proposal>>
    ensures { option_copied result ≡ slot_of id slots.now.entries }
{
    slots.get(&id)
}

/// The place of this id's slot, where there is one.
pub(crate) fn place_of(slots: &Slots, id: CmdId) -> Option<usize>
    ensures place { result ≡ position (same_id id) (keys_of slots.now.entries) }
    ensures there { is_some result ≡ is_some (slot_of id slots.now.entries) }
{
    slots.get_index_of(&id)
}

/// Puts a proposal into a new slot at the end, without memory.
pub(crate) fn put(slots: &mut Slots, id: CmdId, proposal: Proposal)
    requires room { 1 ≤ spare slots.old }
    requires new_id { slot_of id slots.old.entries ≡ None }
    ensures entries { slots.new.entries ≡ slots.old.entries ++ (id, Some proposal) ∷ [] }
    ensures distinct { IsDistinct same_id (keys_of slots.new.entries) }
    ensures spare { spare slots.old ≤ spare slots.new + 1 }
{
    slots.insert(id, Some(proposal)).unwrap();
}

/// Takes the slot of this id out, where there is one.
fn remove(slots: &mut Slots, id: CmdId)
    ensures entries { slots.new.entries ≡ remove_entry (same_id id) slots.old.entries }
    ensures distinct { IsDistinct same_id (keys_of slots.new.entries) }
    ensures gone { slot_of id slots.new.entries ≡ None }
    ensures spare { spare slots.old ≤ spare slots.new }
{
    slots.shift_remove(&id);
}

/// Takes an empty slot of this id out. Where no slot is empty, there is none.
pub(crate) fn clear(slots: &mut Slots, id: CmdId, count: usize)
    requires sound { AreSound slots.old.entries count }
    requires new_id { option_flatten (slot_of id slots.old.entries) ≡ None }
    ensures sound { AreSound slots.new.entries count }
    ensures same { proposals_in slots.new.entries ≡ proposals_in slots.old.entries }
    ensures new_id { slot_of id slots.new.entries ≡ None }
    ensures kept { length slots.new.entries ≡ length slots.old.entries
        → slots.new.entries ≡ slots.old.entries }
    ensures small { count < 2 ^ 63 }
    ensures spare { spare slots.old ≤ spare slots.new }
{
    if slots.len() == count {
        return;
    }
    remove(slots, id);
}

/// Takes the empty slots out.
fn compact(slots: &mut Slots)
    ensures entries { slots.new.entries ≡ filter (λ s. is_some s.1) slots.old.entries }
    ensures distinct { IsDistinct same_id (keys_of slots.new.entries) }
    ensures spare { spare slots.old ≤ spare slots.new }
{
    slots.retain(
        |_id: &CmdId, slot: &mut Option<Proposal>| -> bool
            ensures { (result ≡ is_some slot.old) × (slot.new ≡ slot.old) }
        { slot.is_some() },
    );
}

/// Takes the empty slots out once they are many, and more than the others. So over all calls a
/// proposal is moved at most once for each that was taken out.
pub(crate) fn tidy(slots: &mut Slots, count: usize)
    requires { AreSound slots.old.entries count }
    ensures sound { AreSound slots.new.entries count }
    ensures same { proposals_in slots.new.entries ≡ proposals_in slots.old.entries }
    ensures kept { length slots.new.entries ≡ length slots.old.entries
        → slots.new.entries ≡ slots.old.entries }
    ensures spare { spare slots.old ≤ spare slots.new }
{
    let empty = slots.len() - count;
    if empty > count && empty > FEW_SLOTS {
        compact(slots);
    }
}

/// Whether the slot has a proposal that does not go back under a lease applied index.
fn stays(slot: &Option<Proposal>, lai: LeaseIndex) -> bool
    ensures { result ≡ stays lai slot.now }
{
    match slot {
        None => false,
        Some(proposal) => !proposal.goes_back(lai),
    }
}

/// Takes the slots out that are empty or whose proposals go back under a lease applied index.
pub(crate) fn keep_staying(slots: &mut Slots, lai: LeaseIndex)
    ensures entries { slots.new.entries ≡ filter (λ s. stays lai s.1) slots.old.entries }
    ensures distinct { IsDistinct same_id (keys_of slots.new.entries) }
    ensures spare { spare slots.old ≤ spare slots.new }
{
    slots.retain(
        |_id: &CmdId, slot: &mut Option<Proposal>| -> bool
            ensures { (result ≡ stays lai slot.old) × (slot.new ≡ slot.old) }
        { stays(slot, lai) },
    );
}
