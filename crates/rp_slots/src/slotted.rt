//! A list whose items keep their slots.
ghost use Rattle.std.specs.Prelude.{◌≡◌, ◌+◌, ◌≤◌, ◌<◌, [], ◌∷◌, ◌++◌, length, take, drop, set, slice_index_or, OnOk, IfOk};
ghost use Rattle.std.specs.List.{insert, remove};

use rp_base::NoMemory;
use std::alloc::Global;
use std::collections::VecDeque;
use std::marker::Model;

/// A list into which items are put anywhere. An item stays in the slot that it was put into; the
/// numbers of the slots stand in the order of the items, and behind them those of the free slots.
/// So an edit moves numbers of four bytes, on the shorter side, and no items. Contracts see the
/// list, and apart from it the spare room: how many items it takes without memory.
#[derive(Drop)]
pub struct Slotted<T> {
    items: Vec<T>,
    slots: VecDeque<u32, Global>,
    len: usize,
}

impl<T> Model for Slotted<T> {
    ghost use Rattle.std.specs.Prelude.{◌-◌, ◌≤◌, ◌≡◌, ◌^◌, min, take, length, vec_len, vec_capacity};
    ghost use Rattle.std.specs.VecDeque.{deque_capacity};
    ghost use Rattle.rp_base.specs.Kept.{Kept, kept_code};
    ghost use Rattle.rp_slots.specs.Slots.{shown, AreSlots};

    ghost Value = { Kept T };

    ghost coded = { kept_code T.code };

    ghost view = { λ s. record {
      list = shown s.items.items (take s.len s.slots.items);
      spare = min (vec_capacity s.items) (min (deque_capacity s.slots) (2 ^ 32 - 1)) - s.len;
    } };

    ghost invariant = { λ s. record {
      live : s.len ≤ length s.items.items;
      few : length s.items.items ≤ 2 ^ 32 - 1;
      whole : length s.slots.items ≡ length s.items.items;
      slots : AreSlots (length s.items.items) s.slots.items;
    } };
}

impl<T> Slotted<T> {
    /// The empty list. It takes no memory.
    pub fn new(alloc: Global) -> Slotted<T>
        ensures { result.list ≡ [] }
    {
        Slotted {
            items: Vec::new(alloc),
            slots: VecDeque::new(alloc),
            len: 0,
        }
    }

    /// How many items there are.
    pub fn len(&self) -> usize
        ensures { result ≡ length self.now.list }
    {
        self.len
    }

    /// Where the items are kept.
    pub fn alloc(&self) -> Global {
        *self.items.allocator()
    }

    /// The item at this place.
    pub fn at(&self, place: usize) -> &T
        requires { place < length self.now.list }
        ensures { result.now ≡ slice_index_or self.now.list place result.now }
    {
        let slot = self.slots[place];
        &self.items[slot as usize]
    }

    /// Makes room for n items more. It is refused too where they would be more than 2^32 - 1.
    pub fn make_room(&mut self, n: usize) -> Result<(), NoMemory>
        ensures list { self.new.list ≡ self.old.list }
        ensures room { OnOk result (n ≤ self.new.spare) }
        ensures kept { self.old.spare ≤ self.new.spare }
    {
        if u32::MAX as usize - self.len < n {
            return Err(NoMemory);
        }
        let free = self.items.len() - self.len;
        let more = n.saturating_sub(free);
        self.items.reserve(more)?;
        self.slots.reserve(more)?;
        Ok(())
    }
}

impl<T: Copy> Slotted<T> {
    /// Puts an item in at this place, without memory.
    pub fn insert(&mut self, place: usize, item: T)
        requires place { place ≤ length self.old.list }
        requires room { 1 ≤ self.old.spare }
        ensures list { self.new.list ≡ insert self.old.list place item }
        ensures spare { self.old.spare ≤ self.new.spare + 1 }
    {
        if self.len == self.items.len() {
            let slot = self.len as u32;
            self.items.push_reserved(item);
            self.slots.insert(place, slot).unwrap();
            self.len += 1;
            return;
        }
        let slot = self.slots.pop_back().unwrap();
        self.items[slot as usize] = item;
        self.slots.insert(place, slot).unwrap();
        self.len += 1;
    }

    /// Puts an item at the end, without memory.
    pub fn push(&mut self, item: T)
        requires { 1 ≤ self.old.spare }
        ensures list { self.new.list ≡ self.old.list ++ item ∷ [] }
        ensures spare { self.old.spare ≤ self.new.spare + 1 }
    {
        let place = self.len();
        self.insert(place, item);
    }

    /// Puts an item in place of the one there.
    pub fn replace(&mut self, place: usize, item: T)
        requires { place < length self.old.list }
        ensures list { self.new.list ≡ set self.old.list place item }
        ensures spare { self.new.spare ≡ self.old.spare }
    {
        let slot = self.slots[place];
        self.items[slot as usize] = item;
    }

    /// Takes the item at this place out.
    pub fn remove(&mut self, place: usize)
        requires { place < length self.old.list }
        ensures list { self.new.list ≡ remove self.old.list place }
        ensures spare { self.old.spare ≤ self.new.spare }
    {
        let slot = self.slots.remove(place).unwrap();
        self.slots.push_back_reserved(slot);
        self.len -= 1;
    }

    /// Keeps the first n items.
    pub fn truncate(&mut self, n: usize)
        ensures list { self.new.list ≡ take n self.old.list }
        ensures spare { self.old.spare ≤ self.new.spare }
    {
        self.len = n.min(self.len);
    }

    /// A copy of the items from this place on.
    pub fn copy_from(&self, place: usize) -> Result<Slotted<T>, NoMemory>
        requires { place ≤ length self.now.list }
        ensures { IfOk result (λ copy. copy.list ≡ drop place self.now.list) }
    {
        let mut copy = Slotted::new(self.alloc());
        let len = self.len();
        copy.make_room(len - place)?;
        push_run(self, place, len, &mut copy);
        Ok(copy)
    }
}

/// Puts the items from the one place to the other at the end of a copy, without memory.
fn push_run<T: Copy>(list: &Slotted<T>, from: usize, to: usize, copy: &mut Slotted<T>)
    requires places { (from ≤ to) × (to ≤ length list.now.list) }
    requires room { to ≤ copy.old.spare + from }
    requires empty { copy.old.list ≡ [] }
    ensures { copy.new.list ≡ drop from (take to list.now.list) }
{
    for place in from..to {
        copy.push(*list.at(place));
    }
}
