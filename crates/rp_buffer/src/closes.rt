//! Closing a table.
ghost use Rattle.std.specs.Prelude.{◌≡◌, ◌+◌, ◌<◌, ◌≤◌, ◌++◌, IfOk, IsTrue, false, None, length, slice_index, slice_index_or, slice_set};
ghost use Rattle.std.specs.Slots.{slots_items, slots_filled, slots_len, IsFull};
ghost use Rattle.rp_buffer.specs.Hands.{all_parts};
ghost use Rattle.rp_buffer.specs.Passes.{known_by, IsPassOf};
ghost use Rattle.rp_buffer.specs.Lefts.{found_at, lying, PutIsTakenOrLeft};

use crate::lefts::{Left, LeftItem};
use crate::table::{BUFFERS, Pass, SlotTable};
use atomic_table::Closed;
use rp_base::{Item, NoMemory};
use std::alloc::Global;

/// Notes what lies at a place, where its word is 1.
fn note(left: &mut Left, place: usize, word: u64, item: Option<Item>)
    requires place { place < 640 }
    requires room { 1 ≤ left.old.spare }
    ensures found { left.new.list ≡ left.old.list ++ found_at place word item }
    ensures room { left.old.spare ≤ left.new.spare + 1 }
{
    if word == 1 {
        if let Some(item) = item {
            let buffer = (place / 16) as u8;
            left.push(LeftItem { buffer, item });
        }
    }
}

/// Takes what lies at a place out of a closed table.
fn empty(closed: &mut Closed<Option<Item>, Global>, place: usize, left: &mut Left)
    requires place { place < 640 }
    requires words { (slots_len closed.old.words ≡ 680) × IsFull closed.old.words }
    requires slots { slots_len closed.old.slots ≡ 640 }
    requires filled { IsTrue (slice_index_or (slots_filled closed.old.slots) place false) }
    requires room { 1 ≤ left.old.spare }
    ensures words { closed.new.words ≡ closed.old.words }
    ensures items { slots_items closed.new.slots ≡ slots_items closed.old.slots }
    ensures filled { slots_filled closed.new.slots
        ≡ slice_set (slots_filled closed.old.slots) place false }
    ensures slots { slots_len closed.new.slots ≡ slots_len closed.old.slots }
    ensures found { left.new.list ≡ left.old.list
        ++ found_at place (slice_index (slots_items closed.old.words) (40 + place))
        (slice_index_or (slots_items closed.old.slots) place None) }
    ensures room { left.old.spare ≤ left.new.spare + 1 }
{
    let word = closed.word(BUFFERS + place);
    let item = closed.take(place);
    note(left, place, word, item);
}

/// Takes all that lies in a closed table.
fn empty_all(mut closed: Closed<Option<Item>, Global>, left: &mut Left)
    requires words { (slots_len closed.words ≡ 680) × IsFull closed.words }
    requires slots { (slots_len closed.slots ≡ 640) × IsFull closed.slots }
    requires room { 640 ≤ left.old.spare }
    ensures { left.new.list ≡ left.old.list
        ++ lying 640 (slots_items closed.words) (slots_items closed.slots) }
{
    for place in 0..640 {
        empty(&mut closed, place, left);
    }
    closed.free();
}

impl SlotTable {
    /// What is left, once all other passes were joined to this one: of each item and buffer, as
    /// many were put as were taken and are left. `NoMemory` where there was none for the list.
    pub fn close(self, pass: Pass, alloc: Global) -> Result<Left, NoMemory>
        requires of { IsPassOf self pass }
        requires all { (known_by pass).parts ≡ all_parts }
        ensures { IfOk result (λ l. PutIsTakenOrLeft (known_by pass) l.list) }
    {
        let mut left = Left::new(alloc);
        left.make_room(640)?;
        let SlotTable { table } = self;
        let Pass { seat, rights: _ } = pass;
        empty_all(table.close_with(seat), &mut left);
        Ok(left)
    }
}
