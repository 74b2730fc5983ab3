//! A buffer of sixteen places.
ghost use Rattle.std.specs.Prelude.{◌≡◌, ◌+◌, ◌<◌, ◌≤◌, [], ◌∷◌, ◌++◌, length, map, filter_map, slice_get, IsTrue};
ghost use Rattle.std.specs.List.{list_all};
ghost use Rattle.std.specs.Option.{option_to_list};
ghost use Rattle.rp_base.specs.Limits.{buffer_capacity};
ghost use Rattle.rp_bufcore.specs.Buffers.{start, is_drawn, draw_answer, after_draw, publish_answer, after_publish, published, given, taken, is_taken, after_collect};

use rp_base::{BUFFER_CAPACITY, Item, Items};
use std::error::Error;
use std::fmt;
use std::marker::Model;

/// How many places a buffer has.
const PLACES: u8 = BUFFER_CAPACITY as u8;

/// No place is left to draw, or the buffer is closed.
#[derive(Clone, Copy, Debug, PartialEq, Eq)]
pub struct Full {
    pub count: u8,
}

impl fmt::Display for Full {
    fn fmt<W: fmt::Write>(&self, f: &mut fmt::Formatter<W>) -> fmt::Result {
        write!(f, "all {} places are drawn", self.count)
    }
}

impl Error for Full {}

/// The place is not drawn, or it has an item already.
#[derive(Clone, Copy, Debug, PartialEq, Eq)]
pub struct NotDrawn {
    pub place: u8,
}

impl fmt::Display for NotDrawn {
    fn fmt<W: fmt::Write>(&self, f: &mut fmt::Formatter<W>) -> fmt::Result {
        write!(f, "place {} is not drawn", self.place)
    }
}

impl Error for NotDrawn {}

/// One of the places of a buffer.
#[derive(Clone, Copy, PartialEq, Eq)]
pub enum Slot {
    Free,
    Drawn,
    Published(Item),
    Taken,
}

/// A buffer of `BUFFER_CAPACITY` places, after CockroachDB's proposal buffer. A producer draws a
/// place and publishes its item there. A collect takes what is published, and the places are drawn
/// anew only once each drawn one was taken. Contracts see whether it is open, how many places are
/// drawn, and the places.
#[derive(Drop)]
pub struct PlainBuf {
    is_open: bool,
    drawn: u8,
    slots: [Slot; BUFFER_CAPACITY],
}

impl Model for PlainBuf {
    ghost use Rattle.std.specs.Prelude.{◌≤◌};
    ghost use Rattle.rp_base.specs.Limits.{buffer_capacity};
    ghost use Rattle.rp_bufcore.specs.Buffers.{Buffer};

    ghost Value = { Buffer };

    ghost view = { λ b. record { is_open = b.is_open; drawn = b.drawn; slots = b.slots } };

    ghost invariant = { λ b. b.drawn ≤ buffer_capacity };
}

impl PlainBuf {
    /// An open buffer whose places are free. It takes no memory.
    pub fn new() -> PlainBuf
        ensures { result ≡ start }
    {
        PlainBuf {
            is_open: true,
            drawn: 0,
            slots: [Slot::Free; BUFFER_CAPACITY],
        }
    }

    /// Draws the next place. `Full` exactly where the buffer is closed or all places are drawn.
    pub fn draw(&mut self) -> Result<u8, Full>
        ensures answer { result ≡ draw_answer self.old }
        ensures after { self.new ≡ after_draw self.old }
    {
        if !self.is_open || self.drawn == PLACES {
            return Err(Full { count: PLACES });
        }
        let place = self.drawn;
        self.slots[usize::from(place)] = Slot::Drawn;
        self.drawn += 1;
        Ok(place)
    }

    /// Publishes an item at a drawn place. `NotDrawn` exactly where the place is not drawn, or has
    /// an item already.
    pub fn publish(&mut self, place: u8, item: Item) -> Result<(), NotDrawn>
        ensures answer { result ≡ publish_answer self.old place }
        ensures after { self.new ≡ after_publish self.old place item }
    {
        if !is_drawn(&self.slots, place) {
            return Err(NotDrawn { place });
        }
        self.slots[usize::from(place)] = Slot::Published(item);
        Ok(())
    }

    /// Closes the buffer and appends the published items in the order of their places. Where each
    /// drawn place is taken then, the buffer is open again and its places are free.
    pub fn collect(&mut self, out: &mut Items)
        requires { buffer_capacity ≤ out.old.spare }
        ensures given { out.new.list ≡ out.old.list ++ given self.old }
        ensures after { self.new ≡ after_collect self.old }
        ensures most { length (given self.old) ≤ buffer_capacity }
        ensures room { out.old.spare ≤ out.new.spare + length (given self.old) }
    {
        take_published(&mut self.slots, out);
        self.is_open = false;
        if all_taken(&self.slots[..usize::from(self.drawn)]) {
            *self = PlainBuf::new();
        }
    }
}

fn is_drawn(slots: &[Slot], place: u8) -> bool
    ensures drawn { result ≡ is_drawn (slice_get slots.now place) }
    ensures inside { IsTrue result → place < length slots.now }
{
    matches!(slots.get(usize::from(place)), Some(Slot::Drawn))
}

/// Appends the published items in the order of their places, and takes them.
fn take_published(slots: &mut [Slot], out: &mut Items)
    requires { length slots.old ≤ out.old.spare }
    ensures given { out.new.list ≡ out.old.list ++ filter_map published slots.old }
    ensures slots { slots.new ≡ map taken slots.old }
    ensures most { length (filter_map published slots.old) ≤ length slots.old }
    ensures room { out.old.spare + length out.old.list ≤ out.new.spare + length out.new.list }
{
    for slot in slots.iter_mut() {
        take_one(slot, out);
    }
}

/// Appends the item that is published at a place, and takes it.
fn take_one(slot: &mut Slot, out: &mut Items)
    requires { 1 ≤ out.old.spare }
    ensures given { out.new.list ≡ out.old.list ++ option_to_list (published slot.old) }
    ensures slot { slot.new ≡ taken slot.old }
    ensures room { out.old.spare + length out.old.list ≤ out.new.spare + length out.new.list }
    ensures spare { out.old.spare ≤ out.new.spare + 1 }
{
    if let Slot::Published(item) = *slot {
        out.push(item);
        *slot = Slot::Taken;
    }
}

fn all_taken(slots: &[Slot]) -> bool
    ensures { result ≡ list_all is_taken slots.now }
{
    slots.iter().all(|slot| matches!(slot, Slot::Taken))
}
