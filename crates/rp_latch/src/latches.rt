//! The latches of a range.
ghost use Rattle.std.specs.Prelude.{◌≡◌, ◌≢◌, ◌≤◌, ◌<◌, ◌+◌, cond, [], ◌∷◌, ◌++◌, Bool, true, false, ℕ, Some, Ok, slice_get, IsTrue, IsFalse, OnOk, OnErr, length};
ghost use Rattle.std.specs.List.{filter, list_any, count_by};
ghost use Rattle.rp_latch.specs.declared.holds.Hold.{Hold};
ghost use Rattle.rp_latch.specs.declared.index.Latch.{Latch};
ghost use Rattle.rp_base.specs.Spans.{any_meet};
ghost use Rattle.rp_latch.specs.Holds.{answer, conflict, is_of_other};
ghost use Rattle.rp_latch.specs.Indexes.{latch_meets, latch_meets_one, latch_at, passes, IsThere, IsClear, IsOldest};

use crate::ages::{Numbered, place_of};
use crate::holds::{Held, Hold, held_by};
use crate::index::{Index, Latch, lesser};
use crate::tags::{Tag, Tags};
use rp_base::{CmdId, NoMemory, Span, Spans};
use std::alloc::Global;
use std::collections::VecDeque;
use std::marker::Model;

/// The latches of a replica. Contracts see the holds, the oldest first, and apart from them the
/// spare room: how many holds can be added without memory. No two holds meet, so the first spans of
/// all holds stand in order, and so do the second ones; the ids stand in order too. So no call goes
/// through all holds.
#[derive(Drop)]
pub struct Latches {
    holds: VecDeque<Numbered, Global>,
    firsts: Index,
    seconds: Index,
    tags: Tags,
    next: u64,
}

impl Model for Latches {
    ghost use Rattle.std.specs.Prelude.{◌-◌, ◌^◌, ◌<◌, min, map};
    ghost use Rattle.std.specs.List.{All, AllPairs};
    ghost use Rattle.std.specs.VecDeque.{deque_len, deque_capacity};
    ghost use Rattle.rp_base.specs.Kept.{Kept};
    ghost use Rattle.rp_latch.specs.declared.holds.Hold.{Hold};
    ghost use Rattle.rp_latch.specs.Indexes.{hold_of, IsOlder, AreApart, first_latch, second_latch, tag_of, Lists};

    ghost Value = { Kept Hold };

    ghost view = { λ l. record {
      list = map hold_of l.holds.items;
      spare = min (deque_capacity l.holds - deque_len l.holds)
          (min l.firsts.spare (min l.seconds.spare (min l.tags.spare (2 ^ 64 - 1 - l.next))));
    } };

    ghost invariant = { λ l. record {
      apart : AllPairs AreApart l.holds.items;
      older : AllPairs IsOlder l.holds.items;
      below : All (λ h. h.number < l.next) l.holds.items;
      firsts : Lists first_latch l.holds.items l.firsts.list;
      seconds : Lists second_latch l.holds.items l.seconds.list;
      tags : Lists tag_of l.holds.items l.tags.list;
    } };
}

/// The least number of the holds that meet the span.
fn oldest_at(firsts: &Index, seconds: &Index, span: Span) -> Option<u64>
    ensures { IsOldest (latch_meets span) (firsts.now.list ++ seconds.now.list) result }
{
    let first = firsts.oldest(span);
    let second = seconds.oldest(span);
    lesser(first, second)
}

/// The least number of the holds that meet one of the spans asked.
fn oldest(firsts: &Index, seconds: &Index, asked: Spans) -> Option<u64>
    ensures { IsOldest (latch_meets_one asked) (firsts.now.list ++ seconds.now.list) result }
{
    let first = oldest_at(firsts, seconds, asked.first);
    match asked.second {
        None => first,
        Some(span) => {
            let second = oldest_at(firsts, seconds, span);
            lesser(first, second)
        }
    }
}

/// Puts the latch of a second span in, where there is one.
fn put_second(index: &mut Index, number: u64, second: Option<Span>)
    requires room { 1 ≤ index.old.spare }
    requires clear { IsClear index.old.list second }
    ensures list { (p : Latch → Bool) → count_by p index.new.list
        ≡ count_by p index.old.list + cond (passes p (latch_at number second)) 1 0 }
    ensures spare { index.old.spare ≤ index.new.spare + 1 }
{
    if let Some(span) = second {
        index.put(Latch { span, number });
    }
}

/// Takes the latch of a second span out, where there is one.
fn remove_second(index: &mut Index, number: u64, second: Option<Span>)
    requires { IsThere index.old.list (latch_at number second) }
    ensures list { (p : Latch → Bool)
        → count_by p index.new.list + cond (passes p (latch_at number second)) 1 0
        ≡ count_by p index.old.list }
    ensures spare { index.old.spare ≤ index.new.spare }
{
    if let Some(span) = second {
        index.remove(Latch { span, number });
    }
}

impl Latches {
    /// Nothing is held. It takes no memory.
    pub fn new(alloc: Global) -> Latches
        ensures { result.list ≡ [] }
    {
        Latches {
            holds: VecDeque::new(alloc),
            firsts: Index::new(alloc),
            seconds: Index::new(alloc),
            tags: Tags::new(alloc),
            next: 0,
        }
    }

    /// Makes room for n holds more. It is refused too where n more would pass 2^64 - 1 holds in the
    /// life of these latches, each of which has a number of its own.
    pub fn make_room(&mut self, n: usize) -> Result<(), NoMemory>
        ensures list { self.new.list ≡ self.old.list }
        ensures room { OnOk result (n ≤ self.new.spare) }
        ensures kept { self.old.spare ≤ self.new.spare }
    {
        if u64::MAX - self.next < n as u64 {
            return Err(NoMemory);
        }
        self.firsts.make_room(n)?;
        self.seconds.make_room(n)?;
        self.tags.make_room(n)?;
        self.holds.reserve(n)?;
        Ok(())
    }

    /// The oldest hold that meets the spans asked, and of its spans the first that does, by binary
    /// search.
    pub fn conflict(&self, asked: Spans) -> Option<Held>
        ensures { result ≡ conflict self.now.list asked }
    {
        match oldest(&self.firsts, &self.seconds, asked) {
            None => None,
            Some(number) => {
                let at = place_of(&self.holds, number);
                let numbered = self.holds[at];
                held_by(numbered.hold, asked)
            }
        }
    }

    /// Holds the spans for the attempt, without memory and without a search, where no held span
    /// meets one of these.
    pub fn hold_clear(&mut self, id: CmdId, spans: Spans)
        requires room { 1 ≤ self.old.spare }
        requires clear { answer self.old.list spans ≡ Ok tt }
        ensures list { self.new.list ≡ self.old.list ++ record { id = id; spans = spans } ∷ [] }
        ensures spare { self.old.spare ≤ self.new.spare + 1 }
    {
        let number = self.next;
        let span = spans.first;
        self.firsts.put(Latch { span, number });
        put_second(&mut self.seconds, number, spans.second);
        self.tags.put(Tag { id, number });
        let hold = Hold { id, spans };
        self.holds.push_back_reserved(Numbered { number, hold });
        self.next += 1;
    }

    /// Holds the spans for the attempt, without memory. `Held` exactly where a held span meets one
    /// of these, whoever holds it; then nothing changes.
    pub fn hold(&mut self, id: CmdId, spans: Spans) -> Result<(), Held>
        requires { 1 ≤ self.old.spare }
        ensures answer { result ≡ answer self.old.list spans }
        ensures ok { OnOk result (self.new.list
            ≡ self.old.list ++ record { id = id; spans = spans } ∷ []) }
        ensures err { OnErr result (self.new.list ≡ self.old.list) }
        ensures spare { self.old.spare ≤ self.new.spare + 1 }
        ensures refused { OnErr result (self.old.spare ≤ self.new.spare) }
    {
        match self.conflict(spans) {
            Some(held) => Err(held),
            None => {
                self.hold_clear(id, spans);
                Ok(())
            }
        }
    }

    /// Frees one hold of the attempt, where it has one.
    fn free_one(&mut self, id: CmdId) -> bool
        ensures kept { filter (is_of_other id) self.new.list
            ≡ filter (is_of_other id) self.old.list }
        ensures none { result ≡ false → self.new.list ≡ filter (is_of_other id) self.old.list }
        ensures fewer { result ≡ true → length self.new.list < length self.old.list }
        ensures spare { self.old.spare ≤ self.new.spare }
    {
        match self.tags.take(id) {
            None => false,
            Some(tag) => {
                let number = tag.number;
                let at = place_of(&self.holds, number);
                let numbered = self.holds.remove(at).unwrap();
                let span = numbered.hold.spans.first;
                self.firsts.remove(Latch { span, number });
                remove_second(&mut self.seconds, number, numbered.hold.spans.second);
                true
            }
        }
    }

    /// Frees what the attempt holds, which may be nothing. Its holds are found by binary search.
    pub fn free(&mut self, id: CmdId)
        ensures list { self.new.list ≡ filter (is_of_other id) self.old.list }
        ensures spare { self.old.spare ≤ self.new.spare }
    {
        while self.free_one(id) {}
    }

    /// Forgets all holds. It takes no memory, and the room stays.
    pub fn clear(&mut self)
        ensures list { self.new.list ≡ [] }
        ensures spare { self.old.spare ≤ self.new.spare }
    {
        self.holds.clear();
        self.firsts.clear();
        self.seconds.clear();
        self.tags.clear();
    }

    /// No two holds meet, so neither do those of two attempts. A law, which no program calls.
    pub fn holds_are_apart(&self)
        ensures places { (i : ℕ) (j : ℕ) (x : Hold) (y : Hold) → i ≢ j
            → slice_get self.now.list i ≡ Some x → slice_get self.now.list j ≡ Some y
            → IsFalse (any_meet x.spans y.spans) }
        ensures ids { (i : ℕ) (j : ℕ) (x : Hold) (y : Hold) → x.id ≢ y.id
            → slice_get self.now.list i ≡ Some x → slice_get self.now.list j ≡ Some y
            → IsFalse (any_meet x.spans y.spans) }
    {
        let _ = &self.holds;
    }
}
