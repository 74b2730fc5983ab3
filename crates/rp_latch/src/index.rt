//! Held spans in the order of their starts.
ghost use Rattle.std.specs.Prelude.{◌≡◌, ◌≤◌, ◌<◌, ◌+◌, cond, Bool, [], IsTrue, IsFalse, OnOk, length};
ghost use Rattle.std.specs.List.{AllWithin, list_any, count_by};
ghost use Rattle.rp_latch.specs.declared.index.Latch.{Latch};
ghost use Rattle.rp_latch.specs.Indexes.{InOrder, some_meet, latch_meets, is_latch, lesser, IsOldest};

use rp_base::{NoMemory, Span};
use rp_slots::Slotted;
use std::alloc::Global;
use std::marker::Model;

/// A span that is held, and the number of its hold.
#[derive(Clone, Copy, PartialEq, Eq)]
pub struct Latch {
    pub span: Span,
    pub number: u64,
}

/// Latches that do not meet, in the order of their starts. Contracts see the list, and apart from
/// it the spare room.
#[derive(Drop)]
pub struct Index {
    latches: Slotted<Latch>,
}

impl Model for Index {
    ghost use Rattle.rp_base.specs.Kept.{Kept};
    ghost use Rattle.rp_latch.specs.declared.index.Latch.{Latch};
    ghost use Rattle.rp_latch.specs.Indexes.{InOrder};

    ghost Value = { Kept Latch };

    ghost view = { λ l. l.latches };

    ghost invariant = { λ l. InOrder l.latches.list };
}

/// Of two numbers, each of which may be missing, the lesser.
pub fn lesser(first: Option<u64>, second: Option<u64>) -> Option<u64>
    ensures { result ≡ lesser first second }
{
    match first {
        None => second,
        Some(n) => match second {
            None => first,
            Some(m) => Some(n.min(m)),
        },
    }
}

/// How many latches start below the bound, by binary search.
fn place_of(latches: &Slotted<Latch>, bound: u128) -> usize
    requires { InOrder latches.now.list }
    ensures within { result ≤ length latches.now.list }
    ensures before { AllWithin (λ l. l.span.start < bound) latches.now.list 0 result }
    ensures after { AllWithin
        (λ l. bound ≤ l.span.start) latches.now.list result (length latches.now.list) }
{
    let mut low = 0;
    let mut high = latches.len();
    while low < high {
        let middle = low + (high - low) / 2;
        if latches.at(middle).span.start < bound {
            low = middle + 1;
        } else {
            high = middle;
        }
    }
    low
}

impl Index {
    /// No latch. It takes no memory.
    pub fn new(alloc: Global) -> Index
        ensures { result.list ≡ [] }
    {
        Index {
            latches: Slotted::new(alloc),
        }
    }

    /// Makes room for n latches more.
    pub fn make_room(&mut self, n: usize) -> Result<(), NoMemory>
        ensures list { self.new.list ≡ self.old.list }
        ensures room { OnOk result (n ≤ self.new.spare) }
        ensures kept { self.old.spare ≤ self.new.spare }
    {
        self.latches.make_room(n)
    }

    /// How many latches start below the bound.
    fn starts_below(&self, bound: u128) -> usize
        ensures within { result ≤ length self.now.list }
        ensures before { AllWithin (λ l. l.span.start < bound) self.now.list 0 result }
        ensures after { AllWithin
            (λ l. bound ≤ l.span.start) self.now.list result (length self.now.list) }
    {
        place_of(&self.latches, bound)
    }

    /// How many latches end at the bound or below: all that start below it, or all but the last of
    /// those.
    fn ends_by(&self, bound: u128) -> usize
        ensures within { result ≤ length self.now.list }
        ensures before { AllWithin (λ l. l.span.end ≤ bound) self.now.list 0 result }
        ensures after { AllWithin
            (λ l. bound < l.span.end) self.now.list result (length self.now.list) }
    {
        let at = self.starts_below(bound);
        if at == 0 {
            return 0;
        }
        if bound < self.latches.at(at - 1).span.end {
            return at - 1;
        }
        at
    }

    /// The least number of the latches that meet the span. Those stand side by side, and no others
    /// are gone through.
    pub fn oldest(&self, span: Span) -> Option<u64>
        ensures { IsOldest (latch_meets span) self.now.list result }
    {
        let from = self.ends_by(span.start);
        let to = self.starts_below(span.end);
        let mut oldest = None;
        for at in from..to {
            oldest = lesser(oldest, Some(self.latches.at(at).number));
        }
        oldest
    }

    /// Puts a latch in, without memory.
    pub fn put(&mut self, latch: Latch)
        requires room { 1 ≤ self.old.spare }
        requires clear { IsFalse (some_meet self.old.list latch.span) }
        ensures list { (p : Latch → Bool) → count_by p self.new.list
            ≡ count_by p self.old.list + cond (p latch) 1 0 }
        ensures spare { self.old.spare ≤ self.new.spare + 1 }
    {
        let at = self.starts_below(latch.span.end);
        self.latches.insert(at, latch);
    }

    /// Takes a latch out.
    pub fn remove(&mut self, latch: Latch)
        requires { IsTrue (list_any (is_latch latch) self.old.list) }
        ensures list { (p : Latch → Bool) → count_by p self.new.list + cond (p latch) 1 0
            ≡ count_by p self.old.list }
        ensures spare { self.old.spare ≤ self.new.spare }
    {
        let at = self.starts_below(latch.span.start);
        self.latches.remove(at);
    }

    /// Takes all latches out.
    pub fn clear(&mut self)
        ensures list { self.new.list ≡ [] }
        ensures spare { self.old.spare ≤ self.new.spare }
    {
        self.latches.truncate(0);
    }
}
