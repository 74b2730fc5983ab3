//! Entries in segments: what goes in front goes a segment at a time, and what stays is not moved.
ghost use Rattle.std.specs.Prelude.{◌≡◌, ◌+◌, ◌-◌, ◌<◌, ◌≤◌, [], ◌∷◌, ◌++◌, length, take, drop, slice_get, slice_index_or, option_copied, IfOk, OnOk, OnErr};
ghost use Rattle.std.specs.VecDeque.{deque_len};
ghost use Rattle.rp_raftlog.specs.Pieces.{segment};

use crate::entries::{Entries, Entry};
use rp_base::{NoMemory, Seq};
use std::alloc::Global;
use std::collections::VecDeque;
use std::marker::Model;

/// How many entries a segment has room for.
const SEGMENT: usize = 64;

/// At most `SEGMENT` entries, and the memory for that many. Contracts see the list.
#[derive(Drop)]
struct Segment {
    entries: Vec<Entry>,
}

impl Model for Segment {
    ghost use Rattle.std.specs.Prelude.{List, ◌≤◌, vec_len, vec_capacity};
    ghost use Rattle.rp_raftlog.specs.declared.entries.Entry.{Entry};
    ghost use Rattle.rp_raftlog.specs.Pieces.{segment};

    ghost Value = { List Entry };

    ghost view = { λ s. s.entries.items };

    ghost invariant = { λ s. segment ≤ vec_capacity s.entries };
}

impl Segment {
    /// An empty segment.
    fn new(alloc: Global) -> Result<Segment, NoMemory>
        ensures { IfOk result (λ s. s ≡ []) }
    {
        let entries = Vec::with_capacity(alloc, SEGMENT)?;
        Ok(Segment { entries })
    }

    /// The entry at this place.
    fn at(&self, place: usize) -> &Entry
        requires { place < length self.now }
        ensures { result.now ≡ slice_index_or self.now place result.now }
    {
        &self.entries[place]
    }

    /// Puts an entry behind the last, without memory.
    fn push(&mut self, entry: Entry)
        requires { length self.old < segment }
        ensures { self.new ≡ self.old ++ entry ∷ [] }
    {
        self.entries.push_reserved(entry);
    }

    /// Keeps the first n entries.
    fn truncate(&mut self, n: usize)
        ensures { self.new ≡ take n self.old }
    {
        self.entries.truncate(n);
    }
}

/// Drops the first n segments.
fn drop_segments(segments: &mut VecDeque<Segment, Global>, n: usize)
    requires { n ≤ length segments.old.items }
    ensures items { segments.new.items ≡ drop n segments.old.items }
    ensures len { deque_len segments.new + n ≡ deque_len segments.old }
{
    segments.drain(..n);
}

/// Entries in segments, each full before the next one has an entry. Those before the first place
/// were cut away; they stay in memory until their segment goes. Contracts see the entries from
/// there on, and apart from them the spare room: how many can be put behind without memory.
#[derive(Drop)]
pub(crate) struct Segments {
    segments: VecDeque<Segment, Global>,
    first: usize,
    end: usize,
}

impl Model for Segments {
    ghost use Rattle.std.specs.Prelude.{◌-◌, ◌*◌, drop};
    ghost use Rattle.std.specs.VecDeque.{deque_len};
    ghost use Rattle.rp_raftlog.specs.Pieces.{Stored, AreSegments, joined, segment};

    ghost Value = { Stored };

    ghost view = { λ s. record {
      entries = drop s.first (joined s.segments.items);
      spare = segment * deque_len s.segments - s.end;
    } };

    ghost invariant = { λ s. AreSegments s.segments.items s.first s.end };
}

impl Segments {
    /// No entry. It takes no memory.
    pub fn new(alloc: Global) -> Segments
        ensures { result.entries ≡ [] }
    {
        Segments {
            segments: VecDeque::new(alloc),
            first: 0,
            end: 0,
        }
    }

    /// How many entries there are.
    pub fn len(&self) -> usize
        ensures { result ≡ length self.now.entries }
    {
        self.end - self.first
    }

    /// The entry at this index.
    pub fn at(&self, index: usize) -> &Entry
        requires { index < length self.now.entries }
        ensures { result.now ≡ slice_index_or self.now.entries index result.now }
    {
        let place = self.first + index;
        self.segments[place / SEGMENT].at(place % SEGMENT)
    }

    /// The entry at this index, if there is one.
    pub fn get(&self, index: usize) -> Option<&Entry>
        ensures { option_copied result ≡ slice_get self.now.entries index }
    {
        if index < self.len() {
            Some(self.at(index))
        } else {
            None
        }
    }

    /// Copies of at most so many entries from this index on.
    pub fn copies(&self, from: usize, most: usize) -> Result<Entries, NoMemory>
        ensures { IfOk result (λ copies. copies ≡ take most (drop from self.now.entries)) }
    {
        let count = most.min(self.len().saturating_sub(from));
        let mut copies = Vec::with_capacity(*self.segments.allocator(), count)?;
        for index in 0..count {
            copies.push(self.at(from + index).copy()?)?;
        }
        Ok(Seq::from_vec(copies))
    }

    /// How many entries can be put behind without memory.
    fn spare(&self) -> usize
        ensures { result ≡ self.now.spare }
    {
        self.segments.len() * SEGMENT - self.end
    }

    /// Adds an empty segment.
    fn add_segment(&mut self) -> Result<(), NoMemory>
        ensures entries { self.new.entries ≡ self.old.entries }
        ensures ok { OnOk result (self.new.spare ≡ self.old.spare + segment) }
        ensures err { OnErr result (self.new.spare ≡ self.old.spare) }
    {
        if self.segments.len() >= usize::MAX / SEGMENT {
            return Err(NoMemory);
        }
        let segment = Segment::new(*self.segments.allocator())?;
        self.segments.push_back(segment)?;
        Ok(())
    }

    /// Makes room for n entries more.
    pub fn make_room(&mut self, n: usize) -> Result<(), NoMemory>
        ensures entries { self.new.entries ≡ self.old.entries }
        ensures room { OnOk result (n ≤ self.new.spare) }
        ensures kept { self.old.spare ≤ self.new.spare }
    {
        let lacking = n.saturating_sub(self.spare());
        for _ in 0..lacking.div_ceil(SEGMENT) {
            self.add_segment()?;
        }
        Ok(())
    }

    /// Puts an entry behind the last, without memory.
    pub fn push(&mut self, entry: Entry)
        requires { 1 ≤ self.old.spare }
        ensures entries { self.new.entries ≡ self.old.entries ++ entry ∷ [] }
        ensures spare { self.new.spare + 1 ≡ self.old.spare }
    {
        self.segments[self.end / SEGMENT].push(entry);
        self.end += 1;
    }

    /// Takes the last entry away.
    fn pop(&mut self)
        requires { 0 < length self.old.entries }
        ensures entries { self.new.entries ≡ take (length self.old.entries - 1) self.old.entries }
        ensures spare { self.new.spare ≡ self.old.spare + 1 }
    {
        self.end -= 1;
        self.segments[self.end / SEGMENT].truncate(self.end % SEGMENT);
    }

    /// Keeps the first n entries.
    pub fn truncate(&mut self, n: usize)
        ensures entries { self.new.entries ≡ take n self.old.entries }
        ensures spare { self.old.spare + length self.old.entries ≡ self.new.spare + length self.new.entries }
    {
        while self.len() > n {
            self.pop();
        }
    }

    /// Takes the first n entries away: the segments before the first entry that stays go.
    pub fn drop_front(&mut self, n: usize)
        requires { n ≤ length self.old.entries }
        ensures entries { self.new.entries ≡ drop n self.old.entries }
        ensures spare { self.new.spare ≡ self.old.spare }
    {
        let first = self.first + n;
        let gone = first / SEGMENT;
        drop_segments(&mut self.segments, gone);
        self.first = first % SEGMENT;
        self.end -= gone * SEGMENT;
    }
}
