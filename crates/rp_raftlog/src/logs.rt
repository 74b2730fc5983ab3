//! The log of a replica: a base, and the entries behind it.
ghost use Rattle.std.specs.Prelude.{◌≡◌, ◌+◌, ◌<◌, ◌≤◌, ◌^◌, [], ◌∷◌, length, option_copied, if◌then◌else◌, IfOk, OnOk, OnErr};
ghost use Rattle.rp_raftlog.specs.LogState.{accepted, accepted_to, appended, cut, entry_at, last_index, last_term, log_at, matches, suffix, term_at};

use crate::entries::{Entries, Entry};
use crate::overlay::{after_first, append_all, put_over};
use crate::segments::Segments;
use rp_base::NoMemory;
use std::alloc::Global;
use std::error::Error;
use std::fmt;
use std::marker::Model;

/// The log has no entry with the index and the term that entries are to follow (Raft 2014, section 5.3).
#[derive(Clone, Copy, Debug, PartialEq, Eq)]
pub struct Mismatch {
    pub index: u64,
}

impl fmt::Display for Mismatch {
    fn fmt<W: fmt::Write>(&self, f: &mut fmt::Formatter<W>) -> fmt::Result {
        write!(f, "the log does not match at index {}", self.index)
    }
}

impl Error for Mismatch {}

/// The log of a replica (Raft 2014, sections 5.3 and 7). Contracts see the base and the entries after
/// it, and apart from them the spare room: how many entries can be put behind without memory.
#[derive(Drop)]
pub struct Log {
    base: u64,
    base_term: u64,
    entries: Segments,
}

impl Model for Log {
    ghost use Rattle.std.specs.Prelude.{◌+◌, ◌<◌, ◌^◌, length};
    ghost use Rattle.rp_raftlog.specs.Held.{Held};

    ghost Value = { Held };

    ghost view = { λ l. record { log = record { base = l.base; base_term = l.base_term; entries = l.entries.entries }; spare = l.entries.spare } };

    ghost invariant = { λ l. l.base + length l.entries.entries < 2 ^ 64 };
}

impl Log {
    /// A log that holds nothing after this index, of this term. It takes no memory.
    pub fn at(alloc: Global, index: u64, term: u64) -> Log
        ensures { result.log ≡ log_at index term }
    {
        Log {
            base: index,
            base_term: term,
            entries: Segments::new(alloc),
        }
    }

    /// The index and the term of the base.
    pub fn base(&self) -> (u64, u64)
        ensures index { result.0 ≡ self.now.log.base }
        ensures term { result.1 ≡ self.now.log.base_term }
    {
        (self.base, self.base_term)
    }

    /// The index and the term of the last entry, or the base's.
    pub fn last(&self) -> (u64, u64)
        ensures index { result.0 ≡ last_index self.now.log }
        ensures term { result.1 ≡ last_term self.now.log }
    {
        let index = self.base + self.entries.len() as u64;
        match self.entries.get(self.entries.len().saturating_sub(1)) {
            Some(entry) => (index, entry.term),
            None => (index, self.base_term),
        }
    }

    /// The entry with this index: none exactly where the index is at or below the base or past the last.
    pub fn entry_at(&self, index: u64) -> Option<&Entry>
        ensures { option_copied result ≡ entry_at self.now.log index }
    {
        if index <= self.base {
            return None;
        }
        self.entries.get((index - self.base - 1) as usize)
    }

    /// The term at this index: none exactly where the index is below the base or past the last.
    pub fn term_at(&self, index: u64) -> Option<u64>
        ensures { result ≡ term_at self.now.log index }
    {
        if index == self.base {
            return Some(self.base_term);
        }
        self.entry_at(index).map(|entry| entry.term)
    }

    /// Makes room for n entries more.
    pub fn make_room(&mut self, n: usize) -> Result<(), NoMemory>
        ensures log { self.new.log ≡ self.old.log }
        ensures room { OnOk result (n ≤ self.new.spare) }
        ensures kept { self.old.spare ≤ self.new.spare }
    {
        self.entries.make_room(n)
    }

    /// Puts an entry behind the last, without memory.
    pub fn append(&mut self, entry: Entry)
        requires room { 1 ≤ self.old.spare }
        requires index { last_index self.old.log + 1 < 2 ^ 64 }
        ensures log { self.new.log ≡ appended self.old.log (entry ∷ []) }
        ensures spare { self.old.spare ≤ self.new.spare + 1 }
    {
        self.entries.push(entry);
    }

    /// Puts entries behind the last, without memory.
    pub fn append_all(&mut self, entries: Entries)
        requires room { length entries ≤ self.old.spare }
        requires index { last_index self.old.log + length entries < 2 ^ 64 }
        ensures log { self.new.log ≡ appended self.old.log entries }
        ensures spare { self.old.spare ≤ self.new.spare + length entries }
    {
        append_all(&mut self.entries, entries.into_vec());
    }

    /// Copies of the first `most` entries from the index `from` on.
    pub fn suffix(&self, from: u64, most: usize) -> Result<Entries, NoMemory>
        requires behind { self.now.log.base < from }
        requires within { from ≤ last_index self.now.log + 1 }
        ensures { IfOk result (λ entries. entries ≡ suffix self.now.log from most) }
    {
        self.entries.copies((from - self.base - 1) as usize, most)
    }

    /// Takes a leader's entries after an index and a term in, without memory. `Mismatch` exactly where
    /// the index passes the last, or is at or above the base and has another term here. Entries at or
    /// below the base are skipped; the first that differs in term cuts the log there. The answer is the
    /// index up to which the log is as the leader's.
    pub fn accept(
        &mut self,
        prev_index: u64,
        prev_term: u64,
        entries: Entries,
    ) -> Result<u64, Mismatch>
        requires room { length entries ≤ self.old.spare }
        requires index { prev_index + length entries < 2 ^ 64 }
        ensures answer { result ≡ (if matches self.old.log prev_index prev_term then Ok (accepted_to self.old.log prev_index entries) else Err (record { index = prev_index })) }
        ensures ok { OnOk result (self.new.log ≡ accepted self.old.log prev_index entries) }
        ensures err { OnErr result (self.new.log ≡ self.old.log) }
        ensures spare { self.old.spare ≤ self.new.spare + length entries }
        ensures refused { OnErr result (self.old.spare ≤ self.new.spare) }
    {
        if !self.matches(prev_index, prev_term) {
            return Err(Mismatch { index: prev_index });
        }
        let end = prev_index + entries.len() as u64;
        let place = prev_index.saturating_sub(self.base) as usize;
        let skipped = self.base.saturating_sub(prev_index) as usize;
        let news = after_first(skipped, entries);
        put_over(&mut self.entries, place, news);
        Ok(end.max(self.base))
    }

    /// Whether entries after this index and term may be taken in.
    pub fn matches(&self, prev_index: u64, prev_term: u64) -> bool
        ensures { result ≡ matches self.now.log prev_index prev_term }
    {
        prev_index < self.base || self.term_at(prev_index) == Some(prev_term)
    }

    /// Cuts the entries up to this index away, which becomes the base.
    pub fn cut_front(&mut self, to: u64)
        requires behind { self.old.log.base ≤ to }
        requires within { to ≤ last_index self.old.log }
        ensures log { self.new.log ≡ cut self.old.log to }
        ensures spare { self.old.spare ≤ self.new.spare }
    {
        let term = self.term_at(to).unwrap();
        self.entries.drop_front((to - self.base) as usize);
        self.base = to;
        self.base_term = term;
    }

    /// Empties the log: it holds nothing after this index, of this term.
    pub fn reset(&mut self, index: u64, term: u64)
        ensures log { self.new.log ≡ log_at index term }
        ensures spare { self.old.spare ≤ self.new.spare }
    {
        self.entries.drop_front(self.entries.len());
        self.base = index;
        self.base_term = term;
    }
}
