//! Sinks in memory, and over the system.
ghost use Rattle.std.specs.Prelude.{◌≡◌, ◌+◌, ◌<◌, ◌≤◌, ◌||◌, ◌++◌, Ok, Some, None, [], length, take, min, nat_lt, is_err, IfOk, OnOk, OnErr, option_map, if◌then◌else◌};
ghost use Rattle.std.specs.Io.KnownBytes.{WriteAppends};
ghost use Rattle.rp_outside.specs.Forms.{held_with, count_up, fails_next, after_call};

use crate::devices::{Failed, Sink};
use crate::schedules::Schedule;
use rp_base::{Calls, Grown, NoMemory};
use std::alloc::Global;
use std::io::Write;
use std::marker::Model;

/// A sink in memory that has no fault. Contracts see the bytes taken, and its room. Bytes for which
/// it has no room it takes and forgets, and from then on it tells nothing of what it holds.
#[derive(Drop)]
pub struct SoundSink {
    bytes: Grown<u8>,
    whole: bool,
    piece: usize,
}

impl Model for SoundSink {
    ghost use Rattle.std.specs.Prelude.{◌≤◌};
    ghost use Rattle.rp_outside.specs.Forms.{Store, told_if};

    ghost Value = { Store };

    ghost view = { λ s. record {
      held = told_if s.whole s.bytes.list;
      piece = s.piece;
      spare = s.bytes.spare;
    } };

    ghost invariant = { λ s. 1 ≤ s.piece };
}

impl SoundSink {
    /// Takes at most `piece` bytes in each call. It takes no memory.
    pub fn new(alloc: Global, piece: usize) -> SoundSink
        requires { 1 ≤ piece }
        ensures held { result.held ≡ Some [] }
        ensures piece { result.piece ≡ piece }
    {
        SoundSink {
            bytes: Grown::new(alloc),
            whole: true,
            piece,
        }
    }

    /// Makes room for n bytes more.
    pub fn make_room(&mut self, n: usize) -> Result<(), NoMemory>
        ensures held { self.new.held ≡ self.old.held }
        ensures piece { self.new.piece ≡ self.old.piece }
        ensures room { OnOk result (n ≤ self.new.spare) }
        ensures kept { self.old.spare ≤ self.new.spare }
    {
        self.bytes.make_room(n)
    }

    /// The bytes taken, or `None` once it forgot some.
    pub fn bytes(&self) -> Option<&[u8]>
        ensures { option_map (λ s. s.now) result ≡ self.now.held }
    {
        if self.whole {
            Some(self.bytes.as_slice())
        } else {
            None
        }
    }
}

impl Sink for SoundSink {
    ghost held = { λ s. s.held };

    ghost faults = { λ _. 0 };

    fn write(&mut self, piece: &[u8]) -> Result<usize, Failed>
        // It never fails.
        ensures count { result ≡ Ok (min self.old.piece (length piece.now)) }
        ensures some { IfOk result (λ n. 0 < length piece.now → 0 < n) }
        ensures held { self.new.held ≡ held_with self.old (take self.old.piece piece.now) }
        ensures room { self.old.spare ≤ self.new.spare + min self.old.piece (length piece.now) }
        ensures piece { self.new.piece ≡ self.old.piece }
    {
        let front = front_of(piece, self.piece);
        if self.whole && front.len() <= self.bytes.spare() {
            self.bytes.append_slice(front);
        } else {
            self.whole = false;
        }
        Ok(front.len())
    }
}

/// A sink in memory of which the calls whose numbers stand in a list fail, and those whose bytes
/// have no room. Contracts see the bytes taken, its room, and the calls and faults so far.
#[derive(Drop)]
pub struct MemorySink {
    bytes: Grown<u8>,
    piece: usize,
    schedule: Schedule,
}

impl Model for MemorySink {
    ghost use Rattle.std.specs.Prelude.{◌≤◌};
    ghost use Rattle.rp_outside.specs.Forms.{FailingStore};

    ghost Value = { FailingStore };

    ghost view = { λ s. record {
      held = s.bytes.list;
      piece = s.piece;
      spare = s.bytes.spare;
      troubles = s.schedule;
    } };

    ghost invariant = { λ s. 1 ≤ s.piece };
}

impl MemorySink {
    /// Takes at most `piece` bytes in each call. The calls whose numbers stand in `fails`, counted
    /// from 1, fail. It takes no memory.
    pub fn new(alloc: Global, piece: usize, fails: Calls) -> MemorySink
        requires { 1 ≤ piece }
        ensures held { result.held ≡ [] }
        ensures piece { result.piece ≡ piece }
        ensures troubles { result.troubles ≡ record { fails = fails; calls = 0; faults = 0 } }
    {
        MemorySink {
            bytes: Grown::new(alloc),
            piece,
            schedule: Schedule::new(fails),
        }
    }

    /// Makes room for n bytes more.
    pub fn make_room(&mut self, n: usize) -> Result<(), NoMemory>
        ensures held { self.new.held ≡ self.old.held }
        ensures piece { self.new.piece ≡ self.old.piece }
        ensures troubles { self.new.troubles ≡ self.old.troubles }
        ensures room { OnOk result (n ≤ self.new.spare) }
        ensures kept { self.old.spare ≤ self.new.spare }
    {
        self.bytes.make_room(n)
    }

    /// The bytes taken.
    pub fn bytes(&self) -> &[u8]
        ensures { result.now ≡ self.now.held }
    {
        self.bytes.as_slice()
    }

    /// How many faults it had, up to `u64::MAX`.
    pub fn faults(&self) -> u64
        ensures { result ≡ self.now.troubles.faults }
    {
        self.schedule.faults()
    }
}

impl Sink for MemorySink {
    ghost held = { λ s. Some s.held };

    ghost faults = { λ s. s.troubles.faults };

    fn write(&mut self, piece: &[u8]) -> Result<usize, Failed>
        // It fails by its number, and where the bytes that it would take have no room.
        ensures fails { is_err result ≡ (fails_next self.old.troubles
            || nat_lt self.old.spare (min self.old.piece (length piece.now))) }
        ensures count { IfOk result (λ n. n ≡ min self.old.piece (length piece.now)) }
        ensures some { IfOk result (λ n. 0 < length piece.now → 0 < n) }
        ensures ok { IfOk result (λ n. self.new.held ≡ self.old.held ++ take n piece.now) }
        ensures room { IfOk result (λ n. self.old.spare ≤ self.new.spare + n) }
        ensures err { OnErr result (self.new.held ≡ self.old.held) }
        ensures kept { OnErr result (self.new.spare ≡ self.old.spare) }
        ensures piece { self.new.piece ≡ self.old.piece }
        ensures troubles { self.new.troubles ≡ after_call self.old.troubles (is_err result) }
        ensures faults { self.old.troubles.faults ≤ self.new.troubles.faults }
    {
        let taken = front_of(piece, self.piece);
        if self.schedule.fails_next() || self.bytes.spare() < taken.len() {
            self.schedule.count_fault();
            return Err(Failed);
        }
        self.schedule.count_call();
        self.bytes.append_slice(taken);
        Ok(taken.len())
    }
}

/// A writer of the system as a sink. As a sink it tells nothing of its bytes. Each error, and each
/// write that takes nothing of a piece that is not empty, is a fault, and they are counted up to
/// `u64::MAX`. Contracts see the writer and the count.
#[derive(Drop)]
pub struct StdSink<W> {
    writer: W,
    faults: u64,
}

impl<W> Model for StdSink<W> {
    ghost use Rattle.rp_outside.specs.Forms.{Adapted};

    ghost Value = { Adapted W };

    ghost view = { λ s. record { inner = s.writer; faults = s.faults } };
}

impl<W: Write> StdSink<W> {
    /// Writes to this writer. It takes no memory.
    pub fn new(writer: W) -> StdSink<W>
        ensures { result ≡ record { inner = writer; faults = 0 } }
    {
        StdSink { writer, faults: 0 }
    }

    /// How many faults it had, up to `u64::MAX`.
    pub fn faults(&self) -> u64
        ensures { result ≡ self.now.faults }
    {
        self.faults
    }
}

impl<W: Write> Sink for StdSink<W> {
    ghost held = { λ _. None };

    ghost faults = { λ s. s.faults };

    fn write(&mut self, piece: &[u8]) -> Result<usize, Failed>
        // The bytes go to the writer, where it tells what it holds.
        ensures bytes { WriteAppends
            (W.contents self.old.inner) (W.contents self.new.inner) result piece.now }
        ensures within { IfOk result (λ n. n ≤ length piece.now) }
        ensures some { IfOk result (λ n. 0 < length piece.now → 0 < n) }
        ensures count { self.new.faults
            ≡ (if is_err result then count_up self.old.faults else self.old.faults) }
        ensures faults { self.old.faults ≤ self.new.faults }
    {
        match self.writer.write(piece) {
            Ok(n) if n > 0 || piece.is_empty() => Ok(n),
            _ => {
                self.faults = self.faults.saturating_add(1);
                Err(Failed)
            }
        }
    }
}

/// The front of a piece, at most so many bytes.
fn front_of(piece: &[u8], most: usize) -> &[u8]
    ensures { result.now ≡ take most piece.now }
{
    &piece[..most.min(piece.len())]
}
