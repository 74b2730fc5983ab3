//! Sources in memory, and over the system.
ghost use Rattle.std.specs.Prelude.{◌≡◌, ◌<◌, ◌≤◌, ◌++◌, Some, None, [], length, take, is_err, IfOk, IsOkAnd, OnErr, if◌then◌else◌};
ghost use Rattle.std.specs.Io.KnownBytes.{ReadConsumes};
ghost use Rattle.rp_outside.specs.Forms.{Reads, count_up, fails_next, after_call};

use crate::devices::{Failed, Source};
use crate::schedules::Schedule;
use crate::tapes::Tape;
use rp_base::{Bytes, Calls};
use std::io::Read;
use std::marker::Model;

/// A source in memory that has no fault. Contracts see what is left, and the most that a call
/// gives.
#[derive(Drop)]
pub struct SoundSource {
    tape: Tape,
    piece: usize,
}

impl Model for SoundSource {
    ghost use Rattle.std.specs.Prelude.{◌≤◌};
    ghost use Rattle.rp_outside.specs.Forms.{Feed};

    ghost Value = { Feed };

    ghost view = { λ s. record { left = s.tape; piece = s.piece } };

    ghost invariant = { λ s. 1 ≤ s.piece };
}

impl SoundSource {
    /// Gives these bytes, at most `piece` of them in each call. It takes no memory.
    pub fn new(bytes: Bytes, piece: usize) -> SoundSource
        requires { 1 ≤ piece }
        ensures { result ≡ record { left = bytes; piece = piece } }
    {
        SoundSource {
            tape: Tape::new(bytes),
            piece,
        }
    }

    /// The bytes still to come.
    pub fn left(&self) -> &[u8]
        ensures { result.now ≡ self.now.left }
    {
        self.tape.left()
    }
}

impl Source for SoundSource {
    ghost left = { λ s. Some s.left };

    ghost faults = { λ _. 0 };

    fn read(&mut self, buf: &mut [u8]) -> Result<usize, Failed>
        // It never fails.
        ensures reads { IsOkAnd result (λ n. Reads self.old buf.old n buf.new self.new) }
        ensures within { IfOk result (λ n. n ≤ length buf.new) }
        ensures comes { IfOk result (λ n. self.old.left ≡ take n buf.new ++ self.new.left) }
        ensures end { IfOk result (λ n. n ≡ 0 → 0 < length buf.new → self.new.left ≡ []) }
    {
        Ok(self.tape.give(self.piece, buf))
    }
}

/// A source in memory of which the calls whose numbers stand in a list fail. Contracts see what is
/// left, the most that a call gives, and the calls and faults so far.
#[derive(Drop)]
pub struct MemorySource {
    source: SoundSource,
    schedule: Schedule,
}

impl Model for MemorySource {
    ghost use Rattle.rp_outside.specs.Forms.{FailingFeed};

    ghost Value = { FailingFeed };

    ghost view = { λ s. record { feed = s.source; troubles = s.schedule } };
}

impl MemorySource {
    /// Gives these bytes, at most `piece` of them in each call. The calls whose numbers stand in
    /// `fails`, counted from 1, fail. It takes no memory.
    pub fn new(bytes: Bytes, piece: usize, fails: Calls) -> MemorySource
        requires { 1 ≤ piece }
        ensures feed { result.feed ≡ record { left = bytes; piece = piece } }
        ensures troubles { result.troubles ≡ record { fails = fails; calls = 0; faults = 0 } }
    {
        MemorySource {
            source: SoundSource::new(bytes, piece),
            schedule: Schedule::new(fails),
        }
    }

    /// The bytes still to come.
    pub fn left(&self) -> &[u8]
        ensures { result.now ≡ self.now.feed.left }
    {
        self.source.left()
    }

    /// How many faults it had, up to `u64::MAX`.
    pub fn faults(&self) -> u64
        ensures { result ≡ self.now.troubles.faults }
    {
        self.schedule.faults()
    }
}

impl Source for MemorySource {
    ghost left = { λ s. Some s.feed.left };

    ghost faults = { λ s. s.troubles.faults };

    fn read(&mut self, buf: &mut [u8]) -> Result<usize, Failed>
        ensures fails { is_err result ≡ fails_next self.old.troubles }
        ensures ok { IfOk result (λ n. Reads self.old.feed buf.old n buf.new self.new.feed) }
        ensures within { IfOk result (λ n. n ≤ length buf.new) }
        ensures comes { IfOk result
            (λ n. self.old.feed.left ≡ take n buf.new ++ self.new.feed.left) }
        ensures end { IfOk result (λ n. n ≡ 0 → 0 < length buf.new → self.new.feed.left ≡ []) }
        ensures err { OnErr result (self.new.feed ≡ self.old.feed) }
        ensures buffer { OnErr result (buf.new ≡ buf.old) }
        ensures troubles { self.new.troubles ≡ after_call self.old.troubles (is_err result) }
        ensures faults { self.old.troubles.faults ≤ self.new.troubles.faults }
    {
        if self.schedule.fails_next() {
            self.schedule.count_fault();
            return Err(Failed);
        }
        self.schedule.count_call();
        self.source.read(buf)
    }
}

/// A reader of the system as a source. As a source it tells nothing of its bytes. Each error is a
/// fault, and they are counted up to `u64::MAX`. Contracts see the reader and the count.
#[derive(Drop)]
pub struct StdSource<R> {
    reader: R,
    faults: u64,
}

impl<R> Model for StdSource<R> {
    ghost use Rattle.rp_outside.specs.Forms.{Adapted};

    ghost Value = { Adapted R };

    ghost view = { λ s. record { inner = s.reader; faults = s.faults } };
}

impl<R: Read> StdSource<R> {
    /// Reads from this reader. It takes no memory.
    pub fn new(reader: R) -> StdSource<R>
        ensures { result ≡ record { inner = reader; faults = 0 } }
    {
        StdSource { reader, faults: 0 }
    }

    /// How many faults it had, up to `u64::MAX`.
    pub fn faults(&self) -> u64
        ensures { result ≡ self.now.faults }
    {
        self.faults
    }
}

impl<R: Read> Source for StdSource<R> {
    ghost left = { λ _. None };

    ghost faults = { λ s. s.faults };

    fn read(&mut self, buf: &mut [u8]) -> Result<usize, Failed>
        // The bytes are the reader's, where it tells them.
        ensures bytes { ReadConsumes
            (R.remaining self.old.inner) (R.remaining self.new.inner) result buf.new }
        ensures within { IfOk result (λ n. n ≤ length buf.new) }
        ensures count { self.new.faults
            ≡ (if is_err result then count_up self.old.faults else self.old.faults) }
        ensures faults { self.old.faults ≤ self.new.faults }
    {
        match self.reader.read(buf) {
            Ok(n) => Ok(n),
            Err(_) => {
                self.faults = self.faults.saturating_add(1);
                Err(Failed)
            }
        }
    }
}
