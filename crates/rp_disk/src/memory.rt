//! A disk in memory of which some calls fail.
ghost use Rattle.std.specs.Prelude.{◌≡◌, ◌≤◌, [], true, not, length, take, is_ok, IsErr, IsTrue, IfOk, OnOk, OnErr};
ghost use Rattle.rp_outside.specs.Devices.{Rose};
ghost use Rattle.rp_outside.specs.Forms.{after_call};
ghost use Rattle.rp_disk.specs.Files.{Torn, MayBeCut, Same, Only, Changes, SeenStays, Reads, put};
ghost use Rattle.rp_disk.specs.Forms.{Counts, failing_file};
ghost use Rattle.rp_disk.specs.Histories.{asked, wrote, cuts, synced, read_after};
ghost use Rattle.rp_disk.specs.Told.{told_after};

use crate::calls::DiskCall;
use crate::disk::Disk;
use crate::histories::{History, front_from};
use rp_base::{Calls, NoMemory};
use rp_outside::{Failed, Schedule};
use std::alloc::Global;
use std::marker::Model;

/// A disk in memory that keeps a record of its calls. The calls whose numbers stand in a list fail,
/// and those for which it has no room.
#[derive(Drop)]
pub struct MemoryDisk {
    history: History,
    schedule: Schedule,
}

impl Model for MemoryDisk {
    ghost use Rattle.rp_disk.specs.Forms.{Failing};

    ghost Value = { Failing };

    ghost view = { λ d. record { past = d.history; troubles = d.schedule } };
}

impl MemoryDisk {
    /// An empty file. The calls whose numbers stand in `fails`, counted from 1, fail. It takes no
    /// memory.
    pub fn new(alloc: Global, fails: Calls) -> MemoryDisk
        ensures calls { result.past.calls ≡ [] }
        ensures troubles { result.troubles ≡ record { fails = fails; calls = 0; faults = 0 } }
    {
        MemoryDisk {
            history: History::new(alloc),
            schedule: Schedule::new(fails),
        }
    }

    /// Makes room for n more calls and n more written bytes.
    pub fn make_room(&mut self, n: usize) -> Result<(), NoMemory>
        ensures calls { self.new.past.calls ≡ self.old.past.calls }
        ensures troubles { self.new.troubles ≡ self.old.troubles }
        ensures call_room { OnOk result (n ≤ self.new.past.call_room) }
        ensures byte_room { OnOk result (n ≤ self.new.past.byte_room) }
        ensures calls_kept { self.old.past.call_room ≤ self.new.past.call_room }
        ensures bytes_kept { self.old.past.byte_room ≤ self.new.past.byte_room }
    {
        self.history.make_room(n)
    }

    /// The bytes of the file.
    pub fn bytes(&self) -> &[u8]
        ensures { result.now ≡ read_after self.now.past.calls }
    {
        self.history.bytes()
    }

    /// The calls so far, the first one first, but for those for which it had no room.
    pub fn calls(&self) -> &[DiskCall] {
        self.history.calls()
    }

    /// How many faults it had, up to `u64::MAX`.
    pub fn faults(&self) -> u64
        ensures { result ≡ self.now.troubles.faults }
    {
        self.schedule.faults()
    }

    /// The answer of a call for which it has no room.
    fn refuse<T>(&mut self) -> Result<T, Failed>
        ensures failed { IsErr result }
        ensures past { self.new.past ≡ self.old.past }
        ensures troubles { self.new.troubles ≡ after_call self.old.troubles true }
        ensures faults { self.old.troubles.faults ≤ self.new.troubles.faults }
    {
        self.schedule.count_fault();
        Err(Failed)
    }
}

impl Disk for MemoryDisk {
    ghost file = { λ d. failing_file d };

    ghost faults = { λ d. d.troubles.faults };

    ghost is_told = { λ d _. told_after true d.past.calls };

    fn len(&mut self) -> Result<u64, Failed>
        ensures length { IfOk result (λ n. n ≡ length (read_after self.old.past.calls)) }
        ensures counted { Counts (λ _. asked) 0 (is_ok result) self.old self.new }
        ensures seen { SeenStays (failing_file self.old) (failing_file self.new) }
        ensures crash { Changes Same (failing_file self.old) (failing_file self.new) }
        ensures faults { self.old.troubles.faults ≤ self.new.troubles.faults }
        ensures calm { OnOk result (self.new.troubles.faults ≡ self.old.troubles.faults) }
        ensures cause { OnErr result (Rose self.old.troubles.faults self.new.troubles.faults) }
    {
        if !self.history.has_room(0) {
            return self.refuse();
        }
        let failed = self.schedule.next_fails();
        self.history.note_len(failed);
        answer(failed, self.history.bytes().len() as u64)
    }

    fn read_at(&mut self, at: u64, buf: &mut [u8]) -> Result<usize, Failed>
        ensures within { IfOk result (λ n. n ≤ length buf.new) }
        ensures bytes { IfOk result (λ n. Reads (read_after self.old.past.calls) at n buf.new) }
        ensures counted { Counts (λ _. asked) 0 (is_ok result) self.old self.new }
        ensures seen { SeenStays (failing_file self.old) (failing_file self.new) }
        ensures crash { Changes Same (failing_file self.old) (failing_file self.new) }
        ensures faults { self.old.troubles.faults ≤ self.new.troubles.faults }
        ensures calm { OnOk result (self.new.troubles.faults ≡ self.old.troubles.faults) }
        ensures cause { OnErr result (Rose self.old.troubles.faults self.new.troubles.faults) }
    {
        if !self.history.has_room(0) {
            return self.refuse();
        }
        let failed = self.schedule.next_fails();
        self.history.note_read(at, buf.len(), failed);
        if failed {
            return Err(Failed);
        }
        Ok(front_from(self.history.bytes(), at, buf))
    }

    fn write_at(&mut self, at: u64, bytes: &[u8]) -> Result<(), Failed>
        requires { at ≤ length (read_after self.old.past.calls) }
        ensures counted { Counts (wrote at bytes.now) (length bytes.now) (is_ok result)
            self.old self.new }
        ensures written { OnOk result (IsTrue (failing_file self.new).tells
            → (failing_file self.new).seen ≡ put at bytes.now (failing_file self.old).seen) }
        ensures failed { OnErr result ((failing_file self.new).seen ≡ (failing_file self.old).seen) }
        ensures crash { Changes (Torn at (length bytes.now)) (failing_file self.old) (failing_file self.new) }
        ensures faults { self.old.troubles.faults ≤ self.new.troubles.faults }
        ensures calm { OnOk result (self.new.troubles.faults ≡ self.old.troubles.faults) }
        ensures cause { OnErr result (Rose self.old.troubles.faults self.new.troubles.faults) }
    {
        if !self.history.has_room(bytes.len()) {
            return self.refuse();
        }
        let failed = self.schedule.next_fails();
        self.history.write(at, bytes, failed);
        answer(failed, ())
    }

    fn cut(&mut self, to: u64) -> Result<(), Failed>
        requires { to ≤ length (read_after self.old.past.calls) }
        ensures counted { Counts (cuts to) 0 (is_ok result) self.old self.new }
        ensures cut { OnOk result (IsTrue (failing_file self.new).tells
            → (failing_file self.new).seen ≡ take to (failing_file self.old).seen) }
        ensures failed { OnErr result ((failing_file self.new).seen ≡ (failing_file self.old).seen) }
        ensures crash { Changes (MayBeCut to) (failing_file self.old) (failing_file self.new) }
        ensures faults { self.old.troubles.faults ≤ self.new.troubles.faults }
        ensures calm { OnOk result (self.new.troubles.faults ≡ self.old.troubles.faults) }
        ensures cause { OnErr result (Rose self.old.troubles.faults self.new.troubles.faults) }
    {
        if !self.history.has_room(0) {
            return self.refuse();
        }
        let failed = self.schedule.next_fails();
        self.history.cut(to, failed);
        answer(failed, ())
    }

    fn sync(&mut self) -> Result<(), Failed>
        ensures counted { Counts synced 0 (is_ok result) self.old self.new }
        ensures durable { OnOk result (IsTrue (failing_file self.new).tells
            → Only (failing_file self.old).seen (failing_file self.new).may_leave) }
        ensures seen { SeenStays (failing_file self.old) (failing_file self.new) }
        ensures crash { Changes Same (failing_file self.old) (failing_file self.new) }
        ensures faults { self.old.troubles.faults ≤ self.new.troubles.faults }
        ensures calm { OnOk result (self.new.troubles.faults ≡ self.old.troubles.faults) }
        ensures cause { OnErr result (Rose self.old.troubles.faults self.new.troubles.faults) }
    {
        if !self.history.has_room(0) {
            return self.refuse();
        }
        let failed = self.schedule.next_fails();
        self.history.note_sync(failed);
        answer(failed, ())
    }
}

/// The answer of a call.
fn answer<T: Drop>(failed: bool, value: T) -> Result<T, Failed>
    ensures done { is_ok result ≡ not failed }
    ensures value { IfOk result (λ v. v ≡ value) }
{
    if failed { Err(Failed) } else { Ok(value) }
}
