//! A disk in memory that has no fault.
ghost use Rattle.std.specs.Prelude.{◌≡◌, ◌≤◌, ◌&&◌, [], true, Some, None, length, take, IsTrue, IsOk, IsOkAnd, OnOk, option_map, if◌then◌else◌};
ghost use Rattle.rp_disk.specs.Files.{Torn, MayBeCut, Same, Only, Changes, SeenStays, Reads, put};
ghost use Rattle.rp_disk.specs.Forms.{Keeps, sound_file};
ghost use Rattle.rp_disk.specs.Histories.{asked, wrote, cuts, synced, read_after, has_room};
ghost use Rattle.rp_disk.specs.Told.{told_after};

use crate::disk::Disk;
use crate::histories::{History, front_from};
use rp_base::NoMemory;
use rp_outside::Failed;
use std::alloc::Global;
use std::marker::Model;

/// A disk in memory that has no fault. It keeps its calls; one for which it has no room it answers
/// and forgets, and from then on it tells nothing of its file.
#[derive(Drop)]
pub struct SoundDisk {
    history: History,
    whole: bool,
}

impl Model for SoundDisk {
    ghost use Rattle.rp_disk.specs.Forms.{Sound};

    ghost Value = { Sound };

    ghost view = { λ d. record { tells = d.whole; past = d.history } };
}

impl SoundDisk {
    /// An empty file. It takes no memory.
    pub fn new(alloc: Global) -> SoundDisk
        ensures tells { result.tells ≡ true }
        ensures calls { result.past.calls ≡ [] }
    {
        SoundDisk {
            history: History::new(alloc),
            whole: true,
        }
    }

    /// Makes room for n more calls and n more written bytes.
    pub fn make_room(&mut self, n: usize) -> Result<(), NoMemory>
        ensures tells { self.new.tells ≡ self.old.tells }
        ensures calls { self.new.past.calls ≡ self.old.past.calls }
        ensures call_room { OnOk result (n ≤ self.new.past.call_room) }
        ensures byte_room { OnOk result (n ≤ self.new.past.byte_room) }
        ensures calls_kept { self.old.past.call_room ≤ self.new.past.call_room }
        ensures bytes_kept { self.old.past.byte_room ≤ self.new.past.byte_room }
    {
        self.history.make_room(n)
    }

    /// The bytes of the file, or `None` once it forgot some.
    pub fn bytes(&self) -> Option<&[u8]>
        ensures { option_map (λ s. s.now) result
            ≡ (if self.now.tells then Some (read_after self.now.past.calls) else None) }
    {
        if self.whole {
            Some(self.history.bytes())
        } else {
            None
        }
    }

    /// Whether it keeps a call that writes so many bytes; else it tells nothing from now on.
    fn keeps(&mut self, bytes: usize) -> bool
        ensures kept { result ≡ self.new.tells }
        ensures tells { self.new.tells ≡ (self.old.tells && has_room self.old.past bytes) }
        ensures past { self.new.past ≡ self.old.past }
    {
        self.whole = self.whole && self.history.has_room(bytes);
        self.whole
    }
}

impl Disk for SoundDisk {
    ghost file = { λ d. sound_file d };

    ghost faults = { λ _. 0 };

    ghost is_told = { λ d _. told_after d.tells d.past.calls };

    fn len(&mut self) -> Result<u64, Failed>
        ensures length { IsOkAnd result (λ n.
            IsTrue self.old.tells → n ≡ length (read_after self.old.past.calls)) }
        ensures kept { Keeps asked 0 self.old self.new }
        ensures seen { SeenStays (sound_file self.old) (sound_file self.new) }
        ensures crash { Changes Same (sound_file self.old) (sound_file self.new) }
    {
        let length = self.history.bytes().len() as u64;
        if self.keeps(0) {
            self.history.note_len(false);
        }
        Ok(length)
    }

    fn read_at(&mut self, at: u64, buf: &mut [u8]) -> Result<usize, Failed>
        ensures within { IsOkAnd result (λ n. n ≤ length buf.new) }
        ensures bytes { IsOkAnd result (λ n.
            IsTrue self.old.tells → Reads (read_after self.old.past.calls) at n buf.new) }
        ensures kept { Keeps asked 0 self.old self.new }
        ensures seen { SeenStays (sound_file self.old) (sound_file self.new) }
        ensures crash { Changes Same (sound_file self.old) (sound_file self.new) }
    {
        let given = front_from(self.history.bytes(), at, buf);
        if self.keeps(0) {
            self.history.note_read(at, buf.len(), false);
        }
        Ok(given)
    }

    fn write_at(&mut self, at: u64, bytes: &[u8]) -> Result<(), Failed>
        requires { IsTrue self.old.tells → at ≤ length (read_after self.old.past.calls) }
        ensures ok { IsOk result }
        ensures kept { Keeps (wrote at bytes.now true) (length bytes.now) self.old self.new }
        ensures written { OnOk result (IsTrue (sound_file self.new).tells
            → (sound_file self.new).seen ≡ put at bytes.now (sound_file self.old).seen) }
        ensures crash { Changes (Torn at (length bytes.now)) (sound_file self.old) (sound_file self.new) }
    {
        if self.keeps(bytes.len()) {
            self.history.write(at, bytes, false);
        }
        Ok(())
    }

    fn cut(&mut self, to: u64) -> Result<(), Failed>
        requires { IsTrue self.old.tells → to ≤ length (read_after self.old.past.calls) }
        ensures ok { IsOk result }
        ensures kept { Keeps (cuts to true) 0 self.old self.new }
        ensures cut { OnOk result (IsTrue (sound_file self.new).tells
            → (sound_file self.new).seen ≡ take to (sound_file self.old).seen) }
        ensures crash { Changes (MayBeCut to) (sound_file self.old) (sound_file self.new) }
    {
        if self.keeps(0) {
            self.history.cut(to, false);
        }
        Ok(())
    }

    fn sync(&mut self) -> Result<(), Failed>
        ensures ok { IsOk result }
        ensures kept { Keeps (synced true) 0 self.old self.new }
        ensures durable { OnOk result (IsTrue (sound_file self.new).tells
            → Only (sound_file self.old).seen (sound_file self.new).may_leave) }
        ensures seen { SeenStays (sound_file self.old) (sound_file self.new) }
        ensures crash { Changes Same (sound_file self.old) (sound_file self.new) }
    {
        if self.keeps(0) {
            self.history.note_sync(false);
        }
        Ok(())
    }
}
