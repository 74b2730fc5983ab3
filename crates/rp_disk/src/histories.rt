//! A file in memory that keeps a record of its calls.
ghost use Rattle.std.specs.Prelude.{◌≡◌, ◌+◌, ◌<◌, ◌≤◌, ◌&&◌, ◌∷◌, [], length, take, drop, min, nat_le, not, OnOk, OnErr, vec_len, vec_capacity};
ghost use Rattle.rp_disk.specs.Files.{Reads, put};
ghost use Rattle.rp_disk.specs.Histories.{asked, wrote, cuts, synced, read_after};

use crate::calls::{CallKind, DiskCall};
use rp_base::{Grown, NoMemory};
use std::alloc::Global;
use std::marker::Model;

/// A file in memory that keeps a record of its calls. Contracts see the calls, which say what the
/// file holds, and how much can be kept without memory.
#[derive(Drop)]
pub(crate) struct History {
    bytes: Vec<u8>,
    calls: Grown<DiskCall>,
    written: Grown<u8>,
}

impl Model for History {
    ghost use Rattle.std.specs.Prelude.{◌≡◌, ◌-◌, min, reverse, vec_len, vec_capacity};
    ghost use Rattle.rp_disk.specs.Histories.{Past, read_after, told_calls};

    ghost Value = { Past };

    ghost view = { λ h. record {
      calls = told_calls (reverse h.calls.list) (reverse h.written.list);
      call_room = h.calls.spare;
      byte_room = min h.written.spare (vec_capacity h.bytes - vec_len h.bytes);
    } };

    ghost invariant = { λ h. h.bytes.items
        ≡ read_after (told_calls (reverse h.calls.list) (reverse h.written.list)) };
}

impl History {
    /// The empty file, without a call. It takes no memory.
    pub(crate) fn new(alloc: Global) -> History
        ensures { result.calls ≡ [] }
    {
        History {
            bytes: Vec::new(alloc),
            calls: Grown::new(alloc),
            written: Grown::new(alloc),
        }
    }

    /// Makes room for n more calls and n more written bytes.
    pub(crate) fn make_room(&mut self, n: usize) -> Result<(), NoMemory>
        ensures calls { self.new.calls ≡ self.old.calls }
        ensures call_room { OnOk result (n ≤ self.new.call_room) }
        ensures byte_room { OnOk result (n ≤ self.new.byte_room) }
        ensures calls_kept { self.old.call_room ≤ self.new.call_room }
        ensures bytes_kept { self.old.byte_room ≤ self.new.byte_room }
    {
        self.calls.make_room(n)?;
        self.written.make_room(n)?;
        self.bytes.reserve(n)?;
        Ok(())
    }

    /// Whether there is room for one more call, and for so many written bytes.
    pub(crate) fn has_room(&self, bytes: usize) -> bool
        ensures { result ≡ (nat_le 1 self.now.call_room && nat_le bytes self.now.byte_room) }
    {
        let spare = self.bytes.capacity() - self.bytes.len();
        1 <= self.calls.spare() && bytes <= self.written.spare().min(spare)
    }

    /// The bytes of the file.
    pub(crate) fn bytes(&self) -> &[u8]
        ensures { result.now ≡ read_after self.now.calls }
    {
        &self.bytes
    }

    /// The calls so far, the first one first.
    pub(crate) fn calls(&self) -> &[DiskCall] {
        self.calls.as_slice()
    }

    /// The bytes that the calls were to write, one write behind the other.
    pub(crate) fn written(&self) -> &[u8] {
        self.written.as_slice()
    }

    /// Notes that the length was asked.
    pub(crate) fn note_len(&mut self, failed: bool)
        requires { 1 ≤ self.old.call_room }
        ensures calls { self.new.calls ≡ asked ∷ self.old.calls }
        ensures call_room { self.old.call_room ≤ self.new.call_room + 1 }
        ensures byte_room { self.new.byte_room ≡ self.old.byte_room }
    {
        let kind = CallKind::Len;
        self.calls.push(DiskCall { kind, failed });
    }

    /// Notes that bytes were asked.
    pub(crate) fn note_read(&mut self, at: u64, len: usize, failed: bool)
        requires { 1 ≤ self.old.call_room }
        ensures calls { self.new.calls ≡ asked ∷ self.old.calls }
        ensures call_room { self.old.call_room ≤ self.new.call_room + 1 }
        ensures byte_room { self.new.byte_room ≡ self.old.byte_room }
    {
        let kind = CallKind::Read { at, len };
        self.calls.push(DiskCall { kind, failed });
    }

    /// Notes a sync.
    pub(crate) fn note_sync(&mut self, failed: bool)
        requires { 1 ≤ self.old.call_room }
        ensures calls { self.new.calls ≡ synced (not failed) ∷ self.old.calls }
        ensures call_room { self.old.call_room ≤ self.new.call_room + 1 }
        ensures byte_room { self.new.byte_room ≡ self.old.byte_room }
    {
        let kind = CallKind::Sync;
        self.calls.push(DiskCall { kind, failed });
    }

    /// Writes these bytes and notes it, or notes that they were not written.
    pub(crate) fn write(&mut self, at: u64, bytes: &[u8], failed: bool)
        requires call_room { 1 ≤ self.old.call_room }
        requires byte_room { length bytes.now ≤ self.old.byte_room }
        requires place { at ≤ length (read_after self.old.calls) }
        ensures calls { self.new.calls ≡ wrote at bytes.now (not failed) ∷ self.old.calls }
        ensures call_room { self.old.call_room ≤ self.new.call_room + 1 }
        ensures byte_room { self.old.byte_room ≤ self.new.byte_room + length bytes.now }
    {
        let len = bytes.len();
        let kind = CallKind::Write { at, len };
        self.calls.push(DiskCall { kind, failed });
        self.written.append_slice(bytes);
        if !failed {
            put_over(&mut self.bytes, at as usize, bytes);
        }
    }

    /// Cuts the file to this length and notes it, or notes that it was not cut.
    pub(crate) fn cut(&mut self, to: u64, failed: bool)
        requires call_room { 1 ≤ self.old.call_room }
        requires length { to ≤ length (read_after self.old.calls) }
        ensures calls { self.new.calls ≡ cuts to (not failed) ∷ self.old.calls }
        ensures call_room { self.old.call_room ≤ self.new.call_room + 1 }
        ensures byte_room { self.old.byte_room ≤ self.new.byte_room }
    {
        let kind = CallKind::Cut { to };
        self.calls.push(DiskCall { kind, failed });
        if !failed {
            self.bytes.truncate(to as usize);
        }
    }
}

/// Puts bytes over those at this place, and past the end, without memory.
fn put_over(bytes: &mut Vec<u8>, at: usize, more: &[u8])
    requires place { at ≤ vec_len bytes.old }
    requires room { vec_len bytes.old + length more.now ≤ vec_capacity bytes.old }
    ensures items { bytes.new.items ≡ put at more.now bytes.old.items }
    ensures room { vec_capacity bytes.old ≤ vec_capacity bytes.new }
{
    let over = more.len().min(bytes.len() - at);
    bytes[at..at + over].copy_from_slice(&more[..over]);
    bytes.extend_from_slice(&more[over..]).unwrap();
}

/// Puts the bytes of the file from this place on in the front of the buffer, as many as there are and
/// fit, and answers how many.
pub(crate) fn front_from(file: &[u8], at: u64, buf: &mut [u8]) -> usize
    ensures within { result ≤ length buf.new }
    ensures bytes { Reads file.now at result buf.new }
    ensures rest { drop result buf.new ≡ drop result buf.old }
{
    if at >= file.len() as u64 {
        return 0;
    }
    let from = &file[at as usize..];
    let n = buf.len().min(from.len());
    buf[..n].copy_from_slice(&from[..n]);
    n
}
