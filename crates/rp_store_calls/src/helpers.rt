//! Files in memory, and what a store gives of them.
use rp_base::{Bytes, Calls, NoMemory};
use rp_disk::{Disk, MemoryDisk, SoundDisk};
use rp_outside::Failed;
use rp_store::{OpenFault, SaveFault, open};
use std::alloc::Global;

/// The payload of the last open record, or the place of an open record that is cut short, read byte by
/// byte from the front.
pub fn expected(file: &[u8]) -> Result<Option<&[u8]>, u64> {
    if file.len() <= 1 {
        return Ok(None);
    }
    let mut rest = file;
    let mut at = 0u64;
    let mut last = None;
    for _ in 0..file.len() {
        match rest {
            [1, a, b, c, d, e, f, g, h, more @ ..] => {
                let size = u64::from_be_bytes([*a, *b, *c, *d, *e, *f, *g, *h]);
                if more.len() as u64 <= size {
                    return Err(at);
                }
                last = Some(&more[..size as usize]);
                rest = &more[size as usize..];
                at = at.saturating_add(size.saturating_add(9));
            }
            [1, ..] => return Err(at),
            _ => return Ok(last),
        }
    }
    Ok(last)
}

/// These bytes.
pub fn bytes_of(alloc: Global, bytes: &[u8]) -> Result<Bytes, NoMemory> {
    Ok(Bytes::from_vec(Vec::from_slice(alloc, bytes)?))
}

/// A disk in memory with this file on it.
pub fn holding(alloc: Global, file: &[u8]) -> Result<SoundDisk, NoMemory> {
    let mut disk = SoundDisk::new(alloc);
    disk.make_room(file.len().saturating_add(100))?;
    let _ = write_all(&mut disk, file);
    Ok(disk)
}

/// An empty disk in memory, of which the call with this number fails.
pub fn failing(alloc: Global, number: u64) -> Result<MemoryDisk, NoMemory> {
    let fails = Calls::from_vec(Vec::from_slice(alloc, &[number])?);
    let mut disk = MemoryDisk::new(alloc, fails);
    disk.make_room(200)?;
    Ok(disk)
}

/// Writes the bytes in front of the file, and syncs.
fn write_all<D: Disk>(disk: &mut D, file: &[u8]) -> Result<(), Failed> {
    disk.write_at(0, file)?;
    disk.sync()
}

/// Whether a store gives of this file what is expected of it, and gives it again once it is opened.
pub fn gives_expected(alloc: Global, file: &[u8]) -> Result<bool, NoMemory> {
    let want = expected(file);
    match open(alloc, holding(alloc, file)?) {
        Ok((store, payload)) => {
            let same = want == Ok(slice_of(&payload));
            let disk = store.disk();
            let left = disk.bytes().unwrap_or(&[]);
            Ok(same && want == expected(left) && left.len() <= file.len().max(1))
        }
        Err(OpenFault::Damaged { disk: _, place }) => Ok(want == Err(place)),
        Err(OpenFault::Disk { disk: _ }) => Ok(false),
        Err(OpenFault::NoMemory { disk: _ }) => Err(NoMemory),
    }
}

/// A payload as a slice.
pub fn slice_of(payload: &Option<Bytes>) -> Option<&[u8]> {
    match payload {
        Some(bytes) => Some(bytes.as_slice()),
        None => None,
    }
}

/// Opens a disk and saves two payloads, up to the first fault. The disk, and whether there was one.
pub fn two_saves<D: Disk>(alloc: Global, disk: D, first: &Bytes, second: &Bytes) -> (D, bool) {
    match open(alloc, disk) {
        Err(fault) => (disk_of(fault), true),
        Ok((store, _)) => match store.save(first) {
            Err(fault) => (disk_left(fault), true),
            Ok(store) => match store.save(second) {
                Err(fault) => (disk_left(fault), true),
                Ok(store) => (store.disk(), false),
            },
        },
    }
}

/// The disk that an opening hands back.
fn disk_of<D: Disk>(fault: OpenFault<D>) -> D {
    match fault {
        OpenFault::Damaged { disk, place: _ } => disk,
        OpenFault::Disk { disk } => disk,
        OpenFault::NoMemory { disk } => disk,
    }
}

/// The disk that a save hands back.
fn disk_left<D: Disk>(fault: SaveFault<D>) -> D {
    match fault {
        SaveFault::Full { store, needed: _ } => store.disk(),
        SaveFault::Disk { disk } => disk,
    }
}

/// Which of two payloads a disk gives: 0 for none, 1 for the first, 2 for the second, else 3.
pub fn rank_of<D: Disk + Drop>(alloc: Global, disk: D, first: &[u8], second: &[u8]) -> u8 {
    match open(alloc, disk) {
        Ok((_, payload)) => match slice_of(&payload) {
            None => 0,
            Some(bytes) if bytes == first => 1,
            Some(bytes) if bytes == second => 2,
            Some(_) => 3,
        },
        Err(_) => 3,
    }
}
