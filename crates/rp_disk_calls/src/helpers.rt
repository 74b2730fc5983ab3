//! Calls of any disk, with their conditions judged as the program runs.
use rp_base::{Calls, NoMemory};
use rp_disk::{Disk, MemoryDisk, SoundDisk};
use rp_outside::Failed;
use std::alloc::Global;

/// Writes the bytes at this place, or fails where it is past the end.
pub fn put<D: Disk>(disk: &mut D, at: u64, bytes: &[u8]) -> Result<(), Failed> {
    if at > disk.len()? {
        return Err(Failed);
    }
    disk.write_at(at, bytes)
}

/// Cuts the file to this length, or fails where it is not that long.
pub fn cut<D: Disk>(disk: &mut D, to: u64) -> Result<(), Failed> {
    if to > disk.len()? {
        return Err(Failed);
    }
    disk.cut(to)
}

/// Whether the file reads as these bytes from this place on, and no further, byte by byte.
pub fn reads_as<D: Disk>(disk: &mut D, from: u64, bytes: &[u8]) -> Result<bool, Failed> {
    let mut at = from;
    for want in bytes {
        let mut buf = [0];
        if disk.read_at(at, &mut buf)? != 1 || buf[0] != *want {
            return Ok(false);
        }
        at = at.saturating_add(1);
    }
    let mut buf = [0];
    Ok(disk.read_at(at, &mut buf)? == 0 && disk.read_at(at, &mut [])? == 0)
}

/// Writes, cuts and syncs: the file is then `1 2 9 8`.
pub fn works<D: Disk>(disk: &mut D) -> Result<(), Failed> {
    put(disk, 0, &[1, 2, 3])?;
    put(disk, 2, &[9, 8, 7, 6])?;
    cut(disk, 4)?;
    disk.sync()
}

/// A disk in memory of which these calls fail, with room for so many calls and bytes.
pub fn failing(alloc: Global, fails: &[u64], room: usize) -> Result<MemoryDisk, NoMemory> {
    let fails = Calls::from_vec(Vec::from_slice(alloc, fails)?);
    let mut disk = MemoryDisk::new(alloc, fails);
    disk.make_room(room)?;
    Ok(disk)
}

/// A disk in memory without faults, with room for so many calls and bytes.
pub fn sound(alloc: Global, room: usize) -> Result<SoundDisk, NoMemory> {
    let mut disk = SoundDisk::new(alloc);
    disk.make_room(room)?;
    Ok(disk)
}
