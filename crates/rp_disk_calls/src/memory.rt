//! Disks in memory.
use crate::helpers::{cut, failing, put, reads_as, sound, works};
use rp_base::NoMemory;
use rp_disk::{CallKind, Disk, DiskCall, SoundDisk};
use std::alloc::Global;
use std::test::Fail;

/// A sound disk works: the file is as it was written.
fn sound_works(alloc: Global) -> Result<bool, NoMemory> {
    let mut disk = sound(alloc, 40)?;
    let worked = works(&mut disk).is_ok();
    let reads = reads_as(&mut disk, 0, &[1, 2, 9, 8]) == Ok(true);
    Ok(worked && reads && disk.bytes() == Some([1, 2, 9, 8].as_slice()))
}

#[test]
fn a_sound_disk_works(rt: HostRuntime) -> Result<(), Fail> {
    assert!(rt; sound_works(rt.alloc())?);
    Ok(())
}

/// A call past the room is answered and forgotten.
fn sound_forgets(alloc: Global) -> Result<bool, NoMemory> {
    let mut disk = sound(alloc, 2)?;
    let written = put(&mut disk, 0, &[1, 2]).is_ok();
    let told = disk.bytes() == Some([1, 2].as_slice());
    let more = put(&mut disk, 2, &[0; 100]).is_ok();
    Ok(written && told && more && disk.bytes().is_none() && disk.sync().is_ok())
}

#[test]
fn a_sound_disk_forgets_past_its_room(rt: HostRuntime) -> Result<(), Fail> {
    assert!(rt; sound_forgets(rt.alloc())?);
    Ok(())
}

/// A reference to a disk is a disk.
fn reference_works(alloc: Global) -> Result<bool, NoMemory> {
    let mut disk: SoundDisk = sound(alloc, 40)?;
    let mut lent = &mut disk;
    let worked = works(&mut lent).is_ok();
    Ok(worked && disk.bytes() == Some([1, 2, 9, 8].as_slice()))
}

#[test]
fn a_reference_is_a_disk(rt: HostRuntime) -> Result<(), Fail> {
    assert!(rt; reference_works(rt.alloc())?);
    Ok(())
}

/// A disk of which none of the calls made fails works, and keeps its calls.
fn memory_works(alloc: Global) -> Result<bool, NoMemory> {
    let mut disk = failing(alloc, &[99], 40)?;
    let worked = works(&mut disk).is_ok();
    let last = DiskCall {
        kind: CallKind::Sync,
        failed: false,
    };
    Ok(
        worked
            && disk.bytes() == [1, 2, 9, 8].as_slice()
            && disk.calls().len() == 7
            && disk.calls().last() == Some(&last)
            && disk.faults() == 0,
    )
}

#[test]
fn a_failing_disk_works(rt: HostRuntime) -> Result<(), Fail> {
    assert!(rt; memory_works(rt.alloc())?);
    Ok(())
}

/// The call with this number fails, is counted, and changes nothing of what is read.
fn fails_at(alloc: Global, number: u64, left: &[u8]) -> Result<bool, NoMemory> {
    let mut disk = failing(alloc, &[number], 40)?;
    let failed = works(&mut disk).is_err();
    Ok(failed && disk.bytes() == left && disk.faults() == 1)
}

#[test]
fn each_call_fails_in_turn(rt: HostRuntime) -> Result<(), Fail> {
    let alloc = rt.alloc();
    assert!(rt; fails_at(alloc, 1, &[])?);
    assert!(rt; fails_at(alloc, 2, &[])?);
    assert!(rt; fails_at(alloc, 3, &[1, 2, 3])?);
    assert!(rt; fails_at(alloc, 4, &[1, 2, 3])?);
    Ok(())
}

#[test]
fn each_later_call_fails_in_turn(rt: HostRuntime) -> Result<(), Fail> {
    let alloc = rt.alloc();
    assert!(rt; fails_at(alloc, 5, &[1, 2, 9, 8, 7, 6])?);
    assert!(rt; fails_at(alloc, 6, &[1, 2, 9, 8, 7, 6])?);
    assert!(rt; fails_at(alloc, 7, &[1, 2, 9, 8])?);
    Ok(())
}

/// A read that fails is counted, and the next one reads.
fn read_fails(alloc: Global) -> Result<bool, NoMemory> {
    let mut disk = failing(alloc, &[3], 40)?;
    let written = put(&mut disk, 0, &[5]).is_ok();
    let mut buf = [0, 0];
    let failed = disk.read_at(0, &mut buf).is_err();
    let read = disk.read_at(0, &mut buf) == Ok(1);
    Ok(written && failed && read && buf[0] == 5 && disk.faults() == 1)
}

#[test]
fn a_read_fails(rt: HostRuntime) -> Result<(), Fail> {
    assert!(rt; read_fails(rt.alloc())?);
    Ok(())
}

/// A call for which there is no room is a fault.
fn room_ends(alloc: Global) -> Result<bool, NoMemory> {
    let mut disk = failing(alloc, &[], 4)?;
    let failed = put(&mut disk, 0, &[0; 100]).is_err();
    let empty = disk.bytes().is_empty() && disk.faults() == 1;
    let worked = cut(&mut disk, 0).is_ok();
    Ok(failed && empty && worked && disk.faults() == 1)
}

#[test]
fn a_call_without_room_is_a_fault(rt: HostRuntime) -> Result<(), Fail> {
    assert!(rt; room_ends(rt.alloc())?);
    Ok(())
}
