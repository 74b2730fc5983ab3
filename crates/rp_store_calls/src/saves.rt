//! What openings and saves leave, and each call failing in turn.
use crate::helpers::{bytes_of, failing, holding, rank_of, slice_of, two_saves};
use crate::long::LongDisk;
use rp_base::{Bytes, NoMemory};
use rp_store::{DISK_BYTES_MOST, SaveFault, Store, open};
use std::alloc::Global;
use std::test::Fail;

const TWO: [u8; 22] = [
    1, 0, 0, 0, 0, 0, 0, 0, 1, 7, 1, 0, 0, 0, 0, 0, 0, 0, 2, 8, 9, 0,
];

/// Two payloads, and what the file is then.
fn file_is(alloc: Global) -> Result<bool, NoMemory> {
    let first = bytes_of(alloc, &[7])?;
    let second = bytes_of(alloc, &[8, 9])?;
    let (disk, faulted) = two_saves(alloc, holding(alloc, &[])?, &first, &second);
    Ok(!faulted && disk.bytes() == Some(TWO.as_slice()))
}

#[test]
fn two_payloads_are_two_records(rt: HostRuntime) -> Result<(), Fail> {
    assert!(rt; file_is(rt.alloc())?);
    Ok(())
}

/// What an opening gives, where its payload begins, and what the file is then.
fn opens_as(
    alloc: Global,
    file: &[u8],
    payload: Option<&[u8]>,
    place: Option<u64>,
    left: &[u8],
) -> Result<bool, NoMemory> {
    match open(alloc, holding(alloc, file)?) {
        Ok((store, given)) => {
            let same = slice_of(&given) == payload && store.place() == place;
            let disk = store.disk();
            Ok(same && disk.bytes() == Some(left))
        }
        Err(_) => Ok(false),
    }
}

#[test]
fn an_opening_gives_the_last_payload(rt: HostRuntime) -> Result<(), Fail> {
    let alloc = rt.alloc();
    assert!(rt; opens_as(alloc, &[], None, None, &[0])?);
    assert!(rt; opens_as(alloc, &[1], None, None, &[0])?);
    assert!(rt; opens_as(alloc, &[5, 6, 7], None, None, &[5])?);
    assert!(rt; opens_as(alloc, &TWO, Some(&[8, 9]), Some(19), &TWO)?);
    Ok(())
}

#[test]
fn an_opening_cuts_what_follows_the_gate(rt: HostRuntime) -> Result<(), Fail> {
    let alloc = rt.alloc();
    let file = [
        1, 0, 0, 0, 0, 0, 0, 0, 1, 7, 2, 0, 0, 0, 0, 0, 0, 0, 2, 8, 9, 0,
    ];
    assert!(rt; opens_as(alloc, &file, Some(&[7]), Some(9), &file[..11])?);
    Ok(())
}

/// The rank of what is given after the call with this number failed, and whether it was met. Where it
/// was not, the rank is that of the file as it reads.
fn rank_at(alloc: Global, number: u64) -> Result<(u8, bool), NoMemory> {
    let first = bytes_of(alloc, &[7])?;
    let second = bytes_of(alloc, &[8, 9])?;
    let (disk, faulted) = two_saves(alloc, failing(alloc, number)?, &first, &second);
    let read = holding(alloc, disk.bytes())?;
    if faulted {
        Ok((rank_of(alloc, disk, &[7], &[8, 9]), true))
    } else {
        Ok((rank_of(alloc, read, &[7], &[8, 9]), false))
    }
}

/// Whether, as the failing call comes later, what is given never goes back, and ends with the second
/// where no call fails.
fn ranks_rise(alloc: Global) -> Result<bool, NoMemory> {
    let mut last = 0;
    for number in 1..60 {
        let (rank, faulted) = rank_at(alloc, number)?;
        if rank < last || rank > 2 {
            return Ok(false);
        }
        if !faulted {
            return Ok(rank == 2);
        }
        last = rank;
    }
    Ok(false)
}

#[test]
fn each_call_fails_in_turn(rt: HostRuntime) -> Result<(), Fail> {
    let alloc = rt.alloc();
    assert!(rt; rank_at(alloc, 1)? == (0, true));
    assert!(rt; ranks_rise(alloc)?);
    Ok(())
}

/// What a save of so many bytes says is needed, or 0 where it fits, in a file that ends at 268435420.
fn needed_for(alloc: Global, size: usize) -> Result<u64, NoMemory> {
    let payload = Bytes::from_vec(vec![in alloc; 0; size]?);
    match open(alloc, LongDisk) {
        Ok((store, _given)) => Ok(needed_by(store, &payload)),
        Err(_fault) => Ok(1),
    }
}

fn needed_by(store: Store<LongDisk>, payload: &Bytes) -> u64 {
    match store.save(payload) {
        Ok(_) => 0,
        Err(SaveFault::Full { store: _, needed }) => needed,
        Err(SaveFault::Disk { disk: _ }) => 1,
    }
}

#[test]
fn a_file_has_a_most(rt: HostRuntime) -> Result<(), Fail> {
    let alloc = rt.alloc();
    assert!(rt; DISK_BYTES_MOST == 268_435_456);
    assert!(rt; needed_for(alloc, 27)? == 0);
    assert!(rt; needed_for(alloc, 28)? == 268_435_457);
    Ok(())
}
