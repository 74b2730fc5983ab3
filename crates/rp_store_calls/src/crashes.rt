//! What a crash leaves at each call of a save.
use crate::helpers::{holding, rank_of};
use rp_base::NoMemory;
use std::alloc::Global;
use std::test::Fail;

/// The file with one payload, and what a save of a second writes behind it.
const ONE: [u8; 11] = [1, 0, 0, 0, 0, 0, 0, 0, 1, 7, 0];

const MORE: [u8; 11] = [0, 0, 0, 0, 0, 0, 0, 2, 8, 9, 0];

/// Whether the first payload is given where so many bytes stand behind the closed gate, those that
/// were to be written, but for one place with this byte.
fn torn_behind(alloc: Global, len: usize, place: usize, byte: u8) -> Result<bool, NoMemory> {
    let mut file = Vec::from_slice(alloc, &ONE)?;
    file.extend_from_slice(&MORE[..len.min(MORE.len())])?;
    if let Some(there) = file.get_mut(ONE.len().saturating_add(place)) {
        *there = byte;
    }
    Ok(rank_of(alloc, holding(alloc, &file)?, &[7], &[8, 9]) == 1)
}

/// The same with any byte at this place, all bytes behind it.
fn any_byte_behind(alloc: Global, place: usize) -> Result<bool, NoMemory> {
    for byte in 0..=255 {
        if !torn_behind(alloc, 11, place, byte)? {
            return Ok(false);
        }
    }
    Ok(true)
}

/// The same with any byte at any place.
fn any_place_behind(alloc: Global) -> Result<bool, NoMemory> {
    for place in 0..11 {
        if !any_byte_behind(alloc, place)? {
            return Ok(false);
        }
    }
    Ok(true)
}

/// The same with any length up to eleven, and an open gate's byte at any place.
fn any_length_behind(alloc: Global, place: usize) -> Result<bool, NoMemory> {
    for len in 0..=11 {
        if !torn_behind(alloc, len, place, 1)? {
            return Ok(false);
        }
    }
    Ok(true)
}

#[test]
fn a_crash_before_the_gate_is_opened_leaves_the_first(rt: HostRuntime) -> Result<(), Fail> {
    let alloc = rt.alloc();
    assert!(rt; any_place_behind(alloc)?);
    assert!(rt; any_length_behind(alloc, 0)?);
    assert!(rt; any_length_behind(alloc, 7)?);
    assert!(rt; any_length_behind(alloc, 10)?);
    Ok(())
}

/// Which payload is given where all of the record is there and its gate is this byte.
fn rank_of_gate(alloc: Global, gate: u8) -> Result<u8, NoMemory> {
    let mut file = Vec::from_slice(alloc, &ONE)?;
    file.extend_from_slice(&MORE)?;
    if let Some(byte) = file.get_mut(10) {
        *byte = gate;
    }
    Ok(rank_of(alloc, holding(alloc, &file)?, &[7], &[8, 9]))
}

/// Whether any gate but the open one leaves the first payload.
fn any_gate(alloc: Global) -> Result<bool, NoMemory> {
    for gate in 0..=255 {
        let want = if gate == 1 { 2 } else { 1 };
        if rank_of_gate(alloc, gate)? != want {
            return Ok(false);
        }
    }
    Ok(true)
}

#[test]
fn a_crash_as_the_gate_is_opened_leaves_the_first_or_the_second(
    rt: HostRuntime,
) -> Result<(), Fail> {
    assert!(rt; any_gate(rt.alloc())?);
    Ok(())
}
