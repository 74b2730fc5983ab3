//! Files with one byte damaged, and files that are cut short.
use crate::helpers::gives_expected;
use rp_base::NoMemory;
use std::alloc::Global;
use std::test::Fail;

const TWO: [u8; 22] = [
    1, 0, 0, 0, 0, 0, 0, 0, 1, 7, 1, 0, 0, 0, 0, 0, 0, 0, 2, 8, 9, 0,
];

/// Whether the file with any other byte at this place gives what is expected of it.
fn damaged_at(alloc: Global, place: usize) -> Result<bool, NoMemory> {
    for byte in 0..=255 {
        let mut file = TWO;
        if place < file.len() {
            file[place] = byte;
        }
        if !gives_expected(alloc, &file)? {
            return Ok(false);
        }
    }
    Ok(true)
}

/// Whether the file with any one byte damaged gives what is expected of it.
fn damaged_anywhere(alloc: Global) -> Result<bool, NoMemory> {
    for place in 0..22 {
        if !damaged_at(alloc, place)? {
            return Ok(false);
        }
    }
    Ok(true)
}

#[test]
fn each_damaged_byte_gives_what_is_expected(rt: HostRuntime) -> Result<(), Fail> {
    assert!(rt; damaged_anywhere(rt.alloc())?);
    Ok(())
}

/// Whether each front of the file gives what is expected of it.
fn cut_anywhere(alloc: Global) -> Result<bool, NoMemory> {
    for len in 0..=TWO.len() {
        if !gives_expected(alloc, &TWO[..len])? {
            return Ok(false);
        }
    }
    Ok(true)
}

#[test]
fn each_front_gives_what_is_expected(rt: HostRuntime) -> Result<(), Fail> {
    assert!(rt; cut_anywhere(rt.alloc())?);
    Ok(())
}
