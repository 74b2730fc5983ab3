//! A store on a file of the system.
use crate::helpers::{bytes_of, rank_of, two_saves};
use rp_base::{NoMemory, Text};
use rp_disk::FileDisk;
use std::alloc::Global;
use std::fs;
use std::rt::Files;
use std::test::Fail;

const FOLDER: &str = "rp-store-folder";

const PATH: &str = "rp-store-folder/rp.disk";

/// The disk of the file.
fn disk_at<R: Files>(rt: &R, alloc: Global) -> Result<FileDisk<'_, R>, NoMemory> {
    Ok(FileDisk::at(rt, Text::from_string(String::from_str(alloc, PATH)?)))
}

/// What is saved is given by the next opening.
fn saves_last<R: Files>(rt: &R, alloc: Global) -> Result<bool, NoMemory> {
    let first = bytes_of(alloc, &[7])?;
    let second = bytes_of(alloc, &[8, 9])?;
    let (_, faulted) = two_saves(alloc, disk_at(rt, alloc)?, &first, &second);
    Ok(!faulted && rank_of(alloc, disk_at(rt, alloc)?, &[7], &[8, 9]) == 2)
}

#[test]
fn a_payload_outlives_its_store(rt: HostRuntime) -> Result<(), Fail> {
    fs::create_dir(&rt, FOLDER)?;
    let saved = saves_last(&rt, rt.alloc());
    fs::remove_file(&rt, PATH)?;
    fs::remove_dir(&rt, FOLDER)?;
    assert!(rt; saved?);
    Ok(())
}
