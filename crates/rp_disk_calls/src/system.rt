//! A file of the system, in an empty folder.
use crate::helpers::{reads_as, works};
use rp_base::{NoMemory, Text};
use rp_disk::{Disk, FileDisk};
use std::alloc::Global;
use std::fs;
use std::rt::Files;
use std::test::Fail;

const FOLDER: &str = "rp-disk-folder";

const PATH: &str = "rp-disk-folder/rp.disk";

/// The disk of the file at this path.
fn disk_at<'a, R: Files>(
    rt: &'a R,
    alloc: Global,
    path: &str,
) -> Result<FileDisk<'a, R>, NoMemory> {
    Ok(FileDisk::at(rt, Text::from_string(String::from_str(alloc, path)?)))
}

/// What is written by one disk is read by the next one.
fn file_works<R: Files>(rt: &R, alloc: Global) -> Result<bool, NoMemory> {
    let mut disk = disk_at(rt, alloc, PATH)?;
    let empty = disk.len() == Ok(0);
    let worked = works(&mut disk).is_ok();
    let mut again = disk_at(rt, alloc, PATH)?;
    let reads = reads_as(&mut again, 0, &[1, 2, 9, 8]) == Ok(true);
    Ok(empty && worked && reads && disk.faults() == 0 && again.faults() == 0)
}

/// A file that cannot be made is a fault at each call.
fn file_fails<R: Files>(rt: &R, alloc: Global) -> Result<bool, NoMemory> {
    let mut disk = disk_at(rt, alloc, "rp-no-folder/rp.disk")?;
    let failed = disk.len().is_err() && disk.sync().is_err();
    Ok(failed && disk.faults() == 2)
}

#[test]
fn a_file_in_an_empty_folder_works(rt: HostRuntime) -> Result<(), Fail> {
    fs::create_dir(&rt, FOLDER)?;
    let works = file_works(&rt, rt.alloc());
    fs::remove_file(&rt, PATH)?;
    fs::remove_dir(&rt, FOLDER)?;
    assert!(rt; works?);
    Ok(())
}

#[test]
fn a_file_that_cannot_be_made_is_a_fault(rt: HostRuntime) -> Result<(), Fail> {
    assert!(rt; file_fails(&rt, rt.alloc())?);
    Ok(())
}
