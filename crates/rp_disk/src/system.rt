//! A file of the system as a disk: the trusted edge.
ghost use Rattle.std.specs.Prelude.{◌≡◌, ◌≤◌, false, [], length, is_err, IfOk, if◌then◌else◌};
ghost use Rattle.rp_outside.specs.Forms.{count_up};
ghost use Rattle.rp_disk.specs.Files.{untold};
ghost use Rattle.rp_disk.specs.Told.{untold_is_told};

use crate::disk::Disk;
use rp_base::Text;
use rp_outside::Failed;
use std::fs::{File, OpenFile, OpenOptions};
use std::io;
use std::io::{Read, Seek, SeekFrom, Write};
use std::marker::Model;
use std::path::Path;
use std::rt::Files;

/// A file of the system as a disk. As a disk it tells nothing of its file. It opens or makes the file
/// at its first call. Each error, and each read that gives nothing below the length, is a fault, and
/// they are counted up to `u64::MAX`. Contracts see the count.
#[derive(Drop)]
pub struct FileDisk<'a, R: Files> {
    rt: &'a R,
    path: Text,
    file: Option<R::File>,
    faults: u64,
}

impl<'a, R: Files> Model for FileDisk<'a, R> {
    ghost use Rattle.std.specs.Prelude.{ℕ};

    ghost Value = { ℕ };

    ghost view = { λ d. d.faults };
}

impl<R: Files> FileDisk<'_, R> {
    /// The file at this path. It takes no memory, and does not reach for the file yet.
    pub fn at(rt: &R, path: Text) -> FileDisk<'_, R>
        ensures { result ≡ 0 }
    {
        FileDisk {
            rt,
            path,
            file: None,
            faults: 0,
        }
    }

    /// How many faults it had, up to `u64::MAX`.
    pub fn faults(&self) -> u64
        ensures { result ≡ self.now }
    {
        self.faults
    }

    /// Counts a fault where the system told an error.
    fn judge<T: Drop>(&mut self, answer: io::Result<T>) -> Result<T, Failed>
        ensures value { IfOk result (λ x. IfOk answer (λ y. x ≡ y)) }
        ensures failed { is_err result ≡ is_err answer }
        ensures count { self.new ≡ (if is_err result then count_up self.old else self.old) }
        ensures faults { self.old ≤ self.new }
    {
        match answer {
            Ok(value) => Ok(value),
            Err(_) => {
                self.faults = self.faults.saturating_add(1);
                Err(Failed)
            }
        }
    }
}

impl<R: Files> Disk for FileDisk<'_, R> {
    ghost file = { λ _. untold };

    ghost faults = { λ d. d };

    ghost is_told = { λ _ told. untold_is_told told };

    fn len(&mut self) -> Result<u64, Failed> {
        let answer = length_of(self.rt, self.path.as_str(), &mut self.file);
        self.judge(answer)
    }

    fn read_at(&mut self, at: u64, buf: &mut [u8]) -> Result<usize, Failed> {
        let answer = read_from(self.rt, self.path.as_str(), &mut self.file, at, buf);
        self.judge(answer)
    }

    fn write_at(&mut self, at: u64, bytes: &[u8]) -> Result<(), Failed> {
        let answer = write_to(self.rt, self.path.as_str(), &mut self.file, at, bytes);
        self.judge(answer)
    }

    fn cut(&mut self, to: u64) -> Result<(), Failed> {
        let answer = cut_to(self.rt, self.path.as_str(), &mut self.file, to);
        self.judge(answer)
    }

    fn sync(&mut self) -> Result<(), Failed> {
        let answer = synced(self.rt, self.path.as_str(), &mut self.file);
        self.judge(answer)
    }
}

/// How many bytes the file has.
fn length_of<R: Files>(rt: &R, path: &str, file: &mut Option<R::File>) -> io::Result<u64> {
    Ok(held(rt, path, file)?.metadata()?.len())
}

/// Reads some bytes from this place on. None below the length is an error.
fn read_from<R: Files>(
    rt: &R,
    path: &str,
    file: &mut Option<R::File>,
    at: u64,
    buf: &mut [u8],
) -> io::Result<usize>
    ensures { IfOk result (λ n. n ≤ length buf.new) }
{
    let file = held(rt, path, file)?;
    file.seek(SeekFrom::Start(at))?;
    let n = file.read(buf)?;
    if n == 0 && !buf.is_empty() && at < file.metadata()?.len() {
        return Err(io::ErrorKind::UnexpectedEof.into());
    }
    Ok(n)
}

/// Writes all these bytes from this place on.
fn write_to<R: Files>(
    rt: &R,
    path: &str,
    file: &mut Option<R::File>,
    at: u64,
    bytes: &[u8],
) -> io::Result<()> {
    let file = held(rt, path, file)?;
    file.seek(SeekFrom::Start(at))?;
    file.write_all(bytes)
}

/// Cuts the file to this length.
fn cut_to<R: Files>(rt: &R, path: &str, file: &mut Option<R::File>, to: u64) -> io::Result<()> {
    held(rt, path, file)?.set_len(to)
}

/// Brings all that was written to the device.
fn synced<R: Files>(rt: &R, path: &str, file: &mut Option<R::File>) -> io::Result<()> {
    held(rt, path, file)?.sync_all()
}

/// The file, opened or made.
fn held<'f, R: Files>(
    rt: &R,
    path: &str,
    file: &'f mut Option<R::File>,
) -> io::Result<&'f mut R::File> {
    match file {
        Some(file) => Ok(file),
        None => Ok(file.insert(open_or_make(rt, path)?)),
    }
}

/// Opens the file, or makes it. Its name is on the device then too.
fn open_or_make<R: Files>(rt: &R, path: &str) -> io::Result<R::File> {
    let file = OpenOptions::new()
        .read(true)
        .write(true)
        .create(true)
        .open(rt, path)?;
    File::open(rt, folder_of(path))?.sync_all()?;
    Ok(file)
}

/// The folder that a path's file lies in.
fn folder_of(path: &str) -> &str {
    match Path::new(path).parent() {
        Some(folder) if !folder.as_os_str().is_empty() => folder.as_os_str(),
        _ => ".",
    }
}
