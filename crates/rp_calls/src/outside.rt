//! The adapters over the system, with and without faults.
ghost use Rattle.std.specs.Prelude.{◌≤◌, IfOk};

use rp_outside::{Failed, Sink, Source, StdSink, StdSource, put_all};
use std::alloc::Global;
use std::io::{self, ErrorKind, Read, Write};
use std::test::Fail;

const TEXT: &[u8; 10] = b"0123456789";

/// What one read into a buffer of three bytes gives, or `!` for a fault.
fn one_read<S: Source>(source: &mut S, out: &mut Vec<u8>) -> Result<(), Fail> {
    let mut buf = [0u8; 3];
    match source.read(&mut buf) {
        Ok(n) => out.extend_from_slice(&buf[..n])?,
        Err(_) => out.extend_from_slice(b"!")?,
    }
    Ok(())
}

/// What ten reads give.
fn is_read<S: Source>(alloc: Global, source: &mut S, want: &[u8]) -> Result<bool, Fail> {
    let mut out = Vec::new(alloc);
    for _ in 0..10 {
        one_read(source, &mut out)?;
    }
    Ok(out.as_slice() == want)
}

#[test]
fn a_reader_of_the_system(rt: HostRuntime) -> Result<(), Fail> {
    let mut source = StdSource::new(TEXT.as_slice());
    assert!(rt; is_read(rt.alloc(), &mut source, TEXT)?);
    assert!(rt; source.faults() == 0);
    Ok(())
}

#[test]
fn a_writer_of_the_system(rt: HostRuntime) -> Result<(), Fail> {
    let mut written = Vec::new(rt.alloc());
    let mut sink = StdSink::new(&mut written);
    assert!(rt; put_all(&mut sink, TEXT).is_ok());
    assert!(rt; sink.faults() == 0);
    assert!(rt; written.as_slice() == TEXT.as_slice());
    Ok(())
}

/// A device of the system that does three bytes a call, fails at its second call, and at its third
/// does nothing.
#[derive(Drop)]
struct Halting {
    calls: u64,
}

impl Halting {
    fn step(&mut self, most: usize) -> io::Result<usize>
        ensures { IfOk result (λ n. n ≤ most) }
    {
        self.calls = self.calls.saturating_add(1);
        match self.calls {
            2 => Err(io::Error::from(ErrorKind::TimedOut)),
            3 => Ok(0),
            _ => Ok(most.min(3)),
        }
    }
}

impl Read for Halting {
    fn read(&mut self, buf: &mut [u8]) -> io::Result<usize> {
        self.step(buf.len())
    }
}

impl Write for Halting {
    fn write(&mut self, buf: &[u8]) -> io::Result<usize> {
        self.step(buf.len())
    }

    fn flush(&mut self) -> io::Result<()> {
        Ok(())
    }
}

#[test]
fn a_reader_that_fails(rt: HostRuntime) {
    let mut buf = [0u8; 4];
    let mut source = StdSource::new(Halting { calls: 0 });
    assert!(rt; source.read(&mut buf) == Ok(3));
    assert!(rt; source.read(&mut buf) == Err(Failed));
    assert!(rt; source.faults() == 1);
    assert!(rt; source.read(&mut buf) == Ok(0));
}

#[test]
fn a_writer_that_fails(rt: HostRuntime) {
    let mut sink = StdSink::new(Halting { calls: 0 });
    assert!(rt; put_all(&mut sink, TEXT) == Err(Failed));
    assert!(rt; sink.faults() == 1);
    assert!(rt; sink.write(TEXT) == Err(Failed));
    assert!(rt; sink.faults() == 2);
    assert!(rt; put_all(&mut sink, TEXT) == Ok(()));
}
