//! Calls of a log, each compared with what it must give.
ghost use Rattle.std.specs.Prelude.{◌≡◌, IfOk};

use crate::samples::passed;
use rp_base::Seq;
use rp_raftlog::{Entries, Entry, Log, Mismatch, SharedBytes, copies};
use std::alloc::Global;
use std::test::Fail;

/// An entry of a term, with a payload of one byte.
fn entry(alloc: Global, term: u64, byte: u8) -> Result<Entry, Fail> {
    let mut payload = Seq::new(alloc);
    payload.push(byte)?;
    let payload = SharedBytes::new(payload)?;
    Ok(Entry { term, payload })
}

fn entries(alloc: Global, parts: &[(u64, u8)]) -> Result<Entries, Fail> {
    let mut entries = Seq::new(alloc);
    for part in parts {
        entries.push(entry(alloc, part.0, part.1)?)?;
    }
    Ok(entries)
}

fn is(entry: &Entry, part: (u64, u8)) -> bool {
    entry.term == part.0 && entry.payload.as_slice() == [part.1].as_slice()
}

/// These are the entries, with their payloads.
fn are(entries: &Entries, parts: &[(u64, u8)]) -> bool {
    entries.len() == parts.len()
        && entries
            .as_slice()
            .iter()
            .zip(parts)
            .all(|(entry, part)| is(entry, *part))
}

/// Whether the log holds just these entries behind its base.
fn holds(log: &Log, parts: &[(u64, u8)]) -> bool {
    let Some(from) = log.base().0.checked_add(1) else {
        return false;
    };
    match log.suffix(from, 100) {
        Ok(held) => are(&held, parts),
        Err(_) => false,
    }
}

/// Makes room for the entries and takes them in.
fn accept(
    alloc: Global,
    log: &mut Log,
    prev_index: u32,
    prev_term: u64,
    parts: &[(u64, u8)],
) -> Result<Result<u64, Mismatch>, Fail>
    ensures { IfOk result (λ _. log.new.log.base ≡ log.old.log.base) }
{
    let news = entries(alloc, parts)?;
    log.make_room(news.len())?;
    Ok(log.accept(u64::from(prev_index), prev_term, news))
}

/// A log whose entries follow the index 10 of term 1.
fn log(alloc: Global, parts: &[(u64, u8)]) -> Result<Log, Fail>
    ensures { IfOk result (λ log. log.log.base ≡ 10) }
{
    let mut log = Log::at(alloc, 10, 1);
    let taken = accept(alloc, &mut log, 10, 1, parts)?;
    let _ = taken.ok().ok_or("they match")?;
    Ok(log)
}

#[test]
fn copies_entries(rt: HostRuntime) -> Result<(), Fail> {
    let entries = entries(rt.alloc(), &[(1, 5), (2, 6)])?;
    let copied = copies(rt.alloc(), entries.as_slice())?;
    assert!(rt; are(&copied, &[(1, 5), (2, 6)]));
    let copied = entry(rt.alloc(), 3, 7)?.copy()?;
    assert!(rt; is(&copied, (3, 7)));
    Ok(())
}

#[test]
fn appends_and_reads(rt: HostRuntime) -> Result<(), Fail> {
    let mut log = Log::at(rt.alloc(), 10, 1);
    log.make_room(2)?;
    log.append(entry(rt.alloc(), 1, 7)?);
    log.append(entry(rt.alloc(), 3, 8)?);
    let log = passed(&rt, log);
    assert!(rt; log.last() == (12, 3) && log.term_at(11) == Some(1));
    assert!(rt; log.entry_at(12).is_some_and(|last| is(last, (3, 8))));
    assert!(rt; holds(&log, &[(1, 7), (3, 8)]));
    Ok(())
}

#[test]
fn takes_entries_in(rt: HostRuntime) -> Result<(), Fail> {
    let mut log = log(rt.alloc(), &[(1, 5), (1, 6), (2, 7)])?;
    assert!(rt; accept(rt.alloc(), &mut log, 11, 1, &[(1, 6), (3, 8)])? == Ok(13));
    assert!(rt; holds(&log, &[(1, 5), (1, 6), (3, 8)]));
    Ok(())
}

/// A log of 130 entries of term 1, which stand in three segments.
fn long_log(alloc: Global) -> Result<Log, Fail>
    ensures { IfOk result (λ log. log.log.base ≡ 10) }
{
    let mut log = Log::at(alloc, 10, 1);
    for byte in 0..130u8 {
        let taken = accept(alloc, &mut log, 10 + u32::from(byte), 1, &[(1, byte)])?;
        let _ = taken.ok().ok_or("they match")?;
    }
    Ok(log)
}

#[test]
fn segments_are_one_log(rt: HostRuntime) -> Result<(), Fail> {
    let mut log = long_log(rt.alloc())?;
    assert!(rt; log.last() == (140, 1));
    assert!(rt; are(&log.suffix(74, 2)?, &[(1, 63), (1, 64)]));
    log.cut_front(80);
    assert!(rt; log.entry_at(81).is_some_and(|first| is(first, (1, 70))));
    assert!(rt; accept(rt.alloc(), &mut log, 100, 1, &[(2, 7)])? == Ok(101));
    assert!(rt; log.last() == (101, 2));
    Ok(())
}

#[test]
fn cuts_and_resets(rt: HostRuntime) -> Result<(), Fail> {
    let mut log = log(rt.alloc(), &[(1, 5), (2, 6), (3, 7)])?;
    assert!(rt; log.last() == (13, 3));
    log.cut_front(12);
    assert!(rt; log.base() == (12, 2) && holds(&log, &[(3, 7)]));
    log.reset(20, 4);
    assert!(rt; log.last() == (20, 4) && holds(&log, &[]));
    Ok(())
}
