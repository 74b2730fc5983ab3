//! How a record is read from its text.
ghost use Rattle.std.specs.Prelude.{◌≡◌};
ghost use Rattle.rp_reread.specs.Readers.{Reads, Tells};
ghost use Rattle.rp_reread.specs.Records.{lease_at, write_at, split_at, why_by, passed_at, written, parted, leased, record_by, record_at, record_of};

use crate::faults::NotRead;
use crate::requests::{reply, request};
use crate::words::{Words, attempt, just, key, node, number};
use rp_base::{Lease, LeaseSeq, RangeId, Tick};
use rp_request::{Place, Record, Why};

#[tactic(auto, unfolding(crate::specs::Records::lease_at))]
fn lease(words: &mut Words) -> Result<Lease, NotRead>
    ensures { Reads result words.new (lease_at words.old) }
{
    let holder = node(words)?;
    let seq = number(words, u64::MAX)?;
    let expires = number(words, u64::MAX)?;
    Ok(Lease {
        holder,
        seq: LeaseSeq::new(seq),
        expires: Tick::new(expires),
    })
}

#[tactic(auto, unfolding(crate::specs::Records::write_at))]
fn write(words: &mut Words) -> Result<Place, NotRead>
    ensures { Reads result words.new (write_at words.old) }
{
    let id = attempt(words)?;
    let request = request(words)?;
    just(words, "under")?;
    let seq = number(words, u64::MAX)?;
    just(words, "ok")?;
    let reply = reply(words)?;
    Ok(Place::Write {
        id,
        request,
        seq: LeaseSeq::new(seq),
        reply,
    })
}

#[tactic(auto, unfolding(crate::specs::Records::split_at))]
fn split(words: &mut Words) -> Result<Place, NotRead>
    ensures { Reads result words.new (split_at words.old) }
{
    let id = attempt(words)?;
    let key = key(words)?;
    just(words, "right")?;
    let right = number(words, 7)?;
    just(words, "under")?;
    let seq = number(words, u64::MAX)?;
    Ok(Place::Split {
        id,
        key,
        right: RangeId::new(right as u8).unwrap(),
        seq: LeaseSeq::new(seq),
    })
}

#[tactic(auto, unfolding(crate::specs::Records::written))]
fn written(words: &mut Words) -> Result<Record, NotRead>
    ensures { Reads result words.new (written words.old) }
{
    let item = write(words)?;
    Ok(Record::Took(item))
}

#[tactic(auto, unfolding(crate::specs::Records::parted))]
fn parted(words: &mut Words) -> Result<Record, NotRead>
    ensures { Reads result words.new (parted words.old) }
{
    let item = split(words)?;
    Ok(Record::Took(item))
}

#[tactic(auto, unfolding(crate::specs::Records::leased))]
fn leased(words: &mut Words) -> Result<Record, NotRead>
    ensures { Reads result words.new (leased words.old) }
{
    let lease = lease(words)?;
    Ok(Record::Took(Place::Lease(lease)))
}

#[tactic(auto, unfolding(crate::specs::Records::why_by))]
fn why_by(word: &[u8], words: &mut Words) -> Result<Why, NotRead>
    ensures { Reads result words.new (why_by word.now words.old) }
{
    if word == b"nothing".as_slice() {
        Ok(Why::Nothing)
    } else if word == b"old-lease".as_slice() {
        Ok(Why::OldLease)
    } else if word == b"old-index".as_slice() {
        Ok(Why::OldIndex)
    } else if word == b"lease-moved".as_slice() {
        Ok(Why::LeaseMoved)
    } else {
        Err(NotRead)
    }
}

#[tactic(auto, unfolding(crate::specs::Records::passed_at))]
fn passed(words: &mut Words) -> Result<Record, NotRead>
    ensures { Reads result words.new (passed_at words.old) }
{
    let word = words.word()?;
    let why = why_by(word, words)?;
    Ok(Record::Passed(why))
}

/// Reads a record behind its first word.
#[tactic(auto, unfolding(crate::specs::Records::record_by))]
fn record_by(word: &[u8], words: &mut Words) -> Result<Record, NotRead>
    ensures { Reads result words.new (record_by word.now words.old) }
{
    if word == b"write".as_slice() {
        written(words)
    } else if word == b"split".as_slice() {
        parted(words)
    } else if word == b"lease".as_slice() {
        leased(words)
    } else if word == b"pass".as_slice() {
        passed(words)
    } else {
        Err(NotRead)
    }
}

#[tactic(auto, unfolding(crate::specs::Records::record_at))]
fn record(words: &mut Words) -> Result<Record, NotRead>
    ensures { Reads result words.new (record_at words.old) }
{
    let word = words.word()?;
    record_by(word, words)
}

/// Reads the record that a text spells.
#[tactic(auto, unfolding(crate::specs::Records::record_of))]
pub fn read_record(text: &[u8]) -> Result<Record, NotRead>
    ensures { Tells result (record_of text.now) }
{
    let mut words = Words::new(text);
    let record = record(&mut words)?;
    match words.next() {
        None => Ok(record),
        Some(_) => Err(NotRead),
    }
}
