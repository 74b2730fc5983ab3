//! How a request and a reply are read.
ghost use Rattle.std.specs.Prelude.{◌≡◌};
ghost use Rattle.rp_reread.specs.Readers.{Reads, Tells};
ghost use Rattle.rp_reread.specs.Requests.{put, add, cput, del, end_in, wipe, moving, split, request_by, request_at, value_reply, range_reply, plain_reply, reply_by, reply_at};

use crate::faults::NotRead;
use crate::words::{Words, key, key_in, number, option, value, value_in};
use rp_base::{Key, KeySpan, RangeId, Value};
use rp_request::{Reply, Request};

#[tactic(auto, unfolding(crate::specs::Requests::put))]
fn put(words: &mut Words) -> Result<Request, NotRead>
    ensures { Reads result words.new (put words.old) }
{
    let key = key(words)?;
    let value = value(words)?;
    Ok(Request::Put { key, value })
}

#[tactic(auto, unfolding(crate::specs::Requests::add))]
fn add(words: &mut Words) -> Result<Request, NotRead>
    ensures { Reads result words.new (add words.old) }
{
    let key = key(words)?;
    let by = number(words, u64::MAX)?;
    Ok(Request::Add { key, by })
}

#[tactic(auto, unfolding(crate::specs::Requests::cput))]
fn cput(words: &mut Words) -> Result<Request, NotRead>
    ensures { Reads result words.new (cput words.old) }
{
    let key = key(words)?;
    let expect = option(words)?;
    let value = value(words)?;
    Ok(Request::CPut { key, expect, value })
}

#[tactic(auto, unfolding(crate::specs::Requests::del))]
fn del(words: &mut Words) -> Result<Request, NotRead>
    ensures { Reads result words.new (del words.old) }
{
    let key = key(words)?;
    Ok(Request::Del { key })
}

#[tactic(auto, unfolding(crate::specs::Requests::end_in))]
fn end_in(word: &[u8]) -> Result<Option<Key>, NotRead>
    ensures { Tells result (end_in word.now) }
{
    if word == b"~".as_slice() {
        return Ok(None);
    }
    Ok(Some(key_in(word)?))
}

#[tactic(auto, unfolding(crate::specs::Requests::wipe))]
fn wipe(words: &mut Words) -> Result<Request, NotRead>
    ensures { Reads result words.new (wipe words.old) }
{
    let start = key(words)?;
    let word = words.word()?;
    let end = end_in(word)?;
    match KeySpan::new(start, end) {
        Some(span) => Ok(Request::Wipe { span }),
        None => Err(NotRead),
    }
}

#[tactic(auto, unfolding(crate::specs::Requests::moving))]
fn moving(words: &mut Words) -> Result<Request, NotRead>
    ensures { Reads result words.new (moving words.old) }
{
    let from = key(words)?;
    let to = key(words)?;
    let by = number(words, u64::MAX)?;
    Ok(Request::Move { from, to, by })
}

#[tactic(auto, unfolding(crate::specs::Requests::split))]
fn split(words: &mut Words) -> Result<Request, NotRead>
    ensures { Reads result words.new (split words.old) }
{
    let key = key(words)?;
    Ok(Request::Split { key })
}

/// Reads a request behind its first word.
#[tactic(auto, unfolding(crate::specs::Requests::request_by))]
fn request_by(word: &[u8], words: &mut Words) -> Result<Request, NotRead>
    ensures { Reads result words.new (request_by word.now words.old) }
{
    if word == b"put".as_slice() {
        put(words)
    } else if word == b"add".as_slice() {
        add(words)
    } else if word == b"cput".as_slice() {
        cput(words)
    } else if word == b"del".as_slice() {
        del(words)
    } else if word == b"wipe".as_slice() {
        wipe(words)
    } else if word == b"move".as_slice() {
        moving(words)
    } else if word == b"split".as_slice() {
        split(words)
    } else {
        Err(NotRead)
    }
}

/// Reads a request.
#[tactic(auto, unfolding(crate::specs::Requests::request_at))]
pub fn request(words: &mut Words) -> Result<Request, NotRead>
    ensures { Reads result words.new (request_at words.old) }
{
    let word = words.word()?;
    request_by(word, words)
}

fn value_reply(value: Value) -> Reply
    ensures { result ≡ value_reply value }
{
    match value {
        Value::Number(number) => Reply::Now(number),
        Value::Text(text) => Reply::Old(Some(Value::Text(text))),
    }
}

#[tactic(auto, unfolding(crate::specs::Requests::range_reply))]
fn range_reply(words: &mut Words) -> Result<Reply, NotRead>
    ensures { Reads result words.new (range_reply words.old) }
{
    let right = number(words, 7)?;
    Ok(Reply::Range(RangeId::new(right as u8).unwrap()))
}

#[tactic(auto, unfolding(crate::specs::Requests::plain_reply))]
fn plain_reply(word: &[u8], words: &mut Words) -> Result<Reply, NotRead>
    ensures { Reads result words.new (plain_reply word.now words.old) }
{
    let value = value_in(word)?;
    Ok(value_reply(value))
}

/// Reads a reply behind its first word.
#[tactic(auto, unfolding(crate::specs::Requests::reply_by))]
fn reply_by(word: &[u8], words: &mut Words) -> Result<Reply, NotRead>
    ensures { Reads result words.new (reply_by word.now words.old) }
{
    if word == b"none".as_slice() {
        Ok(Reply::Old(None))
    } else if word == b"set".as_slice() {
        Ok(Reply::Set)
    } else if word == b"range".as_slice() {
        range_reply(words)
    } else {
        plain_reply(word, words)
    }
}

/// Reads a reply. What its number counts is not told.
#[tactic(auto, unfolding(crate::specs::Requests::reply_at))]
pub fn reply(words: &mut Words) -> Result<Reply, NotRead>
    ensures { Reads result words.new (reply_at words.old) }
{
    let word = words.word()?;
    reply_by(word, words)
}
