//! Requests, replies, writes, attempts and lease asks, read from the front.
ghost use Rattle.std.specs.Prelude.{◌≡◌, ◌≤◌};
ghost use Rattle.rp_codec.specs.Reading.{Reads, put_at, add_at, cput_at, del_at, wipe_at, move_at, split_at, request_of, request_at, old_at, now_at, count_at, range_at, reply_of, reply_at, set_at, remove_at, op_at, id_at, ask_at};

use crate::cursors::Cursor;
use crate::faults::BadField;
use crate::fields::{byte_in, key, number16, number32, number64, option, span, value};
use rp_base::{CmdId, LeaseAsk, LeaseSeq, NodeId, RangeId, Tick};
use rp_request::{Op, Reply, Request};

#[tactic(auto, unfolding(crate::specs::Reading::put_at))]
fn put(cursor: &mut Cursor, texts: bool) -> Result<Request, BadField>
    ensures { Reads result cursor.new (put_at texts cursor.old) }
{
    let key = key(cursor)?;
    let value = value(cursor, texts)?;
    Ok(Request::Put { key, value })
}

#[tactic(auto, unfolding(crate::specs::Reading::add_at))]
fn add(cursor: &mut Cursor) -> Result<Request, BadField>
    ensures { Reads result cursor.new (add_at cursor.old) }
{
    let key = key(cursor)?;
    let by = number64(cursor)?;
    Ok(Request::Add { key, by })
}

#[tactic(auto, unfolding(crate::specs::Reading::cput_at))]
fn cput(cursor: &mut Cursor, texts: bool) -> Result<Request, BadField>
    ensures { Reads result cursor.new (cput_at texts cursor.old) }
{
    let key = key(cursor)?;
    let expect = option(cursor, texts)?;
    let value = value(cursor, texts)?;
    Ok(Request::CPut { key, expect, value })
}

#[tactic(auto, unfolding(crate::specs::Reading::del_at))]
fn del(cursor: &mut Cursor) -> Result<Request, BadField>
    ensures { Reads result cursor.new (del_at cursor.old) }
{
    let key = key(cursor)?;
    Ok(Request::Del { key })
}

#[tactic(auto, unfolding(crate::specs::Reading::wipe_at))]
fn wipe(cursor: &mut Cursor) -> Result<Request, BadField>
    ensures { Reads result cursor.new (wipe_at cursor.old) }
{
    let span = span(cursor)?;
    Ok(Request::Wipe { span })
}

#[tactic(auto, unfolding(crate::specs::Reading::move_at))]
fn moving(cursor: &mut Cursor) -> Result<Request, BadField>
    ensures { Reads result cursor.new (move_at cursor.old) }
{
    let from = key(cursor)?;
    let to = key(cursor)?;
    let by = number64(cursor)?;
    Ok(Request::Move { from, to, by })
}

#[tactic(auto, unfolding(crate::specs::Reading::split_at))]
fn split(cursor: &mut Cursor) -> Result<Request, BadField>
    ensures { Reads result cursor.new (split_at cursor.old) }
{
    let key = key(cursor)?;
    Ok(Request::Split { key })
}

#[tactic(auto, unfolding(crate::specs::Reading::request_of))]
fn request_of(cursor: &mut Cursor, texts: bool, tag: u8) -> Result<Request, BadField>
    ensures { Reads result cursor.new (request_of texts tag cursor.old) }
{
    match tag {
        1 => put(cursor, texts),
        2 => add(cursor),
        3 => cput(cursor, texts),
        4 => del(cursor),
        5 => wipe(cursor),
        6 => moving(cursor),
        _ => split(cursor),
    }
}

/// Reads a request.
#[tactic(auto, unfolding(crate::specs::Reading::request_at))]
pub fn request(cursor: &mut Cursor, texts: bool) -> Result<Request, BadField>
    ensures { Reads result cursor.new (request_at texts cursor.old) }
{
    let tag = byte_in(cursor, 1, 7)?;
    request_of(cursor, texts, tag)
}

#[tactic(auto, unfolding(crate::specs::Reading::old_at))]
fn old(cursor: &mut Cursor, texts: bool) -> Result<Reply, BadField>
    ensures { Reads result cursor.new (old_at texts cursor.old) }
{
    let value = option(cursor, texts)?;
    Ok(Reply::Old(value))
}

#[tactic(auto, unfolding(crate::specs::Reading::now_at))]
fn now(cursor: &mut Cursor) -> Result<Reply, BadField>
    ensures { Reads result cursor.new (now_at cursor.old) }
{
    let number = number64(cursor)?;
    Ok(Reply::Now(number))
}

#[tactic(auto, unfolding(crate::specs::Reading::count_at))]
fn count(cursor: &mut Cursor) -> Result<Reply, BadField>
    ensures { Reads result cursor.new (count_at cursor.old) }
{
    let number = number64(cursor)?;
    Ok(Reply::Count(number))
}

#[tactic(auto, unfolding(crate::specs::Reading::range_at))]
fn range(cursor: &mut Cursor) -> Result<Reply, BadField>
    ensures { Reads result cursor.new (range_at cursor.old) }
{
    let number = byte_in(cursor, 0, 7)?;
    Ok(Reply::Range(RangeId::new(number).unwrap()))
}

#[tactic(auto, unfolding(crate::specs::Reading::reply_of))]
fn reply_of(cursor: &mut Cursor, texts: bool, tag: u8) -> Result<Reply, BadField>
    ensures { Reads result cursor.new (reply_of texts tag cursor.old) }
{
    match tag {
        1 => old(cursor, texts),
        2 => now(cursor),
        3 => Ok(Reply::Set),
        4 => count(cursor),
        _ => range(cursor),
    }
}

/// Reads a reply.
#[tactic(auto, unfolding(crate::specs::Reading::reply_at))]
pub fn reply(cursor: &mut Cursor, texts: bool) -> Result<Reply, BadField>
    ensures { Reads result cursor.new (reply_at texts cursor.old) }
{
    let tag = byte_in(cursor, 1, 5)?;
    reply_of(cursor, texts, tag)
}

#[tactic(auto, unfolding(crate::specs::Reading::set_at))]
fn set(cursor: &mut Cursor, texts: bool) -> Result<Op, BadField>
    ensures { Reads result cursor.new (set_at texts cursor.old) }
{
    let key = key(cursor)?;
    let value = value(cursor, texts)?;
    Ok(Op::Set { key, value })
}

#[tactic(auto, unfolding(crate::specs::Reading::remove_at))]
fn remove(cursor: &mut Cursor) -> Result<Op, BadField>
    ensures { Reads result cursor.new (remove_at cursor.old) }
{
    let key = key(cursor)?;
    Ok(Op::Remove { key })
}

/// Reads one write of a batch.
#[tactic(auto, unfolding(crate::specs::Reading::op_at))]
pub fn op(cursor: &mut Cursor, texts: bool) -> Result<Op, BadField>
    ensures { Reads result cursor.new (op_at texts cursor.old) }
{
    match byte_in(cursor, 1, 2)? {
        1 => set(cursor, texts),
        _ => remove(cursor),
    }
}

/// Reads an attempt.
#[tactic(auto, unfolding(crate::specs::Reading::id_at))]
pub fn id(cursor: &mut Cursor) -> Result<CmdId, BadField>
    ensures { Reads result cursor.new (id_at cursor.old) }
{
    let client = number16(cursor)?;
    let seq = number32(cursor)?;
    let attempt = number16(cursor)?;
    Ok(CmdId {
        client,
        seq,
        attempt,
    })
}

/// Reads a lease ask.
#[tactic(auto, unfolding(crate::specs::Reading::ask_at))]
pub fn ask(cursor: &mut Cursor) -> Result<LeaseAsk, BadField>
    ensures { Reads result cursor.new (ask_at cursor.old) }
{
    let holder = byte_in(cursor, 1, 5)?;
    let prev = number64(cursor)?;
    let expires = number64(cursor)?;
    Ok(LeaseAsk {
        holder: NodeId::new(holder).unwrap(),
        prev: LeaseSeq::new(prev),
        expires: Tick::new(expires),
    })
}
