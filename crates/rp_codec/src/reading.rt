//! Payloads, read from bytes.
ghost use Rattle.std.specs.Prelude.{◌≡◌, ◌≤◌, IfOk, Ok};
ghost use Rattle.rp_request.specs.declared.Payload.{Payload};
ghost use Rattle.rp_request.specs.Fits.{FitsPayload};
ghost use Rattle.rp_codec.specs.Reading.{Reads, Decodes, Decoded, ops_at, batch_at, command_at, tag_at, payload_of, version_of, payload_at, all_in, payload_in};
ghost use Rattle.rp_codec.specs.Spelling.{spelling};

use crate::commands::{ask, id, op, reply, request};
use crate::cursors::Cursor;
use crate::faults::{BadField, DecodeFault};
use crate::fields::{byte_in, number64};
use crate::texts::payload_has_text;
use rp_base::{LeaseIndex, LeaseSeq};
use rp_request::{Batch, Command, Payload};
use std::alloc::Global;

/// Reads so many writes.
fn ops(alloc: Global, cursor: &mut Cursor, texts: bool, count: u8) -> Result<Batch, DecodeFault>
    requires { count ≤ 16 }
    ensures { Decodes result cursor.new (ops_at texts count cursor.old) }
{
    let mut batch = Batch::new(alloc);
    for _ in 0..count {
        match op(cursor, texts) {
            Ok(op) => batch.push(op)?,
            Err(field) => return Err(DecodeFault::from(field)),
        }
    }
    Ok(batch)
}

#[tactic(auto, unfolding(crate::specs::Reading::batch_at))]
fn batch(alloc: Global, cursor: &mut Cursor, texts: bool) -> Result<Batch, DecodeFault>
    ensures { Decodes result cursor.new (batch_at texts cursor.old) }
{
    let count = byte_in(cursor, 0, 16)?;
    ops(alloc, cursor, texts, count)
}

#[tactic(auto, unfolding(crate::specs::Reading::command_at))]
fn command(alloc: Global, cursor: &mut Cursor, texts: bool) -> Result<Command, DecodeFault>
    ensures { Decodes result cursor.new (command_at texts cursor.old) }
{
    let id = id(cursor)?;
    let seq = number64(cursor)?;
    let max = number64(cursor)?;
    let request = request(cursor, texts)?;
    let reply = reply(cursor, texts)?;
    let batch = batch(alloc, cursor, texts)?;
    Ok(Command {
        id,
        request,
        batch,
        reply,
        seq: LeaseSeq::new(seq),
        max: LeaseIndex::new(max),
    })
}

#[tactic(auto, unfolding(crate::specs::Reading::payload_of))]
fn payload_of(
    alloc: Global,
    cursor: &mut Cursor,
    texts: bool,
    tag: u8,
) -> Result<Payload, DecodeFault>
    ensures { Decodes result cursor.new (payload_of texts tag cursor.old) }
{
    match tag {
        0 => Ok(Payload::Nothing),
        1 => Ok(Payload::Write(command(alloc, cursor, texts)?)),
        _ => Ok(Payload::Lease(ask(cursor)?)),
    }
}

#[tactic(auto, unfolding(crate::specs::Reading::tag_at))]
fn tag(cursor: &mut Cursor, texts: bool) -> Result<u8, BadField>
    ensures { Reads result cursor.new (tag_at texts cursor.old) }
{
    if texts {
        byte_in(cursor, 1, 1)
    } else {
        byte_in(cursor, 0, 2)
    }
}

#[tactic(auto, unfolding(crate::specs::Reading::version_of))]
fn version_of(alloc: Global, cursor: &mut Cursor, texts: bool) -> Result<Payload, DecodeFault>
    ensures { Decodes result cursor.new (version_of texts cursor.old) }
{
    let tag = tag(cursor, texts)?;
    payload_of(alloc, cursor, texts, tag)
}

#[tactic(auto, unfolding(crate::specs::Reading::payload_at))]
fn payload(alloc: Global, cursor: &mut Cursor) -> Result<Payload, DecodeFault>
    ensures { Decodes result cursor.new (payload_at cursor.old) }
{
    let version = byte_in(cursor, 1, 2)?;
    version_of(alloc, cursor, version == 2)
}

#[tactic(auto, unfolding(crate::specs::Reading::all_in))]
fn all_of(alloc: Global, bytes: &[u8]) -> Result<Payload, DecodeFault>
    ensures { Decoded result (all_in bytes.now) }
{
    let mut cursor = Cursor::new(bytes);
    let payload = payload(alloc, &mut cursor)?;
    if !cursor.is_at_end() {
        return Err(DecodeFault::from(cursor.bad()));
    }
    Ok(payload)
}

#[tactic(auto, unfolding(crate::specs::Reading::payload_in))]
fn spelled(alloc: Global, bytes: &[u8]) -> Result<Payload, DecodeFault>
    ensures { Decoded result (payload_in bytes.now) }
{
    let texts = Cursor::new(bytes).is_before(2);
    let payload = all_of(alloc, bytes)?;
    if texts && !payload_has_text(&payload) {
        return Err(DecodeFault::Bad { place: 0 });
    }
    Ok(payload)
}

/// The payload whose spelling the bytes are, all of them. Else `Bad`, with the place at which the
/// first field begins that is cut short or outside its form; for a payload with bytes behind it,
/// that place is the payload's length, and for one of version 2 that holds no text, it is 0.
pub fn decode(alloc: Global, bytes: &[u8]) -> Result<Payload, DecodeFault>
    ensures read { Decoded result (payload_in bytes.now) }
    // What is read is so spelled.
    ensures spelled { IfOk result (λ p. (bytes.now ≡ spelling p) × FitsPayload p) }
    // What is so spelled is read.
    ensures only { (p : Payload) → FitsPayload p → bytes.now ≡ spelling p → Decoded result (Ok p) }
{
    spelled(alloc, bytes)
}
