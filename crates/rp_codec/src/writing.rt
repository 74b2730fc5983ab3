//! Payloads, written as bytes.
ghost use Rattle.std.specs.Prelude.{◌≡◌, ◌<◌, ◌^◌, ◌≤◌, ◌∷◌, ◌++◌, [], length, Bool, Some, IfOk, OnOk};
ghost use Rattle.std.specs.List.{flat_map, AllByRecursion};
ghost use Rattle.std.specs.Int.{w64, to_be_bytes};
ghost use Rattle.rp_base.specs.Keys.{IsKey};
ghost use Rattle.rp_base.specs.Values.{IsValue};
ghost use Rattle.rp_base.specs.ShortTexts.{IsText};
ghost use Rattle.rp_request.specs.Texts.{payload_has_text};
ghost use Rattle.rp_request.specs.Fits.{FitsOption, FitsEnd, FitsSpan, FitsRequest, FitsReply, FitsOp, FitsBatch, FitsId, FitsCommand, FitsAsk, FitsPayload};
ghost use Rattle.rp_codec.specs.Reading.{payload_in};
ghost use Rattle.rp_codec.specs.Spelling.{text_bytes, tagged_bytes, plain_bytes, value_bytes, key_bytes, option_bytes, end_bytes, span_bytes, request_bytes, reply_bytes, op_bytes, batch_bytes, id_bytes, command_bytes, ask_bytes, payload_bytes, spelling};

use crate::texts::payload_has_text;
use rp_base::{Bytes, CmdId, Key, KeySpan, LeaseAsk, NoMemory, RangeId, ShortText, Value};
use rp_request::{Batch, Command, Op, Payload, Reply, Request};
use std::alloc::Global;

fn push_number(out: &mut Vec<u8>, number: u64) -> Result<(), NoMemory>
    ensures bytes { OnOk result (out.new.items ≡ out.old.items ++ to_be_bytes w64 number) }
    ensures fits { OnOk result (number < 2 ^ 64) }
{
    out.extend_from_slice(&number.to_be_bytes())?;
    Ok(())
}

#[tactic(auto, unfolding(crate::specs::Spelling::text_bytes))]
fn push_text(out: &mut Vec<u8>, text: &ShortText) -> Result<(), NoMemory>
    ensures bytes { OnOk result (out.new.items ≡ out.old.items ++ text_bytes text.now) }
    ensures fits { OnOk result (IsText text.now) }
{
    out.push(text.len())?;
    out.extend_from_slice(text.as_bytes())?;
    Ok(())
}

/// Appends a value with its kind.
#[tactic(auto, unfolding(crate::specs::Spelling::tagged_bytes))]
fn push_tagged(out: &mut Vec<u8>, value: &Value) -> Result<(), NoMemory>
    ensures bytes { OnOk result (out.new.items ≡ out.old.items ++ tagged_bytes value.now) }
    ensures fits { OnOk result (IsValue value.now) }
{
    match value {
        Value::Number(number) => {
            out.push(0)?;
            push_number(out, *number)
        }
        Value::Text(text) => {
            out.push(1)?;
            push_text(out, text)
        }
    }
}

/// Appends a value without its kind: a number, or nothing for a text.
#[tactic(auto, unfolding(crate::specs::Spelling::plain_bytes))]
fn push_plain(out: &mut Vec<u8>, value: &Value) -> Result<(), NoMemory>
    ensures bytes { OnOk result (out.new.items ≡ out.old.items ++ plain_bytes value.now) }
    ensures fits { OnOk result (IsValue value.now) }
{
    match value {
        Value::Number(number) => push_number(out, *number),
        Value::Text(text) => {
            // No byte of a text is written; its bytes are good ones all the same.
            let _good = text.as_bytes();
            Ok(())
        }
    }
}

/// Appends a value, with its kind where texts may stand.
#[tactic(auto, unfolding(crate::specs::Spelling::value_bytes))]
fn push_value(out: &mut Vec<u8>, texts: bool, value: &Value) -> Result<(), NoMemory>
    ensures bytes { OnOk result (out.new.items ≡ out.old.items ++ value_bytes texts value.now) }
    ensures fits { OnOk result (IsValue value.now) }
{
    if texts {
        push_tagged(out, value)
    } else {
        push_plain(out, value)
    }
}

#[tactic(auto, unfolding(crate::specs::Spelling::key_bytes))]
fn push_key(out: &mut Vec<u8>, key: Key) -> Result<(), NoMemory>
    ensures bytes { OnOk result (out.new.items ≡ out.old.items ++ key_bytes key) }
    ensures fits { OnOk result (IsKey key) }
{
    let len = key.text_len();
    let bytes = key.to_bytes();
    out.push(len as u8)?;
    out.extend_from_slice(&bytes[..len])?;
    Ok(())
}

#[tactic(auto, unfolding(crate::specs::Spelling::option_bytes))]
fn push_option(out: &mut Vec<u8>, texts: bool, option: &Option<Value>) -> Result<(), NoMemory>
    ensures bytes { OnOk result (out.new.items ≡ out.old.items ++ option_bytes texts option.now) }
    ensures fits { OnOk result (FitsOption option.now) }
{
    match option {
        None => out.push(0)?,
        Some(value) => {
            out.push(1)?;
            push_value(out, texts, value)?;
        }
    }
    Ok(())
}

#[tactic(auto, unfolding(crate::specs::Spelling::id_bytes))]
fn push_id(out: &mut Vec<u8>, id: CmdId) -> Result<(), NoMemory>
    ensures bytes { OnOk result (out.new.items ≡ out.old.items ++ id_bytes id) }
    ensures fits { OnOk result (FitsId id) }
{
    out.extend_from_slice(&id.client.to_be_bytes())?;
    out.extend_from_slice(&id.seq.to_be_bytes())?;
    out.extend_from_slice(&id.attempt.to_be_bytes())?;
    Ok(())
}

#[tactic(auto, unfolding(crate::specs::Spelling::end_bytes))]
fn push_end(out: &mut Vec<u8>, end: Option<Key>) -> Result<(), NoMemory>
    ensures bytes { OnOk result (out.new.items ≡ out.old.items ++ end_bytes end) }
    ensures fits { OnOk result (FitsEnd end) }
{
    match end {
        None => out.push(255)?,
        Some(key) => push_key(out, key)?,
    }
    Ok(())
}

#[tactic(auto, unfolding(crate::specs::Spelling::span_bytes))]
fn push_span(out: &mut Vec<u8>, span: KeySpan) -> Result<(), NoMemory>
    ensures bytes { OnOk result (out.new.items ≡ out.old.items ++ span_bytes span) }
    ensures fits { OnOk result (FitsSpan span) }
{
    push_key(out, span.start)?;
    push_end(out, span.end)
}

/// Appends a tag, a key and a value.
fn push_with_value(
    out: &mut Vec<u8>,
    texts: bool,
    tag: u8,
    key: Key,
    value: &Value,
) -> Result<(), NoMemory>
    ensures bytes { OnOk result (out.new.items ≡ out.old.items ++ tag ∷ (key_bytes key ++ value_bytes texts value.now)) }
    ensures fits { OnOk result (IsKey key × IsValue value.now) }
{
    out.push(tag)?;
    push_key(out, key)?;
    push_value(out, texts, value)
}

/// Appends a tag and a key.
fn push_with_key(out: &mut Vec<u8>, tag: u8, key: Key) -> Result<(), NoMemory>
    ensures bytes { OnOk result (out.new.items ≡ out.old.items ++ tag ∷ key_bytes key) }
    ensures fits { OnOk result (IsKey key) }
{
    out.push(tag)?;
    push_key(out, key)
}

/// Appends a tag and a number.
fn push_with_number(out: &mut Vec<u8>, tag: u8, number: u64) -> Result<(), NoMemory>
    ensures bytes { OnOk result (out.new.items ≡ out.old.items ++ tag ∷ to_be_bytes w64 number) }
    ensures fits { OnOk result (number < 2 ^ 64) }
{
    out.push(tag)?;
    push_number(out, number)
}

#[tactic(auto, unfolding(crate::specs::Spelling::request_bytes))]
fn push_add(out: &mut Vec<u8>, key: Key, by: u64) -> Result<(), NoMemory>
    ensures bytes { OnOk result (out.new.items ≡ out.old.items ++ 2 ∷ (key_bytes key ++ to_be_bytes w64 by)) }
    ensures fits { OnOk result (FitsRequest (Request.Add key by)) }
{
    push_with_key(out, 2, key)?;
    push_number(out, by)
}

#[tactic(auto, unfolding(crate::specs::Spelling::request_bytes))]
fn push_cput(
    out: &mut Vec<u8>,
    texts: bool,
    key: Key,
    expect: &Option<Value>,
    value: &Value,
) -> Result<(), NoMemory>
    ensures bytes { OnOk result (out.new.items ≡ out.old.items ++ request_bytes texts (Request.CPut key expect.now value.now)) }
    ensures fits { OnOk result (FitsRequest (Request.CPut key expect.now value.now)) }
{
    push_with_key(out, 3, key)?;
    push_option(out, texts, expect)?;
    push_value(out, texts, value)
}

#[tactic(auto, unfolding(crate::specs::Spelling::request_bytes))]
fn push_wipe(out: &mut Vec<u8>, span: KeySpan) -> Result<(), NoMemory>
    ensures bytes { OnOk result (out.new.items ≡ out.old.items ++ 5 ∷ span_bytes span) }
    ensures fits { OnOk result (FitsRequest (Request.Wipe span)) }
{
    out.push(5)?;
    push_span(out, span)
}

#[tactic(auto, unfolding(crate::specs::Spelling::request_bytes))]
fn push_move(out: &mut Vec<u8>, from: Key, to: Key, by: u64) -> Result<(), NoMemory>
    ensures bytes { OnOk result (out.new.items ≡ out.old.items ++ 6 ∷ (key_bytes from ++ key_bytes to ++ to_be_bytes w64 by)) }
    ensures fits { OnOk result (FitsRequest (Request.Move from to by)) }
{
    push_with_key(out, 6, from)?;
    push_key(out, to)?;
    push_number(out, by)
}

#[tactic(auto, unfolding(crate::specs::Spelling::request_bytes))]
fn push_request(out: &mut Vec<u8>, texts: bool, request: &Request) -> Result<(), NoMemory>
    ensures bytes { OnOk result (out.new.items ≡ out.old.items ++ request_bytes texts request.now) }
    ensures fits { OnOk result (FitsRequest request.now) }
{
    match request {
        Request::Put { key, value } => push_with_value(out, texts, 1, *key, value),
        Request::Add { key, by } => push_add(out, *key, *by),
        Request::CPut { key, expect, value } => push_cput(out, texts, *key, expect, value),
        Request::Del { key } => push_with_key(out, 4, *key),
        Request::Wipe { span } => push_wipe(out, *span),
        Request::Move { from, to, by } => push_move(out, *from, *to, *by),
        Request::Split { key } => push_with_key(out, 7, *key),
    }
}

#[tactic(auto, unfolding(crate::specs::Spelling::reply_bytes))]
fn push_old(out: &mut Vec<u8>, texts: bool, value: &Option<Value>) -> Result<(), NoMemory>
    ensures bytes { OnOk result (out.new.items ≡ out.old.items ++ reply_bytes texts (Reply.Old value.now)) }
    ensures fits { OnOk result (FitsReply (Reply.Old value.now)) }
{
    out.push(1)?;
    push_option(out, texts, value)
}

#[tactic(auto, unfolding(crate::specs::Spelling::reply_bytes))]
fn push_range(out: &mut Vec<u8>, range: RangeId) -> Result<(), NoMemory>
    ensures bytes { OnOk result (out.new.items ≡ out.old.items ++ 5 ∷ range ∷ []) }
    ensures fits { OnOk result (FitsReply (Reply.Range range)) }
{
    out.push(5)?;
    out.push(range.get())?;
    Ok(())
}

#[tactic(auto, unfolding(crate::specs::Spelling::reply_bytes))]
fn push_set(out: &mut Vec<u8>) -> Result<(), NoMemory>
    ensures { OnOk result (out.new.items ≡ out.old.items ++ 3 ∷ []) }
{
    out.push(3)?;
    Ok(())
}

#[tactic(auto, unfolding(crate::specs::Spelling::reply_bytes))]
fn push_reply(out: &mut Vec<u8>, texts: bool, reply: &Reply) -> Result<(), NoMemory>
    ensures bytes { OnOk result (out.new.items ≡ out.old.items ++ reply_bytes texts reply.now) }
    ensures fits { OnOk result (FitsReply reply.now) }
{
    match reply {
        Reply::Old(value) => push_old(out, texts, value),
        Reply::Now(number) => push_with_number(out, 2, *number),
        Reply::Set => push_set(out),
        Reply::Count(number) => push_with_number(out, 4, *number),
        Reply::Range(range) => push_range(out, *range),
    }
}

#[tactic(auto, unfolding(crate::specs::Spelling::op_bytes))]
fn push_op(out: &mut Vec<u8>, texts: bool, op: &Op) -> Result<(), NoMemory>
    ensures bytes { OnOk result (out.new.items ≡ out.old.items ++ op_bytes texts op.now) }
    ensures fits { OnOk result (FitsOp op.now) }
{
    match op {
        Op::Set { key, value } => push_with_value(out, texts, 1, *key, value),
        Op::Remove { key } => push_with_key(out, 2, *key),
    }
}

fn push_ops(out: &mut Vec<u8>, texts: bool, ops: &[Op]) -> Result<(), NoMemory>
    ensures bytes { OnOk result (out.new.items ≡ out.old.items ++ flat_map (op_bytes texts) ops.now) }
    ensures fits { OnOk result (AllByRecursion FitsOp ops.now) }
{
    for op in ops {
        push_op(out, texts, op)?;
    }
    Ok(())
}

#[tactic(auto, unfolding(crate::specs::Spelling::batch_bytes))]
fn push_batch(out: &mut Vec<u8>, texts: bool, batch: &Batch) -> Result<(), NoMemory>
    ensures bytes { OnOk result (out.new.items ≡ out.old.items ++ batch_bytes texts batch.now) }
    ensures fits { OnOk result (FitsBatch batch.now) }
{
    let ops = batch.as_slice();
    out.push(ops.len() as u8)?;
    push_ops(out, texts, ops)
}

/// Appends an attempt, a lease sequence and a maximum.
fn push_head(out: &mut Vec<u8>, command: &Command) -> Result<(), NoMemory>
    ensures bytes { OnOk result (out.new.items ≡ out.old.items ++ (id_bytes command.now.id ++ to_be_bytes w64 command.now.seq ++ to_be_bytes w64 command.now.max)) }
    ensures fits { OnOk result (FitsId command.now.id × (command.now.seq < 2 ^ 64) × (command.now.max < 2 ^ 64)) }
{
    push_id(out, command.id)?;
    push_number(out, command.seq.get())?;
    push_number(out, command.max.get())
}

#[tactic(auto, unfolding(crate::specs::Spelling::command_bytes))]
fn push_command(out: &mut Vec<u8>, texts: bool, command: &Command) -> Result<(), NoMemory>
    ensures bytes { OnOk result (out.new.items ≡ out.old.items ++ command_bytes texts command.now) }
    ensures fits { OnOk result (FitsCommand command.now) }
{
    push_head(out, command)?;
    push_request(out, texts, &command.request)?;
    push_reply(out, texts, &command.reply)?;
    push_batch(out, texts, &command.batch)
}

#[tactic(auto, unfolding(crate::specs::Spelling::ask_bytes))]
fn push_ask(out: &mut Vec<u8>, ask: LeaseAsk) -> Result<(), NoMemory>
    ensures bytes { OnOk result (out.new.items ≡ out.old.items ++ ask_bytes ask) }
    ensures fits { OnOk result (FitsAsk ask) }
{
    out.push(ask.holder.get())?;
    push_number(out, ask.prev.get())?;
    push_number(out, ask.expires.get())
}

/// Appends a payload as a version spells it.
#[tactic(auto, unfolding(crate::specs::Spelling::payload_bytes))]
fn push_by(out: &mut Vec<u8>, texts: bool, payload: &Payload) -> Result<(), NoMemory>
    ensures bytes { OnOk result (out.new.items ≡ out.old.items ++ payload_bytes texts payload.now) }
    ensures fits { OnOk result (FitsPayload payload.now) }
{
    out.push(if texts { 2 } else { 1 })?;
    match payload {
        Payload::Nothing => out.push(0)?,
        Payload::Write(command) => {
            out.push(1)?;
            push_command(out, texts, command)?;
        }
        Payload::Lease(ask) => {
            out.push(2)?;
            push_ask(out, *ask)?;
        }
    }
    Ok(())
}

#[tactic(auto, unfolding(crate::specs::Spelling::spelling))]
fn push_payload(out: &mut Vec<u8>, payload: &Payload) -> Result<(), NoMemory>
    ensures bytes { OnOk result (out.new.items ≡ out.old.items ++ spelling payload.now) }
    ensures fits { OnOk result (FitsPayload payload.now) }
{
    push_by(out, payload_has_text(payload), payload)
}

/// The one spelling of a payload: of version 2 where it holds a text, and else of version 1.
pub fn encode(alloc: Global, payload: &Payload) -> Result<Bytes, NoMemory>
    ensures spelling { IfOk result (λ bytes. bytes ≡ spelling payload.now) }
    ensures fits { OnOk result (FitsPayload payload.now) }
    // It is read back.
    ensures read { IfOk result (λ bytes. payload_in bytes ≡ Ok payload.now) }
{
    let mut out = Vec::new(alloc);
    push_payload(&mut out, payload)?;
    Ok(Bytes::from_vec(out))
}
