//! The fields of payloads, read from the front.
ghost use Rattle.std.specs.Prelude.{◌≡◌, ◌≤◌, IfOk};
ghost use Rattle.std.specs.Int.{w16, w32, w64};
ghost use Rattle.rp_codec.specs.Reading.{Reads, byte_in, number_at, text_parts, text_at, plain_at, kind_of, tagged_at, value_at, key_at, option_at, end_at, span_at, key_parts, option_parts, span_parts, byte_parts};

use crate::cursors::Cursor;
use crate::faults::BadField;
use rp_base::{Key, KeySpan, ShortText, Value};

#[tactic(auto, unfolding(crate::specs::Reading::byte_parts))]
fn byte_parts(cursor: &mut Cursor, low: u8, high: u8) -> Result<u8, BadField>
    ensures value { Reads result cursor.new (byte_parts low high cursor.old) }
    ensures from { IfOk result (λ b. low ≤ b) }
    ensures to { IfOk result (λ b. b ≤ high) }
{
    let byte = cursor.byte()?;
    if low <= byte && byte <= high {
        Ok(byte)
    } else {
        Err(cursor.bad())
    }
}

/// Reads one byte from `low` to `high`.
#[tactic(auto, unfolding(crate::specs::Reading::byte_in))]
pub fn byte_in(cursor: &mut Cursor, low: u8, high: u8) -> Result<u8, BadField>
    ensures value { Reads result cursor.new (byte_in low high cursor.old) }
    ensures from { IfOk result (λ b. low ≤ b) }
    ensures to { IfOk result (λ b. b ≤ high) }
{
    let field = cursor.bad();
    match byte_parts(cursor, low, high) {
        Ok(byte) => Ok(byte),
        Err(_) => Err(field),
    }
}

/// Reads a number of 2 bytes.
#[tactic(auto, unfolding(crate::specs::Reading::number_at))]
pub fn number16(cursor: &mut Cursor) -> Result<u16, BadField>
    ensures { Reads result cursor.new (number_at w16 cursor.old) }
{
    let bytes = cursor.bytes(2)?;
    Ok(u16::from_be_bytes([bytes[0], bytes[1]]))
}

/// Reads a number of 4 bytes.
#[tactic(auto, unfolding(crate::specs::Reading::number_at))]
pub fn number32(cursor: &mut Cursor) -> Result<u32, BadField>
    ensures { Reads result cursor.new (number_at w32 cursor.old) }
{
    let bytes = cursor.bytes(4)?;
    Ok(u32::from_be_bytes([bytes[0], bytes[1], bytes[2], bytes[3]]))
}

/// Reads a number of 8 bytes.
#[tactic(auto, unfolding(crate::specs::Reading::number_at))]
pub fn number64(cursor: &mut Cursor) -> Result<u64, BadField>
    ensures { Reads result cursor.new (number_at w64 cursor.old) }
{
    let bytes = cursor.bytes(8)?;
    Ok(u64::from_be_bytes([
        bytes[0], bytes[1], bytes[2], bytes[3], bytes[4], bytes[5], bytes[6], bytes[7],
    ]))
}

#[tactic(auto, unfolding(crate::specs::Reading::text_parts))]
fn text_parts(cursor: &mut Cursor) -> Result<ShortText, BadField>
    ensures { Reads result cursor.new (text_parts cursor.old) }
{
    let len = cursor.byte()?;
    let bytes = cursor.bytes(usize::from(len))?;
    match ShortText::read(bytes) {
        Ok(text) => Ok(text),
        Err(_) => Err(cursor.bad()),
    }
}

/// Reads a text.
#[tactic(auto, unfolding(crate::specs::Reading::text_at))]
fn text(cursor: &mut Cursor) -> Result<ShortText, BadField>
    ensures { Reads result cursor.new (text_at cursor.old) }
{
    let field = cursor.bad();
    match text_parts(cursor) {
        Ok(text) => Ok(text),
        Err(_) => Err(field),
    }
}

/// Reads a value without its kind: a number.
#[tactic(auto, unfolding(crate::specs::Reading::plain_at))]
fn plain(cursor: &mut Cursor) -> Result<Value, BadField>
    ensures { Reads result cursor.new (plain_at cursor.old) }
{
    Ok(Value::Number(number64(cursor)?))
}

#[tactic(auto, unfolding(crate::specs::Reading::kind_of))]
fn kind_of(cursor: &mut Cursor, kind: u8) -> Result<Value, BadField>
    ensures { Reads result cursor.new (kind_of kind cursor.old) }
{
    if kind == 0 {
        return plain(cursor);
    }
    Ok(Value::Text(text(cursor)?))
}

/// Reads a value with its kind.
#[tactic(auto, unfolding(crate::specs::Reading::tagged_at))]
fn tagged(cursor: &mut Cursor) -> Result<Value, BadField>
    ensures { Reads result cursor.new (tagged_at cursor.old) }
{
    let kind = byte_in(cursor, 0, 1)?;
    kind_of(cursor, kind)
}

/// Reads a value, with its kind where texts may stand.
#[tactic(auto, unfolding(crate::specs::Reading::value_at))]
pub fn value(cursor: &mut Cursor, texts: bool) -> Result<Value, BadField>
    ensures { Reads result cursor.new (value_at texts cursor.old) }
{
    if texts { tagged(cursor) } else { plain(cursor) }
}

#[tactic(auto, unfolding(crate::specs::Reading::key_parts))]
fn key_parts(cursor: &mut Cursor) -> Result<Key, BadField>
    ensures { Reads result cursor.new (key_parts cursor.old) }
{
    let len = cursor.byte()?;
    let text = cursor.bytes(usize::from(len))?;
    match Key::read(text) {
        Ok(key) => Ok(key),
        Err(_) => Err(cursor.bad()),
    }
}

/// Reads a key.
#[tactic(auto, unfolding(crate::specs::Reading::key_at))]
pub fn key(cursor: &mut Cursor) -> Result<Key, BadField>
    ensures { Reads result cursor.new (key_at cursor.old) }
{
    let field = cursor.bad();
    match key_parts(cursor) {
        Ok(key) => Ok(key),
        Err(_) => Err(field),
    }
}

#[tactic(auto, unfolding(crate::specs::Reading::option_parts))]
fn option_parts(cursor: &mut Cursor, texts: bool) -> Result<Option<Value>, BadField>
    ensures { Reads result cursor.new (option_parts texts cursor.old) }
{
    if byte_in(cursor, 0, 1)? == 0 {
        return Ok(None);
    }
    Ok(Some(value(cursor, texts)?))
}

/// Reads a value that may be missing. Where no texts may stand, it is one field.
#[tactic(auto, unfolding(crate::specs::Reading::option_at))]
pub fn option(cursor: &mut Cursor, texts: bool) -> Result<Option<Value>, BadField>
    ensures { Reads result cursor.new (option_at texts cursor.old) }
{
    if texts {
        return option_parts(cursor, texts);
    }
    let field = cursor.bad();
    match option_parts(cursor, texts) {
        Ok(option) => Ok(option),
        Err(_) => Err(field),
    }
}

/// Reads the end of a span; none for the end of the key space.
#[tactic(auto, unfolding(crate::specs::Reading::end_at))]
fn end(cursor: &mut Cursor) -> Result<Option<Key>, BadField>
    ensures { Reads result cursor.new (end_at cursor.old) }
{
    if cursor.is_before(255) {
        cursor.byte()?;
        return Ok(None);
    }
    Ok(Some(key(cursor)?))
}

#[tactic(auto, unfolding(crate::specs::Reading::span_parts))]
fn span_parts(cursor: &mut Cursor) -> Result<KeySpan, BadField>
    ensures { Reads result cursor.new (span_parts cursor.old) }
{
    let start = key(cursor)?;
    let end = end(cursor)?;
    match KeySpan::new(start, end) {
        Some(span) => Ok(span),
        None => Err(cursor.bad()),
    }
}

/// Reads a span of keys.
#[tactic(auto, unfolding(crate::specs::Reading::span_at))]
pub fn span(cursor: &mut Cursor) -> Result<KeySpan, BadField>
    ensures { Reads result cursor.new (span_at cursor.old) }
{
    let field = cursor.bad();
    match span_parts(cursor) {
        Ok(span) => Ok(span),
        Err(_) => Err(field),
    }
}
