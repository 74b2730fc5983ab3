//! Members of JSON objects, and the texts that stand in them.
ghost use Rattle.std.specs.Prelude.{◌≡◌, IfOk, OnOk};
ghost use Rattle.serde_json.specs.Data.{string};
ghost use Rattle.serde_json.specs.Events.{SendsValue};
ghost use Rattle.rp_base.specs.Keys.{key_text, bound_text, IsShown};
ghost use Rattle.rp_report.specs.Outcomes.{end_text};
ghost use Rattle.rp_report.specs.Shown.{IsShownEnd};
ghost use Rattle.rp_report.specs.Json.{count, lease_value, record_text, value_value, SendsMember};

use crate::items::{push_item, why_word};
use crate::outcomes::spell_end;
use rp_base::{Key, Lease, NoMemory, Text, Value, push_bound, push_key, push_word};
use rp_request::{End, Record};
use serde::Serializer;
use std::alloc::Global;

/// A key and a number.
pub fn send_count<S: Serializer>(out: &mut S, key: &str, n: u64) -> Result<(), S::Error>
    ensures { OnOk result
        (SendsMember key.now (count n) (S.written out.old) (S.written out.new)) }
{
    out.key(key)?;
    out.u64(n)
}

/// A key and a number of up to 128 bits.
pub fn send_wide<S: Serializer>(out: &mut S, key: &str, n: u128) -> Result<(), S::Error>
    ensures { OnOk result
        (SendsMember key.now (count n) (S.written out.old) (S.written out.new)) }
{
    out.key(key)?;
    out.u128(n)
}

/// A key and a text.
pub fn send_text<S: Serializer>(out: &mut S, key: &str, text: &str) -> Result<(), S::Error>
    ensures { OnOk result
        (SendsMember key.now (string text.now) (S.written out.old) (S.written out.new)) }
{
    out.key(key)?;
    out.str(text)
}

/// A value: a number, or the text as it is.
pub fn send_value<S: Serializer>(out: &mut S, value: &Value) -> Result<(), S::Error>
    ensures { OnOk result
        (SendsValue (value_value value.now) (S.written out.old) (S.written out.new)) }
{
    match value {
        Value::Number(n) => out.u64(*n),
        Value::Text(text) => out.str(text.as_str()),
    }
}

/// The lease's holder, its number, and the tick at which it expires.
pub fn send_lease<S: Serializer>(out: &mut S, lease: Lease) -> Result<(), S::Error>
    ensures { OnOk result
        (SendsValue (lease_value lease) (S.written out.old) (S.written out.new)) }
{
    out.begin_seq(Some(3))?;
    out.u64(u64::from(lease.holder.get()))?;
    out.u64(lease.seq.get())?;
    out.u64(lease.expires.get())?;
    out.end_seq()
}

/// The key's spelling.
pub fn key_word(alloc: Global, key: Key) -> Result<Text, NoMemory>
    ensures { IfOk result (λ text. text ≡ key_text key) }
{
    let mut text = Text::new(alloc);
    push_key(&mut text, key)?;
    Ok(text)
}

/// The bound as it is shown.
pub fn bound_word(alloc: Global, bound: u128) -> Result<Text, NoMemory>
    requires { IsShown bound }
    ensures { IfOk result (λ text. text ≡ bound_text bound) }
{
    let mut text = Text::new(alloc);
    push_bound(&mut text, bound)?;
    Ok(text)
}

/// How an attempt ended.
pub fn end_words(alloc: Global, end: &End) -> Result<Text, NoMemory>
    requires { IsShownEnd end.now }
    ensures { IfOk result (λ text. text ≡ end_text end.now) }
{
    let mut text = Text::new(alloc);
    spell_end(&mut text, end)?;
    Ok(text)
}

/// What an entry did.
pub fn record_words(alloc: Global, kept: &Record) -> Result<Text, NoMemory>
    ensures { IfOk result (λ text. text ≡ record_text kept.now) }
{
    let mut text = Text::new(alloc);
    match kept {
        Record::Took(item) => push_item(&mut text, item)?,
        Record::Passed(why) => {
            push_word(&mut text, "pass ")?;
            push_word(&mut text, why_word(*why))?;
        }
    }
    Ok(text)
}
