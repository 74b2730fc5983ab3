//! The words of requests, replies, applied items and records.
ghost use Rattle.std.specs.Prelude.{◌≡◌, ◌++◌, OnOk, OnErr, codes};
ghost use Rattle.rp_base.specs.Keys.{key_text};
ghost use Rattle.rp_report.specs.Words.{spaced};
ghost use Rattle.rp_report.specs.Items.{span_end_text, request_text, reply_text, did_text, item_text, why_text, record_line};

use crate::words::{
    push_attempt, push_lease, push_spaced, push_spaced_key, push_spaced_value, push_spaced_wide,
    push_value_or_none,
};
use rp_base::{CmdId, Key, NoMemory, Text, push_key, push_number, push_word};
use rp_request::{Place, Record, Reply, Request, Why};

/// Where a span of keys ends.
fn push_span_end(out: &mut Text, end: Option<Key>) -> Result<(), NoMemory>
    ensures { OnOk result (out.new ≡ out.old ++ span_end_text end) }
{
    match end {
        Some(key) => push_spaced_key(out, key),
        None => push_word(out, " ~"),
    }
}

/// A word, which ends in a space, and a key.
fn push_word_key(out: &mut Text, word: &str, key: Key) -> Result<(), NoMemory>
    ensures { OnOk result (out.new ≡ out.old ++ word.now ++ key_text key) }
{
    push_word(out, word)?;
    push_key(out, key)
}

/// A request, as a script spells it.
fn spell_request(out: &mut Text, request: &Request) -> Result<(), NoMemory>
    ensures { OnOk result (out.new ≡ out.old ++ request_text request.now) }
{
    match request {
        Request::Put { key, value } => {
            push_word_key(out, "put ", *key)?;
            push_spaced_value(out, value)
        }
        Request::Add { key, by } => {
            push_word_key(out, "add ", *key)?;
            push_spaced(out, *by)
        }
        Request::CPut { key, expect, value } => {
            push_word_key(out, "cput ", *key)?;
            push_word(out, " ")?;
            push_value_or_none(out, expect)?;
            push_spaced_value(out, value)
        }
        Request::Del { key } => push_word_key(out, "del ", *key),
        Request::Wipe { span } => {
            push_word_key(out, "wipe ", span.start)?;
            push_span_end(out, span.end)
        }
        Request::Move { from, to, by } => {
            push_word_key(out, "move ", *from)?;
            push_spaced_key(out, *to)?;
            push_spaced(out, *by)
        }
        Request::Split { key } => push_word_key(out, "split ", *key),
    }
}

/// A reply.
pub fn spell_reply(out: &mut Text, reply: &Reply) -> Result<(), NoMemory>
    ensures { OnOk result (out.new ≡ out.old ++ reply_text reply.now) }
{
    match reply {
        Reply::Old(value) => push_value_or_none(out, value),
        Reply::Now(value) => push_number(out, *value),
        Reply::Set => push_word(out, "set"),
        Reply::Count(count) => push_number(out, *count),
        Reply::Range(right) => {
            push_word(out, "range")?;
            push_spaced(out, u64::from(right.get()))
        }
    }
}

/// What took effect: the attempt and the request.
fn push_did(out: &mut Text, id: CmdId, request: &Request) -> Result<(), NoMemory>
    ensures { OnOk result (out.new ≡ out.old ++ did_text id request.now) }
{
    push_attempt(out, id)?;
    push_word(out, " ")?;
    spell_request(out, request)
}

/// Under which lease.
fn push_under(out: &mut Text, seq: u64) -> Result<(), NoMemory>
    ensures { OnOk result (out.new ≡ out.old ++ codes " under" ++ spaced seq) }
{
    push_word(out, " under")?;
    push_spaced(out, seq)
}

/// The number of the right range.
fn push_right(out: &mut Text, right: u64) -> Result<(), NoMemory>
    ensures { OnOk result (out.new ≡ out.old ++ codes " right" ++ spaced right) }
{
    push_word(out, " right")?;
    push_spaced(out, right)
}

/// An applied item.
pub fn push_item(out: &mut Text, item: &Place) -> Result<(), NoMemory>
    ensures { OnOk result (out.new ≡ out.old ++ item_text item.now) }
{
    match item {
        Place::Write {
            id,
            request,
            seq,
            reply,
        } => {
            push_word(out, "write ")?;
            push_did(out, *id, request)?;
            push_under(out, seq.get())?;
            push_word(out, " ok ")?;
            spell_reply(out, reply)
        }
        Place::Split {
            id,
            key,
            right,
            seq,
        } => {
            push_word(out, "split ")?;
            push_attempt(out, *id)?;
            push_spaced_key(out, *key)?;
            push_right(out, u64::from(right.get()))?;
            push_under(out, seq.get())
        }
        Place::Lease(lease) => {
            push_word(out, "lease ")?;
            push_lease(out, *lease)
        }
    }
}

/// Appends the request as a script spells it, or nothing.
pub fn push_request(out: &mut Text, request: &Request) -> Result<(), NoMemory>
    ensures ok { OnOk result (out.new ≡ out.old ++ request_text request.now) }
    ensures err { OnErr result (out.new ≡ out.old) }
{
    let mut text = Text::new(out.alloc());
    spell_request(&mut text, request)?;
    out.append(text)
}

/// Appends the reply, or nothing.
pub fn push_reply(out: &mut Text, reply: &Reply) -> Result<(), NoMemory>
    ensures ok { OnOk result (out.new ≡ out.old ++ reply_text reply.now) }
    ensures err { OnErr result (out.new ≡ out.old) }
{
    let mut text = Text::new(out.alloc());
    spell_reply(&mut text, reply)?;
    out.append(text)
}

/// Why an entry was passed over.
pub fn why_word(why: Why) -> &'static str
    ensures { result.now ≡ why_text why }
{
    match why {
        Why::Nothing => "nothing",
        Why::OldLease => "old-lease",
        Why::OldIndex => "old-index",
        Why::LeaseMoved => "lease-moved",
    }
}

/// The line of the record at an index.
pub fn push_record(out: &mut Text, index: u128, kept: &Record) -> Result<(), NoMemory>
    ensures { OnOk result (out.new ≡ out.old ++ record_line index kept.now) }
{
    match kept {
        Record::Took(item) => {
            push_word(out, "place")?;
            push_spaced_wide(out, index)?;
            push_word(out, " ")?;
            push_item(out, item)?;
            push_word(out, "\n")
        }
        Record::Passed(why) => {
            push_word(out, "pass")?;
            push_spaced_wide(out, index)?;
            push_word(out, " ")?;
            push_word(out, why_word(*why))?;
            push_word(out, "\n")
        }
    }
}
