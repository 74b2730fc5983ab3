//! The texts of notes.
ghost use Rattle.std.specs.Prelude.{◌≡◌, ◌++◌, codes, OnOk, IfOk};
ghost use Rattle.rp_report.specs.Words.{spaced, spaced_key, value_or_none};
ghost use Rattle.rp_report.specs.Notes.{held_text, not_holder_text, peek_text};

use rp_base::{Key, Lease, NoMemory, Text, Tick, Value, push_word};
use rp_report::{push_spaced, push_spaced_key, push_value_or_none};
use std::alloc::Global;

/// A text that holds these words.
pub(crate) fn text_of(alloc: Global, words: &str) -> Result<Text, NoMemory>
    ensures { IfOk result (λ text. text ≡ words.now) }
{
    let mut text = Text::new(alloc);
    push_word(&mut text, words)?;
    Ok(text)
}

/// Puts a word at the end, with two numbers behind it.
fn push_two(out: &mut Text, word: &str, first: u64, second: u64) -> Result<(), NoMemory>
    ensures { OnOk result (out.new ≡ out.old ++ (word.now ++ spaced first ++ spaced second)) }
{
    push_word(out, word)?;
    push_spaced(out, first)?;
    push_spaced(out, second)
}

/// Who holds the lease, to a node that does not.
pub(crate) fn not_holder_text(alloc: Global, lease: &Lease) -> Result<Text, NoMemory>
    ensures { IfOk result (λ text. text ≡ not_holder_text lease.now) }
{
    let mut text = Text::new(alloc);
    let holder = u64::from(lease.holder.get());
    push_two(&mut text, "not-lease-holder", holder, lease.seq.get())?;
    Ok(text)
}

/// Which lease of another node has not run out at this tick.
pub(crate) fn held_text(alloc: Global, lease: &Lease, ticks: Tick) -> Result<Text, NoMemory>
    ensures { IfOk result (λ text. text ≡ held_text lease.now ticks) }
{
    let mut text = Text::new(alloc);
    let holder = u64::from(lease.holder.get());
    push_two(&mut text, "lease-held", holder, lease.seq.get())?;
    push_spaced(&mut text, lease.expires.get())?;
    push_spaced(&mut text, ticks.get())?;
    Ok(text)
}

/// The word `peek`, and a key behind a space.
fn push_peek(out: &mut Text, key: Key) -> Result<(), NoMemory>
    ensures { OnOk result (out.new ≡ out.old ++ (codes "peek" ++ spaced_key key)) }
{
    push_word(out, "peek")?;
    push_spaced_key(out, key)
}

/// A value behind a space.
fn push_spaced_value(out: &mut Text, value: Option<Value>) -> Result<(), NoMemory>
    ensures { OnOk result (out.new ≡ out.old ++ (codes " " ++ value_or_none value)) }
{
    push_word(out, " ")?;
    push_value_or_none(out, &value)
}

/// The word `applied`, and an index behind a space.
fn push_applied(out: &mut Text, index: u64) -> Result<(), NoMemory>
    ensures { OnOk result (out.new ≡ out.old ++ (codes " applied" ++ spaced index)) }
{
    push_word(out, " applied")?;
    push_spaced(out, index)
}

/// What a peek tells: the key, its applied value, and the applied index.
pub(crate) fn peek_text(
    alloc: Global,
    key: Key,
    value: Option<Value>,
    applied: u64,
) -> Result<Text, NoMemory>
    ensures { IfOk result (λ text. text ≡ peek_text key value applied) }
{
    let mut text = Text::new(alloc);
    push_peek(&mut text, key)?;
    push_spaced_value(&mut text, value)?;
    push_applied(&mut text, applied)?;
    Ok(text)
}
