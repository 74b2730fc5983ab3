//! Words that are read one after another.
ghost use Rattle.std.specs.Prelude.{◌≡◌, ◌≤◌, ◌<◌, ◌^◌, ◌-◌, true, false, IfOk, OnOk, MatchResult};
ghost use Rattle.rp_base.specs.ClientCounts.{count_of};
ghost use Rattle.rp_base.specs.ShortTexts.{text_of};
ghost use Rattle.rp_script.specs.Readers.{bad_word, behind, is_whole, number_in, number_at, any_number_at, seq_at, as_text, value_in, value_at, key_in, key_at, expect_at, bound_in, span_at};

use crate::faults::{BadWord, LineKind, bad_word};
use crate::words::Words;
use rp_base::{
    ClientCounts, Key, KeySpan, NodeId, NumberFault, RangeId, ShortText, Value, read_u64,
};

/// Reads a number from `low` to `high`, which is word `at` of its line.
#[tactic(auto, unfolding(crate::specs::Readers::number_in))]
fn number_in(word: &[u8], at: u32, low: u64, high: u64) -> Result<u64, BadWord>
    ensures value { result ≡ number_in at low high word.now }
    ensures from { IfOk result (λ n. low ≤ n) }
    ensures to { IfOk result (λ n. n ≤ high) }
{
    match read_u64(word) {
        Ok(number) if low <= number && number <= high => Ok(number),
        Ok(_) | Err(NumberFault::TooLarge) => Err(bad_word(at, LineKind::OutOfRange)),
        Err(NumberFault::NotNumber { .. }) => Err(bad_word(at, LineKind::NotNumber)),
    }
}

/// Reads a key, which is word `at` of its line.
#[tactic(auto, unfolding(crate::specs::Readers::key_in))]
fn key_in(word: &[u8], at: u32) -> Result<Key, BadWord>
    ensures { result ≡ key_in at word.now }
{
    match Key::read(word) {
        Ok(key) => Ok(key),
        Err(_) => Err(bad_word(at, LineKind::BadKey)),
    }
}

/// Reads the bytes of a text, behind the apostrophe of word `at` of its line.
fn text_in(text: &[u8], at: u32) -> Result<Value, BadWord>
    ensures { result ≡ as_text at (text_of text.now) }
{
    match ShortText::read(text) {
        Ok(text) => Ok(Value::Text(text)),
        Err(_) => Err(bad_word(at, LineKind::BadText)),
    }
}

/// Reads a value, which is word `at` of its line: behind an apostrophe a text, else a number.
#[tactic(auto, unfolding(crate::specs::Readers::value_in))]
fn value_in(word: &[u8], at: u32) -> Result<Value, BadWord>
    ensures { result ≡ value_in at word.now }
{
    match word {
        [b'\'', text @ ..] => text_in(text, at),
        _ => Ok(Value::Number(number_in(word, at, 0, u64::MAX)?)),
    }
}

/// Reads the end of a span, a key or `~` for the end of the key space.
#[tactic(auto, unfolding(crate::specs::Readers::bound_in))]
fn bound_in(word: &[u8], at: u32) -> Result<Option<Key>, BadWord>
    ensures { result ≡ bound_in at word.now }
{
    if word == b"~".as_slice() {
        return Ok(None);
    }
    Ok(Some(key_in(word, at)?))
}

/// Nothing follows the last word, which stands before word `at`.
pub fn end_at(words: &mut Words, at: u32) -> Result<(), BadWord>
    ensures whole { MatchResult result (λ _. is_whole words.old ≡ true)
        (λ e. (is_whole words.old ≡ false) × (e ≡ bad_word at LineKind.ExtraWord)) }
{
    match words.next() {
        None => Ok(()),
        Some(_) => Err(bad_word(at, LineKind::ExtraWord)),
    }
}

/// Reads word `at`, a number from `low` to `high`.
#[tactic(auto, unfolding(crate::specs::Readers::number_at))]
pub fn number_at(words: &mut Words, at: u32, low: u64, high: u64) -> Result<u64, BadWord>
    ensures value { result ≡ number_at at low high words.old }
    ensures rest { OnOk result (words.new ≡ behind words.old) }
    ensures from { IfOk result (λ n. low ≤ n) }
    ensures to { IfOk result (λ n. n ≤ high) }
{
    match words.next() {
        None => Err(bad_word(at, LineKind::MissingWord)),
        Some(word) => number_in(word, at, low, high),
    }
}

/// Reads word `at`, a number of 64 bits.
pub fn any_number_at(words: &mut Words, at: u32) -> Result<u64, BadWord>
    ensures value { result ≡ any_number_at at words.old }
    ensures rest { OnOk result (words.new ≡ behind words.old) }
{
    number_at(words, at, 0, u64::MAX)
}

/// Reads word `at`, a node of a cluster of so many.
pub fn node_at(words: &mut Words, at: u32, nodes: u8) -> Result<NodeId, BadWord>
    requires { nodes ≤ 5 }
    ensures value { result ≡ number_at at 1 nodes words.old }
    ensures rest { OnOk result (words.new ≡ behind words.old) }
{
    let number = number_at(words, at, 1, u64::from(nodes))?;
    Ok(NodeId::new(number as u8).unwrap())
}

/// Reads word `at`, a range.
pub fn range_at(words: &mut Words, at: u32) -> Result<RangeId, BadWord>
    ensures value { result ≡ number_at at 0 7 words.old }
    ensures rest { OnOk result (words.new ≡ behind words.old) }
{
    let number = number_at(words, at, 0, 7)?;
    Ok(RangeId::new(number as u8).unwrap())
}

/// Reads word `at`, a client.
pub fn client_at(words: &mut Words, at: u32) -> Result<u16, BadWord>
    ensures value { result ≡ number_at at 1 64 words.old }
    ensures rest { OnOk result (words.new ≡ behind words.old) }
    ensures from { IfOk result (λ n. 1 ≤ n) }
    ensures to { IfOk result (λ n. n ≤ 64) }
{
    let number = number_at(words, at, 1, 64)?;
    Ok(number as u16)
}

/// Reads word `at`, the number of one of so many commands.
#[tactic(auto, unfolding(crate::specs::Readers::seq_at))]
fn number_of_sent_at(words: &mut Words, at: u32, count: u32) -> Result<u32, BadWord>
    ensures value { result ≡ seq_at at count words.old }
    ensures rest { OnOk result (words.new ≡ behind words.old) }
{
    let Some(word) = words.next() else {
        return Err(bad_word(at, LineKind::MissingWord));
    };
    let number = number_in(word, at, 1, u64::MAX)?;
    if number > u64::from(count) {
        return Err(bad_word(at, LineKind::NotSent));
    }
    Ok(number as u32)
}

/// Reads word `at`, the number of a command of the client, given how many each client has.
pub fn seq_at(
    words: &mut Words,
    at: u32,
    commands: &ClientCounts,
    client: u16,
) -> Result<u32, BadWord>
    requires from { 1 ≤ client }
    requires to { client ≤ 64 }
    ensures value { result ≡ seq_at at (count_of commands.now client) words.old }
    ensures rest { OnOk result (words.new ≡ behind words.old) }
{
    number_of_sent_at(words, at, commands.get(client))
}

/// Reads word `at`, a key.
#[tactic(auto, unfolding(crate::specs::Readers::key_at))]
pub fn key_at(words: &mut Words, at: u32) -> Result<Key, BadWord>
    ensures value { result ≡ key_at at words.old }
    ensures rest { OnOk result (words.new ≡ behind words.old) }
{
    match words.next() {
        None => Err(bad_word(at, LineKind::MissingWord)),
        Some(word) => key_in(word, at),
    }
}

/// Reads word `at`, a value.
#[tactic(auto, unfolding(crate::specs::Readers::value_at))]
pub fn value_at(words: &mut Words, at: u32) -> Result<Value, BadWord>
    ensures value { result ≡ value_at at words.old }
    ensures rest { OnOk result (words.new ≡ behind words.old) }
{
    match words.next() {
        None => Err(bad_word(at, LineKind::MissingWord)),
        Some(word) => value_in(word, at),
    }
}

/// Reads word `at`, an expected value: `none`, or a value.
#[tactic(auto, unfolding(crate::specs::Readers::expect_at))]
pub fn expect_at(words: &mut Words, at: u32) -> Result<Option<Value>, BadWord>
    ensures value { result ≡ expect_at at words.old }
    ensures rest { OnOk result (words.new ≡ behind words.old) }
{
    let Some(word) = words.next() else {
        return Err(bad_word(at, LineKind::MissingWord));
    };
    if word == b"none".as_slice() {
        return Ok(None);
    }
    Ok(Some(value_in(word, at)?))
}

/// Reads word `at`, the end of the span that begins at this key.
#[tactic(auto, unfolding(crate::specs::Readers::span_at))]
pub fn span_at(words: &mut Words, at: u32, start: Key) -> Result<KeySpan, BadWord>
    ensures value { result ≡ span_at at start words.old }
    ensures rest { OnOk result (words.new ≡ behind words.old) }
{
    let Some(word) = words.next() else {
        return Err(bad_word(at, LineKind::MissingWord));
    };
    let end = bound_in(word, at)?;
    match KeySpan::new(start, end) {
        Some(span) => Ok(span),
        None => Err(bad_word(at, LineKind::BadSpan)),
    }
}
