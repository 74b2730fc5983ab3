//! The words of a text, and how each kind of word is read.
ghost use Rattle.std.specs.Prelude.{◌≡◌, ◌==◌, ◌≤◌, ◌+◌, ◌-◌, ◌^◌, not, [], ◌∷◌, codes, length, position, IfOk, IfSome, option_map, ◌<◌, MatchOption, MatchResult, Some, None};
ghost use Rattle.std.specs.List.{prefix_len};
ghost use Rattle.rp_request.specs.Words.{pieces};
ghost use Rattle.rp_reread.specs.Pieces.{behind_space, is_shortest};
ghost use Rattle.rp_reread.specs.Readers.{Reads, Tells, word_at, just, number_in, number_at, node_at, key_in, key_at, value_in, value_at, option_at, bound_in, bound_at, in_front, behind, command_in, attempt_at, text_told};
ghost use Rattle.rp_base.specs.Keys.{IsShown};
ghost use Rattle.rp_base.specs.ShortTexts.{text_of};

use crate::faults::NotRead;
use rp_base::{CmdId, Key, NodeId, ShortText, Value, read_u64};
use std::marker::Model;

/// The words of a text that are still to come: the pieces between its spaces. Contracts see them as a
/// list.
#[derive(Drop)]
pub struct Words<'a> {
    rest: Option<&'a [u8]>,
}

impl<'a> Model for Words<'a> {
    ghost use Rattle.std.specs.Prelude.{List, ℕ, option_map};
    ghost use Rattle.rp_reread.specs.Pieces.{left_in};

    ghost Value = { List (List ℕ) };

    ghost view = { λ w. left_in (option_map (λ rest. rest.now) w.rest) };
}

impl<'a> Words<'a> {
    /// All words of a text.
    pub fn new(text: &'a [u8]) -> Words<'a>
        ensures { result ≡ pieces text.entry.now }
    {
        Words { rest: Some(text) }
    }

    /// The next word; none where all have come.
    pub fn next(&mut self) -> Option<&'a [u8]>
        ensures { MatchOption result (self.old ≡ []) (λ word. self.old ≡ word.now ∷ self.new) }
    {
        let Some(text) = self.rest else {
            return None;
        };
        let len = word_len(text);
        let (word, from) = text.split_at(len);
        self.rest = behind_space(from);
        Some(word)
    }

    /// The next word.
    #[tactic(auto, unfolding(crate::specs::Readers::word_at))]
    pub fn word(&mut self) -> Result<&'a [u8], NotRead>
        ensures { MatchResult result (λ word. word_at self.old ≡ Some (word.now, self.new))
            (λ _. word_at self.old ≡ None) }
    {
        match self.next() {
            Some(word) => Ok(word),
            None => Err(NotRead),
        }
    }
}

/// How many bytes stand before the first space.
fn word_len(text: &[u8]) -> usize
    ensures within { result ≤ length text.now }
    ensures count { result ≡ prefix_len (λ b. not (b == 32)) text.now }
{
    text.iter().take_while(|b| **b != b' ').count()
}

/// What stands behind the space with which a text begins; none where it is empty.
fn behind_space<'a>(from: &'a [u8]) -> Option<&'a [u8]>
    ensures { option_map (λ rest. rest.now) result ≡ behind_space from.now }
{
    match from {
        [] => None,
        [_, rest @ ..] => Some(rest),
    }
}

/// Whether no 0 stands in front of another digit.
fn is_shortest(word: &[u8]) -> bool
    ensures { result ≡ is_shortest word.now }
{
    !matches!(word, [b'0', _, ..])
}

/// Reads just this word.
#[tactic(auto, unfolding(crate::specs::Readers::just))]
pub fn just(words: &mut Words, want: &str) -> Result<(), NotRead>
    ensures { Reads result words.new (just want.now words.old) }
{
    if words.word()? == want.as_bytes() {
        Ok(())
    } else {
        Err(NotRead)
    }
}

/// Reads a number up to this one.
#[tactic(auto, unfolding(crate::specs::Readers::number_in))]
fn number_in(word: &[u8], high: u64) -> Result<u64, NotRead>
    ensures value { Tells result (number_in high word.now) }
    ensures to { IfOk result (λ n. n ≤ high) }
{
    match read_u64(word) {
        Ok(number) if number <= high && is_shortest(word) => Ok(number),
        _ => Err(NotRead),
    }
}

/// Reads a number up to this one.
#[tactic(auto, unfolding(crate::specs::Readers::number_at))]
pub fn number(words: &mut Words, high: u64) -> Result<u64, NotRead>
    ensures value { Reads result words.new (number_at high words.old) }
    ensures to { IfOk result (λ n. n ≤ high) }
{
    let word = words.word()?;
    number_in(word, high)
}

/// Reads a node.
#[tactic(auto, unfolding(crate::specs::Readers::node_at))]
pub fn node(words: &mut Words) -> Result<NodeId, NotRead>
    ensures { Reads result words.new (node_at words.old) }
{
    let number = number(words, 5)?;
    match NodeId::new(number as u8) {
        Some(node) => Ok(node),
        None => Err(NotRead),
    }
}

/// Reads a key.
#[tactic(auto, unfolding(crate::specs::Readers::key_in))]
pub fn key_in(word: &[u8]) -> Result<Key, NotRead>
    ensures { Tells result (key_in word.now) }
{
    match Key::read(word) {
        Ok(key) => Ok(key),
        Err(_) => Err(NotRead),
    }
}

/// Reads a key.
#[tactic(auto, unfolding(crate::specs::Readers::key_at))]
pub fn key(words: &mut Words) -> Result<Key, NotRead>
    ensures { Reads result words.new (key_at words.old) }
{
    let word = words.word()?;
    key_in(word)
}

/// Reads the bytes of a text.
pub fn text_in(text: &[u8]) -> Result<Value, NotRead>
    ensures { Tells result (text_told (text_of text.now)) }
{
    match ShortText::read(text) {
        Ok(text) => Ok(Value::Text(text)),
        Err(_) => Err(NotRead),
    }
}

/// Reads a value: behind an apostrophe the bytes of a text, else a number.
#[tactic(auto, unfolding(crate::specs::Readers::value_in))]
pub fn value_in(word: &[u8]) -> Result<Value, NotRead>
    ensures { Tells result (value_in word.now) }
{
    match word {
        [b'\'', text @ ..] => text_in(text),
        _ => Ok(Value::Number(number_in(word, u64::MAX)?)),
    }
}

/// Reads a value.
#[tactic(auto, unfolding(crate::specs::Readers::value_at))]
pub fn value(words: &mut Words) -> Result<Value, NotRead>
    ensures { Reads result words.new (value_at words.old) }
{
    let word = words.word()?;
    value_in(word)
}

/// Reads a value, or `none`.
#[tactic(auto, unfolding(crate::specs::Readers::option_at))]
pub fn option(words: &mut Words) -> Result<Option<Value>, NotRead>
    ensures { Reads result words.new (option_at words.old) }
{
    let word = words.word()?;
    if word == b"none".as_slice() {
        return Ok(None);
    }
    Ok(Some(value_in(word)?))
}

/// Reads a bound: `^`, `~`, or a key.
#[tactic(auto, unfolding(crate::specs::Readers::bound_in))]
pub fn bound_in(word: &[u8]) -> Result<u128, NotRead>
    ensures value { Tells result (bound_in word.now) }
    ensures shown { IfOk result IsShown }
{
    if word == b"^".as_slice() {
        return Ok(0);
    }
    if word == b"~".as_slice() {
        return Ok(u128::MAX);
    }
    Ok(key_in(word)?.bound())
}

/// Reads a bound.
#[tactic(auto, unfolding(crate::specs::Readers::bound_at))]
pub fn bound(words: &mut Words) -> Result<u128, NotRead>
    ensures value { Reads result words.new (bound_at words.old) }
    ensures shown { IfOk result IsShown }
{
    let word = words.word()?;
    bound_in(word)
}

/// Reads the client in front of the dot.
fn in_front(word: &[u8], dot: usize) -> Result<u16, NotRead>
    requires { dot < length word.now }
    ensures { Tells result (in_front word.now dot) }
{
    Ok(number_in(&word[..dot], 65_535)? as u16)
}

/// Reads the command's number behind the dot.
fn behind(word: &[u8], dot: usize) -> Result<u32, NotRead>
    requires { dot < length word.now }
    ensures { Tells result (behind word.now dot) }
{
    Ok(number_in(&word[dot + 1..], 4_294_967_295)? as u32)
}

/// Where the first dot stands.
fn dot_in(word: &[u8]) -> Option<usize>
    ensures dot { result ≡ position (λ b. b == 46) word.now }
    ensures within { IfSome result (λ dot. dot < length word.now) }
{
    word.iter().position(|b| *b == b'.')
}

/// Reads the client and the command's number, with a dot between.
#[tactic(auto, unfolding(crate::specs::Readers::command_in))]
fn command_in(word: &[u8]) -> Result<(u16, u32), NotRead>
    ensures { Tells result (command_in word.now) }
{
    let Some(dot) = dot_in(word) else {
        return Err(NotRead);
    };
    let client = in_front(word, dot)?;
    let seq = behind(word, dot)?;
    Ok((client, seq))
}

/// Reads an attempt of a command.
#[tactic(auto, unfolding(crate::specs::Readers::attempt_at))]
pub fn attempt(words: &mut Words) -> Result<CmdId, NotRead>
    ensures { Reads result words.new (attempt_at words.old) }
{
    let word = words.word()?;
    let (client, seq) = command_in(word)?;
    let attempt = number(words, 65_535)? as u16;
    Ok(CmdId {
        client,
        seq,
        attempt,
    })
}
