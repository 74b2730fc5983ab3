//! Keys: how they are read, kept and written.
ghost use Rattle.std.specs.Prelude.{◌≡◌, ◌-◌, ◌^◌, ◌<◌, ◌≤◌, ◌==◌, ◌↔◌, ◌⊎◌, ◌++◌, length, replicate, IsNone, IfSome, OnOk, OnErr};
ghost use Rattle.std.specs.List.{prefix_len, position_or_len};
ghost use Rattle.rp_base.specs.Keys.{is_key_byte, key_of, key_text, IsKey, IsShown, bound_text};

use crate::memory::NoMemory;
use crate::texts::{Text, push_word};
use std::error::Error;
use std::fmt;
use std::marker::Model;

/// A key: 1 to 16 bytes out of `a` to `z`, `0` to `9`, `/`, `_` and `-` (this project's alphabet).
/// It is kept as the number of its bytes in front of zero bytes, 16 together, so that keys stand in
/// the order of their bytes. Contracts see that number.
#[derive(Clone, Copy, Debug, PartialEq, Eq, PartialOrd, Ord, Hash)]
pub struct Key(u128);

impl Model for Key {
    ghost use Rattle.std.specs.Prelude.{ℕ};
    ghost use Rattle.rp_base.specs.Keys.{IsKey};

    ghost Value = { ℕ };

    ghost view = { λ k. k.0 };

    ghost invariant = { λ k. IsKey k.0 };

    ghost inverse = { λ n. record { 0 = n } };
}

/// The text is no key. `place` is the first byte outside the alphabet, or 16 where the first 16 are
/// good and more follow, or 0 for the empty text.
#[derive(Clone, Copy, Debug, PartialEq, Eq)]
pub struct BadKey {
    pub place: usize,
}

fn is_key_byte(byte: u8) -> bool
    ensures { result ≡ is_key_byte byte }
{
    byte.is_ascii_lowercase() || byte.is_ascii_digit() || matches!(byte, b'/' | b'_' | b'-')
}

fn key_bytes(text: &[u8]) -> usize
    ensures { result ≡ prefix_len is_key_byte text.now }
{
    text.iter().take_while(|byte| is_key_byte(**byte)).count()
}

/// The bytes in front of zero bytes.
fn in_front(text: &[u8]) -> [u8; 16]
    requires { length text.now ≤ 16 }
    ensures { result ≡ text.now ++ replicate (16 - length text.now) 0 }
{
    let mut bytes = [0u8; 16];
    bytes[..text.len()].copy_from_slice(text);
    bytes
}

impl fmt::Display for BadKey {
    fn fmt<W: fmt::Write>(&self, f: &mut fmt::Formatter<W>) -> fmt::Result {
        f.write_str("not a key")
    }
}

impl Error for BadKey {}

impl Key {
    /// Reads the spelling of a key.
    pub fn read(text: &[u8]) -> Result<Key, BadKey>
        ensures { result ≡ key_of text.now }
    {
        let good = key_bytes(text).min(16);
        if good == 0 || good < text.len() {
            return Err(BadKey { place: good });
        }
        Ok(Key(u128::from_be_bytes(in_front(text))))
    }

    /// The key with this number, of a bound that is shown. None exactly for the least bound and the
    /// greatest, which are no keys.
    pub fn of_bound(bound: u128) -> Option<Key>
        requires { IsShown bound }
        ensures none { IsNone result ↔ ((bound ≡ 0) ⊎ (bound ≡ 2 ^ 128 - 1)) }
        ensures value { IfSome result (λ key. key ≡ bound) }
    {
        if bound == 0 || bound == u128::MAX {
            return None;
        }
        Some(Key(bound))
    }

    /// The key's number. It is neither the least bound nor the greatest.
    pub fn bound(self) -> u128
        ensures value { result ≡ self }
        ensures key { IsKey result }
        ensures above { 0 < result }
        ensures below { result < 2 ^ 128 - 1 }
    {
        self.0
    }

    /// The key's bytes in front of zero bytes.
    pub fn to_bytes(self) -> [u8; 16]
        ensures bytes { result ≡ key_text self ++ replicate (16 - length (key_text self)) 0 }
        ensures some { 1 ≤ length (key_text self) }
        ensures short { length (key_text self) ≤ 16 }
    {
        self.bound().to_be_bytes()
    }

    /// How many bytes the key's spelling has, 1 to 16.
    pub fn text_len(self) -> usize
        ensures len { result ≡ length (key_text self) }
        ensures some { 1 ≤ result }
        ensures short { result ≤ 16 }
    {
        spelled_len(&self.bound().to_be_bytes())
    }
}

/// How many bytes stand before the zero bytes.
fn spelled_len(bytes: &[u8]) -> usize
    ensures { result ≡ position_or_len (λ b. b == 0) bytes.now }
{
    bytes.iter().take_while(|byte| **byte != 0).count()
}

/// Appends the spelling of the key with this number.
fn push_spelled(out: &mut Text, number: u128) -> Result<(), NoMemory>
    requires { IsKey number }
    ensures ok { OnOk result (out.new ≡ out.old ++ key_text number) }
    ensures err { OnErr result (out.new ≡ out.old) }
{
    let bytes = number.to_be_bytes();
    let end = spelled_len(&bytes);
    let word = str::from_utf8(&bytes[..end]).unwrap();
    push_word(out, word)
}

/// Appends the key's spelling.
pub fn push_key(out: &mut Text, key: Key) -> Result<(), NoMemory>
    ensures ok { OnOk result (out.new ≡ out.old ++ key_text key) }
    ensures err { OnErr result (out.new ≡ out.old) }
{
    push_spelled(out, key.bound())
}

/// Appends a bound as it is shown: `^` for 0, `~` for the greatest, else the key with this number.
pub fn push_bound(out: &mut Text, bound: u128) -> Result<(), NoMemory>
    requires { IsShown bound }
    ensures ok { OnOk result (out.new ≡ out.old ++ bound_text bound) }
    ensures err { OnErr result (out.new ≡ out.old) }
{
    if bound == 0 {
        push_word(out, "^")
    } else if bound == u128::MAX {
        push_word(out, "~")
    } else {
        push_spelled(out, bound)
    }
}
