//! Texts of at most 64 bytes, which a value may hold.
ghost use Rattle.std.specs.Prelude.{◌≡◌, ◌≤◌, ◌++◌, length, OnOk, OnErr};
ghost use Rattle.std.specs.Cmp as Cmp;
ghost use Rattle.std.specs.Cmp.Lexicographic.{pointwise};
ghost use Rattle.std.specs.Bool.{nat_eq};
ghost use Rattle.std.specs.List.{prefix_len};
ghost use Rattle.std.proofs.lemmas.Cmp.{nat_list_eq_equiv};
ghost use Rattle.rp_base.specs.ShortTexts.{is_text_byte, text_of, padded, IsText};

use crate::memory::NoMemory;
use crate::texts::{Text, push_word};
use std::error::Error;
use std::fmt;
use std::marker::Model;

/// A text of 0 to 64 bytes, each from 33 to 126. Contracts see its bytes.
#[derive(Clone, Copy, Debug)]
pub struct ShortText {
    bytes: [u8; 64],
    len: u8,
}

impl Model for ShortText {
    ghost use Rattle.std.specs.Prelude.{List, ℕ, length, take};

    ghost Value = { List ℕ };

    ghost use Rattle.rp_base.specs.ShortTexts.{IsKept, padded};

    ghost view = { λ t. take t.len t.bytes };

    ghost invariant = { λ t. IsKept t.bytes t.len };

    ghost inverse = { λ bs. record { bytes = padded bs; len = length bs } };

    ghost inverse_ok = { λ t kept i. record { bytes = kept.zero i; len = kept.whole i } };
}

/// The bytes are no text. `place` is the first byte that no text has, or 64 where the first 64 are
/// good and more follow.
#[derive(Clone, Copy, Debug, PartialEq, Eq)]
pub struct BadText {
    pub place: usize,
}

impl fmt::Display for BadText {
    fn fmt<W: fmt::Write>(&self, f: &mut fmt::Formatter<W>) -> fmt::Result {
        f.write_str("not a text")
    }
}

impl Error for BadText {}

fn is_text_byte(byte: u8) -> bool
    ensures { result ≡ is_text_byte byte }
{
    33 <= byte && byte <= 126
}

fn text_bytes(text: &[u8]) -> usize
    ensures { result ≡ prefix_len is_text_byte text.now }
{
    text.iter().take_while(|byte| is_text_byte(**byte)).count()
}

/// The bytes in front of zero bytes.
fn in_front(text: &[u8]) -> [u8; 64]
    requires { length text.now ≤ 64 }
    ensures { result ≡ padded text.now }
{
    let mut bytes = [0u8; 64];
    bytes[..text.len()].copy_from_slice(text);
    bytes
}

impl ShortText {
    /// Reads the bytes of a text.
    pub fn read(text: &[u8]) -> Result<ShortText, BadText>
        ensures { result ≡ text_of text.now }
    {
        let good = text_bytes(text).min(64);
        if good < text.len() {
            return Err(BadText { place: good });
        }
        Ok(ShortText {
            bytes: in_front(text),
            len: good as u8,
        })
    }

    /// The text's bytes.
    pub fn as_bytes(&self) -> &[u8]
        ensures value { result.now ≡ self.now }
        ensures text { IsText result.now }
    {
        &self.bytes[..usize::from(self.len)]
    }

    /// The text as characters.
    pub fn as_str(&self) -> &str
        ensures { result.now ≡ self.now }
    {
        str::from_utf8(self.as_bytes()).unwrap()
    }

    /// How many bytes the text has, 0 to 64.
    pub fn len(&self) -> u8
        ensures len { result ≡ length self.now }
        ensures short { result ≤ 64 }
    {
        self.len
    }
}

impl PartialEq for ShortText {
    ghost eq = { pointwise nat_eq };

    ghost laws = { Cmp.partial_equiv_from_equiv nat_list_eq_equiv };

    fn eq(&self, other: &ShortText) -> bool {
        self.as_bytes() == other.as_bytes()
    }
}

impl Eq for ShortText {
    ghost laws = { nat_list_eq_equiv };
}

/// Appends the text's bytes.
pub fn push_text(out: &mut Text, text: &ShortText) -> Result<(), NoMemory>
    ensures ok { OnOk result (out.new ≡ out.old ++ text.now) }
    ensures err { OnErr result (out.new ≡ out.old) }
{
    push_word(out, text.as_str())
}
