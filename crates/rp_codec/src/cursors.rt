//! Bytes that are read from a place on.
ghost use Rattle.std.specs.Prelude.{◌≡◌, ◌==◌, length, IfOk, MatchResult};
ghost use Rattle.rp_codec.specs.Cursors.{whole};
ghost use Rattle.rp_codec.specs.Reading.{Reads, begins_with, bytes_at, byte_at};

use crate::faults::BadField;
use std::marker::Model;

/// The bytes that are still to be read, and the place at which they begin.
#[derive(Drop)]
pub struct Cursor<'a> {
    place: usize,
    rest: &'a [u8],
}

impl<'a> Model for Cursor<'a> {
    ghost use Rattle.std.specs.Prelude.{◌+◌, ◌<◌, ◌^◌, length};
    ghost use Rattle.rp_codec.specs.Cursors.{Left, left_code};

    ghost Value = { Left };

    ghost coded = { left_code };

    ghost view = { λ c. record { place = c.place; bytes = c.rest.now } };

    ghost invariant = { λ c. c.place + length c.rest.now < 2 ^ 64 };
}

impl<'a> Cursor<'a> {
    /// All of the bytes.
    pub fn new(bytes: &'a [u8]) -> Cursor<'a>
        ensures { result ≡ whole bytes.entry.now }
    {
        Cursor {
            place: 0,
            rest: bytes,
        }
    }

    /// The place at which the bytes that are left begin.
    pub fn place(&self) -> usize
        ensures { result ≡ self.now.place }
    {
        self.place
    }

    /// Whether no bytes are left.
    pub fn is_at_end(&self) -> bool
        ensures { result ≡ (length self.now.bytes == 0) }
    {
        self.rest.is_empty()
    }

    /// Whether this byte is the next one.
    pub fn is_before(&self, byte: u8) -> bool
        ensures { result ≡ begins_with byte self.now.bytes }
    {
        self.rest.first() == Some(&byte)
    }

    /// The bad field begins here.
    pub fn bad(&self) -> BadField
        ensures { result.place ≡ self.now.place }
    {
        BadField { place: self.place }
    }

    /// The next bytes, so many.
    #[tactic(auto, unfolding(crate::specs::Reading::bytes_at))]
    pub fn bytes(&mut self, n: usize) -> Result<&'a [u8], BadField>
        ensures value { MatchResult result (λ b. bytes_at n self.old ≡ Ok (b.now, self.new)) (λ e. bytes_at n self.old ≡ Err e) }
        ensures len { IfOk result (λ b. length b.now ≡ n) }
    {
        if self.rest.len() < n {
            return Err(self.bad());
        }
        let (front, rest) = self.rest.split_at(n);
        self.place += n;
        self.rest = rest;
        Ok(front)
    }

    /// The next byte.
    #[tactic(auto, unfolding(crate::specs::Reading::byte_at))]
    pub fn byte(&mut self) -> Result<u8, BadField>
        ensures { Reads result self.new (byte_at self.old) }
    {
        let Some((first, rest)) = self.rest.split_first() else {
            return Err(self.bad());
        };
        self.place += 1;
        self.rest = rest;
        Ok(*first)
    }
}
