//! Bytes that are handed out from their front on.
ghost use Rattle.std.specs.Prelude.{◌≡◌, ◌++◌, length, take, drop, min};

use rp_base::Bytes;
use std::marker::Model;

/// Bytes that are handed out from their front on. Contracts see those that are left.
#[derive(Drop)]
pub(crate) struct Tape {
    bytes: Bytes,
    at: usize,
}

impl Model for Tape {
    ghost use Rattle.std.specs.Prelude.{◌≤◌, List, ℕ, drop, length};

    ghost Value = { List ℕ };

    ghost view = { λ t. drop t.at t.bytes };

    ghost invariant = { λ t. t.at ≤ length t.bytes };
}

impl Tape {
    pub(crate) fn new(bytes: Bytes) -> Tape
        ensures { result ≡ bytes }
    {
        Tape { bytes, at: 0 }
    }

    pub(crate) fn left(&self) -> &[u8]
        ensures { result.now ≡ self.now }
    {
        &self.bytes.as_slice()[self.at..]
    }

    /// Puts the next bytes in the front of the buffer, as many as are left and fit, at most
    /// `piece`.
    pub(crate) fn give(&mut self, piece: usize, buf: &mut [u8]) -> usize
        ensures count { result ≡ min piece (min (length buf.old) (length self.old)) }
        ensures given { buf.new ≡ take result self.old ++ drop result buf.old }
        ensures left { self.new ≡ drop result self.old }
    {
        let rest = &self.bytes.as_slice()[self.at..];
        let n = piece.min(buf.len().min(rest.len()));
        buf[..n].copy_from_slice(&rest[..n]);
        self.at += n;
        n
    }
}
