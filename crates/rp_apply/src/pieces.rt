//! Records of indexes one after another.
ghost use Rattle.std.specs.Prelude.{◌≡◌, ◌+◌};

use rp_request::Record;
use std::marker::Model;

/// Records of indexes one after another. Contracts see the first index, which is one above the index
/// before the piece, and the list.
#[derive(Drop)]
pub struct Piece {
    before: u64,
    records: Vec<Record>,
}

impl Model for Piece {
    ghost use Rattle.std.specs.Prelude.{◌+◌};
    ghost use Rattle.rp_request.specs.History as histories;

    ghost Value = { histories.Piece };

    ghost view = { λ p. record { first = p.before + 1; list = p.records.items } };
}

impl Piece {
    /// The records of the indexes from the one behind `before` on.
    pub(crate) fn new(before: u64, records: Vec<Record>) -> Piece
        ensures { result ≡ record { first = before + 1; list = records.items } }
    {
        Piece { before, records }
    }

    /// The index before that of the first record.
    pub fn before(&self) -> u64
        ensures { result + 1 ≡ self.now.first }
    {
        self.before
    }

    /// The records, in the order of their indexes.
    pub fn as_slice(&self) -> &[Record]
        ensures { result.now ≡ self.now.list }
    {
        &self.records
    }
}
