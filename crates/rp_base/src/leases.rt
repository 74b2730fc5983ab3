//! Leases, and the numbers and ticks that they name.
ghost use Rattle.std.specs.Prelude.{◌≡◌};

use crate::ids::NodeId;
use std::marker::Model;

/// The number of a lease among those of its range, which rises with each new holder. Contracts see
/// the number.
#[derive(Clone, Copy, Debug, PartialEq, Eq, PartialOrd, Ord, Hash)]
pub struct LeaseSeq(u64);

impl Model for LeaseSeq {
    ghost use Rattle.std.specs.Prelude.{ℕ};

    ghost Value = { ℕ };

    ghost view = { λ s. s.0 };

    ghost inverse = { λ n. record { 0 = n } };
}

impl LeaseSeq {
    /// The one with this number.
    pub const fn new(number: u64) -> LeaseSeq
        ensures { result ≡ number }
    {
        LeaseSeq(number)
    }

    /// Its number.
    pub const fn get(self) -> u64
        ensures { result ≡ self }
    {
        self.0
    }
}

/// A number by which the commands of a range are told apart in its log: a command is applied only
/// where its maximum is above the lease applied index (CockroachDB's lease applied index). Contracts
/// see the number.
#[derive(Clone, Copy, Debug, PartialEq, Eq, PartialOrd, Ord, Hash)]
pub struct LeaseIndex(u64);

impl Model for LeaseIndex {
    ghost use Rattle.std.specs.Prelude.{ℕ};

    ghost Value = { ℕ };

    ghost view = { λ s. s.0 };

    ghost inverse = { λ n. record { 0 = n } };
}

impl LeaseIndex {
    /// The one with this number.
    pub const fn new(number: u64) -> LeaseIndex
        ensures { result ≡ number }
    {
        LeaseIndex(number)
    }

    /// Its number.
    pub const fn get(self) -> u64
        ensures { result ≡ self }
    {
        self.0
    }
}

/// A node's time, counted in ticks from its start. Contracts see the number.
#[derive(Clone, Copy, Debug, PartialEq, Eq, PartialOrd, Ord, Hash)]
pub struct Tick(u64);

impl Model for Tick {
    ghost use Rattle.std.specs.Prelude.{ℕ};

    ghost Value = { ℕ };

    ghost view = { λ s. s.0 };

    ghost inverse = { λ n. record { 0 = n } };
}

impl Tick {
    /// The one with this number.
    pub const fn new(number: u64) -> Tick
        ensures { result ≡ number }
    {
        Tick(number)
    }

    /// Its number.
    pub const fn get(self) -> u64
        ensures { result ≡ self }
    {
        self.0
    }
}

/// The right of one node to serve a range's requests, up to a tick.
#[derive(Clone, Copy, Debug, PartialEq, Eq, Hash)]
pub struct Lease {
    pub holder: NodeId,
    pub seq: LeaseSeq,
    pub expires: Tick,
}

/// What a node asks of the log: a lease for the holder, in the place of the one with number `prev`.
#[derive(Clone, Copy, Debug, PartialEq, Eq, Hash)]
pub struct LeaseAsk {
    pub holder: NodeId,
    pub prev: LeaseSeq,
    pub expires: Tick,
}
