//! Nodes, ranges and attempts, by their numbers.
ghost use Rattle.std.specs.Prelude.{◌≡◌, ◌≤◌, ◌↔◌, IsSome, IfSome};

use std::marker::Model;

/// A node of the cluster, 1 to 5. Contracts see its number.
#[derive(Clone, Copy, Debug, PartialEq, Eq, PartialOrd, Ord, Hash)]
pub struct NodeId(u8);

impl Model for NodeId {
    ghost use Rattle.std.specs.Prelude.{ℕ, ◌≤◌};

    ghost Value = { ℕ };

    ghost view = { λ n. n.0 };

    ghost invariant = { λ n. (1 ≤ n.0) × (n.0 ≤ 5) };

    ghost inverse = { λ n. record { 0 = n } };
}

impl NodeId {
    /// None exactly where the number is none of 1 to 5.
    pub fn new(number: u8) -> Option<NodeId>
        ensures valid { IsSome result ↔ ((1 ≤ number) × (number ≤ 5)) }
        ensures value { IfSome result (λ n. n ≡ number) }
    {
        if 1 <= number && number <= 5 {
            Some(NodeId(number))
        } else {
            None
        }
    }

    /// The node's number.
    pub fn get(self) -> u8
        ensures value { result ≡ self }
        ensures from_one { 1 ≤ result }
        ensures to_five { result ≤ 5 }
    {
        self.0
    }
}

/// A range of the key space, 0 to 7. Contracts see its number.
#[derive(Clone, Copy, Debug, PartialEq, Eq, PartialOrd, Ord, Hash)]
pub struct RangeId(u8);

impl Model for RangeId {
    ghost use Rattle.std.specs.Prelude.{ℕ, ◌≤◌};

    ghost Value = { ℕ };

    ghost view = { λ r. r.0 };

    ghost invariant = { λ r. r.0 ≤ 7 };

    ghost inverse = { λ n. record { 0 = n } };
}

impl RangeId {
    /// None exactly where the number is above 7.
    pub fn new(number: u8) -> Option<RangeId>
        ensures valid { IsSome result ↔ (number ≤ 7) }
        ensures value { IfSome result (λ r. r ≡ number) }
    {
        if number <= 7 {
            Some(RangeId(number))
        } else {
            None
        }
    }

    /// The range's number.
    pub fn get(self) -> u8
        ensures value { result ≡ self }
        ensures to_seven { result ≤ 7 }
    {
        self.0
    }
}

/// One attempt of a client's command: the client, the command's number among the client's, and the
/// attempt's among the command's. The order is by client, command, attempt.
#[derive(Clone, Copy, Debug, PartialEq, Eq, PartialOrd, Ord, Hash)]
pub struct CmdId {
    pub client: u16,
    pub seq: u32,
    pub attempt: u16,
}
