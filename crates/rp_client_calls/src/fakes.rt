//! What a desk in memory keeps.
ghost use Rattle.std.specs.Prelude.{◌≤◌, All};

use rp_base::{CmdId, NodeId, RangeId};
use rp_request::{Outcome, Refusal, RequestList};
use std::collections::VecDeque;
use std::marker::Model;

/// A try that was made. Contracts see it as one of a client's.
#[derive(Clone, Copy)]
pub struct FakeTry {
    pub id: CmdId,
    pub node: NodeId,
    pub range: RangeId,
    pub rounds: u64,
    pub end: Option<Outcome>,
}

impl Model for FakeTry {
    ghost use Rattle.rp_clients.specs.Tries.{Try};

    ghost Value = { Try };

    ghost view = { λ t. record { id = t.id; node = t.node; range = t.range; rounds = t.rounds; end = t.end } };

    ghost inverse = { λ t. record { id = t.id; node = t.node; range = t.range; rounds = t.rounds; end = t.end } };
}

/// What a desk answers to an admission.
#[derive(Clone, Copy)]
pub enum Admission {
    Taken,
    Refused(Refusal),
    NoMemory,
}

/// What a desk answers to a fetch: an end of the latest try, or of another one.
#[derive(Clone, Copy)]
pub enum Posted {
    Nothing,
    Ended(Outcome),
    Stray(CmdId, Outcome),
    Over,
    NoMemory,
}

/// What a desk answers, call by call. Once `admissions` has been used up each admission is answered
/// as `rest` says, and once `posted` has, all is over. So many reserves, looks at rounds and puts
/// come to nothing first.
#[derive(Drop)]
pub struct Script {
    pub admissions: VecDeque<Admission>,
    pub rest: Admission,
    pub posted: VecDeque<Posted>,
    pub low: u32,
    pub stalls: u32,
    pub full: u32,
}

/// It answers as its script says, and keeps what was tried, the latest first.
#[derive(Drop)]
pub struct FakeDesk {
    pub script: Script,
    pub client: u16,
    pub nodes: u8,
    pub requests: RequestList,
    pub tries: Vec<FakeTry>,
    pub told: [u64; 6],
    pub clock: u64,
    pub is_over: bool,
    pub is_short: bool,
    pub is_put: bool,
    pub capacity: u64,
    pub held: u64,
    pub puts: u32,
    pub fetches: u32,
    pub ghost came: { All (λ t. t.rounds ≤ clock) tries.items },
    pub ghost later: { All (λ n. n ≤ clock) told },
}
