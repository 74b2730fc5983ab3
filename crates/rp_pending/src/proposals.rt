//! A proposal, and how far it has come.
ghost use Rattle.std.specs.Prelude.{◌≡◌};

use rp_base::{CmdId, LeaseIndex, LeaseSeq, Tick};
use rp_request::{Batch, Reply, Request};

/// Where a pending proposal stands.
#[derive(Clone, Copy, PartialEq, Eq)]
pub enum Stage {
    /// It is to get a lease index.
    Waiting,
    /// It has one, and was handed to the log.
    Proposed,
}

/// A command between its admission and its end.
#[derive(Drop)]
pub struct Proposal {
    pub id: CmdId,
    pub request: Request,
    /// What it writes and answers where it is applied, by its evaluation.
    pub batch: Batch,
    pub reply: Reply,
    /// The lease sequence under which it was evaluated.
    pub seq: LeaseSeq,
    /// Its lease index, 0 before the first flush.
    pub max: LeaseIndex,
    pub stage: Stage,
    /// The tick at which it was proposed last.
    pub since: Tick,
    /// The round of the node at its first flush, `None` before.
    pub round: Option<u64>,
}

/// How far a proposal has come.
#[derive(Clone, Copy, PartialEq, Eq)]
pub struct Standing {
    pub id: CmdId,
    pub max: LeaseIndex,
    pub stage: Stage,
}

/// What happens to a proposal that stays pending.
#[derive(Clone, Copy)]
pub(crate) enum Change {
    /// It is proposed under a lease index.
    Propose {
        max: LeaseIndex,
        now: Tick,
        round: u64,
    },
    /// It waits for a lease index again.
    WaitAgain,
    /// A waiting one is proposed under a lease index.
    HandOut {
        max: LeaseIndex,
        now: Tick,
        round: u64,
    },
    /// One that is proposed under an index at or below this one waits again.
    TakeBack {
        lai: LeaseIndex,
    },
    /// A proposed one is proposed once more under its index.
    Repeat {
        now: Tick,
        round: u64,
    },
}

impl Proposal {
    ghost use Rattle.rp_pending.specs.Proposals.{proposed, waiting_again};
    ghost use Rattle.rp_pending.specs.Slots.{changed};
    ghost use Rattle.rp_pending.specs.Turns.{is_made};

    /// It is proposed under a lease index. The round is that of the first time.
    fn propose(&mut self, max: LeaseIndex, now: Tick, round: u64)
        ensures { self.new ≡ proposed max now round self.old }
    {
        self.max = max;
        self.stage = Stage::Proposed;
        self.since = now;
        if self.round.is_none() {
            self.round = Some(round);
        }
    }

    /// Makes a change where the proposal stands as the change wants it, and says whether it did.
    pub(crate) fn change(&mut self, change: Change) -> bool
        ensures made { result ≡ is_made change self.old }
        ensures changed { self.new ≡ changed change self.old }
    {
        let proposed = self.stage.is_proposed();
        match change {
            Change::Propose { max, now, round } => self.propose(max, now, round),
            Change::WaitAgain => self.stage = Stage::Waiting,
            Change::HandOut { max, now, round } => {
                if proposed {
                    return false;
                }
                self.propose(max, now, round);
            }
            Change::TakeBack { lai } => {
                if !self.goes_back(lai) {
                    return false;
                }
                self.stage = Stage::Waiting;
            }
            Change::Repeat { now, round } => {
                if !proposed {
                    return false;
                }
                self.propose(self.max, now, round);
            }
        }
        true
    }
}
