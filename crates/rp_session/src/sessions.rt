//! A session add: its machine.
ghost use Rattle.std.specs.Prelude.{◌≡◌, ◌↔◌, IsTrue, IsSome, Some, is_some};
ghost use Rattle.rp_session.specs.Tokens.{IsAdd};
ghost use Rattle.rp_session.specs.Machine.{Adding, begun, command, answer_of, met, refused, refuses, refuses_mint, refuses_move, refuses_confirm, declines, succeeds, repeats, sends, stays, ends};

use crate::tokens::{has_dash, token};
use crate::turns::{Stage, Turn};
use rp_base::{Key, Value};
use rp_request::{Outcome, Refusal, Request};
use std::marker::Model;

/// One session add: a key's number is to rise exactly once. Contracts see the token, the key, by how
/// much it rises, the state, whether a move ended ambiguous, and whether the add has ended.
#[derive(Clone, Copy)]
pub struct Session {
    token: Key,
    key: Key,
    by: u64,
    stage: Stage,
    is_doubted: bool,
    has_ended: bool,
}

impl Model for Session {
    ghost use Rattle.rp_session.specs.Machine.{Adding};

    ghost Value = { Adding };

    ghost view = { λ s. record {
      token = s.token;
      key = s.key;
      by = s.by;
      stage = s.stage;
      is_doubted = s.is_doubted;
      has_ended = s.has_ended;
    } };

    ghost inverse = { λ a. record {
      token = a.token;
      key = a.key;
      by = a.by;
      stage = a.stage;
      is_doubted = a.is_doubted;
      has_ended = a.has_ended;
    } };
}

impl Session {
    /// Whether such an add may begin: a client from 1 to 32, a number from 1 to 999,999, a key of at most
    /// 7 bytes without a dash, and a rise by at least 1.
    pub fn can_begin(client: u16, number: u32, key: Key, by: u64) -> bool
        ensures { IsTrue result ↔ IsAdd client number key by }
    {
        let is_named = 1 <= client && client <= 32 && 1 <= number && number <= 999_999;
        is_named && key.text_len() <= 7 && !has_dash(key) && 1 <= by
    }

    /// A client's add with this number: its token is to be minted.
    pub fn begin(client: u16, number: u32, key: Key, by: u64) -> Session
        requires { IsAdd client number key by }
        ensures { result ≡ begun client number key by }
    {
        Session {
            token: token(client, number, key),
            key,
            by,
            stage: Stage::Minting,
            is_doubted: false,
            has_ended: false,
        }
    }

    /// The state, which an add that has ended keeps.
    pub fn stage(&self) -> Stage
        ensures { result ≡ self.now.stage }
    {
        self.stage
    }

    /// Whether the add has ended.
    pub fn has_ended(&self) -> bool
        ensures { result ≡ self.now.has_ended }
    {
        self.has_ended
    }

    /// The command of the state.
    pub fn request(&self) -> Request
        ensures { result ≡ command self.now }
    {
        match self.stage {
            Stage::Minting => Request::CPut {
                key: self.token,
                expect: None,
                value: Value::Number(self.by),
            },
            Stage::Moving => Request::Move {
                from: self.token,
                to: self.key,
                by: self.by,
            },
            Stage::Confirming => Request::CPut {
                key: self.token,
                expect: Some(Value::Number(0)),
                value: Value::Number(0),
            },
        }
    }

    /// Whether the table has a cell for the outcome, as `next` asks.
    pub fn takes(&self, outcome: &Outcome) -> bool
        ensures { result ≡ is_some (answer_of self.now outcome.now) }
    {
        if self.has_ended {
            return false;
        }
        match outcome {
            Outcome::Refused(refusal) => self.takes_refusal(refusal),
            Outcome::Success(_) | Outcome::Ambiguous(_) | Outcome::Pending => true,
        }
    }

    fn takes_refusal(&self, refusal: &Refusal) -> bool
        ensures { result ≡ is_some (refused self.now refusal.now) }
    {
        let is_moving = self.stage == Stage::Moving;
        match refusal {
            Refusal::NoReplica
            | Refusal::NotLeaseHolder { .. }
            | Refusal::RangeMismatch { .. }
            | Refusal::Latched { .. } => true,
            Refusal::ConditionFailed { .. } => !is_moving,
            Refusal::Short { .. } | Refusal::Overflow { .. } => is_moving,
            Refusal::IsText { key } => is_moving && *key == self.key,
            Refusal::TooWide { .. } | Refusal::NotInside | Refusal::SplitLimit { .. } => false,
        }
    }

    /// Takes the outcome of the session's command, and says what is to be done: by the table of
    /// states. Nothing changes where the outcome is pending.
    pub fn next(&mut self, outcome: Outcome) -> Turn
        requires { IsSome (answer_of self.old outcome) }
        ensures { answer_of self.old outcome ≡ Some (record { state = self.new; turn = result }) }
    {
        match outcome {
            Outcome::Pending => Turn::Wait,
            Outcome::Success(_) => self.succeeded(),
            Outcome::Ambiguous(_) => self.repeated(),
            Outcome::Refused(refusal) => self.refused(refusal),
        }
    }

    fn succeeded(&mut self) -> Turn
        ensures { record { state = self.new; turn = result } ≡ succeeds self.old self.old.stage }
    {
        match self.stage {
            Stage::Minting => self.send(Stage::Moving),
            Stage::Moving | Stage::Confirming => self.end(Turn::Done),
        }
    }

    fn repeated(&mut self) -> Turn
        ensures { record { state = self.new; turn = result } ≡ repeats self.old self.old.stage }
    {
        if self.stage == Stage::Moving {
            self.is_doubted = true;
        }
        Turn::Send
    }

    fn refused(&mut self, refusal: Refusal) -> Turn
        requires { IsSome (refused self.old refusal) }
        ensures { refused self.old refusal ≡ Some (record { state = self.new; turn = result }) }
    {
        match (self.stage, refusal) {
            (
                _,
                Refusal::NoReplica
                | Refusal::NotLeaseHolder { .. }
                | Refusal::RangeMismatch { .. }
                | Refusal::Latched { .. },
            ) => Turn::Again,
            (Stage::Minting, Refusal::ConditionFailed { .. }) => self.send(Stage::Moving),
            (Stage::Moving, Refusal::Short { .. }) => self.send(Stage::Confirming),
            (Stage::Moving, Refusal::Overflow { .. } | Refusal::IsText { .. }) => {
                self.declined(refusal)
            }
            (Stage::Confirming, Refusal::ConditionFailed { actual: None }) => {
                self.send(Stage::Minting)
            }
            (Stage::Confirming, Refusal::ConditionFailed { actual: Some(_) }) => {
                self.send(Stage::Moving)
            }
            _ => unreachable!(),
        }
    }

    /// The key cannot take the token's number.
    fn declined(&mut self, refusal: Refusal) -> Turn
        ensures { record { state = self.new; turn = result } ≡ declines self.old refusal }
    {
        if self.is_doubted {
            self.send(Stage::Confirming)
        } else {
            self.end(Turn::Failed(refusal))
        }
    }

    fn send(&mut self, stage: Stage) -> Turn
        ensures { record { state = self.new; turn = result } ≡ sends self.old stage }
    {
        self.stage = stage;
        Turn::Send
    }

    fn end(&mut self, turn: Turn) -> Turn
        ensures { record { state = self.new; turn = result } ≡ ends self.old turn }
    {
        self.has_ended = true;
        turn
    }
}
