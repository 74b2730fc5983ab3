//! Replies, refusals, and how attempts end.
use rp_base::{CmdId, Desc, Key, Lease, LeaseIndex, RangeId, Span, Value};

/// The answer to a request that took effect.
#[derive(Clone, Copy, PartialEq, Eq)]
pub enum Reply {
    /// The value that the key had, `None` for no value.
    Old(Option<Value>),
    /// The number that the key has now; at a move, the key that was taken from.
    Now(u64),
    /// The value was set.
    Set,
    /// So many keys were taken away.
    Count(u64),
    /// The number of the range that was split off.
    Range(RangeId),
}

/// Why a request was refused. A refused attempt never takes effect.
#[derive(Clone, Copy, PartialEq, Eq)]
pub enum Refusal {
    /// The node has no replica of the range.
    NoReplica,
    /// Another node holds the lease, or the lease changed.
    NotLeaseHolder { lease: Lease },
    /// The request's keys are not all in the range's bounds.
    RangeMismatch { desc: Desc },
    /// A pending command holds a span that meets one of the request's.
    Latched { by: CmdId, held: Span },
    /// The key has another value than the expected one.
    ConditionFailed { actual: Option<Value> },
    /// The key that is to be counted with holds a text.
    IsText { key: Key },
    /// The sum passes the greatest number, 2^64 - 1.
    Overflow { actual: u64 },
    /// The key that is taken from has less.
    Short { actual: u64 },
    /// The span of a wipe has more than 16 keys.
    TooWide { count: u64 },
    /// The key of a split is the range's start.
    NotInside,
    /// The range has been split as often as it may be.
    SplitLimit { level: u8 },
}

/// Why nobody can tell whether a command took effect (after CockroachDB's ambiguous results).
#[derive(Clone, Copy, PartialEq, Eq)]
pub enum Ambiguity {
    /// A snapshot whose lease applied index is `passed` overtook the command, whose own index is `own`.
    Snapshot { own: LeaseIndex, passed: LeaseIndex },
    /// The replica was removed while the command was proposed under the index `own`.
    Removed { own: LeaseIndex },
    /// The node restarted while the command was proposed under the index `own`.
    Restarted { own: LeaseIndex },
}

/// How an attempt of a command ended.
#[derive(Clone, Copy, PartialEq, Eq)]
pub enum Outcome {
    /// It took effect once, with this reply.
    Success(Reply),
    /// It never took effect and never will.
    Refused(Refusal),
    /// It may have taken effect once.
    Ambiguous(Ambiguity),
    /// It has not ended.
    Pending,
}

/// What a client knows of an attempt at the end of a run.
#[derive(Clone, Copy, PartialEq, Eq)]
pub enum End {
    /// The attempt was made.
    Outcome(Outcome),
    /// As many attempts as a command may have were refused, the last one so.
    Tries(Refusal),
    /// The command was never sent.
    Unsent,
}
