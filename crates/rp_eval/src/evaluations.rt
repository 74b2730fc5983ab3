//! What a request writes and replies, or why it is refused.
ghost use Rattle.std.specs.Prelude.{◌≡◌, ◌+◌, ◌≤◌, [], ◌∷◌, nat_lt, nat_le, ◌&&◌, if◌then◌else◌, unwrap_or, length, map, Ok, Err, IfOk, IfErr};
ghost use Rattle.std.specs.FinMap.{get, keys};
ghost use Rattle.rp_base.specs.Limits.{batch_most};
ghost use Rattle.rp_base.specs.Spans.{span_of};
ghost use Rattle.rp_base.specs.Tables.{greatest, value_at, holds_text, part};
ghost use Rattle.rp_request.specs.Effect as effects;
ghost use Rattle.rp_request.specs.Batches.{removes};
ghost use Rattle.rp_base.specs.declared.ranges.Desc.{Desc};
ghost use Rattle.rp_request.specs.Evaluations.{with_batch, evaluated, Does};
ghost use Rattle.rp_eval.specs.Faults.{no_memory, split_fault, refusal_of, Gives};

use rp_base::{BATCH_MOST, Desc, Key, NoMemory, Span, SplitFault, Value};
use rp_range::split_at;
use rp_request::{Batch, Evaluated, Op, Refusal, Reply, Request};
use rp_table::Table;
use std::alloc::Global;
use std::error::Error;
use std::fmt;

/// Why a request was not evaluated: a refusal, or want of memory.
#[derive(Clone, Copy, Debug, PartialEq, Eq)]
pub enum EvalFault {
    /// The key has another value than the expected one.
    ConditionFailed { actual: Option<Value> },
    /// The key that is to be counted with holds a text.
    IsText { key: Key },
    /// The sum passes the greatest number, 2^64 - 1.
    Overflow { actual: u64 },
    /// The key that is taken from has less.
    Short { actual: u64 },
    /// The span of a wipe has more than 16 keys.
    TooWide { count: u64 },
    /// The key of a split is the range's start.
    NotInside,
    /// The range has been split as often as it may be.
    SplitLimit { level: u8 },
    /// The system refused memory. This is no refusal of the request.
    NoMemory,
}

impl fmt::Display for EvalFault {
    fn fmt<W: fmt::Write>(&self, f: &mut fmt::Formatter<W>) -> fmt::Result {
        match self {
            EvalFault::NoMemory => f.write_str("out of memory"),
            _ => f.write_str("the request is refused"),
        }
    }
}

impl Error for EvalFault {}

impl From<NoMemory> for EvalFault {
    ghost from_gives = { λ _ e. e ≡ no_memory };

    fn from(_refused: NoMemory) -> EvalFault {
        EvalFault::NoMemory
    }
}

impl From<SplitFault> for EvalFault {
    ghost from_gives = { λ fault e. e ≡ split_fault fault };

    fn from(fault: SplitFault) -> EvalFault {
        match fault {
            SplitFault::NotInside => EvalFault::NotInside,
            SplitFault::SplitLimit { level } => EvalFault::SplitLimit { level },
        }
    }
}

impl EvalFault {
    /// The refusal that the fault is. None for want of memory.
    pub fn refusal(self) -> Option<Refusal>
        ensures { result ≡ refusal_of self }
    {
        match self {
            EvalFault::ConditionFailed { actual } => Some(Refusal::ConditionFailed { actual }),
            EvalFault::IsText { key } => Some(Refusal::IsText { key }),
            EvalFault::Overflow { actual } => Some(Refusal::Overflow { actual }),
            EvalFault::Short { actual } => Some(Refusal::Short { actual }),
            EvalFault::TooWide { count } => Some(Refusal::TooWide { count }),
            EvalFault::NotInside => Some(Refusal::NotInside),
            EvalFault::SplitLimit { level } => Some(Refusal::SplitLimit { level }),
            EvalFault::NoMemory => None,
        }
    }
}

/// The key's number, and 0 where it has none; a text is refused.
fn number(table: &Table, key: Key) -> Result<u64, EvalFault>
    ensures { result ≡ (if holds_text table.now.map key then Err (EvalFault.IsText key) else Ok (value_at table.now.map key)) }
{
    match table.get(key) {
        None => Ok(0),
        Some(Value::Number(number)) => Ok(number),
        Some(Value::Text(_)) => Err(EvalFault::IsText { key }),
    }
}

/// The number with so much added.
fn sum(actual: u64, by: u64) -> Result<u64, EvalFault>
    ensures { result ≡ (if nat_lt greatest (actual + by) then Err (EvalFault.Overflow actual) else Ok (actual + by)) }
{
    match actual.checked_add(by) {
        Some(sum) => Ok(sum),
        None => Err(EvalFault::Overflow { actual }),
    }
}

/// One write and a reply.
fn one(alloc: Global, op: Op, reply: Reply) -> Result<Evaluated, NoMemory>
    ensures { IfOk result (λ e. e ≡ record { batch = op ∷ []; reply = reply }) }
{
    let mut batch = Batch::new(alloc);
    batch.push(op)?;
    Ok(Evaluated { batch, reply })
}

fn put(alloc: Global, table: &Table, key: Key, value: Value) -> Result<Evaluated, EvalFault>
    ensures { (d : Desc) → Gives result (evaluated table.now.map d (Request.Put key value)) }
{
    let old = table.get(key);
    Ok(one(alloc, Op::Set { key, value }, Reply::Old(old))?)
}

fn add(alloc: Global, table: &Table, key: Key, by: u64) -> Result<Evaluated, EvalFault>
    ensures { (d : Desc) → Gives result (evaluated table.now.map d (Request.Add key by)) }
{
    let sum = sum(number(table, key)?, by)?;
    let value = Value::Number(sum);
    Ok(one(alloc, Op::Set { key, value }, Reply::Now(sum))?)
}

fn put_if(
    alloc: Global,
    table: &Table,
    key: Key,
    expect: Option<Value>,
    value: Value,
) -> Result<Evaluated, EvalFault>
    ensures { (d : Desc) → Gives result (evaluated table.now.map d (Request.CPut key expect value)) }
{
    let actual = table.get(key);
    if actual != expect {
        return Err(EvalFault::ConditionFailed { actual });
    }
    Ok(one(alloc, Op::Set { key, value }, Reply::Set)?)
}

fn del(alloc: Global, table: &Table, key: Key) -> Result<Evaluated, EvalFault>
    ensures { (d : Desc) → Gives result (evaluated table.now.map d (Request.Del key)) }
{
    let old = table.get(key);
    Ok(one(alloc, Op::Remove { key }, Reply::Old(old))?)
}

/// The removal of each key, in order.
fn removals(alloc: Global, keys: &[Key]) -> Result<Batch, NoMemory>
    requires { length keys.now ≤ batch_most }
    ensures { IfOk result (λ b. b ≡ removes keys.now) }
{
    let mut batch = Batch::new(alloc);
    for key in keys {
        batch.push(Op::Remove { key: *key })?;
    }
    Ok(batch)
}

fn wipe(alloc: Global, table: &Table, span: Span) -> Result<Evaluated, EvalFault>
    ensures { (d : Desc) → Gives result (with_batch (removes (keys (part table.now.map span.start span.end))) (effects.wipe table.now.map d span.start span.end)) }
{
    let count = table.count_in(span);
    if count > BATCH_MOST as u64 {
        return Err(EvalFault::TooWide { count });
    }
    let keys = table.keys_in(span)?;
    let batch = removals(alloc, keys.as_slice())?;
    Ok(Evaluated {
        batch,
        reply: Reply::Count(count),
    })
}

/// Two writes, and the number that the first key has now.
fn two(alloc: Global, from: Key, rest: u64, to: Key, sum: u64) -> Result<Evaluated, NoMemory>
    ensures { IfOk result (λ e. e ≡ record { batch = Op.Set from (Value.Number rest) ∷ Op.Set to (Value.Number sum) ∷ []; reply = Reply.Now rest }) }
{
    let mut batch = Batch::new(alloc);
    batch.push(Op::Set {
        key: from,
        value: Value::Number(rest),
    })?;
    batch.push(Op::Set {
        key: to,
        value: Value::Number(sum),
    })?;
    Ok(Evaluated {
        batch,
        reply: Reply::Now(rest),
    })
}

fn pass_on(
    alloc: Global,
    table: &Table,
    from: Key,
    to: Key,
    by: u64,
) -> Result<Evaluated, EvalFault>
    ensures { (d : Desc) → Gives result (evaluated table.now.map d (Request.Move from to by)) }
{
    let actual = number(table, from)?;
    let other = number(table, to)?;
    if actual < by {
        return Err(EvalFault::Short { actual });
    }
    if from == to {
        let op = Op::Set {
            key: from,
            value: Value::Number(actual),
        };
        return Ok(one(alloc, op, Reply::Now(actual))?);
    }
    let sum = sum(other, by)?;
    Ok(two(alloc, from, actual - by, to, sum)?)
}

fn split(alloc: Global, table: &Table, desc: Desc, key: Key) -> Result<Evaluated, EvalFault>
    ensures { Gives result (evaluated table.now.map desc (Request.Split key)) }
{
    let (_, right) = split_at(desc, key)?;
    Ok(Evaluated {
        batch: Batch::new(alloc),
        reply: Reply::Range(right.id),
    })
}

/// Evaluates a request on a table: its writes in the order of the request's keys, and its reply; or
/// why it is refused, which is exactly where its effect is (this project's requests). The batch of a
/// split is empty: its write is the cut at the key.
pub fn evaluate(
    alloc: Global,
    table: &Table,
    desc: Desc,
    request: Request,
) -> Result<Evaluated, EvalFault>
    ensures gives { Gives result (evaluated table.now.map desc request) }
    ensures does { IfOk result (λ e. Does table.now.map desc request e) }
{
    match request {
        Request::Put { key, value } => put(alloc, table, key, value),
        Request::Add { key, by } => add(alloc, table, key, by),
        Request::CPut { key, expect, value } => put_if(alloc, table, key, expect, value),
        Request::Del { key } => del(alloc, table, key),
        Request::Wipe { span } => wipe(alloc, table, span.span()),
        Request::Move { from, to, by } => pass_on(alloc, table, from, to, by),
        Request::Split { key } => split(alloc, table, desc, key),
    }
}
