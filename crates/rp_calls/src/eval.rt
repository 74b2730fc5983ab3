//! What requests write, reply and refuse.
use crate::samples::{key, text};
use rp_base::{Desc, Key, KeySpan, RangeId, Value};
use rp_eval::{EvalFault, evaluate, in_bounds};
use rp_range::{first_desc, split_at};
use rp_request::{Op, Reply, Request};
use rp_table::Table;
use std::alloc::Global;
use std::test::Fail;

/// The keys a, c, m and t with the values 5, 7, the greatest number, and the text 5.
fn four_rows(alloc: Global) -> Result<Table, Fail> {
    let mut table = Table::new(alloc);
    table.make_room(4)?;
    table.write_one(key("a")?, Value::Number(5));
    table.write_one(key("c")?, Value::Number(7));
    table.write_one(key("m")?, Value::Number(u64::MAX));
    table.write_one(key("t")?, text("5")?);
    Ok(table)
}

fn set(key: Key, number: u64) -> Option<Op> {
    let value = Value::Number(number);
    Some(Op::Set { key, value })
}

fn remove(key: Key) -> Option<Op> {
    Some(Op::Remove { key })
}

/// Whether the request's batch begins with these writes, and its reply is this one.
fn gives(
    alloc: Global,
    table: &Table,
    request: Request,
    ops: (Option<Op>, Option<Op>),
    reply: Reply,
) -> bool {
    match evaluate(alloc, table, first_desc(), request) {
        Ok(done) => {
            let batch = done.batch.as_slice();
            let (first, second) = (batch.first().copied(), batch.get(1).copied());
            first == ops.0 && second == ops.1 && done.reply == reply
        }
        Err(_) => false,
    }
}

fn fault_of(alloc: Global, table: &Table, desc: Desc, request: Request) -> Option<EvalFault> {
    evaluate(alloc, table, desc, request).err()
}

fn put(key: Key, number: u64) -> Request {
    let value = Value::Number(number);
    Request::Put { key, value }
}

fn cput(key: Key, expect: Option<Value>) -> Request {
    let value = Value::Number(4);
    Request::CPut { key, expect, value }
}

fn add(key: Key, by: u64) -> Request {
    Request::Add { key, by }
}

fn moved(from: Key, to: Key, by: u64) -> Request {
    Request::Move { from, to, by }
}

/// Whether the request is in the bounds of the first range, writes this and replies this.
fn writes(alloc: Global, table: &Table, request: Request, op: Option<Op>, reply: Reply) -> bool {
    in_bounds(first_desc(), &request) && gives(alloc, table, request, (op, None), reply)
}

/// Puts and expected values: `b` is absent, and `t` has a text.
fn puts(alloc: Global, table: &Table, b: Key, t: Key) -> bool {
    writes(alloc, table, put(b, 1), set(b, 1), Reply::Old(None))
        && writes(alloc, table, put(t, 1), set(t, 1), Reply::Old(table.get(t)))
        && writes(alloc, table, cput(b, None), set(b, 4), Reply::Set)
        && writes(alloc, table, cput(t, table.get(t)), set(t, 4), Reply::Set)
}

/// Sums: `a` has 5, and `b` is absent.
fn sums(alloc: Global, table: &Table, a: Key, b: Key) -> bool {
    let most = u64::MAX;
    writes(alloc, table, add(a, 3), set(a, 8), Reply::Now(8))
        && writes(alloc, table, add(b, most), set(b, most), Reply::Now(most))
        && writes(alloc, table, moved(a, a, 2), set(a, 5), Reply::Now(5))
        && writes(alloc, table, moved(b, b, 0), set(b, 0), Reply::Now(0))
}

/// What removes rows, and what moves from `c` to `a`.
fn removals(alloc: Global, table: &Table, keys: (Key, Key, Key), span: KeySpan) -> bool {
    let (a, b, c) = keys;
    let both = (remove(a), remove(c));
    let two = (set(c, 5), set(a, 7));
    writes(
        alloc,
        table,
        Request::Del { key: b },
        remove(b),
        Reply::Old(None),
    ) && gives(alloc, table, Request::Wipe { span }, both, Reply::Count(3))
        && gives(alloc, table, moved(c, a, 2), two, Reply::Now(5))
}

#[test]
fn writes_and_replies(rt: HostRuntime) -> Result<(), Fail> {
    let (a, b, c, t) = (key("a")?, key("b")?, key("c")?, key("t")?);
    let span = KeySpan::new(a, Some(t)).ok_or("a span")?;
    let right = RangeId::new(1).ok_or("a range")?;
    let split = Request::Split { key: c };
    let table = four_rows(rt.alloc())?;
    assert!(rt; puts(rt.alloc(), &table, b, t) && sums(rt.alloc(), &table, a, b));
    assert!(rt; removals(rt.alloc(), &table, (a, b, c), span));
    assert!(rt; writes(rt.alloc(), &table, split, None, Reply::Range(right)));
    Ok(())
}

/// Whether the request is refused so in the first range.
fn refuses(alloc: Global, table: &Table, request: Request, fault: EvalFault) -> bool {
    fault_of(alloc, table, first_desc(), request) == Some(fault)
}

/// Sums that are too large: `a` has 5, and `m` the greatest number.
fn overflows(alloc: Global, table: &Table, a: Key, m: Key) -> bool {
    let most = u64::MAX;
    refuses(
        alloc,
        table,
        add(a, most),
        EvalFault::Overflow { actual: 5 },
    ) && refuses(
        alloc,
        table,
        moved(a, m, 1),
        EvalFault::Overflow { actual: most },
    )
}

fn failed(actual: Option<Value>) -> EvalFault {
    EvalFault::ConditionFailed { actual }
}

/// Expected values: an absent key is not 0, and the text 5 is not the number 5.
fn conditions(alloc: Global, table: &Table, a: Key, b: Key, t: Key) -> bool {
    refuses(alloc, table, cput(a, None), failed(Some(Value::Number(5))))
        && refuses(alloc, table, cput(b, Some(Value::Number(0))), failed(None))
        && refuses(
            alloc,
            table,
            cput(t, Some(Value::Number(5))),
            failed(table.get(t)),
        )
}

/// Where there is less than is taken: `a` has 5, and `b` is absent.
fn shortages(alloc: Global, table: &Table, a: Key, b: Key, m: Key) -> bool {
    refuses(alloc, table, moved(a, m, 6), EvalFault::Short { actual: 5 })
        && refuses(alloc, table, moved(a, a, 6), EvalFault::Short { actual: 5 })
        && refuses(alloc, table, moved(b, a, 1), EvalFault::Short { actual: 0 })
}

/// A text is never counted with.
fn texts(alloc: Global, table: &Table, a: Key, t: Key) -> bool {
    let most = u64::MAX;
    refuses(alloc, table, add(t, most), EvalFault::IsText { key: t })
        && refuses(
            alloc,
            table,
            moved(t, a, most),
            EvalFault::IsText { key: t },
        )
        && refuses(
            alloc,
            table,
            moved(a, t, most),
            EvalFault::IsText { key: t },
        )
}

#[test]
fn refusals(rt: HostRuntime) -> Result<(), Fail> {
    let (a, b, m, t) = (key("a")?, key("b")?, key("m")?, key("t")?);
    let table = four_rows(rt.alloc())?;
    assert!(rt; overflows(rt.alloc(), &table, a, m) && conditions(rt.alloc(), &table, a, b, t));
    assert!(rt; shortages(rt.alloc(), &table, a, b, m) && texts(rt.alloc(), &table, a, t));
    Ok(())
}

/// The left part of a range and the right one.
fn parts(desc: Desc, text: &str) -> Result<(Desc, Desc), Fail> {
    Ok(split_at(desc, key(text)?).ok().ok_or("a split")?)
}

#[test]
fn splits(rt: HostRuntime) -> Result<(), Fail> {
    let (left, right) = parts(first_desc(), "m")?;
    let (left, _) = parts(left, "f")?;
    let (left, _) = parts(left, "c")?;
    let table = Table::new(rt.alloc());
    let (fourth, own_start) = (
        Request::Split { key: key("b")? },
        Request::Split { key: key("m")? },
    );
    let limit = EvalFault::SplitLimit { level: 3 };
    assert!(rt; fault_of(rt.alloc(), &table, left, fourth) == Some(limit));
    assert!(rt; fault_of(rt.alloc(), &table, right, own_start) == Some(EvalFault::NotInside));
    Ok(())
}
