//! Three producers and one flush, each on a thread.
ghost use Rattle.std.specs.Prelude.{◌≡◌, ◌+◌};
ghost use Rattle.rp_buffer.specs.Hands.{all_parts};
ghost use Rattle.rp_buffer.specs.Passes.{known_by, IsPassOf, IsSame};
ghost use Rattle.rp_buffer.specs.Slots.{first};

use rp_base::{CmdId, Item, Items, NodeId};
use rp_buffer::{FlushPass, Left, Pass, SlotTable};
use std::test::Fail;
use std::thread::{Threads, join};

/// Which of its items a producer put.
type Done = [bool; 64];

/// The item of a producer and a number.
fn item(client: u16, seq: u32) -> Item {
    Item::Write(CmdId {
        client,
        seq,
        attempt: 1,
    })
}

/// Tries to put an item.
fn is_put(table: &SlotTable, pass: &mut Pass, client: u16, seq: u32) -> bool
    requires of { IsPassOf table.now pass.old }
    ensures same { IsSame pass.old pass.new }
    ensures parts { (known_by pass.new).parts ≡ (known_by pass.old).parts }
{
    table.insert(pass, 5, item(client, seq)).is_ok()
}

/// Tries to put each item of a producer.
fn put_many(table: &SlotTable, mut pass: Pass, client: u16) -> (Pass, Done)
    requires of { IsPassOf table.now pass }
    ensures of { IsPassOf table.now result.0 }
    ensures parts { (known_by result.0).parts ≡ (known_by pass).parts }
{
    let mut done = [false; 64];
    for seq in 0..64 {
        done[seq] = is_put(table, &mut pass, client, seq as u32);
    }
    (pass, done)
}

/// Collects, where there is memory for what is found.
fn take(table: &SlotTable, flush: &mut FlushPass, out: &mut Items)
    requires of { IsPassOf table.now flush.old.pass }
    requires node { flush.old.node ≡ 1 }
    ensures same { IsSame flush.old.pass flush.new.pass }
    ensures node { flush.new.node ≡ flush.old.node }
    ensures parts { (known_by flush.new.pass).parts ≡ (known_by flush.old.pass).parts }
{
    if out.make_room(16).is_ok() {
        table.collect(flush, 5, out);
    }
}

/// Collects again and again.
fn take_many(table: &SlotTable, mut flush: FlushPass, mut out: Items) -> (Pass, Items)
    requires of { IsPassOf table.now flush.pass }
    requires node { flush.node ≡ 1 }
    ensures of { IsPassOf table.now result.0 }
    ensures parts { (known_by result.0).parts ≡ (known_by flush.pass).parts }
{
    for _ in 0..64 {
        take(table, &mut flush, &mut out);
    }
    (table.retire(flush), out)
}

/// Two producers beside one another.
fn two_put<R: Threads + Sync>(
    rt: &R,
    table: &SlotTable,
    one: Pass,
    two: Pass,
) -> (Pass, (Done, Done))
    requires one { IsPassOf table.now one }
    requires two { IsPassOf table.now two }
    ensures of { IsPassOf table.now result.0 }
    ensures parts { (known_by result.0).parts ≡ (known_by one).parts + (known_by two).parts }
{
    let pair = join(
        rt,
        move || -> (Pass, Done)
            requires { IsPassOf table.now one }
            ensures { IsPassOf table.entry.now result.0
                × ((known_by result.0).parts ≡ (known_by one).parts) }
        { put_many(table, one, 1) },
        move || -> (Pass, Done)
            requires { IsPassOf table.now two }
            ensures { IsPassOf table.entry.now result.0
                × ((known_by result.0).parts ≡ (known_by two).parts) }
        { put_many(table, two, 2) },
    );
    let (first, second) = pair;
    let (mut pass, one_done) = first;
    let (two, two_done) = second;
    table.join(&mut pass, two);
    (pass, (one_done, two_done))
}

/// A producer and the flush beside one another.
fn put_and_take<R: Threads + Sync>(
    rt: &R,
    table: &SlotTable,
    three: Pass,
    flush: FlushPass,
    out: Items,
) -> (Pass, (Done, Items))
    requires three { IsPassOf table.now three }
    requires flush { IsPassOf table.now flush.pass }
    requires node { flush.node ≡ 1 }
    ensures of { IsPassOf table.now result.0 }
    ensures parts { (known_by result.0).parts
        ≡ (known_by three).parts + (known_by flush.pass).parts }
{
    let pair = join(
        rt,
        move || -> (Pass, Done)
            requires { IsPassOf table.now three }
            ensures { IsPassOf table.entry.now result.0
                × ((known_by result.0).parts ≡ (known_by three).parts) }
        { put_many(table, three, 3) },
        move || -> (Pass, Items)
            requires { IsPassOf table.now flush.pass × (flush.node ≡ 1) }
            ensures { IsPassOf table.entry.now result.0
                × ((known_by result.0).parts ≡ (known_by flush.pass).parts) }
        { take_many(table, flush, out) },
    );
    let (first, second) = pair;
    let (mut pass, done) = first;
    let (other, out) = second;
    table.join(&mut pass, other);
    (pass, (done, out))
}

/// All four beside one another.
fn all_four<R: Threads + Sync>(
    rt: &R,
    table: &SlotTable,
    passes: (Pass, Pass, Pass),
    flush: FlushPass,
    out: Items,
) -> (Pass, (Done, Done), (Done, Items))
    requires one { IsPassOf table.now passes.0 }
    requires two { IsPassOf table.now passes.1 }
    requires three { IsPassOf table.now passes.2 }
    requires flush { IsPassOf table.now flush.pass }
    requires node { flush.node ≡ 1 }
    requires parts { ((known_by passes.0).parts ≡ 1) × ((known_by passes.1).parts ≡ 1)
        × ((known_by passes.2).parts ≡ 1) × ((known_by flush.pass).parts ≡ 1) }
    ensures of { IsPassOf table.now result.0 }
    ensures parts { (known_by result.0).parts ≡ 4 }
{
    let (one, two, three) = passes;
    let pair = join(
        rt,
        move || -> (Pass, (Done, Done))
            requires { IsPassOf table.now one × IsPassOf table.now two
                × ((known_by one).parts ≡ 1) × ((known_by two).parts ≡ 1) }
            ensures { IsPassOf table.entry.now result.0 × ((known_by result.0).parts ≡ 2) }
        { two_put(rt, table, one, two) },
        move || -> (Pass, (Done, Items))
            requires { IsPassOf table.now three × IsPassOf table.now flush.pass
                × ((known_by three).parts ≡ 1) × ((known_by flush.pass).parts ≡ 1)
                × (flush.node ≡ 1) }
            ensures { IsPassOf table.entry.now result.0 × ((known_by result.0).parts ≡ 2) }
        { put_and_take(rt, table, three, flush, out) },
    );
    let (first, second) = pair;
    let (mut pass, puts) = first;
    let (other, last) = second;
    table.join(&mut pass, other);
    (pass, puts, last)
}

/// Splits the first pass into five, and puts four of them to work.
fn played<R: Threads + Sync>(
    rt: &R,
    table: &SlotTable,
    mut pass: Pass,
    node: NodeId,
    out: Items,
) -> (Pass, [Done; 3], Items)
    requires of { IsPassOf table.now pass }
    requires first { known_by pass ≡ first 40 }
    requires node { node ≡ 1 }
    ensures of { IsPassOf table.now result.0 }
    ensures parts { (known_by result.0).parts ≡ all_parts }
{
    let split = table.split(&mut pass);
    let flush = table.flusher(split, node);
    let one = table.split(&mut pass);
    let two = table.split(&mut pass);
    let three = table.split(&mut pass);
    let (other, puts, last) = all_four(rt, table, (one, two, three), flush, out);
    table.join(&mut pass, other);
    let (one_done, two_done) = puts;
    let (three_done, out) = last;
    (pass, [one_done, two_done, three_done], out)
}

/// How often an item was taken or is left.
fn times(item: Item, taken: &[Item], left: &Left) -> usize {
    let is_taken = taken.iter().filter(|other| **other == item).count();
    let is_left = left
        .as_slice()
        .iter()
        .filter(|other| other.item == item)
        .count();
    is_taken.saturating_add(is_left)
}

/// Whether what a producer put was taken or is left, once, and nothing else of it.
fn is_there_once(client: u16, done: &Done, taken: &[Item], left: &Left) -> bool {
    (0..64).zip(done).all(|(seq, is_put)| {
        let times = times(item(client, seq), taken, left);
        times == if *is_put { 1 } else { 0 }
    })
}

/// The same of all three.
fn is_right(done: &[Done; 3], taken: &[Item], left: &Left) -> bool {
    is_there_once(1, &done[0], taken, left)
        && is_there_once(2, &done[1], taken, left)
        && is_there_once(3, &done[2], taken, left)
}

#[test]
fn what_three_producers_put_is_taken_or_left(rt: HostRuntime) -> Result<(), Fail> {
    let Some(node) = NodeId::new(1) else {
        return Ok(());
    };
    let out = Items::new(rt.alloc());
    let (table, pass) = SlotTable::new(rt.alloc())?;
    let (pass, done, out) = played(&rt, &table, pass, node, out);
    let left = table.close(pass, rt.alloc())?;
    assert!(rt; is_right(&done, out.as_slice(), &left));
    Ok(())
}
