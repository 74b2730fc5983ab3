//! Seventeen inserts in one buffer.
ghost use Rattle.std.specs.Prelude.{◌≡◌, ◌≤◌};
ghost use Rattle.rp_buffer.specs.Hands.{all_parts};
ghost use Rattle.rp_buffer.specs.Passes.{known_by, IsPassOf, IsSame};
ghost use Rattle.rp_buffer.specs.Slots.{first};

use rp_base::{CmdId, Item, Items, NodeId};
use rp_buffer::{FlushPass, InsertFault, Left, Pass, SlotTable};
use std::test::Fail;

/// The item of a number.
fn item(seq: u32) -> Item {
    Item::Write(CmdId {
        client: 1,
        seq,
        attempt: 1,
    })
}

/// Puts the item of a number.
fn put(table: &SlotTable, pass: &mut Pass, seq: u32) -> Result<(), InsertFault>
    requires of { IsPassOf table.now pass.old }
    ensures same { IsSame pass.old pass.new }
    ensures parts { (known_by pass.new).parts ≡ (known_by pass.old).parts }
{
    table.insert(pass, 3, item(seq))
}

/// Puts sixteen items, and says whether each was put.
fn put_sixteen(table: &SlotTable, pass: &mut Pass) -> bool
    requires of { IsPassOf table.now pass.old }
    ensures same { IsSame pass.old pass.new }
    ensures parts { (known_by pass.new).parts ≡ (known_by pass.old).parts }
{
    let mut all = true;
    for seq in 0..16 {
        let is_put = put(table, pass, seq).is_ok();
        all = all && is_put;
    }
    all
}

/// Whether sixteen are put, the next finds the buffer full, and one more is put after a collect.
fn is_full_at_sixteen(
    table: &SlotTable,
    pass: &mut Pass,
    flush: &mut FlushPass,
    out: &mut Items,
) -> bool
    requires of { IsPassOf table.now pass.old }
    requires flush { IsPassOf table.now flush.old.pass }
    requires node { flush.old.node ≡ 1 }
    requires room { 16 ≤ out.old.spare }
    ensures same { IsSame pass.old pass.new }
    ensures parts { (known_by pass.new).parts ≡ (known_by pass.old).parts }
    ensures same_flush { IsSame flush.old.pass flush.new.pass }
    ensures parts_flush { (known_by flush.new.pass).parts ≡ (known_by flush.old.pass).parts }
{
    let sixteen = put_sixteen(table, pass);
    let full = put(table, pass, 16) == Err(InsertFault::Full { seen: 16 });
    table.collect(flush, 3, out);
    let again = put(table, pass, 17).is_ok();
    sixteen && full && again
}

/// The same with the first pass, from which the flush's is split and which it joins again.
fn is_right(table: &SlotTable, pass: &mut Pass, node: NodeId, out: &mut Items) -> bool
    requires of { IsPassOf table.now pass.old }
    requires first { known_by pass.old ≡ first 40 }
    requires node { node ≡ 1 }
    requires room { 16 ≤ out.old.spare }
    ensures same { IsSame pass.old pass.new }
    ensures parts { (known_by pass.new).parts ≡ all_parts }
{
    let split = table.split(pass);
    let mut flush = table.flusher(split, node);
    let is_right = is_full_at_sixteen(table, pass, &mut flush, out);
    table.join(pass, table.retire(flush));
    is_right
}

/// Whether these are the first sixteen items, in order.
fn is_in_order(items: &[Item]) -> bool {
    items.len() == 16 && (0..16).zip(items).all(|(seq, found)| *found == item(seq))
}

/// Whether the last item alone is left.
fn is_last(left: &Left) -> bool {
    let left = left.as_slice();
    left.len() == 1 && left[0].buffer == 3 && left[0].item == item(17)
}

#[test]
fn the_seventeenth_insert_finds_the_buffer_full(rt: HostRuntime) -> Result<(), Fail> {
    let Some(node) = NodeId::new(1) else {
        return Ok(());
    };
    let mut out = Items::new(rt.alloc());
    out.make_room(16)?;
    let (table, mut pass) = SlotTable::new(rt.alloc())?;
    let judged = is_right(&table, &mut pass, node, &mut out) && is_in_order(out.as_slice());
    let left = table.close(pass, rt.alloc())?;
    assert!(rt; judged && is_last(&left));
    Ok(())
}
