//! How the first range starts, and the right part of a split.
ghost use Rattle.std.specs.Prelude.{IsTrue, IsOk};
ghost use Rattle.rp_base.specs.Splits.{split_of};

use crate::samples::{key, passed};
use rp_base::{Desc, Key, Value};
use rp_range::{first_desc, first_lease, split_at};
use rp_split::{RightStart, first, trigger};
use rp_table::Table;
use std::alloc::Global;
use std::test::Fail;

/// Whether the range may be split at the key.
fn may_split(desc: Desc, key: Key) -> bool
    ensures { IsTrue result → IsOk (split_of desc key) }
{
    split_at(desc, key).is_ok()
}

/// What range 0 splits off at m where a is 1 and z is 9.
fn right_of_m(alloc: Global) -> Result<RightStart, Fail> {
    let mut table = Table::new(alloc);
    table.make_room(2)?;
    table.write_one(key("z")?, Value::Number(9));
    table.write_one(key("a")?, Value::Number(1));
    let (desc, lease, _empty) = first(alloc).into_parts();
    let m = key("m")?;
    if !may_split(desc, m) {
        return Err("range 0 splits at m".into());
    }
    Ok(trigger(alloc, &table, desc, lease, m)?)
}

#[test]
fn range_0_starts_empty(rt: HostRuntime) {
    let start = first(rt.alloc());
    assert!(rt; start.desc() == first_desc() && start.lease() == first_lease());
    assert!(rt; start.table().len() == 0);
}

#[test]
fn range_1_starts_at_m(rt: HostRuntime) -> Result<(), Fail> {
    let start = right_of_m(rt.alloc())?;
    let start = passed(&rt, start);
    let (desc, lease, table) = start.into_parts();
    assert!(rt; desc.id.get() == 1 && desc.level == 1 && desc.start == key("m")?.bound());
    assert!(rt; desc.end == u128::MAX && lease == first_lease());
    assert!(rt; table.len() == 1 && table.get(key("z")?) == Some(Value::Number(9)));
    Ok(())
}
