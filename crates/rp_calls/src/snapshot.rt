//! A snapshot is made, copied, handed to a thread and taken apart.
use crate::samples::{key, passed};
use rp_base::{LeaseIndex, Value};
use rp_range::{first_desc, first_lease};
use rp_snapshot::{Snapshot, make};
use rp_table::Table;
use std::alloc::Global;
use std::test::Fail;

/// The first range under the first lease after one command, a put of a.
fn one_put(alloc: Global) -> Result<Snapshot, Fail> {
    let mut table = Table::new(alloc);
    table.make_room(1)?;
    table.write_one(key("a")?, Value::Number(5));
    Ok(make(
        alloc,
        first_desc(),
        first_lease(),
        LeaseIndex::new(1),
        &table,
    )?)
}

#[test]
fn a_snapshot_is_a_copy(rt: HostRuntime) -> Result<(), Fail> {
    let snapshot = one_put(rt.alloc())?.copy()?;
    let snapshot = passed(&rt, snapshot);
    assert!(rt; snapshot.rows() == 1 && snapshot.table().len() == 1);
    assert!(rt; snapshot.desc() == first_desc() && snapshot.lease() == first_lease());
    let (_desc, _lease, lai, table) = snapshot.into_parts();
    assert!(rt; lai.get() == 1 && table.get(key("a")?) == Some(Value::Number(5)));
    Ok(())
}
