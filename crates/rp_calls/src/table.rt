//! Tables that are written, cut and copied.
use crate::samples::{key, passed, text};
use rp_base::{Key, Span, Value};
use rp_table::Table;
use std::alloc::Global;
use std::test::Fail;

/// The keys a, c and e with the values 1, the text 5, and 5.
fn three(alloc: Global) -> Result<Table, Fail> {
    let mut table = Table::new(alloc);
    table.make_room(3)?;
    table.write_one(key("e")?, Value::Number(5));
    table.write_one(key("a")?, Value::Number(1));
    table.write_one(key("c")?, text("5")?);
    Ok(table)
}

/// Whether the table has these keys.
fn has(table: &Table, keys: &[Key]) -> bool {
    match table.keys_in(Span::whole()) {
        Ok(found) => found.as_slice() == keys,
        Err(_) => false,
    }
}

#[test]
fn parts(rt: HostRuntime) -> Result<(), Fail> {
    let (a, c, e) = (key("a")?, key("c")?, key("e")?);
    let mut table = three(rt.alloc())?;
    let mut whole = table.copy()?;
    let right = table.split_off(c)?;
    table.cut_at(c);
    whole.remove_one(c);
    let whole = passed(&rt, whole);
    assert!(rt; has(&table, &[a]) && has(&right, &[c, e]) && has(&whole, &[a, e]));
    assert!(rt; right.get(e) == Some(Value::Number(5)));
    Ok(())
}
