//! A list whose items keep their slots.
use crate::samples::passed;
use rp_slots::Slotted;
use std::alloc::Global;
use std::test::Fail;

/// 7, 8 and 9, put in from the last on, with slots that are used again.
fn edited(alloc: Global) -> Result<Slotted<u64>, Fail> {
    let mut list = Slotted::new(alloc);
    list.make_room(4)?;
    list.push(9);
    list.insert(0, 5);
    list.remove(0);
    list.insert(0, 6);
    list.replace(0, 8);
    list.insert(0, 7);
    Ok(list)
}

/// Whether these are the items.
fn shows(list: &Slotted<u64>, items: &[u64]) -> bool {
    for place in 0..list.len() {
        if items.get(place) != Some(list.at(place)) {
            return false;
        }
    }
    list.len() == items.len()
}

#[test]
fn edits(rt: HostRuntime) -> Result<(), Fail> {
    let list = edited(rt.alloc())?;
    let mut part = list.copy_from(list.len().min(1))?;
    part.truncate(1);
    let list = passed(&rt, list);
    assert!(rt; shows(&list, &[7, 8, 9]) && shows(&part, &[8]));
    Ok(())
}
