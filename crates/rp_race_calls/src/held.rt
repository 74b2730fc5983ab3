//! Races in which threads are held until others have come so far: they run beside one another.
use crate::gates::{Pairs, SecondFirst};
use crate::reports::{FOUR_ADDS, has_four_replies};
use crate::tops::{Ended, call};
use std::test::Fail;

/// Whether the four adds were made.
fn are_made(ended: &Ended) -> bool {
    match ended.text() {
        Some(report) => ended.status == 0 && has_four_replies(report),
        None => false,
    }
}

#[test]
fn the_first_client_is_held_until_the_second_has_ended(rt: HostRuntime) -> Result<(), Fail> {
    let gate = SecondFirst::new();
    let ended = call(
        &rt,
        rt.alloc(),
        "race --workers 2",
        FOUR_ADDS.as_bytes(),
        &gate,
    )?;
    assert!(rt; are_made(&ended) && gate.was_opened());
    Ok(())
}

#[test]
fn two_clients_and_two_workers_meet(rt: HostRuntime) -> Result<(), Fail> {
    let gate = Pairs::new();
    let ended = call(
        &rt,
        rt.alloc(),
        "race --workers 2",
        FOUR_ADDS.as_bytes(),
        &gate,
    )?;
    assert!(rt; are_made(&ended) && gate.were_opened());
    Ok(())
}
