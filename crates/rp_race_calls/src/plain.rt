//! Races in which nothing is held.
ghost use Rattle.std.specs.Prelude.{◌≤◌};

use crate::reports::{FOUR_ADDS, ONE_PUT, ONE_PUT_COUNTED, ONE_PUT_SHOWN, has_four_replies};
use crate::tops::{bytes, call};
use rp_base::Seq;
use rp_clients::PlainGate;
use rp_outside::{MemorySink, MemorySource, SoundSink, SoundSource};
use rp_top::{Form, RacePlan, Status, race_call};
use std::test::Fail;

/// The plan of a race that no words change.
const PLAN: RacePlan = RacePlan {
    workers: 2,
    loss: 0,
    salt: 1,
    quota: 1024,
    form: Form::Text,
};

#[test]
fn one_put(rt: HostRuntime) -> Result<(), Fail> {
    for words in [
        "race",
        "race --workers 1",
        "race --workers=8 --loss 50 --salt 7",
    ] {
        let ended = call(&rt, rt.alloc(), words, ONE_PUT.as_bytes(), &PlainGate)?;
        assert!(rt; ended.is(0, ONE_PUT_SHOWN.as_bytes()));
    }
    let ended = call(
        &rt,
        rt.alloc(),
        "race --form summary",
        ONE_PUT.as_bytes(),
        &PlainGate,
    )?;
    assert!(rt; ended.is(0, ONE_PUT_COUNTED.as_bytes()));
    Ok(())
}

#[test]
fn one_unit_is_shared(rt: HostRuntime) -> Result<(), Fail> {
    let ended = call(
        &rt,
        rt.alloc(),
        "race --workers 2 --quota 1",
        FOUR_ADDS.as_bytes(),
        &PlainGate,
    )?;
    let is_made = match ended.text() {
        Some(report) => has_four_replies(report),
        None => false,
    };
    assert!(rt; ended.status == 0 && is_made);
    Ok(())
}

#[test]
fn nothing_is_sent(rt: HostRuntime) -> Result<(), Fail> {
    let ended = call(&rt, rt.alloc(), "race", b"cluster 5\nend\n", &PlainGate)?;
    let is_shown = match ended.text() {
        Some(report) => report.starts_with(
            "nodes 5\nrange 0 ^ ~ level 0 lease 1 1 40\nnode 1 live ",
        ),
        None => false,
    };
    assert!(rt; ended.status == 0 && is_shown);
    Ok(())
}

#[test]
fn a_source_whose_third_call_fails(rt: HostRuntime) -> Result<(), Fail> {
    let alloc = rt.alloc();
    let fails = Seq::from_vec([3].to_vec(alloc)?);
    let mut source = MemorySource::new(bytes(alloc, ONE_PUT.as_bytes())?, 4, fails);
    let mut sink = SoundSink::new(alloc, 64);
    sink.make_room(4096)?;
    let status = race_call(&rt, alloc, &mut source, &mut sink, PLAN, &PlainGate);
    assert!(rt; status == Status::ReadFault && sink.bytes() == Some(b"".as_slice()));
    Ok(())
}

#[test]
fn a_sink_whose_second_call_fails(rt: HostRuntime) -> Result<(), Fail> {
    let alloc = rt.alloc();
    let fails = Seq::from_vec([2].to_vec(alloc)?);
    let mut sink = MemorySink::new(alloc, 40, fails);
    sink.make_room(4096)?;
    let mut source = SoundSource::new(bytes(alloc, ONE_PUT.as_bytes())?, 4096);
    let status = race_call(&rt, alloc, &mut source, &mut sink, PLAN, &PlainGate);
    let front = b"nodes 1\nreply 1.1 1 ok none\nrange 0 ^ ~ ";
    assert!(rt; status == Status::WriteFault && sink.bytes() == front.as_slice());
    Ok(())
}
