//! A client over a desk in memory.
ghost use Rattle.std.specs.Prelude.{◌≡◌, IfOk, length};

use crate::fakes::{Admission, FakeDesk, Posted, Script};
use rp_base::{CmdId, Key, Lease, LeaseIndex, LeaseSeq, NoMemory, NodeId, Seq, Span, Tick};
use rp_clients::{Final, Finals, PlainGate, drive};
use rp_request::{Ambiguity, Outcome, Refusal, Reply, Request, RequestList};
use std::alloc::Global;
use std::collections::VecDeque;
use std::sync::Wait;
use std::test::Fail;

/// How a client of three nodes left two commands, and its desk.
#[derive(Drop)]
struct Played {
    finals: Result<Finals, NoMemory>,
    desk: FakeDesk,
}

fn add(key: Key, by: u64) -> Request {
    Request::Add { key, by }
}

/// Two adds.
fn two_adds(alloc: Global) -> Result<RequestList, Fail>
    ensures { IfOk result (λ requests. length requests ≡ 2) }
{
    let key = Key::read(b"a").ok().ok_or("a key")?;
    let adds = [add(key, 1), add(key, 2)];
    Ok(Seq::from_vec(Vec::from_slice(alloc, &adds)?))
}

/// A script by which each command is admitted, and so much is posted.
fn script(alloc: Global, posted: &[Posted]) -> Result<Script, Fail> {
    let mut queue = VecDeque::new(alloc);
    for one in posted {
        queue.push_back(*one)?;
    }
    Ok(Script {
        admissions: VecDeque::new(alloc),
        rest: Admission::Taken,
        posted: queue,
        low: 0,
        stalls: 0,
        full: 0,
    })
}

fn play<R: Wait>(rt: &R, alloc: Global, script: Script) -> Result<Played, Fail> {
    let requests = two_adds(alloc)?;
    let copy = requests.copy()?;
    let mut desk = FakeDesk::new(alloc, 1, 3, copy, 8, script);
    let finals = drive(rt, alloc, &mut desk, &PlainGate, 3, 1, &requests, 8);
    Ok(Played { finals, desk })
}

/// Whether a command was left so, at this number of its latest attempt.
fn is_left(played: &Played, place: usize, attempt: u16, end: Final) -> bool {
    match &played.finals {
        Ok(finals) => match finals.as_slice().get(place) {
            Some(one) => one.attempt == attempt && one.end == end,
            None => false,
        },
        Err(NoMemory) => false,
    }
}

/// Whether want of memory ended the client, after so many tries, with no units held.
fn is_short(played: &Played, tries: usize) -> bool {
    played.finals.is_err() && played.desk.tries.len() == tries && played.desk.held == 0
}

/// Whether the try at this place, the latest first, was made at this node.
fn is_at(played: &Played, place: usize, node: u8) -> bool {
    match played.desk.tries.get(place) {
        Some(one) => one.node.get() == node,
        None => false,
    }
}

fn done(number: u64) -> Outcome {
    Outcome::Success(Reply::Now(number))
}

fn held_by(node: u8) -> Result<Refusal, Fail> {
    Ok(Refusal::NotLeaseHolder {
        lease: Lease {
            holder: NodeId::new(node).ok_or("a node")?,
            seq: LeaseSeq::new(2),
            expires: Tick::new(40),
        },
    })
}

fn latched() -> Refusal {
    Refusal::Latched {
        by: CmdId {
            client: 2,
            seq: 1,
            attempt: 1,
        },
        held: Span::whole(),
    }
}

#[test]
fn success_at_once(rt: HostRuntime) -> Result<(), Fail> {
    let posted = [
        Posted::Ended(done(1)),
        Posted::Nothing,
        Posted::Ended(done(3)),
    ];
    let played = play(&rt, rt.alloc(), script(rt.alloc(), &posted)?)?;
    assert!(rt;
        is_left(&played, 0, 1, Final::Outcome(done(1)))
            && is_left(&played, 1, 1, Final::Outcome(done(3)))
            && played.desk.tries.len() == 2
            && played.desk.puts == 2
            && played.desk.held == 0
    );
    Ok(())
}

#[test]
fn another_holder_is_asked(rt: HostRuntime) -> Result<(), Fail> {
    let mut script = script(
        rt.alloc(),
        &[Posted::Ended(done(1)), Posted::Ended(done(3))],
    )?;
    script
        .admissions
        .push_back(Admission::Refused(held_by(2)?))?;
    let played = play(&rt, rt.alloc(), script)?;
    assert!(rt;
        is_left(&played, 0, 2, Final::Outcome(done(1)))
            && is_left(&played, 1, 1, Final::Outcome(done(3)))
            && is_at(&played, 2, 1)
            && is_at(&played, 1, 2)
            && is_at(&played, 0, 2)
    );
    Ok(())
}

#[test]
fn a_later_refusal_is_learnt(rt: HostRuntime) -> Result<(), Fail> {
    let refused = Posted::Ended(Outcome::Refused(held_by(3)?));
    let posted = [refused, Posted::Ended(done(1)), Posted::Ended(done(3))];
    let played = play(&rt, rt.alloc(), script(rt.alloc(), &posted)?)?;
    assert!(rt;
        is_left(&played, 0, 2, Final::Outcome(done(1)))
            && is_at(&played, 2, 1)
            && is_at(&played, 1, 3)
            && played.desk.puts == 3
    );
    Ok(())
}

#[test]
fn latched_twice(rt: HostRuntime) -> Result<(), Fail> {
    let mut script = script(
        rt.alloc(),
        &[Posted::Ended(done(1)), Posted::Ended(done(3))],
    )?;
    script.admissions.push_back(Admission::Refused(latched()))?;
    script.admissions.push_back(Admission::Refused(latched()))?;
    let played = play(&rt, rt.alloc(), script)?;
    assert!(rt;
        is_left(&played, 0, 3, Final::Outcome(done(1)))
            && is_left(&played, 1, 1, Final::Outcome(done(3)))
            && played.desk.tries.len() == 4
            && played.desk.puts == 2
    );
    Ok(())
}

#[test]
fn refusals_that_end_a_command(rt: HostRuntime) -> Result<(), Fail> {
    let failed = Refusal::ConditionFailed { actual: None };
    let mut script = script(
        rt.alloc(),
        &[Posted::Ended(Outcome::Refused(Refusal::Short { actual: 1 }))],
    )?;
    script.admissions.push_back(Admission::Refused(failed))?;
    let played = play(&rt, rt.alloc(), script)?;
    assert!(rt;
        is_left(&played, 0, 1, Final::Outcome(Outcome::Refused(failed)))
            && is_left(
                &played,
                1,
                1,
                Final::Outcome(Outcome::Refused(Refusal::Short { actual: 1 }))
            )
            && played.desk.tries.len() == 2
            && played.desk.puts == 1
    );
    Ok(())
}

#[test]
fn no_try_after_ambiguous(rt: HostRuntime) -> Result<(), Fail> {
    let why = Ambiguity::Removed {
        own: LeaseIndex::new(1),
    };
    let played = play(
        &rt,
        rt.alloc(),
        script(
            rt.alloc(),
            &[
                Posted::Ended(Outcome::Ambiguous(why)),
                Posted::Ended(done(2)),
            ],
        )?,
    )?;
    assert!(rt;
        is_left(&played, 0, 1, Final::Outcome(Outcome::Ambiguous(why)))
            && is_left(&played, 1, 1, Final::Outcome(done(2)))
            && played.desk.tries.len() == 2
    );
    Ok(())
}

#[test]
fn as_many_refusals_as_there_may_be_tries(rt: HostRuntime) -> Result<(), Fail> {
    let mut script = script(rt.alloc(), &[])?;
    for _ in 0..4096 {
        script
            .admissions
            .push_back(Admission::Refused(Refusal::NoReplica))?;
    }
    let played = play(&rt, rt.alloc(), script)?;
    assert!(rt;
        is_left(&played, 0, 4096, Final::Tries(Refusal::NoReplica))
            && is_left(&played, 1, 1, Final::Outcome(Outcome::Pending))
            && played.desk.tries.len() == 4097
            && played.desk.held == 0
    );
    Ok(())
}

#[test]
fn over_before_a_try(rt: HostRuntime) -> Result<(), Fail> {
    let mut script = script(rt.alloc(), &[Posted::Nothing, Posted::Over])?;
    script.low = 2;
    let played = play(&rt, rt.alloc(), script)?;
    assert!(rt;
        is_left(&played, 0, 0, Final::Unsent)
            && is_left(&played, 1, 0, Final::Unsent)
            && played.desk.tries.is_empty()
            && played.desk.held == 0
            && played.desk.fetches == 2
    );
    Ok(())
}

#[test]
fn over_between_tries(rt: HostRuntime) -> Result<(), Fail> {
    let mut script = script(rt.alloc(), &[Posted::Nothing, Posted::Over])?;
    script.admissions.push_back(Admission::Refused(latched()))?;
    script.stalls = 3;
    let played = play(&rt, rt.alloc(), script)?;
    assert!(rt;
        is_left(&played, 0, 1, Final::Outcome(Outcome::Refused(latched())))
            && is_left(&played, 1, 0, Final::Unsent)
            && played.desk.tries.len() == 1
            && played.desk.held == 0
            && played.desk.fetches == 2
    );
    Ok(())
}

#[test]
fn over_after_a_try(rt: HostRuntime) -> Result<(), Fail> {
    let played = play(
        &rt,
        rt.alloc(),
        script(rt.alloc(), &[Posted::Nothing, Posted::Over])?,
    )?;
    assert!(rt;
        is_left(&played, 0, 1, Final::Outcome(Outcome::Pending))
            && is_left(&played, 1, 0, Final::Unsent)
            && played.desk.puts == 1
            && played.desk.held == 0
    );
    Ok(())
}

#[test]
fn a_full_buffer_is_tried_again(rt: HostRuntime) -> Result<(), Fail> {
    let posted = [
        Posted::Nothing,
        Posted::Nothing,
        Posted::Ended(done(1)),
        Posted::Ended(done(3)),
    ];
    let mut script = script(rt.alloc(), &posted)?;
    script.full = 2;
    let played = play(&rt, rt.alloc(), script)?;
    assert!(rt;
        is_left(&played, 0, 1, Final::Outcome(done(1)))
            && is_left(&played, 1, 1, Final::Outcome(done(3)))
            && played.desk.puts == 4
    );
    Ok(())
}

#[test]
fn an_end_of_another_try_is_passed_over(rt: HostRuntime) -> Result<(), Fail> {
    let other = CmdId {
        client: 1,
        seq: 7,
        attempt: 1,
    };
    let posted = [
        Posted::Stray(other, done(9)),
        Posted::Ended(done(1)),
        Posted::Ended(done(3)),
    ];
    let played = play(&rt, rt.alloc(), script(rt.alloc(), &posted)?)?;
    assert!(rt;
        is_left(&played, 0, 1, Final::Outcome(done(1)))
            && is_left(&played, 1, 1, Final::Outcome(done(3)))
    );
    Ok(())
}

#[test]
fn want_of_memory_ends_a_client(rt: HostRuntime) -> Result<(), Fail> {
    let mut at_the_quota = script(rt.alloc(), &[Posted::NoMemory])?;
    at_the_quota.low = 1;
    assert!(rt; is_short(&play(&rt, rt.alloc(), at_the_quota)?, 0));
    let mut at_a_try = script(rt.alloc(), &[])?;
    at_a_try.rest = Admission::NoMemory;
    assert!(rt; is_short(&play(&rt, rt.alloc(), at_a_try)?, 0));
    Ok(())
}

#[test]
fn want_of_memory_while_a_try_is_out(rt: HostRuntime) -> Result<(), Fail> {
    let mut at_the_buffer = script(rt.alloc(), &[Posted::NoMemory])?;
    at_the_buffer.full = 1;
    assert!(rt; is_short(&play(&rt, rt.alloc(), at_the_buffer)?, 1));
    let for_an_end = script(rt.alloc(), &[Posted::Nothing, Posted::NoMemory])?;
    assert!(rt; is_short(&play(&rt, rt.alloc(), for_an_end)?, 1));
    let mut for_a_round = script(rt.alloc(), &[Posted::NoMemory])?;
    for_a_round.rest = Admission::Refused(latched());
    for_a_round.stalls = 3;
    assert!(rt; is_short(&play(&rt, rt.alloc(), for_a_round)?, 1));
    Ok(())
}
