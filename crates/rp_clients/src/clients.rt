//! A client, who asks for one thing after another.
ghost use Rattle.std.specs.Prelude.{◌≡◌, ◌+◌, ◌^◌, ◌<◌, ◌≤◌, false, [], length, replicate, None, IfOk, OnOk};
ghost use Rattle.rp_clients.specs.Desks.{IsDeskOf, GoesOn};
ghost use Rattle.rp_clients.specs.Finals.{unsent, left, finals_of, HasDoneAll};
ghost use Rattle.rp_clients.specs.Courses.{SameDesk, KeepsEarlier, Begins, AtPlace, AfterCommand, IsAsked};

use crate::courses::{Course, Sending};
use crate::desks::Desk;
use crate::finals::Finals;
use crate::gates::Gate;
use crate::requests::units_of;
use crate::tries::try_all;
use crate::waits::wait_for_units;
use rp_base::{Grown, NoMemory, Seq};
use rp_request::RequestList;
use std::alloc::Global;
use std::sync::Wait;

/// Waits for the units of a command, tries it, and gives the units back. True where all is over.
fn try_within<R: Wait, D: Desk, G: Gate>(
    rt: &R,
    desk: &mut D,
    gate: &G,
    course: &mut Course,
    command: &Sending,
    quota: u64,
) -> Result<bool, NoMemory>
    requires begins { Begins command.now.seq course.old.hints (D.stands desk.old) }
    requires asked { IsAsked command.now quota (D.stands desk.old) }
    requires rounds { course.old.last_rounds ≡ replicate 5 None }
    requires so_far { course.old.so_far ≡ unsent }
    ensures after { AfterCommand command.now.seq result course.new (D.stands desk.new) }
    ensures earlier { OnOk result (KeepsEarlier command.now.seq (D.stands desk.old) (D.stands desk.new)) }
    ensures same { SameDesk (D.stands desk.old) (D.stands desk.new) }
{
    let units = units_of(quota, &command.request);
    if wait_for_units(rt, desk, units)? {
        return Ok(true);
    }
    let left = try_all(rt, desk, gate, course, command);
    desk.release(units);
    left
}

/// Sends a command, and calls at the gate at its end; where all was over before, it stays unsent.
/// True where all is over.
fn send<R: Wait, D: Desk, G: Gate>(
    rt: &R,
    desk: &mut D,
    gate: &G,
    course: &mut Course,
    command: &Sending,
    quota: u64,
    is_over: bool,
) -> Result<bool, NoMemory>
    requires place { AtPlace is_over command.now.seq course.old.hints (D.stands desk.old) }
    requires asked { IsAsked command.now quota (D.stands desk.old) }
    ensures place { IfOk result (λ over.
        AtPlace over (command.now.seq + 1) course.new.hints (D.stands desk.new)) }
    ensures so_far { OnOk result (course.new.so_far ≡ left command.now.seq (D.stands desk.new).tries) }
    ensures earlier { OnOk result (KeepsEarlier command.now.seq (D.stands desk.old) (D.stands desk.new)) }
    ensures same { SameDesk (D.stands desk.old) (D.stands desk.new) }
{
    course.begin();
    if is_over {
        return Ok(true);
    }
    let left = try_within(rt, desk, gate, course, command, quota);
    gate.after(command.client, command.seq);
    left
}

/// Sends a client's requests one after another, each until it has ended, and gives how it leaves
/// them. A request is sent to the node that is aimed at, and again after a refusal that tells where
/// it stands or that it waits, up to 4,096 times; after any other end the next request follows. Once
/// the desk says that all is over, nothing more is tried: the request at hand is left as it stands,
/// and those behind it are unsent. `NoMemory` where memory was refused, here or as the desk said. The
/// units of the quota that were taken are given back in every case.
pub fn drive<R: Wait, D: Desk, G: Gate>(
    rt: &R,
    alloc: Global,
    desk: &mut D,
    gate: &G,
    nodes: u8,
    client: u16,
    requests: &RequestList,
    quota: u64,
) -> Result<Finals, NoMemory>
    requires some { 1 ≤ nodes }
    requires most { nodes ≤ 5 }
    requires few { length requests.now < 2 ^ 32 }
    requires of { IsDeskOf client nodes requests.now quota (D.stands desk.old) }
    requires untried { (D.stands desk.old).tries ≡ [] }
    requires goes_on { GoesOn (D.stands desk.old) }
    ensures of { IsDeskOf client nodes requests.now quota (D.stands desk.new) }
    ensures held { (D.stands desk.new).held ≡ (D.stands desk.old).held }
    ensures finals { IfOk result (λ finals. finals ≡ finals_of requests.now (D.stands desk.new).tries) }
    ensures all { OnOk result ((D.stands desk.new).is_over ≡ false
        → HasDoneAll client requests.now (D.stands desk.new).tries) }
    ensures memory { OnOk result ((D.stands desk.new).is_short ≡ false) }
{
    let mut finals = Grown::new(alloc);
    finals.make_room(requests.len())?;
    let mut course = Course::start(nodes);
    let mut is_over = false;
    let mut seq = 0;
    for request in requests.as_slice() {
        seq += 1;
        let command = Sending {
            client,
            seq,
            request: *request,
        };
        is_over = send(rt, desk, gate, &mut course, &command, quota, is_over)?;
        finals.push(course.so_far());
    }
    Ok(Seq::from_vec(finals.into_vec()))
}
