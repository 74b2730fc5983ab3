//! The tries of a command, one after another.
ghost use Rattle.std.specs.Prelude.{◌≡◌, ◌+◌, ◌≤◌, IfOk, IfSome, OnOk, OnErr};
ghost use Rattle.rp_router.specs.Hints.{aimed_node, aimed_range};
ghost use Rattle.rp_clients.specs.Tries.{most_tries, id_of, first_key, units_of};
ghost use Rattle.rp_clients.specs.Desks.{GoesOn, MayAdmit, IsEnd};
ghost use Rattle.rp_clients.specs.Courses.{SameDesk, KeepsEarlier, AllEnded, Begins, Ready, Sends, AfterTry, AfterCommand};
ghost use Rattle.rp_clients.specs.Waits.{IsTried};

use crate::answers::AdmitFault;
use crate::courses::{Course, MOST_TRIES, Next, Sending};
use crate::desks::Desk;
use crate::gates::Gate;
use crate::requests::first_key;
use crate::waits::{put_and_wait, wait_for_round};
use rp_base::{CmdId, NoMemory, NodeId, RangeId};
use rp_request::{Outcome, Request};
use std::sync::Wait;

/// Tries the command at a node, and waits for the end of the try. None where all was over first.
fn try_at<R: Wait, D: Desk>(
    rt: &R,
    desk: &mut D,
    node: NodeId,
    range: RangeId,
    id: CmdId,
    request: Request,
) -> Result<Option<Outcome>, NoMemory>
    requires may { MayAdmit node range id request (D.stands desk.old) }
    requires ended { AllEnded (D.stands desk.old).tries }
    ensures ok { IfOk result (IsTried node range id (D.stands desk.old) (D.stands desk.new)) }
    ensures ends { IfOk result (λ end. IfSome end (IsEnd (D.stands desk.old).nodes)) }
    ensures same { SameDesk (D.stands desk.old) (D.stands desk.new) }
{
    match desk.admit(node, range, id, request) {
        Ok(()) => put_and_wait(rt, desk, node, range, id),
        Err(AdmitFault::Refused(refusal)) => Ok(Some(Outcome::Refused(refusal))),
        Err(AdmitFault::NoMemory) => Err(NoMemory),
    }
}

/// The try that is next, at the node that is aimed at.
fn try_aimed<R: Wait, D: Desk, G: Gate>(
    rt: &R,
    desk: &mut D,
    gate: &G,
    course: &mut Course,
    command: &Sending,
    node: NodeId,
    range: RangeId,
    attempt: u16,
) -> Result<Next, NoMemory>
    requires ready { Ready command.now.seq attempt course.old (D.stands desk.old) }
    requires may { MayAdmit node range (id_of command.now.client command.now.seq attempt)
        command.now.request (D.stands desk.old) }
    requires client { (D.stands desk.old).client ≡ command.now.client }
    requires one { node ≤ (D.stands desk.old).nodes }
    ensures after { AfterTry command.now.seq attempt result course.new (D.stands desk.new) }
    ensures earlier { OnOk result (KeepsEarlier command.now.seq (D.stands desk.old) (D.stands desk.new)) }
    ensures same { SameDesk (D.stands desk.old) (D.stands desk.new) }
{
    gate.before(command.client, command.seq);
    let id = CmdId {
        client: command.client,
        seq: command.seq,
        attempt,
    };
    let Some(outcome) = try_at(rt, desk, node, range, id, command.request)? else {
        course.leave_out(attempt);
        return Ok(Next::Over);
    };
    if !course.take_end(node, range, attempt, &outcome) {
        return Ok(Next::Ended);
    }
    let rounds = desk.rounds(node);
    course.set_last(node, rounds);
    Ok(Next::Again)
}

/// The try that is next, once the node that is aimed at has gone on.
fn try_next<R: Wait, D: Desk, G: Gate>(
    rt: &R,
    desk: &mut D,
    gate: &G,
    course: &mut Course,
    command: &Sending,
    attempt: u16,
) -> Result<Next, NoMemory>
    requires ready { Ready command.now.seq attempt course.old (D.stands desk.old) }
    requires sends { Sends command.now (D.stands desk.old) }
    ensures after { AfterTry command.now.seq attempt result course.new (D.stands desk.new) }
    ensures earlier { OnOk result (KeepsEarlier command.now.seq (D.stands desk.old) (D.stands desk.new)) }
    ensures same { SameDesk (D.stands desk.old) (D.stands desk.new) }
{
    let (node, range) = course.hints.aim(first_key(&command.request));
    if wait_for_round(rt, desk, node, course.last_at(node))? {
        return Ok(Next::Over);
    }
    try_aimed(rt, desk, gate, course, command, node, range, attempt)
}

/// All tries of a command, as often as it may be tried. True where all is over.
pub(crate) fn try_all<R: Wait, D: Desk, G: Gate>(
    rt: &R,
    desk: &mut D,
    gate: &G,
    course: &mut Course,
    command: &Sending,
) -> Result<bool, NoMemory>
    requires ready { Ready command.now.seq 1 course.old (D.stands desk.old) }
    requires sends { Sends command.now (D.stands desk.old) }
    ensures after { AfterCommand command.now.seq result course.new (D.stands desk.new) }
    ensures earlier { OnOk result (KeepsEarlier command.now.seq (D.stands desk.old) (D.stands desk.new)) }
    ensures same { SameDesk (D.stands desk.old) (D.stands desk.new) }
{
    for attempt in 1..MOST_TRIES + 1 {
        match try_next(rt, desk, gate, course, command, attempt)? {
            Next::Again => {}
            Next::Ended => return Ok(false),
            Next::Over => return Ok(true),
        }
    }
    unreachable!()
}
