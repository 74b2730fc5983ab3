//! How a client waits: it looks between two steps for what is posted, and lets other threads run.
ghost use Rattle.std.specs.Prelude.{◌≡◌, ◌≤◌, IfOk, IfSome};
ghost use Rattle.rp_base.specs.Ids.{same_id};
ghost use Rattle.rp_clients.specs.Desks.{GoesOn, MayPut, IsEnd};
ghost use Rattle.rp_clients.specs.Courses.{AllEnded};
ghost use Rattle.rp_clients.specs.Waits.{after_look, after_units, SameButTold, HasPassed, Awaits, after_hearing, HearsEnd, after_waiting};

use crate::answers::Answer;
use crate::desks::Desk;
use rp_base::{CmdId, NoMemory, NodeId, RangeId};
use rp_request::Outcome;
use std::sync::Wait;
use std::thread::yield_now;

/// What was heard of the latest try.
#[derive(Clone, Copy)]
pub(crate) enum Heard {
    /// Nothing new.
    Nothing,
    /// It ended so.
    Ended(Outcome),
    /// All is over.
    Over,
}

/// Looks once while no try is out: true where all is over.
fn is_over<D: Desk>(desk: &mut D) -> Result<bool, NoMemory>
    requires { AllEnded (D.stands desk.old).tries }
    ensures { D.stands desk.new ≡ after_look result (D.stands desk.old) }
{
    match desk.fetch() {
        Ok(Answer::Over) => Ok(true),
        Ok(Answer::NoMemory) => Err(NoMemory),
        Ok(Answer::Ended { .. }) => Ok(false),
        Err(_) => Ok(false),
    }
}

/// Waits until the units are had: then false. True where all was over first.
pub(crate) fn wait_for_units<R: Wait, D: Desk>(
    rt: &R,
    desk: &mut D,
    units: u64,
) -> Result<bool, NoMemory>
    requires goes_on { GoesOn (D.stands desk.old) }
    requires ended { AllEnded (D.stands desk.old).tries }
    requires most { units ≤ (D.stands desk.old).capacity }
    ensures { D.stands desk.new ≡ after_units units result (D.stands desk.old) }
{
    for _ in rt.forever() {
        if desk.reserve(units).is_ok() {
            return Ok(false);
        }
        if is_over(desk)? {
            return Ok(true);
        }
        yield_now();
    }
    unreachable!()
}

/// Waits until a node has more rounds than the number that is kept for it, if any is: then false.
/// True where all was over first.
pub(crate) fn wait_for_round<R: Wait, D: Desk>(
    rt: &R,
    desk: &mut D,
    node: NodeId,
    last: Option<u64>,
) -> Result<bool, NoMemory>
    requires node { node ≤ (D.stands desk.old).nodes }
    requires ended { AllEnded (D.stands desk.old).tries }
    ensures rest { SameButTold (after_look result (D.stands desk.old)) (D.stands desk.new) }
    ensures passed { HasPassed result last ((D.stands desk.new).told node) }
{
    let Some(last) = last else {
        return Ok(false);
    };
    for _ in rt.forever() {
        if last < desk.rounds(node) {
            return Ok(false);
        }
        if is_over(desk)? {
            return Ok(true);
        }
        yield_now();
    }
    unreachable!()
}

/// Whether two ids are one.
fn is_same(one: CmdId, other: CmdId) -> bool
    ensures { result ≡ same_id one other }
{
    one == other
}

/// Looks once for the end of the try that is out.
fn look<D: Desk>(desk: &mut D, id: CmdId) -> Result<Heard, NoMemory>
    requires { Awaits id (D.stands desk.old).tries }
    ensures after { D.stands desk.new ≡ after_hearing result (D.stands desk.old) }
    ensures ends { IfOk result (HearsEnd (D.stands desk.old).nodes) }
{
    match desk.fetch() {
        Ok(Answer::Ended { id: ended, outcome }) => {
            if is_same(ended, id) {
                Ok(Heard::Ended(outcome))
            } else {
                Ok(Heard::Nothing)
            }
        }
        Ok(Answer::Over) => Ok(Heard::Over),
        Ok(Answer::NoMemory) => Err(NoMemory),
        Err(_) => Ok(Heard::Nothing),
    }
}

/// Puts the command that was admitted into its buffer, again while there is no room: then `Nothing`
/// is heard.
fn put<R: Wait, D: Desk>(
    rt: &R,
    desk: &mut D,
    node: NodeId,
    range: RangeId,
    id: CmdId,
) -> Result<Heard, NoMemory>
    requires may { MayPut node range id (D.stands desk.old) }
    requires awaits { Awaits id (D.stands desk.old).tries }
    ensures after { D.stands desk.new
        ≡ record (after_hearing result (D.stands desk.old)) { is_put = (D.stands desk.new).is_put } }
    ensures ends { IfOk result (HearsEnd (D.stands desk.old).nodes) }
{
    for _ in rt.forever() {
        if desk.put(node, range, id) {
            return Ok(Heard::Nothing);
        }
        match look(desk, id)? {
            Heard::Nothing => yield_now(),
            heard => return Ok(heard),
        }
    }
    unreachable!()
}

/// Waits for the end of the try that is out. None where all was over first.
fn wait_for_end<R: Wait, D: Desk>(
    rt: &R,
    desk: &mut D,
    id: CmdId,
) -> Result<Option<Outcome>, NoMemory>
    requires { Awaits id (D.stands desk.old).tries }
    ensures after { D.stands desk.new ≡ after_waiting result (D.stands desk.old) }
    ensures ends { IfOk result (λ end. IfSome end (IsEnd (D.stands desk.old).nodes)) }
{
    for _ in rt.forever() {
        match look(desk, id)? {
            Heard::Nothing => yield_now(),
            Heard::Ended(outcome) => return Ok(Some(outcome)),
            Heard::Over => return Ok(None),
        }
    }
    unreachable!()
}

/// Puts the command that was admitted into its buffer, and waits for its end. None where all was
/// over first.
pub(crate) fn put_and_wait<R: Wait, D: Desk>(
    rt: &R,
    desk: &mut D,
    node: NodeId,
    range: RangeId,
    id: CmdId,
) -> Result<Option<Outcome>, NoMemory>
    requires may { MayPut node range id (D.stands desk.old) }
    requires awaits { Awaits id (D.stands desk.old).tries }
    ensures after { D.stands desk.new
        ≡ record (after_waiting result (D.stands desk.old)) { is_put = (D.stands desk.new).is_put } }
    ensures ends { IfOk result (λ end. IfSome end (IsEnd (D.stands desk.old).nodes)) }
{
    match put(rt, desk, node, range, id)? {
        Heard::Nothing => wait_for_end(rt, desk, id),
        Heard::Ended(outcome) => Ok(Some(outcome)),
        Heard::Over => Ok(None),
    }
}
