//! The workers of a race, each on a thread, and the clients behind them.
ghost use denote.Param.Send.{IsSync, IsSend};
ghost use Rattle.std.specs.Prelude.{◌≡◌, ◌+◌, ◌<◌, ◌≤◌, false, ◌||◌};
ghost use Rattle.rp_buffer.specs.Passes as passes;
ghost use Rattle.rp_quota.specs.Shares as shares;
ghost use Rattle.rp_bench.specs.Worked.{MayServe};
ghost use Rattle.rp_serving.specs.Playing.{GivesFew};
ghost use Rattle.rp_switch.specs.Seats.{terms_of, known_by, IsSeatOf};
ghost use Rattle.rp_switch.specs.Views.{Idle, OfWorker, choosing, left, right, both};
ghost use Rattle.rp_desks.specs.Onward.{heard_over};
ghost use Rattle.rp_racers.specs.Raced.{AreUntried, AreUnserved};
ghost use Rattle.rp_racers.specs.Hands.{AreAt, MayWork, HasWorked, MayAllWork, AllHaveWorked};

use crate::backs::Back;
use crate::clients::run_clients;
use rp_bench::{Board, WorkerBack, WorkerRights, WorkerShared, run_worker};
use rp_bufcore::BufferEnd;
use rp_clients::Gate;
use rp_desks::laws::what_was_heard_is_joined;
use rp_desks::{Rights, Shared};
use std::alloc::Global;
use std::sync::Wait;
use std::thread::{Threads, join};

/// One worker, from its first round to its last.
fn work<'a, R: Wait, E: BufferEnd + Drop, G: Gate>(
    rt: &'a R,
    alloc: Global,
    shared: &'a Shared<'a, E>,
    board: &'a Board,
    rights: WorkerRights<E>,
    gate: &'a G,
    worker: u8,
    workers: u8,
) -> WorkerBack<E>
    requires may { MayWork shared.now board.now.clients rights worker workers }
    requires few { GivesFew E.gives }
    ensures { HasWorked shared.now rights result }
{
    let its = WorkerShared {
        switch: shared.switch,
        buffers: shared.buffers,
        board,
    };
    let back = run_worker(rt, alloc, &its, rights, gate, worker, workers);
    let WorkerShared {
        switch: _,
        buffers: _,
        board: _,
    } = its;
    back
}

/// Hands out a worker's rights to rounds, with a part of the seat and the pass.
fn hand_out<'a, E: BufferEnd + Drop>(
    shared: &Shared<'a, E>,
    rights: &mut Rights<E>,
    worker: u8,
    workers: u8,
) -> WorkerRights<E>
    requires worker { (worker < workers) × (workers ≤ 8) }
    requires at { AreAt shared.now rights.old }
    requires untried { AreUntried 1 (known_by rights.old.seat) }
    requires unserved { AreUnserved worker workers (known_by rights.old.seat) }
    requires parts { 2 ≤ (known_by rights.old.seat).parts }
    requires pass_parts { 2 ≤ (passes.known_by rights.old.pass).parts }
    ensures at { AreAt shared.now rights.new }
    ensures known { known_by rights.new.seat
        ≡ left (choosing (OfWorker worker workers) (known_by rights.old.seat)) }
    ensures untried { AreUntried 1 (known_by rights.new.seat) }
    ensures unserved { AreUnserved (worker + 1) workers (known_by rights.new.seat) }
    ensures parts { (known_by rights.new.seat).parts + 1 ≡ (known_by rights.old.seat).parts }
    ensures pass { (passes.known_by rights.new.pass).parts + 1 ≡ (passes.known_by rights.old.pass).parts }
    ensures share { rights.new.share ≡ rights.old.share }
    ensures its_seat { IsSeatOf shared.now.switch.now result.seat }
    ensures its_known { known_by result.seat
        ≡ right (choosing (OfWorker worker workers) (known_by rights.old.seat)) }
    ensures its_rounds { MayServe (known_by result.seat) worker workers }
    ensures its_pass { passes.IsPassOf shared.now.buffers.now result.pass }
    ensures its_parts { (passes.known_by result.pass).parts ≡ 1 }
{
    let seat = shared
        .switch
        .split_worker(&mut rights.seat, worker, workers);
    let pass = shared.buffers.split(&mut rights.pass);
    WorkerRights { seat, pass }
}

/// What one worker leaves goes to what the others and the clients leave.
fn put_together<'a, E: BufferEnd + Drop>(
    shared: &Shared<'a, E>,
    rest: Back<E>,
    one: WorkerBack<E>,
) -> Back<E>
    requires rest { AreAt shared.now rest.rights }
    requires seat { IsSeatOf shared.now.switch.now one.rights.seat }
    requires idle { (known_by one.rights.seat).stage ≡ Idle }
    requires pass { passes.IsPassOf shared.now.buffers.now one.rights.pass }
    ensures at { AreAt shared.now result.rights }
    ensures known { known_by result.rights.seat ≡ both (known_by rest.rights.seat) (known_by one.rights.seat) }
    ensures short { result.is_short ≡ (rest.is_short || one.is_short) }
    ensures pass { (passes.known_by result.rights.pass).parts
        ≡ (passes.known_by rest.rights.pass).parts + (passes.known_by one.rights.pass).parts }
    ensures share { result.rights.share ≡ rest.rights.share }
    ensures heard { heard_over (known_by result.rights.seat) ≡ false
        → heard_over (known_by rest.rights.seat) ≡ false }
{
    what_was_heard_is_joined();
    let Back {
        mut rights,
        is_short,
    } = rest;
    let WorkerBack {
        rights: its,
        is_short: its_short,
    } = one;
    shared.switch.join(&mut rights.seat, its.seat);
    shared.buffers.join(&mut rights.pass, its.pass);
    Back {
        rights,
        is_short: is_short || its_short,
    }
}

/// Runs the workers from this one on, each on a thread of its own, and all clients beside them.
pub(crate) fn run_workers<'a, R: Threads + Wait + Sync, E: BufferEnd + Drop + Send, G: Gate + Sync>(
    rt: &'a R,
    alloc: Global,
    shared: &'a Shared<'a, E>,
    board: &'a Board,
    mut rights: Rights<E>,
    gate: &'a G,
    from: u8,
    workers: u8,
) -> Back<E>
    requires may { MayAllWork shared.now board.now.clients rights from workers }
    requires few { GivesFew E.gives }
    ensures { AllHaveWorked shared.now rights result }
{
    if from == workers {
        return run_clients(rt, alloc, shared, board, rights, gate, 1);
    }
    let its = hand_out(shared, &mut rights, from, workers);
    let pair = join(
        rt,
        move || -> WorkerBack<E>
            requires { IsSync R.row × IsSync G.row × IsSend E.row × GivesFew E.gives
                × MayWork shared.now board.now.clients its from workers }
            ensures { HasWorked shared.entry.now its result }
        { work(rt, alloc, shared, board, its, gate, from, workers) },
        move || -> Back<E>
            requires { IsSync R.row × IsSync G.row × IsSend E.row × GivesFew E.gives
                × MayAllWork shared.now board.now.clients rights (from + 1) workers }
            ensures { AllHaveWorked shared.entry.now rights result }
        { run_workers(rt, alloc, shared, board, rights, gate, from + 1, workers) },
    );
    let (one, rest) = pair;
    put_together(shared, rest, one)
}
