//! A worker, from its first round to its last.
ghost use Rattle.std.specs.Prelude.{◌≡◌, ◌+◌, ◌%◌, ◌<◌, ◌≤◌, true};
ghost use Rattle.rp_buffer.specs.Passes as passes;
ghost use Rattle.rp_events.specs.Worlds.{first_world};
ghost use Rattle.rp_serving.specs.Playing.{HandsWithin, GivesFew};
ghost use Rattle.rp_switch.specs.Rules.{clients_of};
ghost use Rattle.rp_switch.specs.Seats.{terms_of, known_by, IsSeatOf};
ghost use Rattle.rp_switch.specs.Views.{Idle};
ghost use Rattle.rp_bench.specs.Stations.{IsFresh, AreFresh};
ghost use Rattle.rp_bench.specs.Whence.{IsPassing, IsSeated};
ghost use Rattle.rp_bench.specs.Worked.{MayServe, IsWorked};

use crate::asks::Asks;
use crate::benches::SwitchBench;
use crate::calls::first_due;
use crate::origins::Origin;
use crate::patience::patience;
use crate::rights::{WorkerBack, WorkerRights, WorkerShared};
use crate::seats::WorkerSeat;
use crate::stations::Station;
use rp_base::NodeId;
use rp_bufcore::BufferEnd;
use rp_clients::Gate;
use rp_rounds::serve;
use std::alloc::Global;
use std::marker::{Brand, PhantomData};
use std::sync::Wait;

/// What is kept at first of the node with this place, from 0.
fn station(alloc: Global, place: u8, worker: u8, workers: u8, nodes: u8) -> Station
    requires place { place < 5 }
    requires some { 1 ≤ workers }
    ensures { IsFresh worker workers nodes place result }
{
    let may_play = place < nodes && place % workers == worker;
    Station::new(alloc, NodeId::new(place + 1).unwrap(), may_play)
}

/// What is kept at first of each node.
fn stations(alloc: Global, worker: u8, workers: u8, nodes: u8) -> [Station; 5]
    requires { 1 ≤ workers }
    ensures { AreFresh worker workers nodes result }
{
    [
        station(alloc, 0, worker, workers, nodes),
        station(alloc, 1, worker, workers, nodes),
        station(alloc, 2, worker, workers, nodes),
        station(alloc, 3, worker, workers, nodes),
        station(alloc, 4, worker, workers, nodes),
    ]
}

/// The worker at a bench of these tables.
fn run_worker_at<'a, K: Origin, R: Wait, E: BufferEnd + Drop, G: Gate>(
    rt: &'a R,
    alloc: Global,
    shared: &WorkerShared<'a, E>,
    rights: WorkerRights<E>,
    gate: &'a G,
    worker: u8,
    workers: u8,
) -> WorkerBack<E>
    requires worker { (worker < workers) × (workers ≤ 8) }
    requires board { shared.now.board.now.clients ≡ clients_of K.from.known.terms }
    requires hands { HandsWithin K.from.known.terms.nodes K.from.known.terms.rules }
    requires few { GivesFew E.gives }
    requires known { known_by rights.seat ≡ K.from.known }
    requires seated { IsSeated K.from shared.now.switch.now rights.seat }
    requires fresh { K.from.known.seen ≡ first_world K.from.known.terms.nodes }
    requires may { MayServe K.from.known worker workers }
    requires passing { IsPassing K.from shared.now.buffers.now rights.pass }
    ensures seated { IsSeated K.from shared.now.switch.now result.rights.seat }
    ensures passing { IsPassing K.from shared.now.buffers.now result.rights.pass }
{
    let WorkerRights { seat, pass } = rights;
    let nodes = shared.switch.nodes();
    let mut bench = SwitchBench::<R, E, G, K> {
        seat: WorkerSeat {
            rt,
            alloc,
            switch: shared.switch,
            board: shared.board,
            seat,
            asks: Asks {
                rt,
                buffers: shared.buffers,
                pass,
                from: PhantomData,
            },
            stations: stations(alloc, worker, workers, nodes),
            most: patience(shared.switch.rules()),
        },
        gate,
        worker,
        workers,
        due: first_due(worker, nodes),
        is_over: false,
    };
    let is_short = serve(rt, &mut bench, worker, workers, nodes).is_err();
    if is_short {
        shared.board.stop();
    }
    let SwitchBench { mut seat, .. } = bench;
    seat.dismiss();
    let WorkerSeat {
        seat,
        asks: Asks { pass, .. },
        ..
    } = seat;
    WorkerBack {
        rights: WorkerRights { seat, pass },
        is_short,
    }
}

/// Serves the nodes of a worker round by round, until all clients have ended or the race is to stop;
/// and gives its rights back, with whether memory was refused to it. Where clients still go on then,
/// they are told that memory was refused, until they have ended.
pub fn run_worker<'a, R: Wait, E: BufferEnd + Drop, G: Gate>(
    rt: &'a R,
    alloc: Global,
    shared: &WorkerShared<'a, E>,
    rights: WorkerRights<E>,
    gate: &'a G,
    worker: u8,
    workers: u8,
) -> WorkerBack<E>
    requires worker { (worker < workers) × (workers ≤ 8) }
    requires board { shared.now.board.now.clients ≡ clients_of (terms_of shared.now.switch.now) }
    requires hands { HandsWithin (terms_of shared.now.switch.now).nodes (terms_of shared.now.switch.now).rules }
    requires few { GivesFew E.gives }
    requires seat { IsSeatOf shared.now.switch.now rights.seat }
    requires idle { (known_by rights.seat).stage ≡ Idle }
    requires fresh { (known_by rights.seat).seen ≡ first_world (terms_of shared.now.switch.now).nodes }
    requires may { MayServe (known_by rights.seat) worker workers }
    requires pass { passes.IsPassOf shared.now.buffers.now rights.pass }
    ensures seat { IsSeatOf shared.now.switch.now result.rights.seat }
    ensures worked { IsWorked (known_by rights.seat) (known_by result.rights.seat) }
    ensures pass { passes.IsPassOf shared.now.buffers.now result.rights.pass }
    ensures pass_parts { (passes.known_by result.rights.pass).parts ≡ (passes.known_by rights.pass).parts }
{
    run_worker_at::<Brand, R, E, G>(rt, alloc, shared, rights, gate, worker, workers)
}
