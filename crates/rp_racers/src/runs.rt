//! The threads of a race, from the first start to the last join.
ghost use Rattle.std.specs.Prelude.{◌≡◌, ◌+◌, ◌<◌, ◌≤◌};
ghost use Rattle.rp_buffer.specs.Passes as passes;
ghost use Rattle.rp_quota.specs.Shares as shares;
ghost use Rattle.rp_serving.specs.Playing.{HandsWithin, GivesFew};
ghost use Rattle.rp_switch.specs.Rules.{clients_of, first};
ghost use Rattle.rp_switch.specs.Seats.{terms_of, known_by, IsSeatOf};
ghost use Rattle.rp_switch.specs.Views.{all_parts, Idle};
ghost use Rattle.rp_racers.specs.Raced.{AreFew, EndWell};

use crate::backs::Back;
use crate::workers::run_workers;
use rp_bench::Board;
use rp_bufcore::BufferEnd;
use rp_clients::Gate;
use rp_desks::{Rights, Shared};
use std::alloc::Global;
use std::sync::Wait;
use std::thread::Threads;

/// Runs a race to its end, over a switch that is new, by one thread for each client that has requests and
/// one for each of so many workers. It hands out parts of the rights, joins them all again, and gives the
/// rights back with what they had. `is_short` where memory was refused to one of the threads; where it was
/// not, and no client heard that no more is to be waited for, each client has done all its requests.
pub fn run<'a, R: Threads + Wait + Sync, E: BufferEnd + Drop + Send, G: Gate + Sync>(
    rt: &R,
    alloc: Global,
    shared: &Shared<'a, E>,
    rights: Rights<E>,
    gate: &G,
    workers: u8,
) -> Back<E>
    requires workers { (1 ≤ workers) × (workers ≤ 8) }
    requires clients { clients_of (terms_of shared.now.switch.now) ≤ 64 }
    requires few { AreFew (terms_of shared.now.switch.now).rules }
    requires hands { HandsWithin (terms_of shared.now.switch.now).nodes (terms_of shared.now.switch.now).rules }
    requires gives { GivesFew E.gives }
    requires seat { IsSeatOf shared.now.switch.now rights.seat }
    requires first { known_by rights.seat ≡ first (terms_of shared.now.switch.now) }
    requires pass { passes.IsPassOf shared.now.buffers.now rights.pass }
    requires pass_parts { clients_of (terms_of shared.now.switch.now) + workers
        < (passes.known_by rights.pass).parts }
    requires share { shares.IsShareOf shared.now.quota.now rights.share }
    requires share_parts { clients_of (terms_of shared.now.switch.now)
        < (shares.known_by rights.share).parts }
    ensures seat { IsSeatOf shared.now.switch.now result.rights.seat }
    ensures parts { (known_by result.rights.seat).parts ≡ all_parts }
    ensures idle { (known_by result.rights.seat).stage ≡ Idle }
    ensures done { EndWell 1 result.is_short (known_by result.rights.seat) }
    ensures pass { passes.IsPassOf shared.now.buffers.now result.rights.pass }
    ensures pass_parts { (passes.known_by result.rights.pass).parts
        ≡ (passes.known_by rights.pass).parts }
    ensures share { shares.IsShareOf shared.now.quota.now result.rights.share }
    ensures share_parts { (shares.known_by result.rights.share).parts
        ≡ (shares.known_by rights.share).parts }
    ensures units { (shares.known_by result.rights.share).units
        ≡ (shares.known_by rights.share).units }
{
    let board = Board::new(shared.switch.clients());
    run_workers(rt, alloc, shared, &board, rights, gate, 0, workers)
}
