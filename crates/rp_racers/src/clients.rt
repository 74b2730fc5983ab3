//! The clients of a race, each on a thread.
ghost use denote.Param.Send.{IsSync, IsSend};
ghost use Rattle.std.specs.Prelude.{◌≡◌, ◌+◌, ◌<◌, ◌≤◌, [], true, false, ◌||◌};
ghost use Rattle.rp_buffer.specs.Passes as passes;
ghost use Rattle.rp_quota.specs.Shares as shares;
ghost use Rattle.rp_race.specs.Played.{requests_of};
ghost use Rattle.rp_switch.specs.Rules.{clients_of};
ghost use Rattle.rp_switch.specs.Seats.{terms_of, known_by};
ghost use Rattle.rp_switch.specs.Views.{OfClient, choosing, left, right, both};
ghost use Rattle.rp_desks.specs.Onward.{heard_over};
ghost use Rattle.rp_racers.specs.Raced.{IsUntried, AreUntried};
ghost use Rattle.rp_racers.specs.Hands.{AreAt, HaveParts, MayRun, HasRun, MayAllRun, AllHaveRun};

use crate::backs::Back;
use rp_base::Seq;
use rp_bench::Board;
use rp_bufcore::BufferEnd;
use rp_clients::Gate;
use rp_desks::laws::what_was_heard_is_joined;
use rp_desks::{Left, Rights, Shared, send_all};
use rp_request::Request;
use std::alloc::Global;
use std::sync::Wait;
use std::thread::{Threads, join};

/// What a client sends.
fn requests_by<'a, E: BufferEnd + Drop>(shared: &Shared<'a, E>, client: u16) -> &'a Seq<Request>
    requires { (1 ≤ client) × (client ≤ clients_of (terms_of shared.now.switch.now)) }
    ensures { result.now ≡ requests_of (terms_of shared.now.switch.now).rules client }
{
    let place = usize::from(client) - 1;
    &shared.switch.rules().requests.as_slice()[place].requests
}

/// Whether a client has nothing to send.
fn has_none<'a, E: BufferEnd + Drop>(shared: &Shared<'a, E>, client: u16) -> bool
    requires { (1 ≤ client) × (client ≤ clients_of (terms_of shared.now.switch.now)) }
    ensures { result ≡ true → requests_of (terms_of shared.now.switch.now).rules client ≡ [] }
{
    requests_by(shared, client).as_slice().is_empty()
}

/// One client, from its first request to its last. The other threads learn from the board that it has
/// ended; and where memory was refused, that the race is to stop.
fn run_client<'a, R: Wait, E: BufferEnd + Drop, G: Gate>(
    rt: &'a R,
    alloc: Global,
    shared: &Shared<'a, E>,
    board: &Board,
    rights: Rights<E>,
    gate: &G,
    client: u16,
) -> Back<E>
    requires { MayRun shared.now board.now.clients rights client }
    ensures { HasRun shared.now rights client result }
{
    let Left { finals, rights } = send_all(rt, alloc, shared, rights, gate, client);
    let is_short = finals.is_err();
    if is_short {
        board.stop();
    }
    board.end(client);
    Back { rights, is_short }
}

/// Hands out a client's right, with a part of each of the seat, the pass and the share.
fn hand_out<'a, E: BufferEnd + Drop>(
    shared: &Shared<'a, E>,
    rights: &mut Rights<E>,
    client: u16,
) -> Rights<E>
    requires client { (1 ≤ client) × (client ≤ clients_of (terms_of shared.now.switch.now)) }
    requires at { AreAt shared.now rights.old }
    requires untried { AreUntried client (known_by rights.old.seat) }
    requires parts { HaveParts 2 rights.old }
    ensures at { AreAt shared.now rights.new }
    ensures known { known_by rights.new.seat ≡ left (choosing (OfClient client) (known_by rights.old.seat)) }
    ensures untried { AreUntried (client + 1) (known_by rights.new.seat) }
    ensures parts { (known_by rights.new.seat).parts + 1 ≡ (known_by rights.old.seat).parts }
    ensures pass { (passes.known_by rights.new.pass).parts + 1 ≡ (passes.known_by rights.old.pass).parts }
    ensures share { (shares.known_by rights.new.share).parts + 1 ≡ (shares.known_by rights.old.share).parts }
    ensures units { (shares.known_by rights.new.share).units ≡ (shares.known_by rights.old.share).units }
    ensures its_at { AreAt shared.now result }
    ensures its_known { known_by result.seat ≡ right (choosing (OfClient client) (known_by rights.old.seat)) }
    ensures its_untried { IsUntried client (known_by result.seat) }
    ensures its_pass { (passes.known_by result.pass).parts ≡ 1 }
    ensures its_share { (shares.known_by result.share).parts ≡ 1 }
    ensures its_units { (shares.known_by result.share).units ≡ 0 }
{
    let seat = shared.switch.split(&mut rights.seat, client);
    let pass = shared.buffers.split(&mut rights.pass);
    let share = shared.quota.split(&mut rights.share);
    Rights { seat, pass, share }
}

/// What one client leaves goes to what the others leave.
fn put_together<'a, E: BufferEnd + Drop>(
    shared: &Shared<'a, E>,
    rest: Back<E>,
    one: Back<E>,
) -> Back<E>
    requires rest { AreAt shared.now rest.rights }
    requires one { AreAt shared.now one.rights }
    ensures at { AreAt shared.now result.rights }
    ensures known { known_by result.rights.seat ≡ both (known_by rest.rights.seat) (known_by one.rights.seat) }
    ensures short { result.is_short ≡ (rest.is_short || one.is_short) }
    ensures pass { (passes.known_by result.rights.pass).parts
        ≡ (passes.known_by rest.rights.pass).parts + (passes.known_by one.rights.pass).parts }
    ensures share { (shares.known_by result.rights.share).parts
        ≡ (shares.known_by rest.rights.share).parts + (shares.known_by one.rights.share).parts }
    ensures units { (shares.known_by result.rights.share).units
        ≡ (shares.known_by rest.rights.share).units + (shares.known_by one.rights.share).units }
    ensures heard { heard_over (known_by result.rights.seat) ≡ false
        → (heard_over (known_by rest.rights.seat) ≡ false) × (heard_over (known_by one.rights.seat) ≡ false) }
{
    what_was_heard_is_joined();
    let Back {
        mut rights,
        is_short,
    } = rest;
    let Back {
        rights: its,
        is_short: its_short,
    } = one;
    shared.switch.join(&mut rights.seat, its.seat);
    shared.buffers.join(&mut rights.pass, its.pass);
    shared.quota.join(&mut rights.share, its.share);
    Back {
        rights,
        is_short: is_short || its_short,
    }
}

/// Runs the clients from this one on: each that has requests on a thread of its own, or where no thread
/// can be made, after the others. One without requests has ended at once.
pub(crate) fn run_clients<'a, R: Threads + Wait + Sync, E: BufferEnd + Drop + Send, G: Gate + Sync>(
    rt: &'a R,
    alloc: Global,
    shared: &'a Shared<'a, E>,
    board: &'a Board,
    mut rights: Rights<E>,
    gate: &'a G,
    from: u16,
) -> Back<E>
    requires { MayAllRun shared.now board.now.clients rights from }
    ensures { AllHaveRun shared.now rights from result }
{
    if from > board.clients() {
        let is_short = false;
        return Back { rights, is_short };
    }
    if has_none(shared, from) {
        board.end(from);
        return run_clients(rt, alloc, shared, board, rights, gate, from + 1);
    }
    let its = hand_out(shared, &mut rights, from);
    let pair = join(
        rt,
        move || -> Back<E>
            requires { IsSync R.row × IsSync G.row × IsSend E.row × MayRun shared.now board.now.clients its from }
            ensures { HasRun shared.entry.now its from result }
        { run_client(rt, alloc, shared, board, its, gate, from) },
        move || -> Back<E>
            requires { IsSync R.row × IsSync G.row × IsSend E.row
                × MayAllRun shared.now board.now.clients rights (from + 1) }
            ensures { AllHaveRun shared.entry.now rights (from + 1) result }
        { run_clients(rt, alloc, shared, board, rights, gate, from + 1) },
    );
    let (one, rest) = pair;
    put_together(shared, rest, one)
}
