//! A client, from its first request to its last.
ghost use Rattle.std.specs.Prelude.{◌≡◌, ◌+◌, ◌-◌, ◌^◌, ◌<◌, ◌≤◌, [], length, false, IfOk, OnOk};
ghost use Rattle.rp_buffer.specs.Passes as passes;
ghost use Rattle.rp_clients.specs.Finals.{finals_of, HasDoneAll};
ghost use Rattle.rp_quota.specs.Shares as shares;
ghost use Rattle.rp_race.specs.Played.{requests_of};
ghost use Rattle.rp_switch.specs.Gifts.{tries_known};
ghost use Rattle.rp_switch.specs.Rules.{clients_of};
ghost use Rattle.rp_switch.specs.Seats.{terms_of, known_by, IsSeatOf};
ghost use Rattle.rp_switch.specs.Views.{Tries, Idle, right_at};
ghost use Rattle.rp_desks.specs.Onward.{IsOnward, heard_over};
ghost use Rattle.rp_desks.specs.Whence.{IsPassing, IsSeated, IsSharing};

use crate::desks::SwitchDesk;
use crate::origins::Origin;
use crate::rights::{Left, Rights, Shared};
use crate::seats::ClientSeat;
use rp_bufcore::BufferEnd;
use rp_clients::{Gate, drive};
use std::alloc::Global;
use std::marker::{Brand, PhantomData};
use std::sync::Wait;

/// The client at a desk of these tables.
fn send_all_at<'a, K: Origin, R: Wait, E: BufferEnd + Drop, G: Gate>(
    rt: &'a R,
    alloc: Global,
    shared: &Shared<'a, E>,
    rights: Rights<E>,
    gate: &G,
    client: u16,
) -> Left<E>
    requires served { (1 ≤ client) × (client ≤ clients_of (terms_of shared.now.switch.now)) }
    requires few { length (requests_of (terms_of shared.now.switch.now).rules client) < 2 ^ 32 }
    requires client { client ≡ K.from.client }
    requires known { known_by rights.seat ≡ K.from.known }
    requires seated { IsSeated K.from shared.now.switch.now rights.seat }
    requires untried { tries_known (known_by rights.seat) client ≡ [] }
    requires passing { IsPassing K.from shared.now.buffers.now rights.pass }
    requires sharing { IsSharing K.from shared.now.quota.now rights.share }
    ensures seated { IsSeated K.from shared.now.switch.now result.rights.seat }
    ensures passing { IsPassing K.from shared.now.buffers.now result.rights.pass }
    ensures sharing { IsSharing K.from shared.now.quota.now result.rights.share }
    ensures units { (shares.known_by result.rights.share).units ≡ (shares.known_by rights.share).units }
    ensures finals { IfOk result.finals (λ finals. finals
        ≡ finals_of (requests_of (terms_of shared.now.switch.now).rules client)
        (tries_known (known_by result.rights.seat) client)) }
    ensures done { OnOk result.finals (heard_over (known_by result.rights.seat) ≡ false
        → HasDoneAll client (requests_of (terms_of shared.now.switch.now).rules client)
        (tries_known (known_by result.rights.seat) client)) }
{
    let Rights { seat, pass, share } = rights;
    let place = usize::from(client) - 1;
    let requests = &shared.switch.rules().requests.as_slice()[place].requests;
    let nodes = shared.switch.nodes();
    let mut desk = SwitchDesk::<R, E, K> {
        rt,
        seat: ClientSeat {
            switch: shared.switch,
            seat,
            client,
            from: PhantomData,
        },
        buffers: shared.buffers,
        pass,
        quota: shared.quota,
        share,
        told: [0; 6],
        is_over: false,
        is_short: false,
        is_put: false,
    };
    let finals = drive(
        rt,
        alloc,
        &mut desk,
        gate,
        nodes,
        client,
        requests,
        shared.capacity,
    );
    let SwitchDesk {
        seat: ClientSeat { seat, .. },
        pass,
        share,
        ..
    } = desk;
    Left {
        finals,
        rights: Rights { seat, pass, share },
    }
}

/// Sends all requests of a client, as the rules of the switch have them, one after another, each until it
/// has ended; and gives how the client leaves them, with its rights. It takes the client's part in the
/// race: an admission at the node that is aimed at, the item in the buffer, and the end that is posted.
/// Where it heard that no more is to be waited for it leaves the rest; else it has done all. `NoMemory`
/// where memory was refused, here or as was posted. All units that it took are given back.
pub fn send_all<'a, R: Wait, E: BufferEnd + Drop, G: Gate>(
    rt: &'a R,
    alloc: Global,
    shared: &Shared<'a, E>,
    rights: Rights<E>,
    gate: &G,
    client: u16,
) -> Left<E>
    requires client { (1 ≤ client) × (client ≤ clients_of (terms_of shared.now.switch.now)) }
    requires few { length (requests_of (terms_of shared.now.switch.now).rules client) < 2 ^ 32 }
    requires seat { IsSeatOf shared.now.switch.now rights.seat }
    requires idle { (known_by rights.seat).stage ≡ Idle }
    requires untried { right_at (known_by rights.seat).rights ((known_by rights.seat).terms.nodes + client - 1)
        ≡ Tries [] }
    requires pass { passes.IsPassOf shared.now.buffers.now rights.pass }
    requires share { shares.IsShareOf shared.now.quota.now rights.share }
    ensures seat { IsSeatOf shared.now.switch.now result.rights.seat }
    ensures onward { IsOnward client (known_by rights.seat) (known_by result.rights.seat) }
    ensures finals { IfOk result.finals (λ finals. finals
        ≡ finals_of (requests_of (terms_of shared.now.switch.now).rules client)
        (tries_known (known_by result.rights.seat) client)) }
    ensures done { OnOk result.finals (heard_over (known_by result.rights.seat) ≡ false
        → HasDoneAll client (requests_of (terms_of shared.now.switch.now).rules client)
        (tries_known (known_by result.rights.seat) client)) }
    ensures pass { passes.IsPassOf shared.now.buffers.now result.rights.pass }
    ensures pass_parts { (passes.known_by result.rights.pass).parts ≡ (passes.known_by rights.pass).parts }
    ensures share { shares.IsShareOf shared.now.quota.now result.rights.share }
    ensures share_parts { (shares.known_by result.rights.share).parts
        ≡ (shares.known_by rights.share).parts }
    ensures units { (shares.known_by result.rights.share).units ≡ (shares.known_by rights.share).units }
{
    send_all_at::<Brand, R, E, G>(rt, alloc, shared, rights, gate, client)
}
