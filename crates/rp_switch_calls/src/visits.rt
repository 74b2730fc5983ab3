//! A seat takes a node and gives it back: as it is, or with its client's first try.
ghost use Rattle.std.specs.Prelude.{◌≡◌, ◌≤◌, true, false};
ghost use Rattle.rp_events.specs.MaySteps.{MayStep};
ghost use Rattle.rp_events.specs.declared.node_events.Event.TheVariants.{Admit};
ghost use Rattle.rp_race.specs.Gives.{after_admission};
ghost use Rattle.rp_request.specs.declared.requests.Request.TheVariants.{Del};
ghost use Rattle.rp_clients.specs.Tries.{id_of};
ghost use Rattle.rp_switch.specs.Seats.{terms_of, known_by, IsSeatOf, IsSame};
ghost use Rattle.rp_switch.specs.Views.{Idle};
ghost use Rattle.rp_switch_calls.specs.Firsts.{HasTriedNothing, MayBegin};

use crate::samples::is_key;
use rp_base::{CmdId, Key, NodeId, RangeId};
use rp_bufcore::PlainEnd;
use rp_events::Event;
use rp_node::Node;
use rp_request::Request;
use rp_switch::{Seat, Switch};

/// Where a try is made, and of what.
pub(crate) type Aim = (NodeId, RangeId, Key);

/// Takes the node and gives it back as it is. Whether it was free.
pub(crate) fn passes(switch: &Switch<PlainEnd>, seat: &mut Seat<PlainEnd>, node: NodeId) -> bool
    requires of { IsSeatOf switch.now seat.old }
    requires node { node ≤ (terms_of switch.now).nodes }
    requires idle { (known_by seat.old).stage ≡ Idle }
    ensures same { IsSame seat.old seat.new }
    ensures idle { (known_by seat.new).stage ≡ Idle }
    ensures parts { (known_by seat.new).parts ≡ (known_by seat.old).parts }
{
    let Ok(taken) = switch.try_take(seat, node) else {
        return false;
    };
    switch.give(seat, taken);
    true
}

/// A client's first command, at its first attempt.
pub(crate) fn first_id(client: u16) -> CmdId
    ensures { result ≡ id_of client 1 1 }
{
    CmdId {
        client,
        seq: 1,
        attempt: 1,
    }
}

/// Asks that the key's removal is admitted. Whether memory sufficed.
fn admits(node: &mut Node<PlainEnd>, range: RangeId, id: CmdId, key: Key) -> bool
    requires may { MayStep node.old.node (Admit range id (Del key)) }
    ensures done { result ≡ true → node.new.node ≡ after_admission node.old.node range id (Del key) }
    ensures not { result ≡ false → node.new.node ≡ node.old.node }
{
    let request = Request::Del { key };
    node.step(Event::Admit { range, id, request }).is_ok()
}

/// Takes the node, asks there that the client's first command is admitted, and gives it back.
/// Whether that was done.
pub(crate) fn begins(
    switch: &Switch<PlainEnd>,
    seat: &mut Seat<PlainEnd>,
    client: u16,
    aim: &Aim,
) -> bool
    requires of { IsSeatOf switch.now seat.old }
    requires idle { (known_by seat.old).stage ≡ Idle }
    requires may { MayBegin (known_by seat.old) client aim.now.0 aim.now.1 aim.now.2 }
    ensures same { IsSame seat.old seat.new }
    ensures idle { (known_by seat.new).stage ≡ Idle }
    ensures parts { (known_by seat.new).parts ≡ (known_by seat.old).parts }
    ensures not { result ≡ false → HasTriedNothing (known_by seat.new) client }
{
    let (node, range, key) = *aim;
    let Ok(mut taken) = switch.try_take(seat, node) else {
        return false;
    };
    if taken.node.is_full() {
        switch.give(seat, taken);
        return false;
    }
    is_key(key);
    let done = admits(&mut taken.node, range, first_id(client), key);
    switch.give(seat, taken);
    done
}
