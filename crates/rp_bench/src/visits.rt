//! A worker's visits to a node: it takes the node, tried until it is at home, and gives it back.
ghost use Rattle.std.specs.Prelude.{◌≡◌, ◌≢◌, ◌+◌, ◌-◌, ◌≤◌, IfOk, OnOk};
ghost use Rattle.rp_serving.specs.Playing.{HandsWithin, GivesFew};
ghost use Rattle.rp_switch.specs.Seats.{terms_of, known_by, IsSeatOf, IsSame};
ghost use Rattle.rp_switch.specs.Views.{Idle};
ghost use Rattle.rp_bench.specs.Dues.{IsPulled};
ghost use Rattle.rp_bench.specs.Stations.{IsAtWork, MayPlay, AreTrue};
ghost use Rattle.rp_bench.specs.Visits.{TakesAtLast};
ghost use Rattle.rp_bench.specs.Worked.{IsOnward};

use crate::rows::{copy_into, note, outcomes_of, play_in, settle};
use crate::stations::Station;
use rp_base::{NoMemory, NodeId};
use rp_bufcore::BufferEnd;
use rp_events::Outcomes;
use rp_serving::Inserts;
use rp_switch::{Seat, Switch, Taken};
use std::alloc::Global;
use std::sync::Wait;
use std::thread::yield_now;

/// Takes a node, tried until it is at home.
fn take<R: Wait, E: BufferEnd + Drop>(
    rt: &R,
    switch: &Switch<E>,
    seat: &mut Seat<E>,
    node: NodeId,
) -> Taken<E>
    requires of { IsSeatOf switch.now seat.old }
    requires node { node ≤ (terms_of switch.now).nodes }
    requires idle { (known_by seat.old).stage ≡ Idle }
    ensures same { IsSame seat.old seat.new }
    ensures told { TakesAtLast (known_by seat.old) node result (known_by seat.new) }
    ensures some { 1 ≤ node }
{
    let _number = node.get();
    for _ in rt.forever() {
        if let Ok(taken) = switch.try_take(seat, node) {
            return taken;
        }
        yield_now();
    }
    unreachable!()
}

/// Copies for a node what another one has sent since the last time.
pub(crate) fn copy<R: Wait, E: BufferEnd + Drop>(
    rt: &R,
    switch: &Switch<E>,
    seat: &mut Seat<E>,
    stations: &mut [Station; 5],
    from: NodeId,
    to: NodeId,
) -> Result<(), NoMemory>
    requires of { IsSeatOf switch.now seat.old }
    requires from { from ≤ (terms_of switch.now).nodes }
    requires to { to ≤ (terms_of switch.now).nodes }
    requires apart { from ≢ to }
    requires at_work { IsAtWork (known_by seat.old) stations.old }
    requires pulled { IsPulled (known_by seat.old).seen stations.old to from }
    ensures same { IsSame seat.old seat.new }
    ensures onward { IsOnward (known_by seat.old) (known_by seat.new) }
    ensures at_work { IsAtWork (known_by seat.new) stations.new }
    ensures pulled { OnOk result (IsPulled (known_by seat.new).seen stations.new to (from + 1)) }
{
    let _place = to.get();
    let taken = take(rt, switch, seat, from);
    let copied = copy_into(stations, switch.rules(), from, to, &taken.node);
    note(stations, from, &taken.node);
    switch.give(seat, taken);
    copied
}

/// Plays a round of a node, whole or broken off. `NoMemory` where memory was refused.
pub(crate) fn play_round<R: Wait, E: BufferEnd + Drop, I: Inserts>(
    rt: &R,
    switch: &Switch<E>,
    seat: &mut Seat<E>,
    stations: &mut [Station; 5],
    inserts: &mut I,
    node: NodeId,
) -> Result<(), NoMemory>
    requires of { IsSeatOf switch.now seat.old }
    requires node { node ≤ (terms_of switch.now).nodes }
    requires hands { HandsWithin (terms_of switch.now).nodes (terms_of switch.now).rules }
    requires few { GivesFew E.gives }
    requires at_work { IsAtWork (known_by seat.old) stations.old }
    requires may { MayPlay (known_by seat.old) stations.old node }
    ensures same { IsSame seat.old seat.new }
    ensures onward { IsOnward (known_by seat.old) (known_by seat.new) }
    ensures at_work { IsAtWork (known_by seat.new) stations.new }
{
    let rules = switch.rules();
    let nodes = switch.nodes();
    let mut taken = take(rt, switch, seat, node);
    let played = play_in(stations, seat, rules, nodes, node, &mut taken.node, inserts);
    note(stations, node, &taken.node);
    switch.give(seat, taken);
    settle(stations, node, played)
}

/// Copies the outcomes of a node that came since the last time.
pub(crate) fn new_outcomes<R: Wait, E: BufferEnd + Drop>(
    rt: &R,
    alloc: Global,
    switch: &Switch<E>,
    seat: &mut Seat<E>,
    stations: &mut [Station; 5],
    node: NodeId,
) -> Result<Outcomes, NoMemory>
    requires of { IsSeatOf switch.now seat.old }
    requires node { node ≤ (terms_of switch.now).nodes }
    requires at_work { IsAtWork (known_by seat.old) stations.old }
    ensures same { IsSame seat.old seat.new }
    ensures onward { IsOnward (known_by seat.old) (known_by seat.new) }
    ensures at_work { IsAtWork (known_by seat.new) stations.new }
    ensures ends { IfOk result (λ ends. AreTrue (terms_of switch.now) (known_by seat.new).seen ends) }
{
    let taken = take(rt, switch, seat, node);
    let ends = outcomes_of(stations, alloc, node, &taken.node);
    note(stations, node, &taken.node);
    switch.give(seat, taken);
    ends
}
