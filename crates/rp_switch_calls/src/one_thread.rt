//! Two seats on one thread.
ghost use Rattle.std.specs.Prelude.{◌≡◌, ◌≤◌};
ghost use Rattle.rp_switch.specs.Rules.{clients_of, first};
ghost use Rattle.rp_switch.specs.Seats.{terms_of, known_by, IsSeatOf, IsSame};
ghost use Rattle.rp_switch.specs.Views.{Idle, all_parts};
ghost use Rattle.rp_switch_calls.specs.Firsts.{four_removals};

use crate::samples::{key, one, opened};
use crate::visits::passes;
use rp_base::NodeId;
use rp_bufcore::PlainEnd;
use rp_clients::{Answer, Empty};
use rp_node::Nodes;
use rp_switch::{CellBusy, Seat, Switch};
use std::test::Fail;

/// Whether the node is busy for this seat, and named so.
fn finds_busy(switch: &Switch<PlainEnd>, seat: &mut Seat<PlainEnd>, node: NodeId) -> bool
    requires of { IsSeatOf switch.now seat.old }
    requires node { node ≤ (terms_of switch.now).nodes }
    requires idle { (known_by seat.old).stage ≡ Idle }
    ensures same { IsSame seat.old seat.new }
    ensures idle { (known_by seat.new).stage ≡ Idle }
    ensures parts { (known_by seat.new).parts ≡ (known_by seat.old).parts }
{
    match switch.try_take(seat, node) {
        Err(busy) => busy.node == node,
        Ok(taken) => {
            switch.give(seat, taken);
            false
        }
    }
}

/// Whether the node is busy for the second seat while the first has it, and free when it is back.
fn is_busy_while_out(
    switch: &Switch<PlainEnd>,
    first: &mut Seat<PlainEnd>,
    second: &mut Seat<PlainEnd>,
    node: NodeId,
) -> bool
    requires of { IsSeatOf switch.now first.old × IsSeatOf switch.now second.old }
    requires node { node ≤ (terms_of switch.now).nodes }
    requires idle { ((known_by first.old).stage ≡ Idle) × ((known_by second.old).stage ≡ Idle) }
    ensures same { IsSame first.old first.new × IsSame second.old second.new }
    ensures idle { ((known_by first.new).stage ≡ Idle) × ((known_by second.new).stage ≡ Idle) }
    ensures parts { ((known_by first.new).parts ≡ (known_by first.old).parts)
        × ((known_by second.new).parts ≡ (known_by second.old).parts) }
{
    let Ok(taken) = switch.try_take(first, node) else {
        return false;
    };
    let is_busy = finds_busy(switch, second, node);
    switch.give(first, taken);
    let is_free = passes(switch, second, node);
    is_busy && is_free
}

/// Whether nothing was posted for client 1.
fn finds_nothing(switch: &Switch<PlainEnd>, seat: &mut Seat<PlainEnd>) -> bool
    requires of { IsSeatOf switch.now seat.old }
    requires client { 1 ≤ clients_of (terms_of switch.now) }
    requires idle { (known_by seat.old).stage ≡ Idle }
    ensures same { IsSame seat.old seat.new }
    ensures idle { (known_by seat.new).stage ≡ Idle }
    ensures parts { (known_by seat.new).parts ≡ (known_by seat.old).parts }
{
    switch.try_fetch(seat, 1) == Err(Empty)
}

/// Whether want of memory was posted for it.
fn finds_no_memory(switch: &Switch<PlainEnd>, seat: &mut Seat<PlainEnd>) -> bool
    requires of { IsSeatOf switch.now seat.old }
    requires client { 1 ≤ clients_of (terms_of switch.now) }
    requires idle { (known_by seat.old).stage ≡ Idle }
    ensures same { IsSame seat.old seat.new }
    ensures idle { (known_by seat.new).stage ≡ Idle }
    ensures parts { (known_by seat.new).parts ≡ (known_by seat.old).parts }
{
    switch.try_fetch(seat, 1) == Ok(Answer::NoMemory)
}

/// What a post of want of memory for client 1 answers.
fn posts(switch: &Switch<PlainEnd>, seat: &mut Seat<PlainEnd>) -> Result<(), CellBusy>
    requires of { IsSeatOf switch.now seat.old }
    requires client { 1 ≤ clients_of (terms_of switch.now) }
    requires idle { (known_by seat.old).stage ≡ Idle }
    ensures same { IsSame seat.old seat.new }
    ensures idle { (known_by seat.new).stage ≡ Idle }
    ensures parts { (known_by seat.new).parts ≡ (known_by seat.old).parts }
{
    switch.try_post(seat, 1, Answer::NoMemory)
}

/// Whether an answer is posted once and fetched once.
fn is_posted_once(
    switch: &Switch<PlainEnd>,
    first: &mut Seat<PlainEnd>,
    second: &mut Seat<PlainEnd>,
) -> bool
    requires of { IsSeatOf switch.now first.old × IsSeatOf switch.now second.old }
    requires client { 1 ≤ clients_of (terms_of switch.now) }
    requires idle { ((known_by first.old).stage ≡ Idle) × ((known_by second.old).stage ≡ Idle) }
    ensures same { IsSame first.old first.new × IsSame second.old second.new }
    ensures idle { ((known_by first.new).stage ≡ Idle) × ((known_by second.new).stage ≡ Idle) }
    ensures parts { ((known_by first.new).parts ≡ (known_by first.old).parts)
        × ((known_by second.new).parts ≡ (known_by second.old).parts) }
{
    let nothing = finds_nothing(switch, second);
    let posted = posts(switch, first) == Ok(());
    let busy = posts(switch, first) == Err(CellBusy);
    let fetched = finds_no_memory(switch, second);
    let nothing_left = finds_nothing(switch, second);
    nothing && posted && busy && fetched && nothing_left
}

/// The same with the first seat, from which the other is split and which it joins again.
fn is_right(switch: &Switch<PlainEnd>, seat: &mut Seat<PlainEnd>) -> bool
    requires of { IsSeatOf switch.now seat.old }
    requires first { known_by seat.old ≡ first (terms_of switch.now) }
    requires nodes { (terms_of switch.now).nodes ≡ 5 }
    requires clients { clients_of (terms_of switch.now) ≡ 4 }
    ensures same { IsSame seat.old seat.new }
    ensures idle { (known_by seat.new).stage ≡ Idle }
    ensures parts { (known_by seat.new).parts ≡ all_parts }
{
    let mut other = switch.split(seat, 1);
    let node = is_busy_while_out(switch, seat, &mut other, one());
    let cell = is_posted_once(switch, seat, &mut other);
    switch.join(seat, other);
    node && cell
}

/// Whether these are five nodes to which nothing happened.
fn are_untouched(nodes: &Nodes<PlainEnd>) -> bool {
    nodes.len() == 5
        && nodes
            .as_slice()
            .iter()
            .all(|node| node.journal().len() == 0)
}

#[test]
fn a_node_and_a_cell_are_had_by_one_seat_at_a_time(rt: HostRuntime) -> Result<(), Fail> {
    let (switch, mut seat) = opened(rt.alloc(), key("a")?)?;
    let judged = is_right(&switch, &mut seat);
    let nodes = switch.close(rt.alloc(), seat)?;
    assert!(rt; judged && are_untouched(&nodes));
    Ok(())
}
