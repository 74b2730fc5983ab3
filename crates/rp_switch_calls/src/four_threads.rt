//! Four seats beside one another, each on a thread: they take five nodes 100,000 times in all.
ghost use Rattle.std.specs.Prelude.{◌≡◌, ◌+◌, ◌≤◌};
ghost use Rattle.rp_switch.specs.Rules.{clients_of, first};
ghost use Rattle.rp_switch.specs.Seats.{terms_of, known_by, IsSeatOf, IsSame};
ghost use Rattle.rp_switch.specs.Views.{Idle, all_parts};
ghost use Rattle.rp_switch_calls.specs.Firsts.{four_removals, IsAim, MayBegin, AllMayBegin, IsReady, IsBack};

use crate::samples::{key, opened};
use crate::visits::{Aim, begins, first_id, passes};
use rp_base::{Key, NodeId};
use rp_bufcore::PlainEnd;
use rp_events::PastEvent;
use rp_node::{Node, Nodes};
use rp_router::Hints;
use rp_switch::{Seat, Switch};
use std::test::Fail;
use std::thread::{Threads, join};

/// So often each seat takes a node.
const TIMES: u32 = 25_000;

/// Whether a seat's client was asked to be admitted, and how often the seat took a node.
type Done = (bool, u32);

/// The client's first try, made anew until it is had.
fn begins_at_last(
    switch: &Switch<PlainEnd>,
    seat: &mut Seat<PlainEnd>,
    client: u16,
    aim: &Aim,
) -> bool
    requires of { IsSeatOf switch.now seat.old }
    requires idle { (known_by seat.old).stage ≡ Idle }
    requires may { MayBegin (known_by seat.old) client aim.now.0 aim.now.1 aim.now.2 }
    ensures same { IsSame seat.old seat.new }
    ensures idle { (known_by seat.new).stage ≡ Idle }
    ensures parts { (known_by seat.new).parts ≡ (known_by seat.old).parts }
{
    for _ in 0..TIMES {
        if begins(switch, seat, client, aim) {
            return true;
        }
    }
    false
}

/// Takes the nodes in turn, each until it is had, and gives them back. How often it took one.
fn passes_often(switch: &Switch<PlainEnd>, seat: &mut Seat<PlainEnd>) -> u32
    requires of { IsSeatOf switch.now seat.old }
    requires nodes { (terms_of switch.now).nodes ≡ 5 }
    requires idle { (known_by seat.old).stage ≡ Idle }
    ensures same { IsSame seat.old seat.new }
    ensures idle { (known_by seat.new).stage ≡ Idle }
    ensures parts { (known_by seat.new).parts ≡ (known_by seat.old).parts }
{
    let mut taken = 0;
    for turn in 0..u64::MAX {
        if taken == TIMES {
            break;
        }
        let node = NodeId::new((turn % 5) as u8 + 1).unwrap();
        if passes(switch, seat, node) {
            taken += 1;
        }
    }
    taken
}

/// One thread's part.
fn plays(
    switch: &Switch<PlainEnd>,
    mut seat: Seat<PlainEnd>,
    client: u16,
    aim: &Aim,
) -> (Seat<PlainEnd>, Done)
    requires { IsReady switch.now seat client aim.now.0 aim.now.1 aim.now.2 }
    ensures { IsBack switch.now result.0 1 }
{
    let begun = begins_at_last(switch, &mut seat, client, aim);
    let taken = passes_often(switch, &mut seat);
    (seat, (begun, taken))
}

/// Two beside one another, and their seats joined.
fn two_play<R: Threads + Sync>(
    rt: &R,
    switch: &Switch<PlainEnd>,
    one: Seat<PlainEnd>,
    two: Seat<PlainEnd>,
    clients: (u16, u16),
    aim: &Aim,
) -> (Seat<PlainEnd>, (Done, Done))
    requires one { IsReady switch.now one clients.0 aim.now.0 aim.now.1 aim.now.2 }
    requires two { IsReady switch.now two clients.1 aim.now.0 aim.now.1 aim.now.2 }
    ensures { IsBack switch.now result.0 2 }
{
    let (first, second) = clients;
    let pair = join(
        rt,
        move || -> (Seat<PlainEnd>, Done)
            requires { IsReady switch.now one first aim.now.0 aim.now.1 aim.now.2 }
            ensures { IsBack switch.entry.now result.0 1 }
        { plays(switch, one, first, aim) },
        move || -> (Seat<PlainEnd>, Done)
            requires { IsReady switch.now two second aim.now.0 aim.now.1 aim.now.2 }
            ensures { IsBack switch.entry.now result.0 1 }
        { plays(switch, two, second, aim) },
    );
    let (left, right) = pair;
    let (mut seat, one_done) = left;
    let (other, two_done) = right;
    switch.join(&mut seat, other);
    (seat, (one_done, two_done))
}

/// All four beside one another.
fn four_play<R: Threads + Sync>(
    rt: &R,
    switch: &Switch<PlainEnd>,
    seats: (Seat<PlainEnd>, Seat<PlainEnd>),
    more: (Seat<PlainEnd>, Seat<PlainEnd>),
    aim: &Aim,
) -> (Seat<PlainEnd>, (Done, Done), (Done, Done))
    requires one { IsReady switch.now seats.0 1 aim.now.0 aim.now.1 aim.now.2 }
    requires two { IsReady switch.now seats.1 2 aim.now.0 aim.now.1 aim.now.2 }
    requires three { IsReady switch.now more.0 3 aim.now.0 aim.now.1 aim.now.2 }
    requires four { IsReady switch.now more.1 4 aim.now.0 aim.now.1 aim.now.2 }
    ensures { IsBack switch.now result.0 4 }
{
    let (one, two) = seats;
    let (three, four) = more;
    let pair = join(
        rt,
        move || -> (Seat<PlainEnd>, (Done, Done))
            requires { IsReady switch.now one 1 aim.now.0 aim.now.1 aim.now.2
                × IsReady switch.now two 2 aim.now.0 aim.now.1 aim.now.2 }
            ensures { IsBack switch.entry.now result.0 2 }
        { two_play(rt, switch, one, two, (1, 2), aim) },
        move || -> (Seat<PlainEnd>, (Done, Done))
            requires { IsReady switch.now three 3 aim.now.0 aim.now.1 aim.now.2
                × IsReady switch.now four 4 aim.now.0 aim.now.1 aim.now.2 }
            ensures { IsBack switch.entry.now result.0 2 }
        { two_play(rt, switch, three, four, (3, 4), aim) },
    );
    let (left, right) = pair;
    let (mut seat, first) = left;
    let (other, second) = right;
    switch.join(&mut seat, other);
    (seat, first, second)
}

/// A seat with a client's right, split from one that has those of this client and the next ones.
fn hands(
    switch: &Switch<PlainEnd>,
    seat: &mut Seat<PlainEnd>,
    client: u16,
    aim: &Aim,
) -> Seat<PlainEnd>
    requires of { IsSeatOf switch.now seat.old }
    requires nodes { (terms_of switch.now).nodes ≡ 5 }
    requires clients { clients_of (terms_of switch.now) ≡ 4 }
    requires idle { (known_by seat.old).stage ≡ Idle }
    requires parts { 2 ≤ (known_by seat.old).parts }
    requires client { (1 ≤ client) × (client ≤ 4) }
    requires may { AllMayBegin (known_by seat.old) client aim.now.0 aim.now.1 aim.now.2 }
    ensures of { IsSeatOf switch.now seat.new }
    ensures idle { (known_by seat.new).stage ≡ Idle }
    ensures parts { (known_by seat.new).parts + 1 ≡ (known_by seat.old).parts }
    ensures rest { AllMayBegin (known_by seat.new) (client + 1) aim.now.0 aim.now.1 aim.now.2 }
    ensures ready { IsReady switch.now result client aim.now.0 aim.now.1 aim.now.2 }
{
    switch.split(seat, client)
}

/// Splits four seats from the first, and joins them again when they have played.
fn played<R: Threads + Sync>(
    rt: &R,
    switch: &Switch<PlainEnd>,
    mut seat: Seat<PlainEnd>,
    aim: &Aim,
) -> (Seat<PlainEnd>, (Done, Done), (Done, Done))
    requires of { IsSeatOf switch.now seat }
    requires first { known_by seat ≡ first (terms_of switch.now) }
    requires nodes { (terms_of switch.now).nodes ≡ 5 }
    requires requests { (terms_of switch.now).rules.requests ≡ four_removals aim.now.2 }
    requires clients { clients_of (terms_of switch.now) ≡ 4 }
    requires aim { IsAim aim.now.0 aim.now.1 aim.now.2 }
    ensures { IsBack switch.now result.0 all_parts }
{
    let one = hands(switch, &mut seat, 1, aim);
    let two = hands(switch, &mut seat, 2, aim);
    let three = hands(switch, &mut seat, 3, aim);
    let four = hands(switch, &mut seat, 4, aim);
    let (other, first, second) = four_play(rt, switch, (one, two), (three, four), aim);
    switch.join(&mut seat, other);
    (seat, first, second)
}

/// Where the key's removal is tried first.
fn aimed(key: Key) -> Aim
    ensures aim { IsAim result.0 result.1 result.2 }
    ensures key { result.2 ≡ key }
{
    let (node, range) = Hints::start(5).aim(key);
    (node, range, key)
}

/// How often a node was asked for a client's first try.
fn times(node: &Node<PlainEnd>, client: u16) -> usize {
    let is_it = |event: &PastEvent| -> bool {
        match event {
            PastEvent::Admit { id, .. } => *id == first_id(client),
            _ => false,
        }
    };
    node.journal()
        .events()
        .iter()
        .filter(|event| is_it(event))
        .count()
}

/// Whether the client's part was done, and its try stands in the journal once.
fn is_done(node: &Node<PlainEnd>, client: u16, done: Done) -> bool {
    done.0 && done.1 == TIMES && times(node, client) == 1
}

/// Whether all was done, and nothing else stands in the journals.
fn is_all_done(
    nodes: &Nodes<PlainEnd>,
    at: NodeId,
    first: (Done, Done),
    second: (Done, Done),
) -> bool {
    let written = nodes
        .as_slice()
        .iter()
        .filter(|node| node.journal().len() > 0)
        .count();
    let Some(node) = nodes.get(at) else {
        return false;
    };
    let all = is_done(node, 1, first.0)
        && is_done(node, 2, first.1)
        && is_done(node, 3, second.0)
        && is_done(node, 4, second.1);
    all && nodes.len() == 5 && written == 1 && node.journal().len() == 4
}

#[test]
fn four_seats_take_five_nodes(rt: HostRuntime) -> Result<(), Fail> {
    let aim = aimed(key("a")?);
    let (switch, seat) = opened(rt.alloc(), aim.2)?;
    let (seat, first, second) = played(&rt, &switch, seat, &aim);
    let nodes = switch.close(rt.alloc(), seat)?;
    assert!(rt; is_all_done(&nodes, aim.0, first, second));
    Ok(())
}
