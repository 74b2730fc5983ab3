//! A turn at a node: what stays the same through a round.
ghost use Rattle.std.specs.Prelude.{◌≡◌};
ghost use Rattle.rp_switch.specs.Seats.{known_by};
ghost use Rattle.rp_serving.specs.Playing.{HandsWithin, GivesFew};

use rp_base::NodeId;
use rp_bufcore::BufferEnd;
use rp_race::RaceRules;
use rp_switch::Seat;

/// A turn of a worker at a node: the seat that has the node, by what it knows; the rules of the race,
/// and how many nodes there are.
#[derive(Drop)]
pub struct Turn<'a, E: BufferEnd + Drop> {
    pub(crate) seat: &'a Seat<E>,
    pub(crate) rules: &'a RaceRules,
    pub(crate) nodes: u8,
    pub(crate) node: NodeId,
    ghost nodes_are: { nodes ≡ (known_by seat.now).terms.nodes },
    ghost rules_are: { rules.now ≡ (known_by seat.now).terms.rules },
    ghost hands: { HandsWithin (known_by seat.now).terms.nodes rules.now },
    ghost few: { GivesFew E.gives },
}
