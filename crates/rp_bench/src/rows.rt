//! What a worker keeps of all nodes: one of these changes, and the others stay.
ghost use Rattle.std.specs.Prelude.{◌≡◌, ◌-◌, ◌≤◌, true, Some, OnOk, OnErr, length, slice_get};
ghost use Rattle.rp_race.specs.Gives.{NoneBehind};
ghost use Rattle.rp_serving.specs.declared.lanes.Lane.{Lane};
ghost use Rattle.rp_serving.specs.Mails.{lane_in, IsMailOf, IsWhole};
ghost use Rattle.rp_serving.specs.Playing.{HasIt, IsTaken, HandsWithin, GivesFew, taken_from};
ghost use Rattle.rp_switch.specs.Gifts.{IsRound, IsBrokenRound};
ghost use Rattle.rp_switch.specs.Seats.{known_by};
ghost use Rattle.rp_bench.specs.declared.stations.Station.{Station};
ghost use Rattle.rp_bench.specs.Stations.{Changes, OthersStay, Notes, CopiesInto, PlaysBy, HasPosted, IsDue, may_play_on, settled};

use crate::stations::Station;
use rp_base::{NoMemory, NodeId};
use rp_bufcore::BufferEnd;
use rp_events::Outcomes;
use rp_node::Node;
use rp_race::RaceRules;
use rp_serving::{BrokenOff, Inserts};
use rp_switch::Seat;
use std::alloc::Global;

/// Notes how a node is now.
pub(crate) fn note<E: BufferEnd + Drop>(stations: &mut [Station; 5], number: NodeId, node: &Node<E>)
    ensures here { Changes (number - 1) (Notes node.now.node) stations.old stations.new }
    ensures others { OthersStay (number - 1) stations.old stations.new }
{
    stations[usize::from(number.get()) - 1].note(node);
}

/// Copies for a node what another one has sent since the last time.
pub(crate) fn copy_into<E: BufferEnd + Drop>(
    stations: &mut [Station; 5],
    rules: &RaceRules,
    from: NodeId,
    to: NodeId,
    sender: &Node<E>,
) -> Result<(), NoMemory>
    requires { (s : Station) (lane : Lane) → slice_get stations.old (to - 1) ≡ Some s → s.may_play ≡ true
        → lane_in s.mail from ≡ Some lane → lane.copied ≤ length sender.now.node.sent }
    ensures here { Changes (to - 1) (CopiesInto rules.now from sender.now.node result) stations.old stations.new }
    ensures others { OthersStay (to - 1) stations.old stations.new }
{
    stations[usize::from(to.get()) - 1].copy_from(rules, from, sender)
}

/// Plays a round of a node that the seat has taken.
pub(crate) fn play_in<E: BufferEnd + Drop, I: Inserts>(
    stations: &mut [Station; 5],
    seat: &Seat<E>,
    rules: &RaceRules,
    nodes: u8,
    number: NodeId,
    node: &mut Node<E>,
    inserts: &mut I,
) -> Result<(), BrokenOff>
    requires has { HasIt (known_by seat.now) number }
    requires taken { IsTaken (known_by seat.now) number node.old.node }
    requires rules { rules.now ≡ (known_by seat.now).terms.rules }
    requires nodes { nodes ≡ (known_by seat.now).terms.nodes }
    requires hands { HandsWithin nodes rules.now }
    requires few { GivesFew E.gives }
    requires mail { (s : Station) → slice_get stations.old (number - 1) ≡ Some s
        → IsMailOf rules.now number (known_by seat.now).seen node.old.node s.mail }
    requires whole { (s : Station) → slice_get stations.old (number - 1) ≡ Some s
        → IsWhole number (known_by seat.now).seen s.mail }
    requires behind { NoneBehind number (known_by seat.now).seen node.old.node }
    ensures whole { OnOk result (IsRound (known_by seat.now) (number - 1) (taken_from (known_by seat.now)) node.new.node) }
    ensures broken_off { OnErr result
        (IsBrokenRound (known_by seat.now) (number - 1) (taken_from (known_by seat.now)) node.new.node) }
    ensures here { Changes (number - 1)
        (PlaysBy rules.now number (known_by seat.now).seen node.new.node result) stations.old stations.new }
    ensures others { OthersStay (number - 1) stations.old stations.new }
{
    stations[usize::from(number.get()) - 1].play(seat, rules, nodes, number, node, inserts)
}

/// After a round of a node: where it was broken off, no more are played.
pub(crate) fn settle(
    stations: &mut [Station; 5],
    number: NodeId,
    played: Result<(), BrokenOff>,
) -> Result<(), NoMemory>
    ensures here { Changes (number - 1)
        (λ s t. t ≡ record s { may_play = may_play_on played s.may_play }) stations.old stations.new }
    ensures others { OthersStay (number - 1) stations.old stations.new }
    ensures result { result ≡ settled played }
{
    stations[usize::from(number.get()) - 1].settle(played)
}

/// The outcomes of a node behind those that were posted.
pub(crate) fn outcomes_of<E: BufferEnd + Drop>(
    stations: &mut [Station; 5],
    alloc: Global,
    number: NodeId,
    node: &Node<E>,
) -> Result<Outcomes, NoMemory>
    ensures here { Changes (number - 1) (HasPosted node.now.node result) stations.old stations.new }
    ensures others { OthersStay (number - 1) stations.old stations.new }
{
    stations[usize::from(number.get()) - 1].new_outcomes(alloc, node)
}

/// Whether a round of a node is to be played now.
pub(crate) fn is_due(stations: &[Station; 5], nodes: u8, number: NodeId) -> bool
    requires { nodes ≤ 5 }
    ensures { result ≡ true → (s : Station) × (slice_get stations.now (number - 1) ≡ Some s) × IsDue nodes s }
{
    stations[usize::from(number.get()) - 1].is_due(nodes)
}
