//! A switch, its seats, and a node that is taken.
ghost use Rattle.std.specs.Prelude.{◌≡◌, ◌<◌, ◌≤◌, ◌^◌, true};
ghost use Rattle.rp_switch.specs.Rules.{clients_of, size_of};
ghost use Rattle.rp_switch.specs.Calm.{is_calm, slots_at};

use crate::known::Known;
use crate::rule::Law;
use crate::slots::Slot;
use crate::terms::Terms;
use atomic_table::{Seat as TableSeat, Table};
use rp_base::NodeId;
use rp_bufcore::BufferEnd;
use rp_node::Node;
use rp_race::RaceRules;
use std::alloc::Global;

/// Nodes, each behind a word, and a reply cell for each client behind a word. Threads step through a
/// `&Switch`, each with a seat of its own. Contracts see what it is made for.
#[derive(Drop)]
pub struct Switch<E: BufferEnd + Drop> {
    pub(crate) table: Table<Slot<E>, Known, Terms, Law, Global>,
    pub(crate) nodes: usize,
    pub(crate) clients: usize,
    pub(crate) rules: RaceRules,
    ghost nodes_are: { nodes ≡ table.shared.key.nodes },
    ghost some: { 1 ≤ nodes },
    ghost few: { nodes ≤ 5 },
    ghost numbered: { clients < 2 ^ 16 },
    ghost clients_are: { clients ≡ clients_of table.shared.key },
    ghost rules_are: { rules ≡ table.shared.key.rules },
    ghost counted: { (table.shared.table_id.words ≡ size_of table.shared.key)
        × (table.shared.table_id.slots ≡ size_of table.shared.key) },
}

/// The right of one thread to step. Contracts see what it knows: its parts of the right to close the
/// switch, the node that it has, each node as it last took it, its rights with what they keep, and what
/// its steps told.
#[derive(Drop)]
pub struct Seat<E: BufferEnd + Drop> {
    pub(crate) seat: TableSeat<Slot<E>, Known>,
    ghost calm: { is_calm seat.me.0.stage ≡ true },
    ghost slots: { seat.me.1 ≡ slots_at seat.me.0.stage },
    ghost has_part: { 0 < seat.me.0.parts },
}

/// A node that a seat has taken, with its number.
#[derive(Drop)]
pub struct Taken<E: BufferEnd + Drop> {
    pub number: NodeId,
    pub node: Node<E>,
}
