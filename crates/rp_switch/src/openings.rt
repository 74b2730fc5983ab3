//! A new switch.
ghost use Rattle.std.specs.Prelude.{◌≡◌, ◌+◌, ◌<◌, ◌≤◌, ◌^◌, ◌++◌, ◌∷◌, [], IfOk, length, map, replicate};
ghost use Rattle.rp_switch.specs.declared.slots.Slot.TheVariants.{Nothing, Body};
ghost use Rattle.rp_switch.specs.Openings.{first_slots, AreFirst};
ghost use Rattle.rp_switch.specs.Rules.{first};
ghost use Rattle.rp_switch.specs.Seats.{terms_of, known_by, IsSeatOf};

use crate::slots::Slot;
use crate::switch::{Seat, Switch};
use crate::terms::Terms;
use atomic_table::Table;
use rp_base::NoMemory;
use rp_bufcore::BufferEnd;
use rp_node::Node;
use rp_race::RaceRules;
use std::alloc::Global;

/// So many words, each of which is 0.
fn zeros(alloc: Global, count: usize) -> Result<Vec<u64>, NoMemory>
    ensures { IfOk result (λ w. w.items ≡ replicate count 0) }
{
    Ok(vec![in alloc; 0; count]?)
}

/// A slot for each node, with the node.
fn with_nodes<E: BufferEnd + Drop>(
    alloc: Global,
    nodes: Vec<Node<E>>,
) -> Result<Vec<Slot<E>>, NoMemory>
    ensures { IfOk result (λ s. s.items ≡ map Body nodes.items) }
{
    let mut slots = Vec::with_capacity(alloc, nodes.len())?;
    for node in nodes {
        slots.push(Slot::Body(node))?;
    }
    Ok(slots)
}

/// A slot for each node, with the node, and an empty one for each client.
fn slots_of<E: BufferEnd + Drop>(
    alloc: Global,
    nodes: Vec<Node<E>>,
    clients: usize,
) -> Result<Vec<Slot<E>>, NoMemory>
    ensures { IfOk result (λ s. s.items ≡ first_slots nodes.items clients) }
{
    let mut slots = with_nodes(alloc, nodes)?;
    for _cell in 0..clients {
        slots.push(Slot::Nothing)?;
    }
    Ok(slots)
}

impl<E: BufferEnd + Drop> Switch<E> {
    /// A switch of one to five nodes as they start, each at home, with an empty reply cell for each
    /// client that the rules have requests of; and its first seat, which has all parts and all
    /// rights. At want of memory the nodes are gone.
    pub fn new(
        alloc: Global,
        nodes: Vec<Node<E>>,
        rules: RaceRules,
    ) -> Result<(Switch<E>, Seat<E>), NoMemory>
        requires some { 1 ≤ length nodes.items }
        requires few { length nodes.items ≤ 5 }
        requires first { AreFirst nodes.items }
        requires clients { length rules.requests < 2 ^ 16 }
        ensures terms { IfOk result (λ r. terms_of r.0 ≡ record { nodes = length nodes.items; rules = rules }) }
        ensures seat { IfOk result (λ r. IsSeatOf r.0 r.1) }
        ensures known { IfOk result (λ r. known_by r.1 ≡ first (terms_of r.0)) }
    {
        let count = nodes.len();
        let clients = rules.requests.len();
        let words = zeros(alloc, count + clients)?;
        let slots = slots_of(alloc, nodes, clients)?;
        let terms = Terms {
            nodes: count as u8,
            rules,
        };
        let Ok((table, seat)) = Table::new(alloc, &words, slots, &terms) else {
            return Err(NoMemory);
        };
        let switch = Switch {
            table,
            nodes: count,
            clients,
            rules: terms.rules,
        };
        Ok((switch, Seat { seat }))
    }
}
