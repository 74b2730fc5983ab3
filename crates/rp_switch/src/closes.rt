//! Closing a switch.
ghost use Rattle.std.specs.Prelude.{◌≡◌, ℕ, ◌+◌, ◌<◌, ◌≤◌, ◌++◌, IfOk, IsTrue, false, length, slice_index_or, slice_set};
ghost use Rattle.std.specs.Slots.{slots_items, slots_filled, slots_len, IsFull};
ghost use Rattle.rp_switch.specs.declared.slots.Slot.TheVariants.{Nothing};
ghost use Rattle.rp_switch.specs.Closings.{body_in, bodies, IsEmptiedTo};
ghost use Rattle.rp_switch.specs.Openings.{bare};
ghost use Rattle.rp_switch.specs.Seats.{known_by, IsSeatOf, Closes};
ghost use Rattle.rp_switch.specs.Views.{all_parts, Idle};

use crate::slots::Slot;
use crate::switch::{Seat, Switch};
use atomic_table::Closed;
use rp_base::{Grown, NoMemory};
use rp_bufcore::BufferEnd;
use rp_node::{Node, Nodes};
use std::alloc::Global;

/// Takes what lies in a slot, and keeps it where it is a node.
fn take_out<E: BufferEnd + Drop>(
    closed: &mut Closed<Slot<E>, Global>,
    place: usize,
    nodes: &mut Grown<Node<E>>,
)
    requires place { place < slots_len closed.old.slots }
    requires filled { IsTrue (slice_index_or (slots_filled closed.old.slots) place false) }
    requires room { 1 ≤ nodes.old.spare }
    ensures items { slots_items closed.new.slots ≡ slots_items closed.old.slots }
    ensures filled { slots_filled closed.new.slots
        ≡ slice_set (slots_filled closed.old.slots) place false }
    ensures slots { slots_len closed.new.slots ≡ slots_len closed.old.slots }
    ensures found { nodes.new.list ≡ nodes.old.list
        ++ body_in (slice_index_or (slots_items closed.old.slots) place Nothing) }
    ensures room { nodes.old.spare ≤ nodes.new.spare + 1 }
{
    match closed.take(place) {
        Slot::Body(node) => nodes.push(node),
        Slot::Nothing => (),
        Slot::Reply(_) => (),
    }
}

/// Takes the nodes out of the first slots.
fn take_nodes<E: BufferEnd + Drop>(
    closed: &mut Closed<Slot<E>, Global>,
    count: usize,
    nodes: &mut Grown<Node<E>>,
)
    requires count { count ≤ slots_len closed.old.slots }
    requires full { IsFull closed.old.slots }
    requires room { count ≤ nodes.old.spare }
    ensures found { nodes.new.list ≡ nodes.old.list ++ bodies count (slots_items closed.old.slots) }
    ensures slots { slots_len closed.new.slots ≡ slots_len closed.old.slots }
    ensures emptied { IsEmptiedTo count (slots_len closed.new.slots) (slots_filled closed.new.slots) }
{
    for place in 0..count {
        take_out(closed, place, nodes);
    }
}

/// Lets what lies in the slots from this one on go.
fn drop_cells<E: BufferEnd + Drop>(mut closed: Closed<Slot<E>, Global>, from: usize)
    requires from { from ≤ slots_len closed.slots }
    requires emptied { IsEmptiedTo from (slots_len closed.slots) (slots_filled closed.slots) }
{
    for place in from..closed.slot_count() {
        closed.take(place);
    }
    closed.free();
}

impl<E: BufferEnd + Drop> Switch<E> {
    /// The nodes as they were last given back, once all other seats were joined to this one. At want
    /// of memory they are gone.
    pub fn close(self, alloc: Global, seat: Seat<E>) -> Result<Nodes<E>, NoMemory>
        requires of { IsSeatOf self seat }
        requires all { (known_by seat).parts ≡ all_parts }
        requires idle { (known_by seat).stage ≡ Idle }
        ensures { IfOk result (λ nodes. Closes (known_by seat) (bare nodes)) }
    {
        let mut nodes = Grown::new(alloc);
        nodes.make_room(self.nodes)?;
        let Switch {
            table,
            nodes: count,
            clients: _,
            rules: _,
        } = self;
        let Seat { seat } = seat;
        let mut closed = table.close_with(seat);
        take_nodes(&mut closed, count, &mut nodes);
        drop_cells(closed, count);
        Ok(Nodes::from_vec(nodes.into_vec()))
    }
}
