//! Taking a node, and giving it back.
ghost use Rattle.std.specs.Prelude.{◌≡◌, ◌+◌, ◌-◌, ◌<◌, ◌≤◌};
ghost use Rattle.rp_switch.specs.Gifts.{MayGive};
ghost use Rattle.rp_switch.specs.Seats.{terms_of, known_by, IsSeatOf, IsSame, Takes, GivesBack};
ghost use Rattle.rp_switch.specs.Views.{Idle};

use crate::faults::Busy;
use crate::plays::{Give, Take};
use crate::slots::Slot;
use crate::switch::{Seat, Switch, Taken};
use rp_base::NodeId;
use rp_bufcore::BufferEnd;

/// What a node's word shows while the node is at home.
const FREE: u64 = 0;

/// What it shows while the node is taken.
const TAKEN: u64 = 1;

impl<E: BufferEnd + Drop> Switch<E> {
    /// Takes a node out, as it was last given back, by one exchange of its word: `Busy` where the
    /// exchange saw that it is taken. It takes no memory and does not wait.
    pub fn try_take(&self, seat: &mut Seat<E>, node: NodeId) -> Result<Taken<E>, Busy>
        requires of { IsSeatOf self.now seat.old }
        requires node { node ≤ (terms_of self.now).nodes }
        requires idle { (known_by seat.old).stage ≡ Idle }
        ensures same { IsSame seat.old seat.new }
        ensures told { Takes (known_by seat.old) node result (known_by seat.new) }
    {
        let shared = &self.table.shared;
        let place = usize::from(node.get()) - 1;
        let found = shared.compare_exchange::<Take>(&mut seat.seat, place, FREE, TAKEN);
        if found != FREE {
            return Err(Busy { node });
        }
        match shared.exchange(&mut seat.seat, place, Slot::Nothing) {
            Slot::Body(body) => Ok(Taken {
                number: node,
                node: body,
            }),
            Slot::Nothing | Slot::Reply(_) => unreachable!(),
        }
    }

    /// Gives the node back that the seat has: as it was, after admissions, or after a round, whole or
    /// broken off. It takes no memory and does not wait.
    pub fn give(&self, seat: &mut Seat<E>, taken: Taken<E>)
        requires of { IsSeatOf self.now seat.old }
        requires node { taken.number ≤ (terms_of self.now).nodes }
        requires may { MayGive (known_by seat.old) (known_by seat.old).stage taken.number taken.node.node }
        ensures same { IsSame seat.old seat.new }
        ensures told { GivesBack (known_by seat.old) taken.number taken.node.node (known_by seat.new) }
    {
        let shared = &self.table.shared;
        let Taken { number, node } = taken;
        let place = usize::from(number.get()) - 1;
        shared.exchange(&mut seat.seat, place, Slot::Body(node));
        shared.swap::<Give>(&mut seat.seat, place, FREE);
    }
}
