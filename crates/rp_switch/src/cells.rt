//! The clients' reply cells.
ghost use Rattle.std.specs.Prelude.{◌≡◌, ◌+◌, ◌-◌, ◌<◌, ◌≤◌};
ghost use Rattle.rp_switch.specs.Rules.{clients_of, IsTrueOf};
ghost use Rattle.rp_switch.specs.Seats.{terms_of, known_by, IsSeatOf, IsSame, Posts, Fetches};
ghost use Rattle.rp_switch.specs.Views.{Idle};

use crate::faults::CellBusy;
use crate::plays::{Fetch, Leave, Post, Reach};
use crate::slots::Slot;
use crate::switch::{Seat, Switch};
use rp_bufcore::BufferEnd;
use rp_clients::{Answer, Empty};

/// What a cell's word shows while the cell is empty.
const EMPTY: u64 = 0;

/// What it shows while an answer lies there.
const FULL: u64 = 1;

/// What it shows while a seat has the cell.
const HELD: u64 = 2;

impl<E: BufferEnd + Drop> Switch<E> {
    /// Puts an answer into a client's cell, where one exchange of its word saw that it is empty;
    /// else `CellBusy`. The answer is true of what the seat has seen. It takes no memory and does not
    /// wait.
    pub fn try_post(&self, seat: &mut Seat<E>, client: u16, answer: Answer) -> Result<(), CellBusy>
        requires of { IsSeatOf self.now seat.old }
        requires client { (1 ≤ client) × (client ≤ clients_of (terms_of self.now)) }
        requires idle { (known_by seat.old).stage ≡ Idle }
        requires true_of { IsTrueOf (terms_of self.now) (known_by seat.old).seen client answer }
        ensures same { IsSame seat.old seat.new }
        ensures told { Posts (known_by seat.old) client answer result (known_by seat.new) }
    {
        let shared = &self.table.shared;
        let cell = self.nodes + usize::from(client) - 1;
        let found = shared.compare_exchange::<Reach>(&mut seat.seat, cell, EMPTY, HELD);
        if found != EMPTY {
            return Err(CellBusy);
        }
        shared.exchange(&mut seat.seat, cell, Slot::Reply(answer));
        shared.swap::<Post>(&mut seat.seat, cell, FULL);
        Ok(())
    }

    /// Takes the answer out of a client's cell, where one exchange of its word saw that one lies
    /// there; else `Empty`. It takes no memory and does not wait.
    pub fn try_fetch(&self, seat: &mut Seat<E>, client: u16) -> Result<Answer, Empty>
        requires of { IsSeatOf self.now seat.old }
        requires client { (1 ≤ client) × (client ≤ clients_of (terms_of self.now)) }
        requires idle { (known_by seat.old).stage ≡ Idle }
        ensures same { IsSame seat.old seat.new }
        ensures told { Fetches (known_by seat.old) client result (known_by seat.new) }
    {
        let shared = &self.table.shared;
        let cell = self.nodes + usize::from(client) - 1;
        let found = shared.compare_exchange::<Fetch>(&mut seat.seat, cell, FULL, HELD);
        if found != FULL {
            return Err(Empty);
        }
        let content = shared.exchange(&mut seat.seat, cell, Slot::Nothing);
        shared.swap::<Leave>(&mut seat.seat, cell, EMPTY);
        match content {
            Slot::Reply(answer) => Ok(answer),
            Slot::Nothing | Slot::Body(_) => unreachable!(),
        }
    }
}
