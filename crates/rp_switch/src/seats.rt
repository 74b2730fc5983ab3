//! Handing rights over, and getting them back.
ghost use Rattle.std.specs.Prelude.{◌≡◌, ℕ, ◌+◌, ◌-◌, ◌<◌, ◌≤◌};
ghost use Rattle.rp_switch.specs.Gifts.{CarriesClient};
ghost use Rattle.rp_switch.specs.Rules.{clients_of};
ghost use Rattle.rp_switch.specs.Seats.{terms_of, known_by, IsSeatOf, IsSame, CarriesRounds};
ghost use Rattle.rp_switch.specs.Views.{Idle, OfClient, OfWorker, choosing, left, right, both};

use crate::plays::{ChooseClient, ChooseWorker, Part};
use crate::switch::{Seat, Switch};
use rp_bufcore::BufferEnd;

/// A word on which rights are chosen.
const FIRST: usize = 0;

/// No node's word shows this or more.
const ABOVE: u64 = 2;

impl<E: BufferEnd + Drop> Switch<E> {
    /// A new seat with one of the parts and with a client's right. It takes no memory.
    pub fn split(&self, seat: &mut Seat<E>, client: u16) -> Seat<E>
        requires of { IsSeatOf self.now seat.old }
        requires parts { 2 ≤ (known_by seat.old).parts }
        requires idle { (known_by seat.old).stage ≡ Idle }
        requires client { (1 ≤ client) × (client ≤ clients_of (terms_of self.now)) }
        requires carries { CarriesClient (known_by seat.old) client }
        ensures same { IsSame seat.old seat.new }
        ensures of { IsSeatOf self.now result }
        ensures old { known_by seat.new ≡ left (choosing (OfClient client) (known_by seat.old)) }
        ensures new { known_by result ≡ right (choosing (OfClient client) (known_by seat.old)) }
    {
        let shared = &self.table.shared;
        let client = u64::from(client);
        shared.compare_exchange::<ChooseClient>(&mut seat.seat, FIRST, ABOVE, client);
        let seat = shared.split_seat::<Part>(&mut seat.seat);
        Seat { seat }
    }

    /// A new seat with one of the parts and with the rights to the rounds of the nodes that a worker
    /// serves: those whose number, less one, is its own modulo the number of workers. It takes no
    /// memory.
    pub fn split_worker(&self, seat: &mut Seat<E>, worker: u8, workers: u8) -> Seat<E>
        requires of { IsSeatOf self.now seat.old }
        requires parts { 2 ≤ (known_by seat.old).parts }
        requires idle { (known_by seat.old).stage ≡ Idle }
        requires workers { (worker < workers) × (workers ≤ 8) }
        requires carries { CarriesRounds (known_by seat.old) worker workers }
        ensures same { IsSame seat.old seat.new }
        ensures of { IsSeatOf self.now result }
        ensures old { known_by seat.new ≡ left (choosing (OfWorker worker workers) (known_by seat.old)) }
        ensures new { known_by result ≡ right (choosing (OfWorker worker workers) (known_by seat.old)) }
    {
        let shared = &self.table.shared;
        let worker = ABOVE + u64::from(worker);
        let workers = u64::from(workers);
        shared.compare_exchange::<ChooseWorker>(&mut seat.seat, FIRST, worker, workers);
        let seat = shared.split_seat::<Part>(&mut seat.seat);
        Seat { seat }
    }

    /// Adds another seat's parts and rights to this one. It takes no memory.
    pub fn join(&self, seat: &mut Seat<E>, other: Seat<E>)
        requires of { IsSeatOf self.now seat.old }
        requires other { IsSeatOf self.now other }
        requires idle { (known_by other).stage ≡ Idle }
        ensures same { IsSame seat.old seat.new }
        ensures both { known_by seat.new ≡ both (known_by seat.old) (known_by other) }
    {
        let Seat { seat: other } = other;
        self.table.shared.join_seat::<Part>(&mut seat.seat, other);
    }
}
