//! How the book keeps an attempt.
ghost use Rattle.std.specs.Prelude.{◌≡◌};

use crate::bookings::{Booked, Draw};
use rp_request::Outcome;

/// An attempt, and what was told of its outcome. An enum of one form: the prover takes it into a map,
/// and not a struct of these fields.
#[derive(Drop)]
pub(crate) enum Kept {
    Attempt { booked: Booked, outcome: Outcome },
}

/// A client's command, by its number.
#[derive(Clone, Copy, PartialEq, Eq, Hash, Drop)]
pub(crate) struct Command {
    pub(crate) client: u16,
    pub(crate) seq: u32,
}

impl Kept {
    ghost use Rattle.rp_book.specs.Keeping.{booking_in, outcome_in, with_draw, with_outcome};

    pub(crate) fn booked(&self) -> &Booked
        ensures { result.now ≡ booking_in self.now }
    {
        let Kept::Attempt { booked, .. } = self;
        booked
    }

    pub(crate) fn outcome(&self) -> Outcome
        ensures { result ≡ outcome_in self.now }
    {
        let Kept::Attempt { outcome, .. } = self;
        *outcome
    }

    /// It has come so far in its buffer.
    pub(crate) fn set_draw(&mut self, draw: Draw)
        ensures { self.new ≡ with_draw draw self.old }
    {
        let Kept::Attempt { booked, .. } = self;
        booked.draw = draw;
    }

    /// This is told of its outcome.
    pub(crate) fn tell(&mut self, told: Outcome)
        ensures { self.new ≡ with_outcome told self.old }
    {
        let Kept::Attempt { outcome, .. } = self;
        *outcome = told;
    }
}
