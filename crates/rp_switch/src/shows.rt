//! What a switch is made for.
ghost use Rattle.std.specs.Prelude.{◌≡◌};
ghost use Rattle.rp_switch.specs.Rules.{clients_of};
ghost use Rattle.rp_switch.specs.Seats.{terms_of};

use crate::switch::Switch;
use rp_bufcore::BufferEnd;
use rp_race::RaceRules;

impl<E: BufferEnd + Drop> Switch<E> {
    /// How many nodes it has.
    pub fn nodes(&self) -> u8
        ensures { result ≡ (terms_of self.now).nodes }
    {
        self.nodes as u8
    }

    /// How many clients have a reply cell.
    pub fn clients(&self) -> u16
        ensures { result ≡ clients_of (terms_of self.now) }
    {
        self.clients as u16
    }

    /// The rules of the race.
    pub fn rules(&self) -> &RaceRules
        ensures { result.now ≡ (terms_of self.now).rules }
    {
        &self.rules
    }
}
