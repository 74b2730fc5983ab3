//! How long a race is waited for.
ghost use Rattle.std.specs.Prelude.{◌≡◌, ◌≤◌, true, IfSome, length, slice_get, Some, ℕ, ◌<◌};
ghost use Rattle.rp_race.specs.Ends.{patience};
ghost use Rattle.rp_bench.specs.Patience.{AllHad, SomeWaited};

use crate::stations::Station;
use rp_race::RaceRules;

/// How many rounds are waited for an end, where a number says it.
pub(crate) fn patience(rules: &RaceRules) -> Option<u64>
    ensures { IfSome result (λ rounds. rounds ≡ patience rules.now) }
{
    let mut commands: u64 = 0;
    for sent in rules.requests.as_slice() {
        commands = commands.checked_add(sent.requests.len() as u64)?;
    }
    commands.checked_mul(40)?.checked_add(20_000)
}

/// Whether each of so many nodes has had so many rounds.
pub(crate) fn all_had(stations: &[Station; 5], nodes: u8, rounds: u64) -> bool
    requires { nodes ≤ 5 }
    ensures { result ≡ true → AllHad stations.now nodes rounds }
{
    for place in 0..nodes {
        if stations[usize::from(place)].rounds < rounds {
            return false;
        }
    }
    true
}

/// Whether an attempt of one of so many nodes waited through so many rounds.
pub(crate) fn some_waited(stations: &[Station; 5], nodes: u8, rounds: u64) -> bool
    requires { nodes ≤ 5 }
    ensures { result ≡ true → SomeWaited stations.now nodes rounds }
{
    for place in 0..nodes {
        if stations[usize::from(place)].waited >= rounds {
            return true;
        }
    }
    false
}
