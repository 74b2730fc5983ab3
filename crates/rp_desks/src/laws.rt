//! Laws of what a client leaves. No program calls these functions.
ghost use Rattle.std.specs.Prelude.{◌≡◌, ℕ, true};
ghost use Rattle.rp_events.specs.Lawful.{IsReached};
ghost use Rattle.rp_events.specs.Worlds.{World};
ghost use Rattle.rp_race.specs.Ends.{IsWaitedOutForGood, patience};
ghost use Rattle.rp_switch.specs.Rules.{AllHeard};
ghost use Rattle.rp_switch.specs.Views.{Knowledge, both};
ghost use Rattle.rp_desks.specs.Onward.{heard_over};

/// What a client heard stays with the seat that its own is joined to, and with each that this one is
/// joined to.
pub fn what_was_heard_is_joined()
    ensures left { (v : Knowledge) (w : Knowledge) → heard_over v ≡ true
        → heard_over (both v w) ≡ true }
    ensures right { (v : Knowledge) (w : Knowledge) → w.terms ≡ v.terms → heard_over w ≡ true
        → heard_over (both v w) ≡ true }
{}

/// Where a seat heard that no more is to be waited for, that is so in each world from which all that the
/// seat heard is past.
pub fn what_was_heard_is_so()
    ensures { (v : Knowledge) (w : World) → IsReached v.terms.nodes w
        → AllHeard v.terms.nodes v.joined w → heard_over v ≡ true
        → IsWaitedOutForGood (patience v.terms.rules) w }
{}
