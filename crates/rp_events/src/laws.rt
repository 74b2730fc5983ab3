//! Schedules that are worked out, as laws: each has an empty body, and its contract is the law.
ghost use Rattle.std.specs.Prelude.{◌≡◌, Some};
ghost use Rattle.rp_request.specs.declared.outcomes.Ambiguity.TheVariants.{Removed};
ghost use Rattle.rp_request.specs.declared.outcomes.Outcome.TheVariants.{Refused, Ambiguous, Pending};
ghost use Rattle.rp_request.specs.declared.outcomes.Refusal.TheVariants.{NoReplica};
ghost use Rattle.rp_events.specs.Worlds.{first_world, outcome_of, run};
ghost use Rattle.rp_events.specs.Worked.{first_try, flushed_put, removal};

/// A command that was flushed is pending until its entry is applied.
pub fn a_flushed_put_is_pending()
    ensures { outcome_of (run (first_world 1) flushed_put) (first_try 1 1) ≡ Some Pending }
{}

/// At a removal what is proposed is ambiguous, and what waits is refused.
pub fn a_removal_ends_both()
    ensures proposed { outcome_of (run (first_world 3) removal) (first_try 1 1)
        ≡ Some (Ambiguous (Removed 1)) }
    ensures waiting { outcome_of (run (first_world 3) removal) (first_try 1 2)
        ≡ Some (Refused NoReplica) }
{}
