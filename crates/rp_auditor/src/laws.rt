//! Laws of the verdict, for the proofs above. No program calls these functions.
ghost use Rattle.std.specs.Prelude.{◌≡◌, ◌≤◌, ◌↔◌, ℕ, List, Option, Some};
ghost use Rattle.rp_request.specs.Items.{State, fold};
ghost use Rattle.rp_reread.specs.declared.reports.Entry.{Entry};
ghost use Rattle.rp_reread.specs.declared.reports.Report.{Report};
ghost use Rattle.rp_auditor.specs.Audits.{judged};
ghost use Rattle.rp_request.specs.Places.{places_of};
ghost use Rattle.rp_auditor.specs.Holding.{AllHold, EntriesHold};
ghost use Rattle.rp_auditor.specs.Places.{items_of};
ghost use Rattle.rp_auditor.specs.Playing.{after_entries};
ghost use Rattle.rp_auditor.specs.Seen.{Seen, place_of, room};
ghost use Rattle.rp_auditor.specs.declared.verdicts.Verdict.TheVariants.{Yes};

/// The verdict is yes exactly where all checks hold.
#[tactic(auto, using(crate::proofs::Yeses::yes_where_all_hold))]
pub fn yes_exactly_where_all_hold()
    ensures { (r : Report) → (judged r ≡ Yes) ↔ AllHold r }
{}

/// The state along the entries of a range is the fold of their items.
#[tactic(auto, using(crate::proofs::Meanings::entries_fold))]
pub fn entries_leave_the_fold()
    ensures { (s : State) (es : List Entry) → after_entries (Some s) es ≡ fold s (items_of es) }
{}

/// Among entries that hold, a command has at most one place, and none where an item before them names it.
#[tactic(auto, using(crate::proofs::Meanings::once_in))]
pub fn entries_name_a_command_once()
    ensures { (client : ℕ) (seq : ℕ) (seen : Seen) (s : Option State) (es : List Entry) → EntriesHold seen s es
        → places_of client seq (items_of es) ≤ room (place_of seen client seq) }
{}
