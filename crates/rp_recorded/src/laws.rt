//! Laws of what a reached world has recorded. No program calls these functions.
ghost use Rattle.std.specs.Prelude.{◌≡◌, ℕ, ◌≤◌, ◌⊎◌, List, [], All, Some};
ghost use Rattle.rp_base.specs.declared.ids.CmdId.{CmdId};
ghost use Rattle.rp_request.specs.History.{History};
ghost use Rattle.rp_request.specs.declared.items.Record.{Record};
ghost use Rattle.rp_request.specs.declared.notes.Note.{Note};
ghost use Rattle.rp_request.specs.declared.outcomes.Outcome.{Outcome};
ghost use Rattle.rp_report.specs.Shown.{IsShownAnswer, IsShownOutcome, IsShownView};
ghost use Rattle.rp_report.specs.declared.views.View.{View};
ghost use Rattle.rp_events.specs.Lawful.{IsReached};
ghost use Rattle.rp_events.specs.Lists.{HasApplied, IsOneList};
ghost use Rattle.rp_events.specs.Worlds.{World, outcome_of};
ghost use Rattle.rp_lines.specs.Views.{replies_of, IsViewOf};
ghost use Rattle.rp_recorded.specs.Recorded.{HasOneList, IsAllApplied, IsNumbered};

/// Each range of a reached world has one list of records.
pub fn each_range_has_one_list()
    ensures { (nodes : ℕ) (w : World) → IsReached nodes w → (range : ℕ) → HasOneList w range }
{}

/// There is no other one; and where it has a record, some node has applied all of it.
pub fn the_nodes_tell_the_one_list()
    ensures only { (w : World) (range : ℕ) (list : List Record) (other : List Record)
        → IsOneList w range list → IsOneList w range other → list ≡ other }
    ensures applied { (w : World) (range : ℕ) (list : List Record) → IsOneList w range list
        → (list ≡ []) ⊎ IsAllApplied w range list }
{}

/// What a node has applied of a range bears the range's number, below 8, and bounds that can be
/// shown: the least, the greatest, and keys of splits.
pub fn what_was_applied_is_numbered()
    ensures { (nodes : ℕ) (w : World) → IsReached nodes w → (node : ℕ) (range : ℕ) (h : History)
        → HasApplied w node range h → IsNumbered range h.state.desc }
{}

/// What attempts were told can be shown: a refusal names a description that some node had.
pub fn each_outcome_can_be_shown()
    ensures replies { (nodes : ℕ) (w : World) → IsReached nodes w → All IsShownAnswer (replies_of w) }
    ensures attempt { (nodes : ℕ) (w : World) → IsReached nodes w → (id : CmdId) (outcome : Outcome)
        → outcome_of w id ≡ Some outcome → IsShownOutcome outcome }
{}

/// So what a reached world shows can be written.
pub fn what_is_shown_can_be_written()
    ensures { (nodes : ℕ) (w : World) (notes : List Note) (v : View) → IsReached nodes w
        → IsViewOf w notes v → IsShownView v }
{}
