//! Laws of the definitions: each has an empty body, and its contract is the law.
ghost use Rattle.std.specs.Prelude.{◌≡◌, ℕ, ◌≤◌, List, length, All, Some};
ghost use Rattle.rp_report.specs.Shown.{IsShownAnswer};
ghost use Rattle.rp_events.specs.Lawful.{IsReached};
ghost use Rattle.rp_events.specs.Nodes.{Node};
ghost use Rattle.rp_events.specs.Worlds.{World, node_of};
ghost use Rattle.rp_race.specs.declared.rules.RaceRules.{RaceRules};
ghost use Rattle.rp_race.specs.Ends.{WasPending};
ghost use Rattle.rp_script.specs.declared.lines.NumberedLine.{NumberedLine};
ghost use Rattle.rp_script.specs.Bounds.{IsScript};
ghost use Rattle.rp_racelines.specs.Rules.{nodes_in, rules_of, AreOfWorld};
ghost use Rattle.rp_racelines.specs.Replies.{race_replies};
ghost use Rattle.rp_racelines.specs.Verdicts.{command_count};

/// The rules of a script are of a world of the nodes that it names; its clients are 1 to 64, and each
/// command has a line of its own.
pub fn the_rules_of_a_script_fit()
    ensures world { (loss : ℕ) (salt : ℕ) (ls : List NumberedLine) → IsScript ls
        → AreOfWorld (nodes_in ls) (rules_of loss salt ls) }
    ensures clients { (loss : ℕ) (salt : ℕ) (ls : List NumberedLine) → IsScript ls
        → length (rules_of loss salt ls).requests ≤ 64 }
    ensures commands { (loss : ℕ) (salt : ℕ) (ls : List NumberedLine)
        → command_count (rules_of loss salt ls) ≤ length ls }
{}

/// No attempt of a node was pending through more of its rounds than the node says it waited.
pub fn no_attempt_was_pending_longer()
    ensures { (nodes : ℕ) (w : World) → IsReached nodes w → (node : ℕ) (n : Node)
        → node_of w node ≡ Some n → (rounds : ℕ) → WasPending w node rounds → rounds ≤ n.waited }
{}

/// The reply lines of a reached world can be shown, so its report can be written.
pub fn the_replies_of_a_race_can_be_shown()
    ensures { (rules : RaceRules) (nodes : ℕ) (w : World) → IsReached nodes w
        → All IsShownAnswer (race_replies rules w) }
{}
