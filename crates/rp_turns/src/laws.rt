//! Laws of a lawful scene in all ranges. No program calls these functions.
ghost use Rattle.std.specs.Prelude.{◌≡◌, ℕ, ◌≤◌, List, ◌++◌, Contains, Some};
ghost use Rattle.rp_request.specs.Applied.{AppliedState};
ghost use Rattle.rp_raftsafe.specs.World as raft;
ghost use Rattle.rp_raftsafe.specs.Safety.{OneList};
ghost use Rattle.rp_raftsafe.specs.Proposed.{payloads_of};
ghost use Rattle.rp_rangesafe.specs.Ranges.{Ranges};
ghost use Rattle.rp_events.specs.Lawful.{Lawful};
ghost use Rattle.rp_events.specs.Nodes.{Node, Live, seat};
ghost use Rattle.rp_events.specs.Replicas.{Replica};
ghost use Rattle.rp_events.specs.Worlds.{World, Scene, first_world, happens, node_of};
ghost use Rattle.rp_seats.specs.Scenes.{raft_events};
ghost use Rattle.rp_seats.specs.Standing.{Bound};
ghost use Rattle.rp_turns.specs.Fitting.{AreFit};
ghost use Rattle.rp_turns.specs.Keeping.{AreWide, IsBelow};
ghost use Rattle.rp_turns.specs.Turning.{IsNew, SceneTurned};

/// A lawful scene is a turn of each range that there is: lawful steps of the range machine, of which the
/// first is the admission, where the scene is one that is granted, behind which the range stands beside
/// the machine at all nodes. Each other range stays shut; and what a node told of an end stays told.
pub fn a_lawful_scene_turns_each_range()
    ensures { (lists : OneList AppliedState) (w : World) (m : Ranges)
        → (seen : ℕ → List raft.Event) → Bound lists w m seen → AreFit w → (x : Scene)
        → Lawful w x → IsNew m x.what → SceneTurned lists w m seen x }
{}

/// In the first world what the nodes hold has its widths, where nothing was handed to Raft.
pub fn the_first_world_is_wide()
    ensures { (nodes : ℕ) → nodes ≤ 5 → (seen : ℕ → List raft.Event)
        → ((range : ℕ) (bytes : List ℕ) → Contains (payloads_of (seen range)) bytes → ⊥)
        → AreWide (first_world nodes) seen }
{}

/// A lawful scene keeps the widths of what the nodes hold and of what was handed to Raft, and that
/// outcomes are ends of attempts that their node was asked.
pub fn a_lawful_scene_keeps_widths()
    ensures { (lists : OneList AppliedState) (w : World) (m : Ranges)
        → (seen : ℕ → List raft.Event) → Bound lists w m seen → AreFit w → AreWide w seen
        → (x : Scene) → Lawful w x
        → AreWide (happens w x) (λ range. seen range ++ raft_events range w x) }
{}

/// What is of its widths fits, where the numbers that grow are below their ends.
pub fn what_is_wide_and_below_fits()
    ensures { (w : World) (seen : ℕ → List raft.Event) → AreWide w seen
        → ((node : ℕ) (range : ℕ) (n : Node) (r : Replica) → node_of w node ≡ Some n
        → seat n range ≡ Live r → IsBelow r)
        → AreFit w }
{}
