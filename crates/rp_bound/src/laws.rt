//! Laws of worlds of several nodes and ranges, for every lawful schedule. No program calls these
//! functions.
ghost use Rattle.std.specs.Prelude.{◌≡◌, ℕ, ◌<◌, ◌≤◌, IsTrue, true, List, ◌++◌, map, Some};
ghost use Rattle.rp_base.specs.declared.ids.CmdId.{CmdId};
ghost use Rattle.rp_request.specs.Applied.{AppliedState};
ghost use Rattle.rp_request.specs.declared.requests.Request.{Request};
ghost use Rattle.rp_raftsafe.specs.World as raft;
ghost use Rattle.rp_raftsafe.specs.Safety.{OneList};
ghost use Rattle.rp_rangesafe.specs.World.{Event, AllLawful, run};
ghost use Rattle.rp_rangesafe.specs.Ranges.{Ranges, In, MayBegin, AreReached};
ghost use Rattle.rp_rangesafe.specs.Ranges.{AreLawful, after_steps};
ghost use Rattle.rp_events.specs.Replicas.{Replica};
ghost use Rattle.rp_events.specs.Nodes.{Node, Live, seat};
ghost use Rattle.rp_events.specs.Worlds.{World, Scene, first_world, node_of};
ghost use Rattle.rp_events.specs.Lawful.{Lawful, IsReached, IsLater, may_begin};
ghost use Rattle.rp_seats.specs.Standing.{Bound};
ghost use Rattle.rp_seats.specs.Steps.{AdmitsNone};
ghost use Rattle.rp_turns.specs.Fitting.{AreFit};
ghost use Rattle.rp_turns.specs.Keeping.{IsBelow};
ghost use Rattle.rp_turns.specs.Turning.{SceneTurned};
ghost use Rattle.rp_bound.specs.Bounds.{Stands, IsStanding, BoundNext, StandsNext, StandsLater};

/// The number of each range that there is lies below 8.
pub fn ranges_are_below_eight()
    ensures { (m : Ranges) → AreReached m → (range : ℕ) → m.opened range ≡ true → range < 8 }
{}

/// Lawful events of one range, none of which admits, are lawful steps of all ranges, behind which
/// the range has become what they make of it.
pub fn quiet_events_are_steps_of_all_ranges()
    ensures lawful { (m : Ranges) (range : ℕ) → m.opened range ≡ true → (events : List Event)
        → AllLawful (m.range range) events → AdmitsNone events
        → AreLawful m (map (In range) events) }
    ensures own { (m : Ranges) (range : ℕ) → m.opened range ≡ true → (events : List Event)
        → AllLawful (m.range range) events → AdmitsNone events
        → (after_steps m (map (In range) events)).range range ≡ run (m.range range) events }
    ensures others { (m : Ranges) (range : ℕ) → m.opened range ≡ true → (events : List Event)
        → AllLawful (m.range range) events → AdmitsNone events → (other : ℕ)
        → m.opened other ≡ true → (other ≡ range → ⊥)
        → (after_steps m (map (In range) events)).range other ≡ m.range other }
{}

/// An attempt that a lawful admission asks for may begin in the machine: no node was told of it, so
/// it was made nowhere, and the attempt before it was refused there too.
pub fn a_lawful_admission_may_begin()
    ensures { (lists : OneList AppliedState) (w : World) (m : Ranges)
        → (seen : ℕ → List raft.Event) → Bound lists w m seen → (id : CmdId) (request : Request)
        → IsTrue (may_begin w id request) → MayBegin m id }
{}

/// A lawful scene that turns each range leaves the nodes beside all ranges, which have gone on
/// lawfully.
pub fn a_turned_scene_leaves_the_nodes_bound()
    ensures { (lists : OneList AppliedState) (w : World) (m : Ranges)
        → (seen : ℕ → List raft.Event) → Bound lists w m seen → (x : Scene) → Lawful w x
        → SceneTurned lists w m seen x → BoundNext lists w m seen x }
{}

/// Where the nodes stand beside the ranges, all that their replicas hold has its widths: lease
/// indexes, lease sequences and ticks stay below their ends, for journals of up to 2^31 events at
/// five nodes.
pub fn what_replicas_hold_has_its_widths()
    ensures fit { (lists : OneList AppliedState) (w : World) (m : Ranges)
        → (seen : ℕ → List raft.Event) → Stands lists w m seen → AreFit w }
    ensures below { (lists : OneList AppliedState) (w : World) (m : Ranges)
        → (seen : ℕ → List raft.Event) → Stands lists w m seen → (node : ℕ) (range : ℕ) (n : Node)
        → (r : Replica) → node_of w node ≡ Some n → seat n range ≡ Live r → IsBelow r }
{}

/// The nodes of the first world stand beside the first range.
pub fn a_first_world_stands_beside_the_machine()
    ensures { (lists : OneList AppliedState) (nodes : ℕ) → 0 < nodes → nodes ≤ 5
        → IsStanding lists (first_world nodes) }
{}

/// After every lawful scene the nodes stand beside ranges that have gone on lawfully, and beside
/// what Raft has seen of each range so far and in the scene.
pub fn a_lawful_scene_leaves_the_nodes_beside_the_machine()
    ensures { (lists : OneList AppliedState) (w : World) (m : Ranges)
        → (seen : ℕ → List raft.Event) → Stands lists w m seen → (x : Scene) → Lawful w x
        → StandsNext lists w m seen x }
{}

/// So they do in every later world.
pub fn a_later_world_stands_beside_the_machine()
    ensures { (lists : OneList AppliedState) (w : World) (m : Ranges)
        → (seen : ℕ → List raft.Event) → Stands lists w m seen → (later : World) → IsLater w later
        → StandsLater lists m seen later }
{}

/// The nodes of every world that a lawful schedule leads to stand beside ranges of the machine.
pub fn a_reached_world_is_bound()
    ensures { (lists : OneList AppliedState) (nodes : ℕ) (w : World) → IsReached nodes w
        → IsStanding lists w }
{}
