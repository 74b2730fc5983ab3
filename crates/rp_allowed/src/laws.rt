//! Laws of what may come. No program calls these functions.
ghost use Rattle.std.specs.Prelude.{◌≡◌, ℕ, Some};
ghost use Rattle.rp_request.specs.Applied.{AppliedState};
ghost use Rattle.rp_events.specs.declared.node_events.Event.{Event};
ghost use Rattle.rp_events.specs.Lawful.{Lawful, IsReached};
ghost use Rattle.rp_events.specs.MaySteps.{MayStep};
ghost use Rattle.rp_events.specs.Nodes.{Node};
ghost use Rattle.rp_events.specs.Worlds.{World, Scene, node_of, event_of};
ghost use Rattle.rp_raftsafe.specs.Safety.{OneList};
ghost use Rattle.rp_allowed.specs.Firm.{IsFirm};

/// Every world that a lawful schedule leads to stands beside ranges of the machine; all that Raft
/// has seen spells payloads, and weighs no more than the nodes' events give room for.
pub fn every_reached_world_is_firm()
    ensures { (lists : OneList AppliedState) (nodes : ℕ) (w : World) → IsReached nodes w
        → IsFirm lists w }
{}

/// Before every lawful event of a reached world its node is one of five at most, its journal is not
/// full, and its replicas allow the event: what is to be appended fits what is committed, the next
/// committed entry is spelled as a payload that may be applied, a split that is taken lies inside,
/// an attempt that is asked for is not pending, and all numbers stay below their ends.
pub fn every_lawful_event_may_come()
    ensures { (nodes : ℕ) (w : World) → IsReached nodes w → (x : Scene) → Lawful w x → (n : Node)
        → node_of w x.node ≡ Some n → (e : Event AppliedState) → event_of w x.what ≡ Some e
        → MayStep n e }
{}
