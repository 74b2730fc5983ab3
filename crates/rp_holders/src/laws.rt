//! Laws of who holds a lease. No program calls these functions.
ghost use Rattle.std.specs.Prelude.{◌≡◌, ℕ, [], slice_get, Some};
ghost use Rattle.rp_base.specs.declared.ids.CmdId.{CmdId};
ghost use Rattle.rp_request.specs.declared.outcomes.Outcome.{Outcome};
ghost use Rattle.rp_request.specs.declared.outcomes.Refusal.{Refusal};
ghost use Rattle.rp_request.specs.declared.requests.Request.{Request};
ghost use Rattle.rp_events.specs.declared.answers.EventAnswer.TheVariants as answers;
ghost use Rattle.rp_events.specs.declared.node_events.Event.TheVariants as events;
ghost use Rattle.rp_events.specs.Lawful.{IsReached};
ghost use Rattle.rp_events.specs.Nodes.{Node, Live, seat};
ghost use Rattle.rp_events.specs.NodeEvents.{step};
ghost use Rattle.rp_events.specs.Replicas.{Replica, lease_of};
ghost use Rattle.rp_events.specs.Worlds.{World, node_of};
ghost use Rattle.rp_script.specs.Bounds.{IsNode};
ghost use Rattle.rp_router.specs.Hints.{NamesNode};
ghost use Rattle.rp_clients.specs.Desks.{IsEnd};

/// The lease that a replica of a reached world has applied is held by a node of the world.
pub fn a_lease_is_held_by_a_node()
    ensures { (nodes : ℕ) (w : World) → IsReached nodes w → (node : ℕ) (n : Node)
        → node_of w node ≡ Some n → (range : ℕ) (r : Replica) → seat n range ≡ Live r
        → IsNode nodes (lease_of r).holder }
{}

/// Each outcome that a node of a reached world keeps is an end, and where it refuses by the lease it
/// names a node of the world; so does each refusal at an admission.
pub fn what_is_refused_names_a_node()
    ensures outcome { (nodes : ℕ) (w : World) → IsReached nodes w → (node : ℕ) (n : Node)
        → node_of w node ≡ Some n → (k : ℕ) (id : CmdId) (outcome : Outcome)
        → slice_get n.outcomes k ≡ Some (record { id = id; outcome = outcome })
        → IsEnd nodes outcome }
    ensures admission { (nodes : ℕ) (w : World) → IsReached nodes w → (node : ℕ) (n : Node)
        → node_of w node ≡ Some n → (range : ℕ) (id : CmdId) (request : Request)
        → (refusal : Refusal)
        → (step n (events.Admit range id request) []).answer ≡ answers.Refused refusal
        → NamesNode nodes refusal }
{}
