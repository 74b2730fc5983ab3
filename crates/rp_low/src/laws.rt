//! Laws of the size of Raft's numbers. No program calls these functions.
ghost use Rattle.std.specs.Prelude.{◌≡◌, ℕ, ◌*◌, ◌^◌, ◌<◌, ◌≤◌, List, ◌++◌};
ghost use Rattle.rp_raftsafe.specs.World as raft;
ghost use Rattle.rp_events.specs.Lawful.{Lawful, IsReached};
ghost use Rattle.rp_events.specs.Worlds.{World, Scene, first_world, happens};
ghost use Rattle.rp_seats.specs.Scenes.{raft_events};
ghost use Rattle.rp_low.specs.Weights.{weight_of, room_of, IsWeighed};

/// Raft's events of a range weigh, with what waits in its inboxes, no more than the nodes' events give
/// room for: at the start, and behind each lawful scene; and the room of five nodes whose journals have
/// an end is less than 2^63.
pub fn rafts_numbers_stay_low()
    ensures first { (nodes : ℕ) (range : ℕ) (seen : List raft.Event) → weight_of seen ≡ 0
        → IsWeighed range (first_world nodes) seen }
    ensures scene { (nodes : ℕ) (range : ℕ) → range < 8 → (w : World) → IsReached nodes w
        → (x : Scene) → Lawful w x → (seen : List raft.Event) → IsWeighed range w seen
        → IsWeighed range (happens w x) (seen ++ raft_events range w x) }
    ensures room { (nodes : ℕ) (w : World) → IsReached nodes w → room_of w ≤ 6 * 2 ^ 60 }
{}
