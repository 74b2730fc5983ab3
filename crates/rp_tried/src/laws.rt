//! Laws of what a client has tried. No program calls these functions.
ghost use Rattle.std.specs.Prelude.{◌≡◌, ℕ, ◌≤◌, Bool, true, false, List, [], ◌∷◌, length, Some};
ghost use Rattle.rp_base.specs.declared.ids.CmdId.{CmdId};
ghost use Rattle.rp_request.specs.Fits.{FitsId, FitsRequest};
ghost use Rattle.rp_request.specs.declared.requests.Request.{Request};
ghost use Rattle.rp_events.specs.Lawful.{IsReached, IsLater};
ghost use Rattle.rp_events.specs.Nodes.{Node, is_full};
ghost use Rattle.rp_events.specs.Worlds.{World, Admit, node_of};
ghost use Rattle.rp_clients.specs.Desks.{Standing, IsDeskOf, CameBy, MayAdmit};
ghost use Rattle.rp_clients.specs.Finals.{HasDoneAll, left};
ghost use Rattle.rp_clients.specs.Tries.{Try};
ghost use Rattle.rp_race.specs.declared.rules.RaceRules.{RaceRules};
ghost use Rattle.rp_race.specs.Ends.{IsWaitedOutForGood, is_open, unended};
ghost use Rattle.rp_race.specs.Gives.{Tried, AllMayTry, AllSeen, tried_after, try_at};
ghost use Rattle.rp_race.specs.Played.{requests_of, IsTriesOf};
ghost use Rattle.rp_tried.specs.Left.{IsLeftSo};

/// A client's tries at a node came when it had at most as many rounds as it has.
pub fn tries_came_by_the_rounds_of_their_node()
    ensures { (rules : RaceRules) (nodes : ℕ) (w : World) → IsReached nodes w
        → (client : ℕ) (tries : List Try) → IsTriesOf rules w client tries
        → (node : ℕ) (n : Node) → node_of w node ≡ Some n → CameBy node n.rounds tries }
{}

/// What a desk may admit is the next try of its client, at a node that is not full and has as many
/// rounds as were told of it, where its numbers have the widths of their types; and behind it the
/// client's tries are those, with this one in front.
pub fn what_a_desk_may_admit_is_the_next_try()
    ensures may { (rules : RaceRules) (nodes : ℕ) (w : World) (client : ℕ) (capacity : ℕ)
        → (s : Standing) → IsDeskOf client nodes (requests_of rules client) capacity s
        → IsTriesOf rules w client s.tries → (tries : Tried) → tries client ≡ s.tries
        → (node : ℕ) (range : ℕ) (id : CmdId) (request : Request) → MayAdmit node range id request s
        → FitsId id → FitsRequest request → (n : Node) → s.told node ≤ n.rounds
        → is_full n ≡ false → AllMayTry rules nodes node n tries (Admit range id request ∷ []) }
    ensures client_is { (rules : RaceRules) (nodes : ℕ) (w : World) (client : ℕ) (capacity : ℕ)
        → (s : Standing) → IsDeskOf client nodes (requests_of rules client) capacity s
        → IsTriesOf rules w client s.tries → (node : ℕ) (range : ℕ) (id : CmdId)
        → (request : Request) → MayAdmit node range id request s → id.client ≡ client }
    ensures behind { (tries : Tried) (node : ℕ) (n : Node) (range : ℕ) (id : CmdId)
        → (request : Request) → tried_after node n tries (Admit range id request ∷ []) id.client
        ≡ try_at node n range id request ∷ tries id.client }
{}

/// A client that has done all leaves none of its commands open. Where each has, no command is.
pub fn who_has_done_all_leaves_nothing_open()
    ensures command { (rules : RaceRules) (nodes : ℕ) (w : World) → IsReached nodes w
        → (client : ℕ) (tries : List Try) → IsTriesOf rules w client tries
        → HasDoneAll client (requests_of rules client) tries → (seq : ℕ) → 1 ≤ seq
        → seq ≤ length (requests_of rules client) → is_open w client seq ≡ false }
    ensures all { (rules : RaceRules) (nodes : ℕ) (w : World) → IsReached nodes w
        → (tries : Tried) → ((client : ℕ) → IsTriesOf rules w client (tries client))
        → ((client : ℕ) → 1 ≤ client → client ≤ length rules.requests
        → HasDoneAll client (requests_of rules client) (tries client)) → unended rules w ≡ 0 }
{}

/// How a client leaves each of its commands is so: it knows the latest attempt, and what it learnt of
/// its end is what the world tells.
pub fn what_a_client_leaves_is_so()
    ensures { (rules : RaceRules) (nodes : ℕ) (w : World) → IsReached nodes w
        → (client : ℕ) (tries : List Try) → IsTriesOf rules w client tries → (seq : ℕ)
        → IsLeftSo w client seq (left seq tries) }
{}

/// What shows for good that no more is to be waited for, in the nodes as they were seen at some time,
/// each at its own, shows it in what the world has become, and in every later one.
pub fn what_was_seen_waited_out_stays_so()
    ensures now { (nodes : ℕ) (rounds : ℕ) (seen : World) (w : World) → IsReached nodes w
        → AllSeen nodes seen w → IsWaitedOutForGood rounds seen → IsWaitedOutForGood rounds w }
    ensures later { (nodes : ℕ) (rounds : ℕ) (seen : World) (w : World) → IsReached nodes w
        → AllSeen nodes seen w → IsWaitedOutForGood rounds seen → (later : World) → IsLater w later
        → IsWaitedOutForGood rounds later }
{}
