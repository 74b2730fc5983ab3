//! Laws of what keeps a race. No program calls these functions.
ghost use Rattle.std.specs.Prelude.{◌≡◌, ◌≢◌, ℕ, ◌<◌, ◌≤◌, Bool, true, false, List, [], ◌∷◌, ◌++◌, length, slice_get, Some, option_to_list};
ghost use Rattle.rp_base.specs.declared.ids.CmdId.{CmdId};
ghost use Rattle.rp_request.specs.declared.outcomes.Outcome.{Outcome};
ghost use Rattle.rp_request.specs.Applied.{AppliedState};
ghost use Rattle.rp_request.specs.declared.requests.Request.{Request};
ghost use Rattle.rp_events.specs.declared.journals.PastEvent.TheVariants as past;
ghost use Rattle.rp_events.specs.declared.node_events.Event.{Event};
ghost use Rattle.rp_events.specs.Lawful.{Lawful, IsReached, IsLater};
ghost use Rattle.rp_events.specs.Nodes.{Node};
ghost use Rattle.rp_events.specs.NodeEvents.{step};
ghost use Rattle.rp_events.specs.Worlds.{World, Happening, Tick, Collect, Flush, Round, first_world, node_of, event_of, taken_in, run, was_asked};
ghost use Rattle.rp_journals.specs.Asked.{all_at};
ghost use Rattle.rp_journals.specs.Elsewhere.{IsAhead};
ghost use Rattle.rp_journals.specs.Entries.{at_node};
ghost use Rattle.rp_clients.specs.Tries.{Try, learns};
ghost use Rattle.rp_race.specs.declared.rules.RaceRules.{RaceRules};
ghost use Rattle.rp_race.specs.Rounds.{may_come, stage_of, stage_after};
ghost use Rattle.rp_race.specs.Owed.{number_from, heard_from, rounds_in, IsRoundAt};
ghost use Rattle.rp_race.specs.Played.{IsTriesOf};
ghost use Rattle.rp_race.specs.Worked.{left_after};
ghost use Rattle.rp_race.specs.InTurn.{IsEarlier, CameBehind};
ghost use Rattle.rp_race.specs.Race.{IsRace};
ghost use Rattle.rp_race.specs.Ends.{has_live, IsWaitedOut, IsWaitedOutForGood, WasPending};
ghost use Rattle.rp_race.specs.Gives.{Tried, AllMayTry, AllMayHappen, after_admission, admitted_after, kept_as, is_within_round, IsSoFar, OnlyAdmitted, AllSeen, IsPart, MayEnd, after_round, AdmitsWell, GoesWell, WasSeen};

/// At its start a world of nodes is a race, and no client has tried anything.
pub fn a_race_starts()
    ensures race { (rules : RaceRules) (broken : ℕ → Bool) (nodes : ℕ)
        → IsRace rules broken (first_world nodes) }
    ensures tries { (rules : RaceRules) (client : ℕ) (nodes : ℕ)
        → IsTriesOf rules (first_world nodes) client [] }
{}

/// Admissions at a node, each the next try of its client, are lawful in whatever the world has become,
/// keep the race, and are the clients' tries from then on.
pub fn admissions_keep_the_race()
    ensures { (rules : RaceRules) (broken : ℕ → Bool) (nodes : ℕ) (w : World) → IsReached nodes w
        → IsRace rules broken w → (tries : Tried)
        → ((client : ℕ) → IsTriesOf rules w client (tries client))
        → (node : ℕ) (n : Node) → node_of w node ≡ Some n → (xs : List Happening)
        → AllMayTry rules nodes node n tries xs → AdmitsWell rules broken node w n tries xs }
{}

/// A round of a node, whole or broken off, that was made while the others went on: it is lawful in what
/// the world has become, keeps the race, and leaves the clients' tries as they are.
pub fn a_round_keeps_the_race()
    ensures broken_off { (rules : RaceRules) (broken : ℕ → Bool) (now : ℕ → Bool) (nodes : ℕ)
        → (w : World) → IsReached nodes w → IsRace rules broken w → (tries : Tried)
        → ((client : ℕ) → IsTriesOf rules w client (tries client))
        → (v : World) (seen : World) (node : ℕ) → IsAhead v w node → AllSeen nodes seen w
        → (xs : List Happening) (later : Node) → IsPart rules node v seen xs later
        → now node ≡ true → ((k : ℕ) → k ≢ node → now k ≡ false → broken k ≡ false)
        → GoesWell rules now node w tries xs later }
    ensures whole { (rules : RaceRules) (broken : ℕ → Bool) (nodes : ℕ)
        → (w : World) → IsReached nodes w → IsRace rules broken w → (tries : Tried)
        → ((client : ℕ) → IsTriesOf rules w client (tries client))
        → (v : World) (seen : World) (node : ℕ) → IsAhead v w node → AllSeen nodes seen w
        → (xs : List Happening) (later : Node) → IsPart rules node v seen xs later
        → MayEnd rules node seen later
        → GoesWell rules broken node w tries (xs ++ Round ∷ []) (after_round later) }
{}

/// Of two attempts of one client of a race the earlier had ended at a time when the later was not made yet.
pub fn a_clients_tries_come_one_behind_another()
    ensures { (rules : RaceRules) (broken : ℕ → Bool) (w : World) → IsRace rules broken w
        → (earlier : CmdId) (later : CmdId) → earlier.client ≡ later.client → IsEarlier earlier later
        → was_asked w earlier ≡ true → was_asked w later ≡ true → CameBehind w earlier later }
{}

/// Since it was some node there were admissions alone: of itself, and with one admission more.
pub fn admissions_alone_change_no_round()
    ensures itself { (n : Node) → OnlyAdmitted n n }
    ensures further { (before : Node) (n : Node) → OnlyAdmitted before n → (range : ℕ) (id : CmdId)
        → (request : Request) → OnlyAdmitted before (after_admission n range id request) }
    ensures all { (rules : RaceRules) (nodes : ℕ) (node : ℕ) (before : Node) (n : Node)
        → OnlyAdmitted before n → (tries : Tried) (xs : List Happening)
        → AllMayTry rules nodes node n tries xs → OnlyAdmitted before (admitted_after n xs) }
{}

/// The inside of a round goes on by an event that may come; what it leaves is the node after the event,
/// whose journal has the event, whose round has come so far, and which has heard what the event brings.
pub fn a_round_goes_on()
    ensures first { (rules : RaceRules) (node : ℕ) (v : World) (n : Node) → node_of v node ≡ Some n
        → IsSoFar rules node v [] n }
    ensures further { (rules : RaceRules) (node : ℕ) (v : World) (xs : List Happening) (n : Node)
        → IsSoFar rules node v xs n → (x : Happening) (e : Event AppliedState)
        → Lawful (run v (all_at node xs)) (at_node node x)
        → event_of (run v (all_at node xs)) x ≡ Some e → is_within_round x ≡ true
        → may_come rules n (kept_as n x) ≡ true
        → IsSoFar rules node v (xs ++ x ∷ []) (step n e (taken_in x)).node }
    ensures reached { (nodes : ℕ) (rules : RaceRules) (node : ℕ) (v : World) (xs : List Happening)
        → (n : Node) → IsReached nodes v → IsSoFar rules node v xs n
        → IsReached nodes (run v (all_at node xs)) }
    ensures stage { (w : World) (n : Node) (x : Happening) (e : Event AppliedState)
        → event_of w x ≡ Some e
        → stage_of (step n e (taken_in x)).node.journal ≡ stage_after (stage_of n.journal) (kept_as n x) }
    ensures heard { (w : World) (n : Node) (x : Happening) (e : Event AppliedState)
        → event_of w x ≡ Some e → (from : ℕ)
        → heard_from from (step n e (taken_in x)).node.journal
        ≡ heard_from from n.journal ++ option_to_list (number_from from (kept_as n x)) }
{}

/// A node's rounds are those that its journal has, and each keeps no more than the node has sent.
pub fn a_nodes_rounds_are_in_its_journal()
    ensures count { (nodes : ℕ) (w : World) → IsReached nodes w → (node : ℕ) (n : Node)
        → node_of w node ≡ Some n → n.rounds ≡ rounds_in n.journal }
    ensures sent { (nodes : ℕ) (w : World) → IsReached nodes w → (node : ℕ) (n : Node)
        → node_of w node ≡ Some n → (round : ℕ) (place : ℕ) (sent : ℕ)
        → IsRoundAt n.journal round place sent → sent ≤ length n.sent }
{}

/// An end that stands in a node's list of outcomes is what the attempt was told for good, so a client
/// may learn it.
pub fn what_is_learnt_is_so()
    ensures { (rules : RaceRules) (nodes : ℕ) (w : World) → IsReached nodes w
        → (client : ℕ) (tries : List Try)
        → IsTriesOf rules w client tries → (node : ℕ) (n : Node) → node_of w node ≡ Some n
        → (k : ℕ) (id : CmdId) (outcome : Outcome)
        → slice_get n.outcomes k ≡ Some (record { id = id; outcome = outcome })
        → IsTriesOf rules w client (learns id outcome tries) }
{}

/// What shows that no more is to be waited for stays true: a node's rounds, and how long it waited,
/// never fall.
pub fn what_was_waited_stays()
    ensures now { (rounds : ℕ) (w : World) → IsWaitedOutForGood rounds w → IsWaitedOut rounds w }
    ensures later { (rounds : ℕ) (w : World) (later : World) → IsLater w later
        → IsWaitedOutForGood rounds w → IsWaitedOutForGood rounds later }
    ensures seen { (nodes : ℕ) (w : World) (node : ℕ) (seen : Node) → WasSeen nodes w node seen
        → (n : Node) → node_of w node ≡ Some n → (seen.rounds ≤ n.rounds) × (seen.waited ≤ n.waited) }
{}

/// Each node of a race has a live replica, so what shows in a race that no more is to be waited for
/// shows it for good.
pub fn each_node_of_a_race_has_a_live_replica()
    ensures live { (rules : RaceRules) (broken : ℕ → Bool) (nodes : ℕ) (w : World)
        → IsReached nodes w → IsRace rules broken w → (node : ℕ) (n : Node)
        → node_of w node ≡ Some n → has_live n ≡ true }
    ensures good { (rules : RaceRules) (broken : ℕ → Bool) (nodes : ℕ) (w : World)
        → IsReached nodes w → IsRace rules broken w → (rounds : ℕ) → IsWaitedOut rounds w
        → IsWaitedOutForGood rounds w }
{}

/// What a node waited is through how many of its rounds some attempt was pending there.
pub fn what_was_waited_was_pending()
    ensures { (nodes : ℕ) (w : World) → IsReached nodes w → (node : ℕ) (n : Node)
        → node_of w node ≡ Some n → 0 < n.waited → WasPending w node n.waited }
{}

/// A round of one node alone, at its start: a tick, a collect that finds nothing, a flush, and the end.
/// No other order of these may come, and none of them may be left out.
pub fn a_round_may_be_played()
    ensures plays { (rules : RaceRules) → AllMayHappen rules 1 (first_world 1) (Tick ∷ Collect 0 [] ∷ Flush 0 ∷ []) }
    ensures ends { (rules : RaceRules)
        → may_come rules (left_after (Tick ∷ Collect 0 [] ∷ Flush 0 ∷ [])) (past.Round 0) ≡ true }
    ensures no_tick { (rules : RaceRules) → may_come rules (left_after []) (past.Round 0) ≡ false }
    ensures no_flush { (rules : RaceRules)
        → may_come rules (left_after (Tick ∷ Collect 0 [] ∷ [])) (past.Round 0) ≡ false }
    ensures no_collect { (rules : RaceRules)
        → may_come rules (left_after (Tick ∷ [])) (past.Flush 0) ≡ false }
    ensures twice { (rules : RaceRules)
        → may_come rules (left_after (Tick ∷ [])) past.Tick ≡ false }
    ensures late { (rules : RaceRules) (from : ℕ) (number : ℕ)
        → may_come rules (left_after (Tick ∷ [])) (past.Deliver from number) ≡ false }
    ensures absent { (rules : RaceRules)
        → may_come rules (left_after (Tick ∷ [])) (past.Collect 1 []) ≡ false }
    ensures interrupted { (rules : RaceRules) (id : CmdId) (request : Request)
        → may_come rules (after_admission (left_after (Tick ∷ [])) 0 id request) (past.Collect 0 []) ≡ false }
{}
