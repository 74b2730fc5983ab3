//! Laws of the nodes' own lists, for every scene and every schedule. No program calls these
//! functions.
ghost use Rattle.std.specs.Prelude.{◌≡◌, ◌⊎◌, ℕ, ◌<◌, ◌≤◌, true, IsTrue, List, length, slice_get, count_by, Some};
ghost use Rattle.std.specs.List.{find};
ghost use Rattle.rp_base.specs.declared.ids.CmdId.{CmdId};
ghost use Rattle.rp_request.specs.Applied.{AppliedState};
ghost use Rattle.rp_request.specs.declared.outcomes.Outcome.{Outcome};
ghost use Rattle.rp_request.specs.declared.outcomes.Ambiguity.{Ambiguity};
ghost use Rattle.rp_request.specs.declared.outcomes.Outcome.TheVariants.{Ambiguous, Pending};
ghost use Rattle.rp_request.specs.declared.outcomes.Refusal.{Refusal};
ghost use Rattle.rp_pending.specs.Proposals.{has_id, proposal_of};
ghost use Rattle.rp_pending.specs.declared.proposals.Proposal.{Proposal};
ghost use Rattle.rp_events.specs.declared.answers.EventAnswer.TheVariants.{Admitted, Refused};
ghost use Rattle.rp_request.specs.declared.requests.Request.{Request};
ghost use Rattle.rp_events.specs.declared.journals.JournalEntry.{JournalEntry};
ghost use Rattle.rp_events.specs.declared.parcels.Parcel.{Parcel};
ghost use Rattle.rp_events.specs.Replicas.{Replica, lease_of};
ghost use Rattle.rp_events.specs.Nodes.{Node, parcel_of};
ghost use Rattle.rp_events.specs.Worlds.{World, Happening, Scene, Schedule, first_world, node_of, sent_by, happens, run, is_admission_of, asked_at, outcome_at, outcome_of};
ghost use Rattle.rp_events.specs.Lawful.{AllLawful, IsReached, IsLater};
ghost use Rattle.rp_events.specs.Journals.{Replays, stood_before};
ghost use Rattle.rp_events.specs.Lists.{IsLiveAt, IsWritten, IsAdmitted, IsAdmittedUnder, StoodAs};
ghost use Rattle.rp_events.specs.Promises.{HasCause, IsPendingThere, times_ended};
ghost use Rattle.rp_journals.specs.Growth.{Grows, WorldGrows};
ghost use Rattle.rp_journals.specs.Entries.{AllReadBack, WasWritten};
ghost use Rattle.rp_journals.specs.Asked.{times_asked, AskedOnce, WasAdmitted, AskedNowhereElse, all_at};
ghost use Rattle.rp_journals.specs.Alike.{AllKeepSame};
ghost use Rattle.rp_journals.specs.Elsewhere.{IsAhead, HappensThere};
ghost use Rattle.rp_journals.specs.Numbers.{IsWithin, IsHandedFew, IsLow, handed_along};
ghost use Rattle.rp_journals.specs.Ended.{Balanced, AllFrom, AllTrueEnds, IsHeldThere};

/// Each scene and each schedule adds to what the nodes keep, at the ends of their lists.
pub fn the_nodes_lists_only_grow()
    ensures scene { (w : World) (x : Scene) → WorldGrows w (happens w x) }
    ensures schedule { (w : World) (xs : Schedule) → WorldGrows w (run w xs) }
    ensures later { (w : World) (later : World) → IsLater w later → WorldGrows w later }
    ensures reached { (nodes : ℕ) (w : World) (later : World) → IsReached nodes w → IsLater w later
        → IsReached nodes later }
    ensures further { (w : World) (later : World) (last : World) → IsLater w later
        → IsLater later last → IsLater w last }
{}

/// What a node keeps it keeps in its place, and what an attempt was told when it ended it is told
/// for good.
pub fn what_is_kept_stays()
    ensures parcels { (w : World) (later : World) → WorldGrows w later → (from : ℕ) (number : ℕ)
        → (p : Parcel AppliedState) → parcel_of (sent_by w from) number ≡ Some p
        → parcel_of (sent_by later from) number ≡ Some p }
    ensures requests { (n : Node) (later : Node) → Grows n later → (place : ℕ) (request : Request)
        → slice_get n.requests place ≡ Some request
        → slice_get later.requests place ≡ Some request }
    ensures found { (n : Node) (later : Node) → Grows n later → (id : CmdId) (e : JournalEntry)
        → find (is_admission_of id) n.journal ≡ Some e
        → find (is_admission_of id) later.journal ≡ Some e }
    ensures asked { (n : Node) (later : Node) → Grows n later → (id : CmdId)
        → asked_at id n ≡ true → asked_at id later ≡ true }
    ensures outcome { (n : Node) (later : Node) → Grows n later → (id : CmdId) (o : Outcome)
        → (o ≡ Pending → ⊥) → outcome_at id n ≡ Some o → outcome_at id later ≡ Some o }
    ensures written { (w : World) (later : World) → WorldGrows w later → (node : ℕ) (place : ℕ)
        → (e : JournalEntry) → IsWritten w node place e → IsWritten later node place e }
    ensures admitted { (w : World) (later : World) → WorldGrows w later → (id : CmdId)
        → (node : ℕ) (place : ℕ) (range : ℕ) (request : Request)
        → IsAdmitted w id node place range request → IsAdmitted later id node place range request }
    ensures stood { (w : World) (later : World) → AllReadBack w → WorldGrows w later → (node : ℕ)
        → (n : Node) → node_of w node ≡ Some n → (place : ℕ) → place ≤ length n.journal
        → (range : ℕ) (r : Replica) → StoodAs w node place range r
        → StoodAs later node place range r }
{}

/// The replay of each journal over what the nodes have sent is the node; each event of it is
/// read; and before its next entry a node stood as it stands.
pub fn each_journal_replays_its_node()
    ensures replays { (nodes : ℕ) (w : World) → IsReached nodes w → Replays w }
    ensures reads { (nodes : ℕ) (w : World) → IsReached nodes w → AllReadBack w }
    ensures now { (nodes : ℕ) (w : World) → IsReached nodes w → (node : ℕ) (n : Node)
        → node_of w node ≡ Some n → stood_before w n (length n.journal) ≡ n }
{}

/// Each entry of a journal was written by a lawful scene of an earlier world, in which the node
/// stood as the replay of the entries before it says.
pub fn each_entry_was_written()
    ensures { (nodes : ℕ) (w : World) → IsReached nodes w → (node : ℕ) (place : ℕ)
        → (e : JournalEntry) → IsWritten w node place e → WasWritten nodes w node place e }
{}

/// Each attempt is asked at one place of one journal at most.
pub fn each_attempt_is_asked_once()
    ensures place { (nodes : ℕ) (w : World) → IsReached nodes w → AskedOnce w }
    ensures times { (nodes : ℕ) (w : World) → IsReached nodes w → (id : CmdId)
        → times_asked w id ≤ 1 }
{}

/// What was admitted the guards of its replica let through, as it stood just before: it held the
/// lease, where its number is its node's, under a sequence above its barrier.
pub fn what_was_admitted_was_let_through()
    ensures guards { (nodes : ℕ) (w : World) → IsReached nodes w → (id : CmdId) (node : ℕ)
        → (place : ℕ) (range : ℕ) (request : Request) → IsAdmitted w id node place range request
        → WasAdmitted w id node place range request }
    ensures under { (w : World) (id : CmdId) (node : ℕ) (place : ℕ) (range : ℕ) (request : Request)
        → IsAdmitted w id node place range request
        → (a : WasAdmitted w id node place range request) → a.replica.raft.head.node ≡ node
        → IsAdmittedUnder w id range request (lease_of a.replica).seq }
{}

/// What a node admitted is pending there or its end was told, never both and never twice; so an
/// attempt ends at most once, and only what was admitted ends.
pub fn each_attempt_ends_once()
    ensures balanced { (nodes : ℕ) (w : World) → IsReached nodes w → Balanced w }
    ensures once { (nodes : ℕ) (w : World) → IsReached nodes w → (id : CmdId)
        → times_ended w id ≤ 1 }
    ensures known { (nodes : ℕ) (w : World) → IsReached nodes w → (id : CmdId)
        → 0 < times_ended w id → (node : ℕ) × (place : ℕ) × (range : ℕ) × (request : Request)
        × IsAdmitted w id node place range request }
{}

/// What is pending was admitted, in its range and for its request, and has not ended; no two
/// proposals of a replica have one id; and what is told to be pending is pending at the replica
/// that admitted it.
pub fn what_is_pending_was_admitted()
    ensures from { (nodes : ℕ) (w : World) → IsReached nodes w → AllFrom w }
    ensures distinct { (nodes : ℕ) (w : World) → IsReached nodes w → (node : ℕ) (range : ℕ)
        → (r : Replica) → IsLiveAt w node range r → (id : CmdId)
        → count_by (has_id id) r.pending ≤ 1 }
    ensures held { (nodes : ℕ) (w : World) → IsReached nodes w → (node : ℕ) (range : ℕ)
        → (r : Replica) → IsLiveAt w node range r → (id : CmdId) (p : Proposal)
        → proposal_of id r.pending ≡ Some p → IsHeldThere w id node range p }
    ensures there { (nodes : ℕ) (w : World) → IsReached nodes w → (id : CmdId)
        → outcome_of w id ≡ Some Pending → IsPendingThere w id }
{}

/// Each ambiguous outcome has its cause: an event of its node's journal, behind its admission,
/// while it was proposed; and no attempt ends as pending.
pub fn each_ambiguous_outcome_has_its_cause()
    ensures ends { (nodes : ℕ) (w : World) → IsReached nodes w → AllTrueEnds w }
    ensures ambiguous { (nodes : ℕ) (w : World) → IsReached nodes w → (id : CmdId)
        → (why : Ambiguity) → outcome_of w id ≡ Some (Ambiguous why) → HasCause w id why }
{}

/// The outcome of an attempt is what the node tells that was asked; an admission is granted or
/// refused.
pub fn the_outcome_is_that_of_its_node()
    ensures here { (w : World) → AskedOnce w → (id : CmdId) (node : ℕ) (n : Node)
        → node_of w node ≡ Some n → asked_at id n ≡ true → outcome_of w id ≡ outcome_at id n }
    ensures answer { (nodes : ℕ) (w : World) → IsReached nodes w → (id : CmdId) (node : ℕ)
        → (place : ℕ) (e : JournalEntry) → IsWritten w node place e
        → IsTrue (is_admission_of id e)
        → (e.answer ≡ Admitted) ⊎ ((why : Refusal) × (e.answer ≡ Refused why)) }
{}

/// Events of a node that are lawful in a world are lawful in one in which the other nodes have
/// gone on, leave the same node there, and leave every other as it is: where no other node was
/// asked for the attempts that begin in them.
pub fn events_of_a_node_happen_elsewhere()
    ensures { (w : World) (other : World) (node : ℕ) (xs : List Happening) → IsAhead w other node
        → AskedNowhereElse other node xs → AllLawful w (all_at node xs)
        → HappensThere w other node xs }
{}

/// Nodes that are what their journals say, and have kept what those of a reached world have kept,
/// are that world: so each law of reached worlds speaks of them.
pub fn a_world_is_told_by_its_lists()
    ensures { (nodes : ℕ) (w : World) (v : World) → IsReached nodes w → Replays v
        → AllKeepSame w v → v ≡ w }
{}

/// The lists and counts of a node stay within its journal: what is pending and told within its
/// admissions, ticks and rounds within its other events; and no journal passes its end.
pub fn a_nodes_lists_stay_within_its_journal()
    ensures within { (nodes : ℕ) (w : World) → IsReached nodes w → (node : ℕ) (n : Node)
        → node_of w node ≡ Some n → IsWithin n }
    ensures low { (nodes : ℕ) (w : World) → IsReached nodes w → (node : ℕ) (n : Node)
        → node_of w node ≡ Some n → IsWithin n → IsLow n }
{}

/// What a range's replica at a node has handed to Raft, with what waits in its inbox, is at most
/// the events of its node that are no admissions times sixteen more than its admissions.
pub fn few_payloads_are_handed_to_raft()
    ensures { (nodes : ℕ) → IsReached nodes (first_world nodes) → (xs : Schedule)
        → AllLawful (first_world nodes) xs → (range : ℕ) → range < 8 → (node : ℕ) (n : Node)
        → node_of (run (first_world nodes) xs) node ≡ Some n
        → IsHandedFew range node n (handed_along range node (first_world nodes) xs) }
{}
