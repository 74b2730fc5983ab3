//! Laws of one range of several nodes, for every scene. No program calls these functions.
ghost use Rattle.std.specs.Prelude.{◌≡◌, ℕ, ◌<◌, ◌≤◌, IsTrue, if◌then◌else◌, List, [], ◌++◌, length, map, Contains, Option, Some, Ok};
ghost use Rattle.std.specs.List.{AllByRecursion};
ghost use Rattle.rp_base.specs.declared.ids.CmdId.{CmdId};
ghost use Rattle.rp_base.specs.declared.items.Item.{Item};
ghost use Rattle.rp_base.specs.declared.leases.Lease.{Lease};
ghost use Rattle.rp_base.specs.declared.leases.LeaseAsk.{LeaseAsk};
ghost use Rattle.rp_codec.specs.Spelling.{spelling};
ghost use Rattle.rp_latch.specs.declared.holds.Hold.{Hold};
ghost use Rattle.rp_pending.specs.declared.proposals.Proposal.{Proposal};
ghost use Rattle.rp_pending.specs.Proposals.{proposal_of};
ghost use Rattle.rp_request.specs.Fits.{FitsAsk, FitsCommand};
ghost use Rattle.rp_request.specs.declared.outcomes.Outcome.{Outcome};
ghost use Rattle.rp_request.specs.declared.outcomes.Outcome.TheVariants.{Pending};
ghost use Rattle.rp_request.specs.declared.evaluations.Evaluated.{Evaluated};
ghost use Rattle.rp_request.specs.declared.requests.Request.{Request};
ghost use Rattle.rp_request.specs.Covers.{HasKeys};
ghost use Rattle.rp_base.specs.Ids.{same_id};
ghost use Rattle.rp_events.specs.Admissions.{guarded, proposal, with_proposal};
ghost use Rattle.rp_request.specs.declared.commands.Payload.{Payload};
ghost use Rattle.rp_rangesafe.specs.Attempts.{Stage, Unborn, Attempts, at_node};
ghost use Rattle.rp_rangesafe.specs.World as machine;
ghost use Rattle.rp_rangesafe.specs.World.{AllLawful, MayAdmit, MayCommit, here, overtaken, removed, restarted, after_entry};
ghost use Rattle.rp_raftstep.specs.declared.messages.Message.{Message};
ghost use Rattle.rp_raftstep.specs.declared.messages.Message.TheVariants.{Snap};
ghost use Rattle.rp_request.specs.Applied.{AppliedState};
ghost use Rattle.rp_raftsafe.specs.World as raft;
ghost use Rattle.rp_raftsafe.specs.World.{IsRange, run, world_after};
ghost use Rattle.rp_raftsafe.specs.Safety.{OneList, OneListOf, IsLive, HasSent};
ghost use Rattle.rp_raftsafe.specs.Proposed as proposed;
ghost use Rattle.rp_rangesafe.specs.Places.{IsReached, IsLater};
ghost use Rattle.rp_events.specs.declared.answers.Ended.{Ended};
ghost use Rattle.rp_events.specs.declared.node_events.Event.{Event};
ghost use Rattle.rp_events.specs.declared.replica_events.ReplicaEvent.{ReplicaEvent};
ghost use Rattle.rp_events.specs.Replicas.{Replica, Told, lease_of, started, made_by_snap};
ghost use Rattle.rp_events.specs.declared.moves.Move.{Move};
ghost use Rattle.rp_events.specs.Moves.{moved_all, command_of, payloads_of};
ghost use Rattle.rp_events.specs.Ends.{ends_all, overtaken_by, removed_with, lost_under, restarts};
ghost use Rattle.rp_events.specs.Applications.{payload_of, next_entry, proposer_told};
ghost use Rattle.rp_events.specs.ReplicaEvents.{event};
ghost use Rattle.rp_events.specs.Nodes.{Node, Status, Absent, Live, right_base, right_base_term};
ghost use Rattle.rp_events.specs.NodeEvents.{step};
ghost use Rattle.rp_events.specs.Lists.{base_of};
ghost use Rattle.rp_events.specs.Worlds.{World, Scene, first_world, outcome_at, happens};
ghost use Rattle.rp_events.specs.Lawful.{is_lawful};
ghost use Rattle.rp_seats.specs.Views.{site_of, view, range_at, read};
ghost use Rattle.rp_seats.specs.Scenes.{site_after, node_doings, doings_in, raft_events, StartsIn, OnlyStarts, IsTurn};
ghost use Rattle.rp_seats.specs.Steps.{AreElsewhere, told_after, EndEach, AreEnds, with_outcomes, GivesAbove, IsSteps, EndsAs, RaftTurned};
ghost use Rattle.rp_seats.specs.Turned.{HaveKeys, IsJump, IsNext, IsSeated, SeatTurned, ScenesTurn, FirstOk};
ghost use Rattle.rp_seats.specs.Standing.{IsShaped, AreShaped, PendingOk, SeatOk, RaftOk, RangeOk, IsShut};

/// The moves of a replica's proposals leave what it has applied.
pub fn moves_leave_what_is_applied()
    ensures { (ticks : ℕ) (round : ℕ) (t : Told) (moves : List Move)
        → (moved_all ticks round t moves).replica.applied ≡ t.replica.applied }
{}

/// An event of a replica is the turn of Raft's replica that its doings make, or nothing to it: it
/// leaves what that turn leaves, and sends what it sends.
pub fn an_event_of_a_replica_is_its_turn()
    ensures { (nodes : ℕ) (range : ℕ) (start : AppliedState) (node : ℕ) (number : ℕ) (r : Replica)
        → (ticks : ℕ) (round : ℕ) (e : ReplicaEvent AppliedState) (taken : List Item)
        → (sent : List (ℕ × Message AppliedState))
        → IsTurn nodes range start node number r sent e (event r e ticks round taken) }
{}

/// An event of a node is, to each range, its doings there one after another: it leaves of the range
/// what they leave, and sends what they send.
pub fn an_event_of_a_node_is_its_doings()
    ensures { (nodes : ℕ) (range : ℕ) (start : AppliedState) (node : ℕ) → range < 8 → (n : Node)
        → (e : Event AppliedState) (taken : List Item) → IsShaped nodes node n
        → site_of range (step n e taken).node
        ≡ site_after nodes range start node (node_doings range n e taken) (site_of range n) }
{}

/// What a range sees of the nodes after a lawful scene is the run of the Raft events that the scene is
/// to the range, where the range starts in this state if the scene starts it.
pub fn a_scene_is_the_run_of_its_raft_events()
    ensures { (range : ℕ) (start : AppliedState) → range < 8 → (w : World) → AreShaped w
        → (x : Scene) → IsTrue (is_lawful w x) → StartsIn start (doings_in range w x)
        → view range (happens w x)
        ≡ run (range_at (length w) range start) (raft_events range w x) (view range w) }
{}

/// Any list of moves of a replica's proposals is a list of lawful steps of its node in the range
/// machine, which change attempts alone: hand-outs, refusals and returns. What the list of proposals
/// answers stands for the attempts behind them as it did before.
pub fn moves_are_lawful_steps()
    ensures { (node : ℕ) (h : machine.World) (told : CmdId → Option Outcome) (ticks : ℕ)
        → (round : ℕ) (t : Told) (moves : List Move) → GivesAbove moves
        → (here h node).lai ≡ t.replica.applied.state.lai
        → PendingOk h.attempt node t.replica.pending t.replica.latches (told_after told t.ended)
        → EndEach told t.ended → IsSteps node h told (moved_all ticks round t moves) }
{}

/// The payloads that are made of lease asks and of what is proposed may be committed, as they are read
/// from their bytes, where they fit their widths.
pub fn what_is_proposed_may_be_committed()
    ensures { (node : ℕ) (h : machine.World) (ps : List Proposal) (latches : List Hold)
        → (told : CmdId → Option Outcome) → PendingOk h.attempt node ps latches told
        → ((id : CmdId) (p : Proposal) → proposal_of id ps ≡ Some p → FitsCommand (command_of p))
        → (asks : List LeaseAsk) → AllByRecursion FitsAsk asks → (ids : List CmdId)
        → AllByRecursion (λ bytes. MayCommit h (read bytes))
        (map spelling (payloads_of asks ps ids)) }
{}

/// A snapshot, a removal and a restart end proposals as the machine ends their attempts; and what ends
/// proposals so leaves a list that stands for the attempts, which are told just their ends.
pub fn ends_are_those_of_the_machine()
    ensures snapshot { (lai : ℕ) → EndsAs (overtaken_by lai) (overtaken lai) }
    ensures removal { EndsAs removed_with removed }
    ensures restart { (lease : Lease) → EndsAs (lost_under lease) restarted }
    ensures beside { (ends : Proposal → Option Outcome) (change : Stage → Stage) → EndsAs ends change
        → (node : ℕ) (attempts : Attempts) (r : Replica) (told : CmdId → Option Outcome)
        → PendingOk attempts node r.pending r.latches told
        → PendingOk (at_node node change attempts) node (ends_all ends r).replica.pending
        (ends_all ends r).replica.latches (told_after told (ends_all ends r).ended) }
{}

/// What an application tells the proposer is what the machine makes of the attempt of its entry.
pub fn the_proposer_is_told_as_the_machine_says()
    ensures { (node : ℕ) (attempts : Attempts) (r : Replica) (told : CmdId → Option Outcome)
        → PendingOk attempts node r.pending r.latches told → (p : Payload)
        → PendingOk (after_entry node r.applied.state p attempts) node
        (proposer_told r p).replica.pending (proposer_told r p).replica.latches
        (told_after told (proposer_told r p).ended) }
{}

/// After every scene the nodes are numbered from 1, know how many there are and have eight seats.
pub fn each_scene_leaves_the_nodes_in_shape()
    ensures { (w : World) → AreShaped w → (x : Scene) → AreShaped (happens w x) }
{}

/// Lawful events of other nodes, or of none, leave how a node stands.
pub fn events_elsewhere_leave_a_seat()
    ensures { (h : machine.World) (es : List machine.Event) (node : ℕ) (range : ℕ) (status : Status)
        → (told : CmdId → Option Outcome) → AllLawful h es → AreElsewhere node h es
        → SeatOk h node range status told → SeatOk (machine.run h es) node range status told }
{}

/// Raft's events of a turn keep Raft beside the machine: where each payload that they hand to Raft may
/// be committed, the entries by which the committed list grows are lawful commits.
pub fn what_raft_commits_is_committed()
    ensures { (nodes : ℕ) (range : ℕ) (s : AppliedState) (one : OneListOf (range_at nodes range s))
        → (seen : List raft.Event) (events : List raft.Event) (w : World) (after : World)
        → (h : machine.World) (k : machine.World) → RaftOk nodes range s one seen w h
        → view range after ≡ run (range_at nodes range s) events (view range w)
        → IsReached h → IsLater h k → k.log ≡ h.log
        → ((bytes : List ℕ) → Contains (proposed.payloads_of events) bytes → MayCommit k (read bytes))
        → RaftTurned nodes range s one (seen ++ events) after k }
{}

/// A node's outcomes tell of each attempt what they told before, and of those that ended now, which
/// were pending, their ends.
pub fn what_ended_is_told()
    ensures { (n : Node) (ended : List Ended) → AreEnds n.outcomes
        → EndEach (λ id. outcome_at id n) ended → (id : CmdId)
        → outcome_at id (with_outcomes n ended) ≡ told_after (λ q. outcome_at q n) ended id }
{}

/// Where a range stands beside the machine, a node's state there is its replica's, and the payload that
/// the replica applies next is the machine's next entry.
pub fn a_seat_shows_the_machine()
    ensures state { (lists : OneList AppliedState) (range : ℕ) (s : AppliedState)
        → (seen : List raft.Event) (w : World) (h : machine.World) (node : ℕ) (n : Node)
        → (r : Replica) → IsSeated lists range s seen w h node n r → here h node ≡ r.applied.state }
    ensures next { (lists : OneList AppliedState) (range : ℕ) (s : AppliedState)
        → (seen : List raft.Event) (w : World) (h : machine.World) (node : ℕ) (n : Node)
        → (r : Replica) → IsSeated lists range s seen w h node n r → (p : Payload)
        → payload_of (next_entry r) ≡ Some p → IsNext h node p }
{}

/// A restart is a step of the machine, and ends all that is pending.
pub fn a_restart_is_a_step()
    ensures { (node : ℕ) (range : ℕ) (h : machine.World) (told : CmdId → Option Outcome)
        → (r : Replica) → SeatOk h node range (Live r) told → here h node ≡ r.applied.state
        → SeatTurned node range h told (Live (restarts r).replica) (restarts r).outcomes
        (restarts r).proposed }
{}

/// What happens at a seat with a live replica, but an admission and a restart, is a turn of its range: lawful steps of the machine, at this node or at none, behind which the range stands beside
/// it at all nodes.
pub fn scenes_of_a_seat_are_turns_of_its_range()
    ensures { (lists : OneList AppliedState) (range : ℕ) (s : AppliedState)
        → (seen : List raft.Event) (w : World) (h : machine.World) (node : ℕ) (n : Node)
        → (r : Replica) → IsSeated lists range s seen w h node n r
        → ScenesTurn lists range s seen w h node n r }
{}

/// A range that is shut stands beside the machine as it begins, in whichever state it will start.
pub fn a_shut_range_may_start()
    ensures { (lists : OneList AppliedState) (range : ℕ) (s : AppliedState)
        → (seen : List raft.Event) (w : World) → IsShut range seen w
        → IsRange (range_at (length w) range s)
        → RangeOk lists (length w) range s [] w (machine.begin s) }
{}

/// In the first world the nodes are in shape, and range 0 stands beside the machine.
pub fn the_first_world_stands()
    ensures shaped { (nodes : ℕ) → nodes ≤ 5 → AreShaped (first_world nodes) }
    ensures range { (lists : OneList AppliedState) (nodes : ℕ) → 0 < nodes → nodes ≤ 5
        → FirstOk lists nodes }
{}

/// At a seat that has nothing the start of a right range is nothing to the machine, and a snapshot that
/// makes a replica is its snapshot.
pub fn a_bare_seat_begins()
    ensures start { (node : ℕ) (range : ℕ) (h : machine.World) (told : CmdId → Option Outcome)
        → 0 < range → SeatOk h node range Absent told
        → (number : ℕ) (nodes : ℕ) (leader : ℕ) (s : AppliedState)
        → SeatTurned node range h told
        (Live (started number nodes leader right_base right_base_term s)) [] [] }
    ensures made { (node : ℕ) (range : ℕ) (h : machine.World) (told : CmdId → Option Outcome)
        → SeatOk h node range Absent told → (index : ℕ) (snapshot : AppliedState)
        → IsJump h (base_of range) index snapshot
        → (number : ℕ) (nodes : ℕ) (term : ℕ) (from : ℕ) (index_term : ℕ)
        → SeatTurned node range h told
        (Live (made_by_snap number nodes term from index index_term snapshot)) [] [] }
{}

/// A snapshot that was sent has an index and a state that the machine has.
pub fn a_snapshot_is_known()
    ensures { (nodes : ℕ) (range : ℕ) (s : AppliedState) (one : OneListOf (range_at nodes range s))
        → (seen : List raft.Event) (w : World) (h : machine.World)
        → RaftOk nodes range s one seen w h
        → (from : ℕ) (to : ℕ) (term : ℕ) (index : ℕ) (index_term : ℕ) (snapshot : AppliedState)
        → HasSent (world_after (range_at nodes range s) seen) from to
        (Snap term index index_term snapshot) → IsJump h (base_of range) index snapshot }
{}

/// To a range that is shut a scene is nothing but its start; one that does not start it leaves it shut.
pub fn a_shut_range_may_only_start()
    ensures starts { (range : ℕ) (seen : List raft.Event) (w : World) → IsShut range seen w
        → (x : Scene) → OnlyStarts (doings_in range w x) }
    ensures stays { (range : ℕ) (seen : List raft.Event) (w : World) → IsShut range seen w
        → range < 8 → AreShaped w → (x : Scene) → IsTrue (is_lawful w x)
        → doings_in range w x ≡ [] → IsShut range seen (happens w x) }
{}

/// An admission that the guards of a replica let through is one that the range machine may make, and
/// leaves a seat that stands: where the attempt was not made before.
pub fn what_is_let_through_is_admitted()
    ensures may { (node : ℕ) (range : ℕ) (h : machine.World) (told : CmdId → Option Outcome)
        → (r : Replica) → SeatOk h node range (Live r) told → here h node ≡ r.applied.state
        → r.raft.head.node ≡ node → HaveKeys r.pending → (id : CmdId) (request : Request)
        → HasKeys request → (h.attempt id).stage ≡ Unborn → (e : Evaluated)
        → guarded r request ≡ Ok e
        → MayAdmit h id node (record { request = request; batch = e.batch; reply = e.reply }) }
    ensures seat { (node : ℕ) (range : ℕ) (h : machine.World) (told : CmdId → Option Outcome)
        → (r : Replica) → SeatOk h node range (Live r) told → here h node ≡ r.applied.state
        → r.raft.head.node ≡ node → HaveKeys r.pending → (id : CmdId) (request : Request)
        → HasKeys request → (h.attempt id).stage ≡ Unborn → (e : Evaluated)
        → guarded r request ≡ Ok e
        → SeatOk (machine.happens h (machine.Admit id node
        (record { request = request; batch = e.batch; reply = e.reply }))) node range
        (Live (with_proposal r (proposal id request e (lease_of r).seq)))
        (λ q. if same_id q id then Some Pending else told q) }
    ensures number { (g : raft.Range AppliedState) → IsRange g → (events : List raft.Event)
        → (node : ℕ) → 0 < node → (r : raft.Replica AppliedState)
        → IsLive (world_after g events) node r → r.raft.head.node ≡ node }
{}
