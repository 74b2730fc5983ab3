//! Laws of what an event of a node tells and leaves. No program calls these functions.
ghost use Rattle.std.specs.Prelude.{◌≡◌, ◌||◌, ℕ, ◌+◌, ◌-◌, ◌<◌, ◌≤◌, Bool, true, false, List, [], ◌++◌, map, length, filter, count_by, sum_by, slice_set, is_some, Option, None, Some};
ghost use Rattle.std.specs.List.{AllByRecursion};
ghost use Rattle.rp_base.specs.Ids.{same_id};
ghost use Rattle.rp_base.specs.declared.ids.CmdId.{CmdId};
ghost use Rattle.rp_bufcore.specs.Buffers.{Buffer, buffer_of, with_buffer};
ghost use Rattle.rp_request.specs.declared.outcomes.Outcome.{Outcome};
ghost use Rattle.rp_request.specs.declared.outcomes.Outcome.TheVariants.{Pending};
ghost use Rattle.rp_request.specs.declared.requests.Request.{Request};
ghost use Rattle.rp_events.specs.Nodes.{Node, seat};
ghost use Rattle.rp_events.specs.Worlds.{World, Happening, Admit, Apply, Scene, first_world, node_of, with_node, sent_by, happens, was_asked, outcome_of, asked_request};
ghost use Rattle.rp_events.specs.Lawful.{Lawful, IsReached, IsLater, is_lawful, was_refused};
ghost use Rattle.rp_events.specs.Buffered.{Buffered, buffers_at, changed, at_node, is_live, has_live};
ghost use Rattle.rp_journals.specs.Growth.{Grows};
ghost use Rattle.rp_book.specs.declared.bookings.Booked.{Booked};
ghost use Rattle.rp_book.specs.Books.{Book, booking_of, by_attempt};
ghost use Rattle.rp_lines.specs.Players.{Player, weight_of, weight, with_booking};
ghost use Rattle.rp_lines.specs.Commands.{waits_in, is_waiting};
ghost use Rattle.rp_lines.specs.Settling.{for_each, is_latest, puts_all, left_to_apply, left_at};
ghost use Rattle.rp_lines.specs.Views.{replies_of};
ghost use Rattle.rp_told.specs.Turns.{Turns, answer_of, behind};
ghost use Rattle.rp_told.specs.Outcomes.{EndsPending, asks, begun, begun_request, has_ended, is_open, is_pending, retold};
ghost use Rattle.rp_told.specs.Puts.{may_put_entry, puts_entry};
ghost use Rattle.rp_told.specs.Replies.{AreAsked, reply_in};

/// An event at a node leaves every other node as it is; where it is not lawful it leaves all. What is
/// reached stays reached.
pub fn an_event_changes_its_node_alone()
    ensures others { (w : World) (x : Scene) (k : ℕ) → (k ≡ x.node → ⊥)
        → node_of (happens w x) k ≡ node_of w k }
    ensures size { (w : World) (x : Scene) → length (happens w x) ≡ length w }
    ensures turns { (w : World) (x : Scene) → Lawful w x → (n : Node) × (now : Node)
        × Turns w x n now }
    ensures grows { (w : World) (x : Scene) (n : Node) (now : Node) → Turns w x n now → Grows n now }
    ensures left { (w : World) (x : Scene) (n : Node) (now : Node) → Turns w x n now
        → happens w x ≡ with_node w x.node now }
    ensures sent { (w : World) (x : Scene) (n : Node) (now : Node) → Turns w x n now
        → now.sent ≡ n.sent ++ behind n.sent now.sent }
    ensures ended { (w : World) (x : Scene) (n : Node) (now : Node) → Turns w x n now
        → now.outcomes ≡ n.outcomes ++ behind n.outcomes now.outcomes }
    ensures reached { (nodes : ℕ) (w : World) → IsReached nodes w → (x : Scene) → Lawful w x
        → IsReached nodes (happens w x) }
    ensures later { (w : World) (x : Scene) → Lawful w x → IsLater w (happens w x) }
{}

/// An event of a node leaves the buffers, and a change of a buffer leaves the nodes and the other
/// nodes' buffers.
pub fn nodes_and_buffers_change_apart()
    ensures skipped { (b : Buffered) (node : ℕ) (what : Happening)
        → is_lawful b.nodes (record { node = node; what = what }) ≡ false
        → at_node b node what ≡ b }
    ensures taken { (b : Buffered) (node : ℕ) (what : Happening)
        → is_lawful b.nodes (record { node = node; what = what }) ≡ true
        → (at_node b node what).nodes ≡ happens b.nodes (record { node = node; what = what }) }
    ensures buffers { (b : Buffered) (node : ℕ) (what : Happening)
        → (at_node b node what).buffers ≡ b.buffers }
    ensures nodes { (b : Buffered) (node : ℕ) (range : ℕ) (change : Buffer → Buffer)
        → (changed b node range change).nodes ≡ b.nodes }
    ensures others { (b : Buffered) (node : ℕ) (range : ℕ) (change : Buffer → Buffer) (k : ℕ)
        → 0 < node → 0 < k → (k ≡ node → ⊥)
        → buffers_at (changed b node range change) k ≡ buffers_at b k }
    ensures here { (b : Buffered) (node : ℕ) (range : ℕ) (change : Buffer → Buffer)
        → node - 1 < length b.buffers → buffers_at (changed b node range change) node
        ≡ with_buffer (buffers_at b node) range (change (buffer_of (buffers_at b node) range)) }
{}

/// The outcome of an attempt after an event: an attempt that asks is told by the answer, the ends of
/// the event are told by what is new in its node's list, and of each other attempt it is as before.
pub fn an_event_tells_its_answer_and_its_ends()
    ensures outcomes { (nodes : ℕ) (w : World) → IsReached nodes w → (x : Scene) (n : Node)
        → (now : Node) → Turns w x n now → (id : CmdId) → outcome_of (happens w x) id
        ≡ retold id (behind n.outcomes now.outcomes)
        (begun id x.what (answer_of now) (outcome_of w id)) }
    ensures once { (nodes : ℕ) (w : World) → IsReached nodes w → (x : Scene) (n : Node)
        → (now : Node) → Turns w x n now → (id : CmdId)
        → count_by (λ e. same_id e.id id) (behind n.outcomes now.outcomes) ≤ 1 }
    ensures pending { (nodes : ℕ) (w : World) → IsReached nodes w → (x : Scene) (n : Node)
        → (now : Node) → Turns w x n now
        → AllByRecursion (EndsPending w) (behind n.outcomes now.outcomes) }
    ensures admission { (w : World) (x : Scene) (n : Node) (now : Node) → Turns w x n now
        → (id : CmdId) → asks id x.what ≡ true → behind n.outcomes now.outcomes ≡ [] }
{}

/// Which attempts were asked, and for what, after an event; an attempt has an outcome exactly where
/// it was asked.
pub fn an_event_asks_for_its_attempt()
    ensures asked { (w : World) (x : Scene) (n : Node) (now : Node) → Turns w x n now → (id : CmdId)
        → was_asked (happens w x) id ≡ (asks id x.what || was_asked w id) }
    ensures request { (nodes : ℕ) (w : World) → IsReached nodes w → (x : Scene) (n : Node)
        → (now : Node) → Turns w x n now → (id : CmdId)
        → asked_request (happens w x) id ≡ begun_request id x.what (asked_request w id) }
    ensures known { (w : World) (id : CmdId) → is_some (outcome_of w id) ≡ was_asked w id }
    ensures first { (nodes : ℕ) (id : CmdId) → was_asked (first_world nodes) id ≡ false }
{}

/// What waits is told to be pending; what has ended has ended for good, so it never waits again.
pub fn what_has_ended_never_waits_again()
    ensures waiting { (nodes : ℕ) (w : World) → IsReached nodes w → (id : CmdId) (b : Booked)
        → is_waiting w id b ≡ true → outcome_of w id ≡ Some Pending }
    ensures passed { (nodes : ℕ) (w : World) → IsReached nodes w → (id : CmdId) (b : Booked)
        → is_open w id ≡ false → is_waiting w id b ≡ false }
    ensures stays { (nodes : ℕ) (w : World) (later : World) → IsReached nodes w → IsLater w later
        → (id : CmdId) → has_ended w id ≡ true → outcome_of later id ≡ outcome_of w id }
    ensures never { (nodes : ℕ) (w : World) (later : World) → IsReached nodes w → IsLater w later
        → (id : CmdId) (b : Booked) → has_ended w id ≡ true → is_waiting later id b ≡ false }
{}

/// An attempt of the book that is not the latest of its command never is again, whatever is booked.
pub fn what_is_not_the_latest_never_is_again()
    ensures { (p : Player) (id : CmdId) (other : CmdId) (b : Booked)
        → is_some (booking_of id p.book) ≡ true → is_latest p id ≡ false
        → is_latest (with_booking other b p) id ≡ false }
{}

/// A round of a settling passes over all entries of the book but those that may be put.
pub fn a_round_passes_over_what_may_not_be_put()
    ensures { (nodes : ℕ) (p : Player) → IsReached nodes p.world.nodes → puts_all p
        ≡ for_each puts_entry (filter (may_put_entry p.world.nodes) (by_attempt p.book)) p }
{}

/// What is looked at of a node is looked at in its seat.
pub fn what_is_looked_at_is_in_a_seat()
    ensures live { (w : World) (node : ℕ) (n : Node) → node_of w node ≡ Some n → (range : ℕ)
        → has_live w node range ≡ is_live (seat n range) }
    ensures waiting { (w : World) (b : Booked) (n : Node) → node_of w b.node ≡ Some n → (id : CmdId)
        → is_waiting w id b ≡ waits_in id (seat n b.range) }
    ensures left { (p : Player) (node : ℕ) (n : Node) → node_of p.world.nodes node ≡ Some n
        → (range : ℕ) → left_at p node range ≡ left_to_apply (seat n range) }
    ensures sent { (w : World) (node : ℕ) (n : Node) → node_of w node ≡ Some n
        → sent_by w node ≡ n.sent }
{}

/// An event adds the weight of what its node sends in it.
pub fn the_weight_grows_by_what_is_sent()
    ensures { (w : World) (x : Scene) (n : Node) (now : Node) → Turns w x n now
        → weight (happens w x) ≡ weight w + sum_by weight_of (behind n.sent now.sent) }
{}

/// Each application leaves one entry fewer to apply, where there is one; else it leaves none.
pub fn each_application_leaves_one_fewer()
    ensures { (nodes : ℕ) (w : World) → IsReached nodes w → (node : ℕ) (range : ℕ) (n : Node)
        → (now : Node) → Turns w (record { node = node; what = Apply range }) n now
        → left_to_apply (seat now range) ≡ left_to_apply (seat n range) - 1 }
{}

/// The reply lines are those of the attempts that were asked, by client, command and attempt.
pub fn replies_are_those_of_what_was_asked()
    ensures ids { (nodes : ℕ) (w : World) → IsReached nodes w → (ids : List CmdId) → AreAsked w ids
        → replies_of w ≡ map (reply_in w) ids }
    ensures book { (nodes : ℕ) (w : World) → IsReached nodes w → (book : Book)
        → ((id : CmdId) → is_some (booking_of id book) ≡ was_asked w id)
        → replies_of w ≡ map (λ e. reply_in w e.0) (by_attempt book) }
{}
