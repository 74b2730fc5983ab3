//! Laws of players: which events their lines make, and what each part of a line keeps. No program calls
//! these functions.
ghost use Rattle.std.specs.Prelude.{◌≡◌, ℕ, ◌+◌, ◌^◌, ◌<◌, ◌≤◌, true, false, IsTrue, List, length, sum_by, None, Some, Ok};
ghost use Rattle.rp_base.specs.declared.ids.CmdId.{CmdId};
ghost use Rattle.rp_base.specs.declared.leases.LeaseAsk.{LeaseAsk};
ghost use Rattle.rp_base.specs.ClientCounts.{one_more_of};
ghost use Rattle.rp_request.specs.Applied.{AppliedState};
ghost use Rattle.rp_request.specs.Fits.{FitsId, FitsRequest};
ghost use Rattle.rp_request.specs.declared.requests.Request.{Request};
ghost use Rattle.rp_script.specs.Bounds.{Fits, IsClient, IsCommand, IsFromTo, IsNode};
ghost use Rattle.rp_script.specs.declared.lines.NumberedLine.{NumberedLine};
ghost use Rattle.rp_script.specs.declared.lines.ScriptLine.{ScriptLine};
ghost use Rattle.rp_script.specs.declared.lines.ScriptLine.TheVariants as script;
ghost use Rattle.rp_events.specs.declared.answers.EventAnswer.{EventAnswer};
ghost use Rattle.rp_events.specs.declared.parcels.Parcel.{Parcel};
ghost use Rattle.rp_events.specs.declared.world_events.WorldEvent.{WorldEvent};
ghost use Rattle.rp_events.specs.declared.world_events.WorldEvent.TheVariants as events;
ghost use Rattle.rp_bufcore.specs.Buffers.{Buffer, after_collect, given};
ghost use Rattle.rp_bufcore.specs.Events.{IsSound};
ghost use Rattle.rp_events.specs.Buffered.{Buffered, buffered_step, changed, has_live};
ghost use Rattle.rp_events.specs.Lawful.{IsReached, Lawful, was_refused};
ghost use Rattle.rp_events.specs.Nodes.{Node, is_full, parcel_of};
ghost use Rattle.rp_events.specs.Promises.{Promise};
ghost use Rattle.rp_events.specs.Worlds.{Happening, World, node_of, sent_by, happens, was_asked, asked_at, asked_request};
ghost use Rattle.rp_book.specs.declared.bookings.Booked.{Booked};
ghost use Rattle.rp_book.specs.declared.bookings.Draw.{Draw};
ghost use Rattle.rp_book.specs.Books.{booking_of, latest_of};
ghost use Rattle.rp_lines.specs.Players.{Player, Loss, first_player, did, noted, counted, next_command};
ghost use Rattle.rp_lines.specs.Commands.{asks, booking, draws, draws_and_publishes, draws_latest, following, goes_on, publishes, publishes_latest, sends, admits, tries_again, with_draw};
ghost use Rattle.rp_lines.specs.Settling.{applies_all, comes, delivers, passes_all, passes_numbered, puts, puts_all, round, settles, ticks, ticks_and_flushes, with_handled};
ghost use Rattle.rp_lines.specs.Scripts.{does, flushes, played, played_all, puts_ask};
ghost use Rattle.rp_lawful.specs.Sound.{IsAskedAs, IsBufferRun, Sound};
ghost use Rattle.rp_lawful.specs.Comings.{Comes, ComesAs, IsPlain, happening_of, node_in, scene_at};
ghost use Rattle.rp_lawful.specs.Onward.{IsBookedAs, LeadsOn, LineLeadsOn};
ghost use Rattle.rp_lawful.specs.Playable.{CanPlay, IsFront};

/// A player that has played no line is sound.
pub fn a_first_player_is_sound()
    ensures sound { (nodes : ℕ) → 1 ≤ nodes → nodes ≤ 5 → Sound 0 (first_player nodes) }
    ensures size { (nodes : ℕ) → length (first_player nodes).world.nodes ≡ nodes }
{}

/// A player that is sound behind some lines is sound behind more.
pub fn soundness_stays()
    ensures { (lines : ℕ) (more : ℕ) (p : Player) → Sound lines p → lines ≤ more → Sound more p }
{}

/// No journal of a sound player is full.
pub fn a_sound_player_has_room()
    ensures { (lines : ℕ) (p : Player) → Sound lines p → (node : ℕ) (n : Node)
        → node_of p.world.nodes node ≡ Some n → is_full n ≡ false }
{}

/// Where an event comes, the nodes become what it makes of them at its node.
pub fn an_event_that_comes_happens()
    ensures nodes { (b : Buffered) (e : WorldEvent) → Comes b e → (what : Happening)
        → happening_of b e ≡ Some what
        → (buffered_step b e).nodes ≡ happens b.nodes (scene_at (node_in e) what) }
    ensures buffer { (b : Buffered) (e : WorldEvent) → Comes b e → (node : ℕ) (range : ℕ)
        → e ≡ events.Collect node range → has_live b.nodes node range ≡ true
        → (buffered_step b e).buffers ≡ (changed b node range after_collect).buffers }
{}

/// Which events come at a sound player, and meet the conditions of a step of their node: each plain
/// one; a message that was sent, at its receiver; a client's next command; and a further attempt where
/// the latest was refused.
pub fn a_sound_player_makes_events_that_come()
    ensures lawful { (lines : ℕ) (p : Player) → Sound lines p → (node : ℕ) (what : Happening)
        → Lawful p.world.nodes (scene_at node what) → ComesAs p.world node what }
    ensures plain { (lines : ℕ) (p : Player) → Sound lines p → (e : WorldEvent)
        → IsPlain (length p.world.nodes) e → Comes p.world e }
    ensures deliver { (lines : ℕ) (p : Player) → Sound lines p → (sender : ℕ) (number : ℕ)
        → (parcel : Parcel AppliedState)
        → parcel_of (sent_by p.world.nodes sender) number ≡ Some parcel
        → IsNode (length p.world.nodes) parcel.to
        → Comes p.world (events.Deliver parcel.to sender number) }
    ensures message { (lines : ℕ) (p : Player) → Sound lines p → (sender : ℕ) (number : ℕ)
        → (parcel : Parcel AppliedState)
        → parcel_of (sent_by p.world.nodes sender) number ≡ Some parcel
        → Comes p.world (events.Deliver parcel.to sender number) }
    ensures next { (lines : ℕ) (p : Player) → Sound lines p → lines + 1 < 2 ^ 16
        → (node : ℕ) (range : ℕ) (client : ℕ) (request : Request)
        → IsNode (length p.world.nodes) node → IsClient client → FitsRequest request
        → Comes p.world (events.Admit node range (next_command p client) request) }
    ensures further { (lines : ℕ) (p : Player) → Sound lines p → lines + 1 < 2 ^ 16
        → (node : ℕ) (range : ℕ) (client : ℕ) (seq : ℕ) (id : CmdId) (b : Booked)
        → IsNode (length p.world.nodes) node → latest_of client seq p.book ≡ Some (id, b)
        → was_refused p.world.nodes id ≡ true
        → Comes p.world (events.Admit node range (following id) b.request) }
{}

/// Each message that a node of a reached world has sent is for one of its nodes: replies go to who
/// sent, and who leads a range, or holds its lease, is a node.
pub fn each_message_is_for_a_node()
    ensures { (nodes : ℕ) (w : World) → IsReached nodes w → (sender : ℕ) (number : ℕ)
        → (parcel : Parcel AppliedState) → parcel_of (sent_by w sender) number ≡ Some parcel
        → IsNode nodes parcel.to }
{}

/// A message at a node that the world lacks is skipped.
pub fn a_message_for_nobody_is_skipped()
    ensures { (b : Buffered) (node : ℕ) (sender : ℕ) (number : ℕ) → node_of b.nodes node ≡ None
        → buffered_step b (events.Deliver node sender number) ≡ b }
{}

/// The buffers of a sound player have their sixteen places each, and give no more than sixteen items.
pub fn a_sound_players_buffers_are_sound()
    ensures sound { (b : Buffer) → IsBufferRun b → IsSound b }
    ensures few { (b : Buffer) → IsBufferRun b → length (given b) ≤ 16 }
{}

/// A client's next command and the attempt behind a latest one were not asked, and stand in no book.
pub fn what_is_asked_next_is_new()
    ensures next { (lines : ℕ) (p : Player) → Sound lines p → (client : ℕ) → IsClient client
        → (was_asked p.world.nodes (next_command p client) ≡ false)
        × (booking_of (next_command p client) p.book ≡ None) }
    ensures further { (lines : ℕ) (p : Player) → Sound lines p → (client : ℕ) (seq : ℕ)
        → (id : CmdId) (b : Booked) → latest_of client seq p.book ≡ Some (id, b)
        → (was_asked p.world.nodes (following id) ≡ false)
        × (booking_of (following id) p.book ≡ None) }
    ensures fits { (lines : ℕ) (p : Player) → Sound lines p → lines + 1 < 2 ^ 16 → (id : CmdId)
        → (b : Booked) → booking_of id p.book ≡ Some b → FitsId id × FitsId (following id) }
{}

/// What was asked so was asked at that node alone, and for that request.
pub fn a_booking_tells_its_admission()
    ensures asked { (w : World) (id : CmdId) (b : Booked) → IsAskedAs w id b → (n : Node)
        → node_of w b.node ≡ Some n → asked_at id n ≡ true }
    ensures was { (w : World) (id : CmdId) (b : Booked) → IsAskedAs w id b
        → was_asked w id ≡ true }
    ensures request { (nodes : ℕ) (w : World) → IsReached nodes w → (id : CmdId) (b : Booked)
        → IsAskedAs w id b → asked_request w id ≡ Some b.request }
{}

/// What makes no event keeps soundness: notes, places in the book, handled messages, another loss.
pub fn what_is_noted_keeps_soundness()
    ensures noted { (lines : ℕ) (p : Player) → Sound lines p → (line : ℕ) (text : List ℕ)
        → LeadsOn lines p (noted line text p) }
    ensures draw { (lines : ℕ) (p : Player) → Sound lines p → (id : CmdId) (b : Booked)
        → IsBookedAs p id b → (draw : Draw) → LeadsOn lines p (with_draw id b draw p) }
    ensures handled { (lines : ℕ) (p : Player) → Sound lines p → (sender : ℕ) (number : ℕ)
        → (parcel : Parcel AppliedState)
        → parcel_of (sent_by p.world.nodes sender) number ≡ Some parcel
        → LeadsOn lines p (with_handled sender number p) }
    ensures loss { (lines : ℕ) (p : Player) → Sound lines p → (percent : ℕ) (salt : ℕ)
        → percent ≤ 50 → salt < 2 ^ 64
        → LeadsOn lines p (record p { loss = record { percent = percent; salt = salt } }) }
{}

/// Each event that a line makes keeps soundness.
pub fn each_event_keeps_soundness()
    ensures plain { (lines : ℕ) (p : Player) → Sound lines p → (e : WorldEvent)
        → IsPlain (length p.world.nodes) e → (q : Player) → did e p ≡ Ok q → LeadsOn lines p q }
    ensures comes { (lines : ℕ) (p : Player) → Sound lines p → (sender : ℕ) (number : ℕ)
        → (parcel : Parcel AppliedState)
        → parcel_of (sent_by p.world.nodes sender) number ≡ Some parcel → (q : Player)
        → comes sender number parcel p ≡ Ok q → LeadsOn lines p q }
    ensures draws { (lines : ℕ) (p : Player) → Sound lines p → (line : ℕ) (id : CmdId) (b : Booked)
        → IsBookedAs p id b → (q : Player) → draws line id b p ≡ Ok q → LeadsOn lines p q }
    ensures publishes { (lines : ℕ) (p : Player) → Sound lines p → (id : CmdId) (b : Booked)
        → IsBookedAs p id b → (place : ℕ) (q : Player) → publishes id b place p ≡ Ok q
        → LeadsOn lines p q }
    ensures next { (lines : ℕ) (p : Player) → Sound lines p → lines + 1 < 2 ^ 16
        → (node : ℕ) (range : ℕ) (client : ℕ) (request : Request)
        → IsNode (length p.world.nodes) node → range ≤ 7 → IsClient client → FitsRequest request
        → (q : Player)
        → asks (next_command p client) (booking request node range) (counted client p) ≡ Ok q
        → LineLeadsOn lines p (script.Admit node range client request) q
        × IsBookedAs q (next_command p client) (booking request node range) }
    ensures further { (lines : ℕ) (p : Player) → Sound lines p → lines + 1 < 2 ^ 16
        → (node : ℕ) (range : ℕ) (client : ℕ) (seq : ℕ) (id : CmdId) (b : Booked)
        → IsNode (length p.world.nodes) node → range ≤ 7
        → latest_of client seq p.book ≡ Some (id, b) → was_refused p.world.nodes id ≡ true
        → (q : Player) → asks (following id) (booking b.request node range) p ≡ Ok q
        → LeadsOn (lines + 1) p q × IsBookedAs q (following id) (booking b.request node range) }
{}

/// Each part of a line that makes several events leads a sound player to a sound one.
pub fn each_part_of_a_line_keeps_soundness()
    ensures both { (lines : ℕ) (p : Player) → Sound lines p → (line : ℕ) (id : CmdId) (b : Booked)
        → IsBookedAs p id b → (q : Player) → draws_and_publishes line id b p ≡ Ok q
        → LeadsOn lines p q }
    ensures goes_on { (lines : ℕ) (p : Player) → Sound lines p → (line : ℕ) (id : CmdId) (b : Booked)
        → IsBookedAs p id b → (answer : EventAnswer) (q : Player)
        → goes_on line id b answer p ≡ Ok q → LeadsOn lines p q }
    ensures ask { (lines : ℕ) (p : Player) → Sound lines p → (line : ℕ) (node : ℕ) (range : ℕ)
        → IsNode (length p.world.nodes) node → range ≤ 7 → (ask : LeaseAsk) (q : Player)
        → puts_ask line node range ask p ≡ Ok q → LeadsOn lines p q }
    ensures puts { (lines : ℕ) (p : Player) → Sound lines p → (id : CmdId) (b : Booked)
        → IsBookedAs p id b → (draw : Draw) (q : Player) → puts id b draw p ≡ Ok q
        → LeadsOn lines p q }
    ensures puts_all { (lines : ℕ) (p : Player) → Sound lines p → (q : Player)
        → puts_all p ≡ Ok q → LeadsOn lines p q }
    ensures ticks { (lines : ℕ) (p : Player) → Sound lines p → (node : ℕ)
        → IsNode (length p.world.nodes) node → (q : Player)
        → ticks_and_flushes node p ≡ Ok q → LeadsOn lines p q }
    ensures passes_one { (lines : ℕ) (p : Player) → Sound lines p → (sender : ℕ) (number : ℕ)
        → (q : Player) → passes_numbered sender number p ≡ Ok q → LeadsOn lines p q }
    ensures passes { (lines : ℕ) (p : Player) → Sound lines p → (sender : ℕ) (q : Player)
        → passes_all sender p ≡ Ok q → LeadsOn lines p q }
    ensures applies { (lines : ℕ) (p : Player) → Sound lines p → (node : ℕ)
        → IsNode (length p.world.nodes) node → (q : Player) → applies_all node p ≡ Ok q
        → LeadsOn lines p q }
    ensures round { (lines : ℕ) (p : Player) → Sound lines p → (q : Player) → round p ≡ Ok q
        → LeadsOn lines p q }
    ensures settles { (lines : ℕ) (p : Player) → Sound lines p → (rounds : ℕ) (q : Player)
        → settles rounds p ≡ Ok q → LeadsOn lines p q }
{}

/// Each line that fits leads a sound player to one that is sound behind one line more.
pub fn each_line_leads_a_sound_player_on()
    ensures { (lines : ℕ) (p : Player) → Sound lines p → lines + 1 < 2 ^ 16 → (number : ℕ)
        → (line : ScriptLine) → Fits (length p.world.nodes) p.sent line → (q : Player)
        → played number line p ≡ Ok q → LineLeadsOn lines p line q }
{}

/// A line that can be played comes to a sound player, fits it, and leaves room for one more attempt.
pub fn what_can_be_played_fits_a_sound_player()
    ensures sound { (nodes : ℕ) (p : Player) (l : NumberedLine) → (c : CanPlay nodes p l)
        → Sound (length c.lines) p }
    ensures room { (nodes : ℕ) (p : Player) (l : NumberedLine) → (c : CanPlay nodes p l)
        → length c.lines + 1 < 2 ^ 16 }
    ensures size { (nodes : ℕ) (p : Player) (l : NumberedLine) → CanPlay nodes p l
        → length p.world.nodes ≡ nodes }
    ensures fits { (nodes : ℕ) (p : Player) (l : NumberedLine) → CanPlay nodes p l
        → Fits nodes p.sent l.line }
{}

/// The lines of a script, played to their end, lead to a reached world, which keeps the promise.
pub fn a_played_script_keeps_the_promise()
    ensures reached { (nodes : ℕ) (ls : List NumberedLine) → IsFront nodes ls → (p : Player)
        → played_all (first_player nodes) ls ≡ Ok p → IsReached nodes p.world.nodes }
    ensures promise { (nodes : ℕ) (ls : List NumberedLine) → IsFront nodes ls → (p : Player)
        → played_all (first_player nodes) ls ≡ Ok p → Promise p.world.nodes }
    ensures sound { (nodes : ℕ) (ls : List NumberedLine) → IsFront nodes ls → (p : Player)
        → played_all (first_player nodes) ls ≡ Ok p → Sound (length ls) p }
{}
