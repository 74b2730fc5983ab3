//! Laws of what stands beside the nodes of a world, and of the promise. No program calls these
//! functions.
ghost use Rattle.std.specs.Prelude.{◌≡◌, ℕ, ◌≤◌, List};
ghost use Rattle.rp_request.specs.Applied.{AppliedState};
ghost use Rattle.rp_raftsafe.specs.World as raft;
ghost use Rattle.rp_raftsafe.specs.Safety.{OneList};
ghost use Rattle.rp_rangesafe.specs.Ranges.{Ranges, AreLater};
ghost use Rattle.rp_events.specs.Journals.{Replays};
ghost use Rattle.rp_events.specs.Lawful.{IsReached, Lawful};
ghost use Rattle.rp_events.specs.Promises.{Promise};
ghost use Rattle.rp_events.specs.Worlds.{World, Scene, first_world, happens};
ghost use Rattle.rp_seats.specs.Standing.{Bound};
ghost use Rattle.rp_journals.specs.Alike.{AllKeepSame};
ghost use Rattle.rp_promise.specs.Records.{AllRecords};
ghost use Rattle.rp_promise.specs.Beside.{AreAdmitted, IsBeside, IsPromising};

/// In the first world no node keeps a record, none has applied an entry, and no attempt was made.
pub fn the_first_world_keeps_no_record()
    ensures records { (lists : OneList AppliedState) (nodes : ℕ) → nodes ≤ 5 → (m : Ranges)
        → (seen : ℕ → List raft.Event) → Bound lists (first_world nodes) m seen
        → AllRecords (first_world nodes) m }
    ensures admitted { (lists : OneList AppliedState) (nodes : ℕ) → nodes ≤ 5 → (m : Ranges)
        → (seen : ℕ → List raft.Event) → Bound lists (first_world nodes) m seen
        → AreAdmitted (first_world nodes) m }
{}

/// A lawful scene keeps the records: each that a node keeps is that of the machine's entry with its
/// index; each entry that a node has applied, or that a snapshot shows, has a record at some node;
/// an entry that has one opened each range that a node has; and who was told Success has a place
/// that its node keeps.
pub fn each_scene_keeps_the_records()
    ensures { (lists : OneList AppliedState) (w : World) (m : Ranges) (seen : ℕ → List raft.Event)
        → Bound lists w m seen → (x : Scene) → Lawful w x
        → (n : Ranges) (further : ℕ → List raft.Event) → Bound lists (happens w x) n further
        → AreLater m n → AllRecords w m → AllRecords (happens w x) n }
{}

/// Behind a lawful scene too each attempt that the machine has in a range, and that was not
/// refused, is one that a journal admitted there: at its node, for its request and under its
/// sequence.
pub fn each_scene_admits_what_it_makes()
    ensures { (lists : OneList AppliedState) (w : World) (m : Ranges) (seen : ℕ → List raft.Event)
        → Bound lists w m seen → (x : Scene) → Lawful w x
        → (n : Ranges) (further : ℕ → List raft.Event) → Bound lists (happens w x) n further
        → AreLater m n → (nodes : ℕ) → IsReached nodes w → AreAdmitted w m
        → AreAdmitted (happens w x) n }
{}

/// Every reached world stands beside ranges of the machine and events of Raft, with the records that
/// its nodes keep and the admissions that their journals have.
pub fn every_reached_world_stands_beside()
    ensures { (lists : OneList AppliedState) (nodes : ℕ) (w : World) → IsReached nodes w
        → IsBeside lists w }
{}

/// A reached world keeps the promise where the machine and Raft's events stand beside it, now and
/// later.
pub fn a_world_keeps_the_promise()
    ensures { (lists : OneList AppliedState) (nodes : ℕ) (w : World) (m : Ranges)
        → (seen : ℕ → List raft.Event) → IsPromising lists nodes w m seen → Promise w }
{}

/// The promise is kept. For every lawful list of events of one to five nodes with up to eight
/// ranges, whatever is lost, repeated, reordered, split, moved or restarted: each client command
/// takes effect at most once, under the lease it was proposed with and inside its range; every
/// replica's table is the fold of a prefix of its range's one applied list; Success is the reply at
/// that place, Refused means never, Ambiguous comes only where a snapshot passed its lease index,
/// its replica was removed or its node restarted while pending. So it is for nodes that are what
/// their journals say, and have kept what those of such a world have kept.
pub fn the_promise_is_kept()
    ensures reached { (nodes : ℕ) (w : World) → IsReached nodes w → Promise w }
    ensures told { (nodes : ℕ) (w : World) (v : World) → IsReached nodes w → Replays v
        → AllKeepSame w v → Promise v }
{}
