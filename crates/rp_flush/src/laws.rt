//! Laws of a flush, for the proofs above. No program calls these functions.
ghost use Rattle.std.specs.Prelude.{◌≡◌, ℕ, ◌+◌, ◌<◌, ◌≤◌, ◌&&◌, max, length, List, [], Some, is_some, slice_get, if◌then◌else◌};
ghost use Rattle.rp_base.specs.declared.ids.CmdId.{CmdId};
ghost use Rattle.rp_base.specs.declared.items.Item.{Item};
ghost use Rattle.rp_request.specs.declared.commands.Waiting.{Waiting};
ghost use Rattle.rp_flush.specs.Assigns.{assigned_of, ids_of, seq_of, waits_under, waits_under_another};
ghost use Rattle.rp_flush.specs.Counts.{stands, times_given, times_refused};

/// The indexes that are given follow each other with no gap, from the one after the greater of the
/// last index assigned and the lease applied index on.
pub fn indexes_follow()
    ensures { (inbox : List Item) (waiting : List Waiting) (seq : ℕ) (lai : ℕ) (assigned : ℕ)
        → (k : ℕ) (write : CmdId × ℕ)
        → slice_get (assigned_of inbox waiting seq lai assigned).writes k ≡ Some write
        → write.1 ≡ max assigned lai + k + 1 }
{}

/// A later command has a greater index.
pub fn indexes_rise()
    ensures { (inbox : List Item) (waiting : List Waiting) (seq : ℕ) (lai : ℕ) (assigned : ℕ)
        → (j : ℕ) (k : ℕ) (x : CmdId × ℕ) (y : CmdId × ℕ) → j < k
        → slice_get (assigned_of inbox waiting seq lai assigned).writes j ≡ Some x
        → slice_get (assigned_of inbox waiting seq lai assigned).writes k ≡ Some y → x.1 < y.1 }
{}

/// Each index is above the last one assigned before and above the lease applied index.
pub fn indexes_are_above_both()
    ensures { (inbox : List Item) (waiting : List Waiting) (seq : ℕ) (lai : ℕ) (assigned : ℕ)
        → (k : ℕ) (write : CmdId × ℕ)
        → slice_get (assigned_of inbox waiting seq lai assigned).writes k ≡ Some write
        → (assigned < write.1) × (lai < write.1) }
{}

/// The last index assigned stays where none is given, and else it is the last one given. It never
/// falls.
pub fn last_is_the_last_given()
    ensures none { (inbox : List Item) (waiting : List Waiting) (seq : ℕ) (lai : ℕ) (assigned : ℕ)
        → (assigned_of inbox waiting seq lai assigned).writes ≡ []
        → (assigned_of inbox waiting seq lai assigned).last ≡ assigned }
    ensures given { (inbox : List Item) (waiting : List Waiting) (seq : ℕ) (lai : ℕ) (assigned : ℕ)
        → (k : ℕ) (write : CmdId × ℕ)
        → slice_get (assigned_of inbox waiting seq lai assigned).writes k ≡ Some write
        → k + 1 ≡ length (assigned_of inbox waiting seq lai assigned).writes
        → (assigned_of inbox waiting seq lai assigned).last ≡ write.1 }
    ensures rises { (inbox : List Item) (waiting : List Waiting) (seq : ℕ) (lai : ℕ) (assigned : ℕ)
        → assigned ≤ (assigned_of inbox waiting seq lai assigned).last }
{}

/// A command that waits and stands in the inbox is given one index or refused once, however often
/// it stands there; any other command is left out.
pub fn each_waiting_command_is_settled_once()
    ensures { (inbox : List Item) (waiting : List Waiting) (seq : ℕ) (lai : ℕ) (assigned : ℕ)
        → (id : CmdId) → times_given id (assigned_of inbox waiting seq lai assigned)
        + times_refused id (assigned_of inbox waiting seq lai assigned)
        ≡ (if stands id (ids_of inbox) && is_some (seq_of waiting id) then 1 else 0) }
{}

/// It is given an index exactly where it waits under the present lease's sequence.
pub fn given_under_the_present_sequence()
    ensures { (inbox : List Item) (waiting : List Waiting) (seq : ℕ) (lai : ℕ) (assigned : ℕ)
        → (id : CmdId) → times_given id (assigned_of inbox waiting seq lai assigned)
        ≡ (if stands id (ids_of inbox) && waits_under waiting seq id then 1 else 0) }
{}

/// It is refused exactly where it waits under another one.
pub fn refused_under_another_sequence()
    ensures { (inbox : List Item) (waiting : List Waiting) (seq : ℕ) (lai : ℕ) (assigned : ℕ)
        → (id : CmdId) → times_refused id (assigned_of inbox waiting seq lai assigned)
        ≡ (if stands id (ids_of inbox) && waits_under_another waiting seq id then 1 else 0) }
{}
