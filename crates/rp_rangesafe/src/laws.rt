//! Laws of the range machine, for every list of lawful events. No program calls these functions.

ghost use Rattle.std.specs.Prelude.{◌≡◌, ◌⊎◌, ℕ, suc, ◌<◌, ◌≤◌, true, Some, [], length, take, slice_get};
ghost use Rattle.rp_base.specs.declared.ids.CmdId.{CmdId};
ghost use Rattle.rp_base.specs.declared.leases.LeaseAsk.{LeaseAsk};
ghost use Rattle.rp_base.specs.Leases.{Follows, renewed};
ghost use Rattle.rp_request.specs.declared.commands.Command.{Command};
ghost use Rattle.rp_request.specs.declared.commands.Payload.{Payload};
ghost use Rattle.rp_request.specs.declared.commands.Payload.TheVariants.{Lease};
ghost use Rattle.rp_request.specs.declared.outcomes.Reply.{Reply};
ghost use Rattle.rp_request.specs.declared.items.Record.TheVariants as kept;
ghost use Rattle.rp_request.specs.Items.{fold};
ghost use Rattle.rp_request.specs.Places.{IsOnce, IsOnceInAll};
ghost use Rattle.rp_request.specs.Starts.{IsStart};
ghost use Rattle.rp_request.specs.Evaluations.{Does};
ghost use Rattle.rp_request.specs.Applied.{AppliedState, item, records_of, after_all};
ghost use Rattle.rp_rangesafe.specs.Attempts.{Body, Unborn, Success, Refused, Overtaken, Restarted, IsBorn, IsBornAt, IsEnded, IsAmong, IsLast, IsOpen};
ghost use Rattle.rp_rangesafe.specs.Along.{entry};
ghost use Rattle.rp_rangesafe.specs.World.{World, state_at, here, Event, Admit, Apply, Restart, MayCommit, Lawful, admitted, happens};
ghost use Rattle.rp_rangesafe.specs.Places.{HappensAt, IsReached, IsLater, IsFurther, IsPlace, IsDeadByStage, IsDeadForGood, HasNever, IsPlacedWith, IsLawfulPlace, items_to};
ghost use Rattle.rp_request.specs.States.{shown};
ghost use Rattle.rp_rangesafe.specs.Ranges.{Ranges, At, IsMade, AreReached, AreLater, IsRefused, IsTheOnePlace, HasNowhere, lists};
ghost use Rattle.rp_request.specs.States.{right_of};

/// Along a range's list the lease applied index, the lease sequence and the level of its
/// description never fall, and it keeps its number.
pub fn numbers_never_fall()
    ensures { (w : World) (i : ℕ) (j : ℕ) → i ≤ j → IsFurther (state_at w i) (state_at w j) }
{}

/// At any two indexes of a list at which the lease sequence is the same, so is the lease's holder.
pub fn one_sequence_has_one_holder()
    ensures { (w : World) (i : ℕ) (j : ℕ) → (state_at w i).lease.seq ≡ (state_at w j).lease.seq
        → (state_at w i).lease.holder ≡ (state_at w j).lease.holder }
{}

/// Of a waiting, proposed, refused or removed attempt no place stands in its node's prefix. Each
/// maximum that an attempt ever had is blocked there, but the last one of a proposed, a removed or
/// a restarted one.
pub fn maxima_are_dead_by_stage()
    ensures { (w : World) → IsReached w → (id : CmdId) → IsDeadByStage w id }
{}

/// Such a maximum is dead for good: whatever comes, no further place has it.
pub fn dead_maxima_stay_dead()
    ensures { (w : World) → IsReached w → (id : CmdId) (m : ℕ) → IsAmong (w.attempt id).maxima m
        → (IsOpen (w.attempt id).stage m → ⊥) → IsDeadForGood w id m }
{}

/// Each command, by client and by its number among the client's, has at most one place over the
/// applied lists of all ranges, whichever of its attempts the place names; so in the list of each
/// range.
pub fn at_most_once()
    ensures over_all { (w : Ranges) → AreReached w → IsOnceInAll (lists w) }
    ensures in_each { (w : Ranges) → AreReached w → (r : ℕ) → IsOnce (lists w r) }
{}

/// A refused attempt has no place in its range and gets none, whatever comes.
pub fn refused_never_takes_effect()
    ensures { (w : World) → IsReached w → (id : CmdId) → (w.attempt id).stage ≡ Refused
        → HasNever w id }
{}

/// An attempt that succeeded has a place, with its reply, at an index that its node has applied.
pub fn success_is_a_place()
    ensures { (w : World) → IsReached w → (id : CmdId) (reply : Reply)
        → (w.attempt id).stage ≡ Success reply → IsPlacedWith w id reply }
{}

/// A snapshot overtook an attempt only where it had a maximum, at or below the snapshot's lease
/// applied index.
pub fn an_overtaken_attempt_was_passed()
    ensures { (w : World) → IsReached w → (id : CmdId) (own : ℕ) (passed : ℕ)
        → (w.attempt id).stage ≡ Overtaken own passed → (0 < own) × (own ≤ passed) }
{}

/// The maximum of a proposed, a removed or a restarted attempt is the last that it was given, and at
/// least 1.
pub fn an_open_maximum_is_the_last_one()
    ensures last { (w : World) → IsReached w → (id : CmdId) (own : ℕ)
        → IsOpen (w.attempt id).stage own → IsLast (w.attempt id).maxima own }
    ensures positive { (w : World) → IsReached w → (id : CmdId) (own : ℕ)
        → IsOpen (w.attempt id).stage own → 0 < own }
{}

/// At its place, on the table and the description there, an attempt's batch does what the effect of
/// its request does, and its reply is the effect's.
pub fn effect_at_its_place()
    ensures { (w : World) → IsReached w → (id : CmdId) (k : ℕ) (c : Command) → IsPlace w id k c
        → Does (state_at w k).table (state_at w k).desc c.request
        (record { batch = c.batch; reply = c.reply }) }
{}

/// The fold of a range's items, each request evaluated again, is the state that the batches make,
/// at each index; so each node's state is the fold of the items that it has applied.
pub fn fold_of_requests_is_fold_of_batches()
    ensures list { (w : World) → IsReached w → (i : ℕ) → i ≤ length w.log
        → fold (shown w.start) (items_to w i) ≡ Some (shown (state_at w i)) }
    ensures nodes { (w : World) → IsReached w → (node : ℕ)
        → fold (shown w.start) (items_to w (w.index node)) ≡ Some (shown (here w node)) }
{}

/// A place is lawful: it has the lease sequence and the description of its admission, whose node
/// holds the lease, and its request lies in the bounds there and is evaluated there as it was.
pub fn places_are_lawful()
    ensures { (w : World) → IsReached w → (id : CmdId) (k : ℕ) (c : Command) → IsPlace w id k c
        → IsLawfulPlace w id k c }
{}

/// A node's barrier is at or below its present lease sequence, and no attempt is admitted under a
/// sequence at or below it.
pub fn no_admission_below_the_barrier()
    ensures behind { (w : World) → IsReached w → (node : ℕ)
        → w.barrier node ≤ (here w node).lease.seq }
    ensures past { (w : World) → IsReached w → (later : World) → IsLater w later → (id : CmdId)
        → (w.attempt id).stage ≡ Unborn → IsBorn (later.attempt id).stage
        → w.barrier (later.attempt id).node < (later.attempt id).seq }
{}

/// All attempts of a range under one lease sequence are admitted at one node, and between two
/// restarts of it: what the node admits after a restart is under another sequence than all that was
/// admitted before.
pub fn one_sequence_is_admitted_at_one_node()
    ensures node { (w : World) → IsReached w → (x : CmdId) (y : CmdId) → IsBorn (w.attempt x).stage
        → IsBorn (w.attempt y).stage → (w.attempt x).seq ≡ (w.attempt y).seq
        → (w.attempt x).node ≡ (w.attempt y).node }
    ensures between { (w : World) → IsReached w → (node : ℕ) → w.alive node ≡ true → (later : World)
        → IsLater (happens w (Restart node)) later → (x : CmdId) (y : CmdId)
        → IsBorn (w.attempt x).stage → (w.attempt y).stage ≡ Unborn → IsBorn (later.attempt y).stage
        → (later.attempt y).node ≡ node → (w.attempt x).seq ≡ (later.attempt y).seq → ⊥ }
{}

/// Along a range's list each lease follows the one before: holder and sequence stay and the expiry
/// does not fall, or the sequence rises by one.
pub fn each_lease_follows_the_one_before()
    ensures { (w : World) (k : ℕ) → Follows (state_at w k).lease (state_at w (suc k)).lease }
{}

/// A holder passes its barrier by its own ask of the present sequence and tick 0: where it applies
/// such an ask, its lease is the next one, to the same tick, and the sequence is above the barrier.
pub fn a_holder_passes_its_barrier()
    ensures renewed { (w : World) → (node : ℕ) (ask : LeaseAsk)
        → entry w.log (w.index node) ≡ Lease ask → ask.holder ≡ (here w node).lease.holder
        → ask.prev ≡ (here w node).lease.seq → ask.expires ≡ 0
        → (here (happens w (Apply node)) node).lease ≡ renewed (here w node).lease }
    ensures passed { (w : World) → IsReached w → (node : ℕ) (ask : LeaseAsk)
        → entry w.log (w.index node) ≡ Lease ask → ask.holder ≡ (here w node).lease.holder
        → ask.prev ≡ (here w node).lease.seq → ask.expires ≡ 0
        → (happens w (Apply node)).barrier node < (here (happens w (Apply node)) node).lease.seq }
{}

/// Whatever comes, an attempt that a restart ended has no place but under its last maximum.
pub fn a_restarted_attempt_has_its_last_maximum()
    ensures own { (w : World) → IsReached w → (id : CmdId) (own : ℕ)
        → (w.attempt id).stage ≡ Restarted own
        → (later : World) (k : ℕ) (c : Command) → IsLater w later → IsPlace later id k c
        → c.max ≡ own }
    ensures last { (w : World) → IsReached w → (id : CmdId) (own : ℕ)
        → (w.attempt id).stage ≡ Restarted own
        → (later : World) (k : ℕ) (c : Command) → IsLater w later → IsPlace later id k c
        → IsLast (w.attempt id).maxima c.max }
{}

/// Two places of one command, in whichever ranges and of whichever of its attempts, are one.
pub fn at_most_one_place()
    ensures { (w : Ranges) → AreReached w
        → (q : ℕ) (r : ℕ) (j : ℕ) (k : ℕ) (x : CmdId) (y : CmdId) (c : Command) (d : Command)
        → x.client ≡ y.client → x.seq ≡ y.seq → IsPlace (w.range q) x j c
        → IsPlace (w.range r) y k d → (q ≡ r) × (j ≡ k) }
{}

/// A refused attempt, also one that was turned away at its admission, has no place in any range and
/// gets none, whatever comes.
pub fn refused_has_no_place_in_any_range()
    ensures { (w : Ranges) → AreReached w → (id : CmdId) → IsRefused w id → HasNowhere w id }
{}

/// An attempt that succeeded has a place with its reply, at an index that its node has applied,
/// which is the one place of its command in all ranges.
pub fn success_is_the_one_place()
    ensures { (w : Ranges) → AreReached w → (range : ℕ) (id : CmdId) (reply : Reply)
        → ((w.range range).attempt id).stage ≡ Success reply → IsTheOnePlace w range id reply }
{}

/// Of all ranges together each one is a range as it can be by itself, and one that there is goes on
/// as it can become. Where an attempt was made stays, whatever comes.
pub fn each_range_runs_by_itself()
    ensures reached { (w : Ranges) → AreReached w → (r : ℕ) → IsReached (w.range r) }
    ensures goes_on { (w : Ranges) → AreReached w → (later : Ranges) → AreLater w later → (r : ℕ)
        → w.opened r ≡ true → (later.opened r ≡ true) × IsLater (w.range r) (later.range r) }
    ensures owner { (w : Ranges) → AreReached w → (later : Ranges) → AreLater w later → (id : CmdId)
        → IsMade (w.owner id) → later.owner id ≡ w.owner id }
{}

/// Range 0 starts with no key, and each other range that there is from the split in the list of the
/// range that it was split off from: with the part of the table, the description and the lease that
/// the fold gives there. Its lease applied index is 0.
pub fn ranges_start_from_their_split()
    ensures start { (w : Ranges) → AreReached w → (r : ℕ) → w.opened r ≡ true
        → IsStart (lists w) r (shown (w.range r).start) }
    ensures unapplied { (w : Ranges) → AreReached w → (r : ℕ) → w.opened r ≡ true
        → (w.range r).start.lai ≡ 0 }
{}

/// Two entries that open a range of one number are one entry.
pub fn one_split_opens_a_range()
    ensures { (w : Ranges) → AreReached w
        → (q : ℕ) (r : ℕ) (j : ℕ) (k : ℕ) (s : AppliedState) (t : AppliedState)
        → j < length (w.range q).log → k < length (w.range r).log
        → right_of (state_at (w.range q) j) (entry (w.range q).log j) ≡ Some s
        → right_of (state_at (w.range r) k) (entry (w.range r).log k) ≡ Some t
        → s.desc.id ≡ t.desc.id → (q ≡ r) × (j ≡ k) }
{}

/// A split that is taken opens its right range, which starts from it.
pub fn a_split_opens_its_right_range()
    ensures { (w : Ranges) → AreReached w → (r : ℕ) (k : ℕ) (s : AppliedState)
        → k < length (w.range r).log
        → right_of (state_at (w.range r) k) (entry (w.range r).log k) ≡ Some s
        → (w.opened s.desc.id ≡ true) × ((w.range s.desc.id).start ≡ s) }
{}

/// The record of a place is that its item was taken, and the item stands in the applied list,
/// behind the items of the entries before.
pub fn a_place_is_recorded()
    ensures recorded { (w : World) (id : CmdId) (k : ℕ) (c : Command) → IsPlace w id k c
        → slice_get (records_of w.start w.log) k ≡ Some (kept.Took (item (state_at w k).desc c)) }
    ensures listed { (w : World) (id : CmdId) (k : ℕ) (c : Command) → IsPlace w id k c
        → slice_get (items_to w (length w.log)) (length (items_to w k))
        ≡ Some (item (state_at w k).desc c) }
{}

/// A range's list only grows: later it has the same entries, and the same states up to them.
pub fn a_list_only_grows()
    ensures length { (w : World) (later : World) → IsLater w later
        → length w.log ≤ length later.log }
    ensures entries { (w : World) (later : World) → IsLater w later → (k : ℕ) → k < length w.log
        → entry w.log k ≡ entry later.log k }
    ensures states { (w : World) (later : World) → IsLater w later → (i : ℕ) → i ≤ length w.log
        → state_at w i ≡ state_at later i }
{}

/// A place stays, whatever comes.
pub fn a_place_stays()
    ensures { (w : World) (later : World) → IsLater w later → (id : CmdId) (k : ℕ) (c : Command)
        → IsPlace w id k c → IsPlace later id k c }
{}

/// An attempt that has ended stays as it is, whatever comes.
pub fn an_ended_attempt_stays()
    ensures { (w : World) (later : World) → IsLater w later → (id : CmdId)
        → IsEnded (w.attempt id).stage → w.attempt id ≡ later.attempt id }
{}

/// A node has applied no more entries than the list has, and an attempt that was not made has no
/// maximum.
pub fn a_node_stands_in_the_list()
    ensures within { (w : World) → IsReached w → (node : ℕ) → w.index node ≤ length w.log }
    ensures maxima { (w : World) → IsReached w → (id : CmdId) → (w.attempt id).stage ≡ Unborn
        → (w.attempt id).maxima ≡ [] }
{}

/// A range's state at an index is the one that so many entries of its list make of its start, one
/// after the other.
pub fn a_state_is_that_of_its_entries()
    ensures { (w : World) (i : ℕ) → i ≤ length w.log
        → state_at w i ≡ after_all w.start (take i w.log) }
{}

/// What may be committed stays so, whatever comes.
pub fn what_may_be_committed_stays_so()
    ensures { (w : World) → IsReached w → (later : World) → IsLater w later → (p : Payload)
        → MayCommit w p → MayCommit later p }
{}

/// An event of one node leaves the index, the replica and the barrier of each other one, and each
/// attempt that the other has before or after it; and every event leaves the start.
pub fn an_event_leaves_other_nodes()
    ensures start { (w : World) (e : Event) → (happens w e).start ≡ w.start }
    ensures index { (w : World) (node : ℕ) (e : Event) → (HappensAt w e node → ⊥)
        → (happens w e).index node ≡ w.index node }
    ensures alive { (w : World) (node : ℕ) (e : Event) → (HappensAt w e node → ⊥)
        → (happens w e).alive node ≡ w.alive node }
    ensures barrier { (w : World) (node : ℕ) (e : Event) → (HappensAt w e node → ⊥)
        → (happens w e).barrier node ≡ w.barrier node }
    ensures attempts { (w : World) (node : ℕ) (e : Event) → Lawful w e → (HappensAt w e node → ⊥)
        → (id : CmdId)
        → IsBornAt (w.attempt id) node ⊎ IsBornAt ((happens w e).attempt id) node
        → (happens w e).attempt id ≡ w.attempt id }
{}

/// An attempt that was admitted stays so, whatever comes: at its node, from its index, under its
/// sequence, with what was evaluated.
pub fn an_admitted_attempt_stays_what_it_was()
    ensures born { (w : World) (later : World) → IsLater w later → (id : CmdId)
        → IsBorn (w.attempt id).stage → IsBorn (later.attempt id).stage }
    ensures node { (w : World) (later : World) → IsLater w later → (id : CmdId)
        → IsBorn (w.attempt id).stage → (w.attempt id).node ≡ (later.attempt id).node }
    ensures index { (w : World) (later : World) → IsLater w later → (id : CmdId)
        → IsBorn (w.attempt id).stage → (w.attempt id).from ≡ (later.attempt id).from }
    ensures seq { (w : World) (later : World) → IsLater w later → (id : CmdId)
        → IsBorn (w.attempt id).stage → (w.attempt id).seq ≡ (later.attempt id).seq }
    ensures body { (w : World) (later : World) → IsLater w later → (id : CmdId)
        → IsBorn (w.attempt id).stage → (w.attempt id).body ≡ (later.attempt id).body }
{}

/// At its admission an attempt's index and sequence are its node's, which holds the lease.
pub fn an_attempt_is_admitted_as_its_node_stands()
    ensures attempt { (w : World) (id : CmdId) (node : ℕ) (body : Body)
        → (happens w (Admit id node body)).attempt id ≡ admitted w node body }
    ensures index { (w : World) (e : Event) → Lawful w e → (id : CmdId)
        → (w.attempt id).stage ≡ Unborn → IsBorn ((happens w e).attempt id).stage
        → ((happens w e).attempt id).from ≡ w.index ((happens w e).attempt id).node }
    ensures seq { (w : World) (e : Event) → Lawful w e → (id : CmdId)
        → (w.attempt id).stage ≡ Unborn → IsBorn ((happens w e).attempt id).stage
        → ((happens w e).attempt id).seq ≡ (here w ((happens w e).attempt id).node).lease.seq }
    ensures holder { (w : World) (e : Event) → Lawful w e → (id : CmdId)
        → (w.attempt id).stage ≡ Unborn → IsBorn ((happens w e).attempt id).stage
        → (here w ((happens w e).attempt id).node).lease.holder ≡ ((happens w e).attempt id).node }
{}

/// In every state of a range the lease's holder and its sequence are at least 1, if they are at its
/// start; so in every range that there is.
pub fn holders_and_sequences_are_positive()
    ensures holder { (w : World) → IsReached w → 0 < w.start.lease.holder → (i : ℕ)
        → 0 < (state_at w i).lease.holder }
    ensures seq { (w : World) → 0 < w.start.lease.seq → (i : ℕ) → 0 < (state_at w i).lease.seq }
    ensures each_holder { (w : Ranges) → AreReached w → (r : ℕ) → w.opened r ≡ true → (i : ℕ)
        → 0 < (state_at (w.range r) i).lease.holder }
    ensures each_seq { (w : Ranges) → AreReached w → (r : ℕ) → w.opened r ≡ true → (i : ℕ)
        → 0 < (state_at (w.range r) i).lease.seq }
{}

/// The description of every state of a range has the range's number.
pub fn a_range_keeps_its_number()
    ensures { (w : Ranges) → AreReached w → (r : ℕ) → w.opened r ≡ true → (i : ℕ)
        → (state_at (w.range r) i).desc.id ≡ r }
{}

/// An attempt of a command follows only on the refusal of each one before, in whichever range;
/// attempts count from 1, and one that was admitted in a range was made there.
pub fn a_further_attempt_follows_a_refusal()
    ensures refused { (w : Ranges) → AreReached w → (x : CmdId) (y : CmdId) → x.client ≡ y.client
        → x.seq ≡ y.seq → 0 < x.attempt → x.attempt < y.attempt → IsMade (w.owner y)
        → IsRefused w x }
    ensures counted { (w : Ranges) → AreReached w → (id : CmdId) → IsMade (w.owner id)
        → 0 < id.attempt }
    ensures owned { (w : Ranges) → AreReached w → (r : ℕ) (id : CmdId)
        → IsBorn ((w.range r).attempt id).stage → w.owner id ≡ At r }
{}

/// An attempt is admitted in one range alone.
pub fn an_attempt_is_in_one_range()
    ensures { (w : Ranges) → AreReached w → (id : CmdId) (q : ℕ) (r : ℕ)
        → IsBorn ((w.range q).attempt id).stage → IsBorn ((w.range r).attempt id).stage → q ≡ r }
{}
