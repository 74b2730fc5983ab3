//! Laws of the definitions, for the proofs above. No program calls these functions.
ghost use Rattle.std.specs.Prelude.{◌≡◌, ℕ, ◌<◌, ◌+◌, ◌-◌, ◌^◌, Bool, nat_lt, if◌then◌else◌, IsTrue, IsFalse, IfOk, List, ◌++◌, option_and_then, ◌≤◌, length, Ok, ◌≢◌, ◌↔◌, ◌⊎◌};
ghost use Rattle.std.specs.FinMap.{get, retain_keys};
ghost use Rattle.std.specs.List.{list_any, All};
ghost use Rattle.rp_base.specs.Leases.{Follows};
ghost use Rattle.rp_base.specs.Spans.{span_list, any_meet};
ghost use Rattle.rp_base.specs.declared.ranges.Desc.{Desc};
ghost use Rattle.rp_request.specs.declared.requests.Request.{Request};
ghost use Rattle.rp_request.specs.declared.items.Place.{Place};
ghost use Rattle.rp_base.specs.Tables.{Table, is_between, below, from_on};
ghost use Rattle.rp_request.specs.Covers.{covers, is_split, spans_of, HasKeys, Apart};
ghost use Rattle.rp_request.specs.Effect.{effect, seen};
ghost use Rattle.rp_request.specs.Items.{State, fold};
ghost use Rattle.rp_request.specs.Places.{places_of, IsPlaceOf, IsOnce};
ghost use Rattle.rp_request.specs.declared.requests.Request.TheVariants.{Split};
ghost use Rattle.rp_request.specs.declared.evaluations.Evaluated.{Evaluated};
ghost use Rattle.rp_request.specs.Batches.{batch_of, key_of};
ghost use Rattle.rp_request.specs.Evaluations.{evaluated, Does};
ghost use Rattle.rp_base.specs.declared.leases.Lease.{Lease};
ghost use Rattle.rp_base.specs.declared.leases.LeaseAsk.{LeaseAsk};
ghost use Rattle.rp_request.specs.declared.commands.Command.{Command};
ghost use Rattle.rp_request.specs.declared.commands.Payload.{Payload};
ghost use Rattle.rp_request.specs.declared.commands.Payload.TheVariants as payloads;
ghost use Rattle.rp_request.specs.declared.items.Place.TheVariants as places;
ghost use Rattle.rp_request.specs.declared.items.Record.TheVariants as records;
ghost use Rattle.rp_request.specs.declared.verdicts.Verdict.TheVariants.{Took};
ghost use Rattle.rp_request.specs.Applied.{AppliedState, verdict, record_of, after_all, records_of, IsBlocked};
ghost use Rattle.rp_request.specs.Onward.{IsOnward};

/// Two tables that agree on the keys that a request covers give it the same reply or refusal, the
/// same description and the same changes.
#[tactic(auto, using(crate::proofs::Locality::reads))]
pub fn effect_reads_what_it_covers()
    ensures { (s : Table) (t : Table) (d : Desc) (r : Request) → retain_keys s (covers r) ≡ retain_keys t (covers r)
        → seen (covers r) (effect s d r) ≡ seen (covers r) (effect t d r) }
{}

/// What a request does not cover stays.
#[tactic(auto, using(crate::proofs::Locality::leaves))]
pub fn effect_leaves_the_rest()
    ensures { (s : Table) (d : Desc) (r : Request) (p : ℕ → Bool) → Apart p (covers r)
        → IfOk (effect s d r) (λ e. retain_keys e.table p ≡ retain_keys s p) }
{}

/// The fold of two lists one after the other.
#[tactic(auto, using(crate::proofs::Folds::fold_further))]
pub fn fold_goes_on()
    ensures { (s : State) (xs : List Place) (ys : List Place) → fold s (xs ++ ys) ≡ option_and_then (λ t. fold t ys) (fold s xs) }
{}

/// Only a split changes the description.
#[tactic(auto, using(crate::proofs::Locality::keeps_desc))]
pub fn only_a_split_changes_the_description()
    ensures { (s : Table) (d : Desc) (r : Request) → IsFalse (is_split r) → IfOk (effect s d r) (λ e. e.desc ≡ d) }
{}

/// The values of a table are those of its part below a key and those of its part from the key on.
#[tactic(auto, using(crate::proofs::Tables::in_parts))]
pub fn parts_have_the_values()
    ensures { (t : Table) (key : ℕ) (q : ℕ) → get t q ≡ (if nat_lt q key then get (below t key) q else get (from_on t key) q) }
{}

/// Each request covers a key.
#[tactic(auto, using(crate::proofs::Covering::some_key))]
pub fn each_request_covers_a_key()
    ensures { (r : Request) → (q : ℕ) × IsTrue (covers r q) }
{}

/// In the key space a request covers the keys of its spans.
#[tactic(auto, using(crate::proofs::Covering::by_spans))]
pub fn a_request_covers_its_spans()
    ensures { (r : Request) (q : ℕ) → q < 2 ^ 128 - 1
        → covers r q ≡ list_any (λ s. is_between s.start s.end q) (span_list (spans_of r)) }
{}

/// Two requests whose spans do not meet cover no key together.
#[tactic(auto, using(crate::proofs::Covering::apart))]
pub fn spans_apart_cover_apart()
    ensures { (q : Request) (r : Request) → HasKeys q → HasKeys r → IsFalse (any_meet (spans_of q) (spans_of r)) → Apart (covers q) (covers r) }
{}

/// The places of a command in two lists one after the other.
#[tactic(auto, using(crate::proofs::Once::places_further))]
pub fn places_add_up()
    ensures { (client : ℕ) (seq : ℕ) (xs : List Place) (ys : List Place)
        → places_of client seq (xs ++ ys) ≡ places_of client seq xs + places_of client seq ys }
{}

/// A command has at most one place in a list where any two of its places are one.
#[tactic(auto, using(crate::proofs::Once::once_by_index))]
pub fn one_place_is_at_most_once()
    ensures { (items : List Place)
        → ((client : ℕ) (seq : ℕ) (i : ℕ) (j : ℕ) → IsPlaceOf (λ _. items) client seq 0 i → IsPlaceOf (λ _. items) client seq 0 j → i ≡ j)
        → IsOnce items }
{}

/// Where each command has at most one place in a list, any two of its places are one.
#[tactic(auto, using(crate::proofs::Once::index_by_once))]
pub fn at_most_once_is_one_place()
    ensures { (items : List Place) → IsOnce items → (client : ℕ) (seq : ℕ) (i : ℕ) (j : ℕ)
        → IsPlaceOf (λ _. items) client seq 0 i → IsPlaceOf (λ _. items) client seq 0 j → i ≡ j }
{}

/// Two tables that agree on the keys that a request covers give it the same batch and reply, or the
/// same refusal.
pub fn evaluation_reads_what_it_covers()
    ensures { (s : Table) (t : Table) (d : Desc) (r : Request) → retain_keys s (covers r) ≡ retain_keys t (covers r)
        → evaluated s d r ≡ evaluated t d r }
{}

/// Each write of a batch is to a key that the request covers.
pub fn a_batch_writes_what_is_covered()
    ensures { (t : Table) (r : Request) → All (λ op. IsTrue (covers r (key_of op))) (batch_of t r) }
{}

/// What was evaluated on a table does there what the request's effect does.
pub fn a_batch_does_the_effect()
    ensures { (t : Table) (d : Desc) (r : Request) (e : Evaluated) → evaluated t d r ≡ Ok e → Does t d r e }
{}

/// What was evaluated on one table does what the request's effect does, on any table that agrees with
/// it on the keys that the request covers.
pub fn a_batch_does_the_effect_where_tables_agree()
    ensures { (s : Table) (t : Table) (d : Desc) (r : Request) (e : Evaluated) → retain_keys s (covers r) ≡ retain_keys t (covers r)
        → evaluated s d r ≡ Ok e → Does t d r e }
{}

/// A batch has at most 16 writes.
pub fn a_batch_has_at_most_16_writes()
    ensures { (t : Table) (d : Desc) (r : Request) (e : Evaluated) → evaluated t d r ≡ Ok e → length e.batch ≤ 16 }
{}

/// A split covers every key.
pub fn a_split_covers_every_key()
    ensures { (key : ℕ) (q : ℕ) → IsTrue (covers (Split key) q) }
{}

/// A command is taken exactly where its lease sequence is the present one and its maximum is above the
/// lease applied index.
pub fn a_command_is_taken_exactly_where()
    ensures { (s : AppliedState) (c : Command)
        → (verdict s (payloads.Write c) ≡ Took) ↔ ((c.seq ≡ s.lease.seq) × (s.lai < c.max)) }
{}

/// The lease of an ask that is taken follows the one before it.
pub fn a_taken_ask_gives_the_lease_that_follows()
    ensures { (s : AppliedState) (ask : LeaseAsk) (new : Lease)
        → record_of s (payloads.Lease ask) ≡ records.Took (places.Lease new) → Follows s.lease new }
{}

/// Along a list of payloads neither the lease applied index nor the lease sequence falls, and where
/// the sequence is the same, so is the lease's holder.
pub fn numbers_never_fall()
    ensures { (s : AppliedState) (ps : List Payload) → IsOnward s (after_all s ps) }
{}

/// A command whose maximum is at or below the lease applied index, or whose sequence is below the
/// lease's, is taken neither here nor at any later point of a list.
pub fn a_blocked_command_is_never_taken()
    ensures { (s : AppliedState) (ps : List Payload) (c : Command) → IsBlocked s c.seq c.max
        → verdict (after_all s ps) (payloads.Write c) ≢ Took }
{}

/// The state after two lists is that after the second one, from the state after the first one on.
#[tactic(auto, using(crate::proofs::Numbers::after_further))]
pub fn states_go_on()
    ensures { (s : AppliedState) (ps : List Payload) (qs : List Payload) → after_all s (ps ++ qs) ≡ after_all (after_all s ps) qs }
{}

/// The records of two lists are those of the first one, and those of the second one from the state
/// after the first one on.
#[tactic(auto, using(crate::proofs::Numbers::records_further))]
pub fn records_go_on()
    ensures { (s : AppliedState) (ps : List Payload) (qs : List Payload)
        → records_of s (ps ++ qs) ≡ records_of s ps ++ records_of (after_all s ps) qs }
{}
