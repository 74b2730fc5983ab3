//! Laws of the definitions, for the proofs above. No program calls these functions.
ghost use Rattle.std.specs.Prelude.{◌≡◌, ◌≢◌, ℕ, ◌+◌, ◌^◌, ◌<◌, ◌≤◌, ◌↔◌, ◌⊎◌, IsTrue, true, List, length, Some, Ok, Err};
ghost use Rattle.std.specs.List.{prefix_len};
ghost use Rattle.std.specs.Fmt.{decimal};
ghost use Rattle.std.specs.Ordering.{nat_cmp};
ghost use Rattle.std.specs.Cmp.Lexicographic.{slice_cmp};
ghost use Rattle.rp_base.specs.Keys.{is_key_byte, key_of, key_text, IsKey, IsBadPlace, IsShown, bound_text};
ghost use Rattle.rp_base.specs.Numbers.{number_of, u64_of};
ghost use Rattle.rp_base.specs.Spans.{Holds, Overlaps, meets, LiesWithin, within, one_key};
ghost use Rattle.rp_base.specs.Splits.{InBounds, split_of, ComesFrom};
ghost use Rattle.rp_base.specs.Leases.{lease_after, Follows};
ghost use Rattle.rp_base.specs.Limits.{buffer_capacity, batch_most, first_term};
ghost use Rattle.rp_base.specs.ShortTexts.{text_of, IsText, IsBadTextPlace};
ghost use Rattle.rp_base.specs.Values.{IsValue, value_eq, value_text};
ghost use Rattle.rp_base.specs.declared.keys.BadKey.{BadKey};
ghost use Rattle.rp_base.specs.declared.spans.Span.{Span};
ghost use Rattle.rp_base.specs.declared.ranges.Desc.{Desc};
ghost use Rattle.rp_base.specs.declared.leases.Lease.{Lease};
ghost use Rattle.rp_base.specs.declared.leases.LeaseAsk.{LeaseAsk};
ghost use Rattle.rp_base.specs.declared.short_texts.BadText.{BadText};
ghost use Rattle.rp_base.specs.declared.values.Value.{Value};
ghost use Rattle.rp_base.specs.declared.values.Value.TheVariants.{Number, Text};

use crate::limits::{BATCH_MOST, BUFFER_CAPACITY, FIRST_TERM};

/// A key that is read is so spelled.
#[tactic(auto, using(crate::proofs::KeyLaws::spelled_as_read))]
pub fn key_spelled_as_read()
    ensures { (bs : List ℕ) (n : ℕ) → key_of bs ≡ Ok n → key_text n ≡ bs }
{}

/// Each spelling of a key is read.
#[tactic(auto, using(crate::proofs::KeyLaws::read_as_spelled))]
pub fn key_read_as_spelled()
    ensures { (n : ℕ) → IsKey n → key_of (key_text n) ≡ Ok n }
{}

/// A text that is no key is refused at a place that keeps it from being one, and no lesser place does.
pub fn key_refused_at_least_place()
    ensures { (bs : List ℕ) (e : BadKey) → key_of bs ≡ Err e → IsBadPlace bs e.place × ((k : ℕ) → k < e.place → ¬ (IsBadPlace bs k)) }
{}

/// A text that is a key has no such place.
pub fn key_read_where_no_place_is_bad()
    ensures { (bs : List ℕ) (n : ℕ) → key_of bs ≡ Ok n → (k : ℕ) → ¬ (IsBadPlace bs k) }
{}

/// A key's spelling has 1 to 16 bytes, all of a key.
#[tactic(auto, using(crate::proofs::KeyLaws::key_spelling))]
pub fn key_spelling_in_alphabet()
    ensures { (n : ℕ) → IsKey n → (1 ≤ length (key_text n)) × (length (key_text n) ≤ 16) × (prefix_len is_key_byte (key_text n) ≡ length (key_text n)) }
{}

/// Two keys with one number are one key.
#[tactic(auto, using(crate::proofs::KeyLaws::one_spelling))]
pub fn key_spelled_once()
    ensures { (xs : List ℕ) (ys : List ℕ) (n : ℕ) → key_of xs ≡ Ok n → key_of ys ≡ Ok n → xs ≡ ys }
{}

/// Keys are in the order of their bytes.
#[tactic(auto, using(crate::proofs::KeyLaws::order_of_bytes))]
pub fn keys_in_order_of_bytes()
    ensures { (m : ℕ) (n : ℕ) → IsKey m → IsKey n → nat_cmp m n ≡ slice_cmp nat_cmp (key_text m) (key_text n) }
{}

/// Bounds that are shown alike are the same.
#[tactic(auto, using(crate::proofs::KeyLaws::one_bound))]
pub fn bounds_shown_apart()
    ensures { (m : ℕ) (n : ℕ) → IsShown m → IsShown n → bound_text m ≡ bound_text n → m ≡ n }
{}

/// A number that is read is the value of its digits.
#[tactic(auto, using(crate::proofs::NumberLaws::value_as_read))]
pub fn number_is_value_of_digits()
    ensures { (bs : List ℕ) (n : ℕ) → u64_of bs ≡ Ok n → (n ≡ number_of bs) × (n < 2 ^ 64) }
{}

/// A number that is written is read.
#[tactic(auto, using(crate::proofs::NumberLaws::read_as_written))]
pub fn number_read_as_written()
    ensures { (n : ℕ) → n < 2 ^ 64 → u64_of (decimal n) ≡ Ok n }
{}

/// The test says whether two spans share a number.
#[tactic(auto, using(crate::proofs::SpanLaws::meets_overlaps))]
pub fn spans_meet_where_they_share()
    ensures { (s : Span) (t : Span) → IsTrue (meets s t) ↔ Overlaps s t }
{}

/// The test says whether all numbers of a span lie within bounds.
#[tactic(auto, using(crate::proofs::SpanLaws::within_lies))]
pub fn spans_lie_within()
    ensures { (s : Span) (start : ℕ) (end : ℕ) → IsTrue (within s start end) ↔ LiesWithin s start end }
{}

/// A key's span has the key's number and no other.
#[tactic(auto, using(crate::proofs::SpanLaws::one_key_holds))]
pub fn one_key_alone()
    ensures { (key : ℕ) (n : ℕ) → Holds (one_key key) n ↔ (n ≡ key) }
{}

/// The two parts of a split have no number in common.
#[tactic(auto, using(crate::proofs::SplitLaws::parts_apart))]
pub fn parts_meet_nowhere()
    ensures { (d : Desc) (key : ℕ) (left : Desc) (right : Desc) → split_of d key ≡ Ok (left, right) → (n : ℕ) → InBounds left n → ¬ (InBounds right n) }
{}

/// The two parts of a split have together the numbers of the whole.
#[tactic(auto, using(crate::proofs::SplitLaws::parts_together))]
pub fn parts_are_the_whole()
    ensures { (d : Desc) (key : ℕ) (left : Desc) (right : Desc) → split_of d key ≡ Ok (left, right) → InBounds d key → (n : ℕ) → InBounds d n ↔ (InBounds left n ⊎ InBounds right n) }
{}

/// The right part's id is the left one's plus 2 to the level before the split.
#[tactic(auto, using(crate::proofs::SplitLaws::right_id))]
pub fn right_id_above_left()
    ensures { (d : Desc) (key : ℕ) (left : Desc) (right : Desc) → split_of d key ≡ Ok (left, right) → right.id ≡ left.id + 2 ^ d.level }
{}

/// Whatever splits follow, the ranges that come from the two parts have different ids.
#[tactic(auto, using(crate::proofs::SplitLaws::ids_apart))]
pub fn range_ids_differ()
    ensures { (d : Desc) (key : ℕ) (left : Desc) (right : Desc) (a : Desc) (b : Desc) → split_of d key ≡ Ok (left, right) → ComesFrom left a → ComesFrom right b → a.id ≢ b.id }
{}

/// A lease's sequence never falls.
#[tactic(auto, using(crate::proofs::LeaseLaws::lease_seq_rises))]
pub fn lease_seq_never_falls()
    ensures { (old : Lease) (ask : LeaseAsk) (new : Lease)
        → lease_after old ask ≡ Some new → old.seq ≤ new.seq }
{}

/// Holder and sequence stay and the expiry does not fall, or the sequence rises by one.
#[tactic(auto, using(crate::proofs::LeaseLaws::lease_follows))]
pub fn lease_stays_or_moves()
    ensures { (old : Lease) (ask : LeaseAsk) (new : Lease)
        → lease_after old ask ≡ Some new → Follows old new }
{}

/// Of two leases that follow each other under one sequence the holder is the same.
pub fn one_sequence_has_one_holder()
    ensures { (old : Lease) (new : Lease)
        → Follows old new → new.seq ≡ old.seq → new.holder ≡ old.holder }
{}

/// The constants are the numbers that definitions name.
pub fn constants_as_named()
    ensures buffer { BUFFER_CAPACITY ≡ buffer_capacity }
    ensures batch { BATCH_MOST ≡ batch_most }
    ensures term { FIRST_TERM ≡ first_term }
{}

/// What is read as a text is as it was, and is a text.
pub fn text_read_as_it_was()
    ensures { (bs : List ℕ) (text : List ℕ) → text_of bs ≡ Ok text → (text ≡ bs) × IsText text }
{}

/// Each text is read.
#[tactic(auto, using(crate::proofs::TextLaws::read_as_it_is))]
pub fn texts_are_read()
    ensures { (bs : List ℕ) → IsText bs → text_of bs ≡ Ok bs }
{}

/// Bytes that are no text are refused at a place that keeps them from being one, and no lesser place
/// does.
pub fn text_refused_at_least_place()
    ensures { (bs : List ℕ) (e : BadText) → text_of bs ≡ Err e
        → IsBadTextPlace bs e.place × ((k : ℕ) → k < e.place → ¬ (IsBadTextPlace bs k)) }
{}

/// A number and a text are never spelled alike.
#[tactic(auto, using(crate::proofs::ValueLaws::number_no_text))]
pub fn numbers_shown_unlike_texts()
    ensures { (n : ℕ) (text : List ℕ) → n < 2 ^ 64
        → ¬ (value_text (Number n) ≡ value_text (Text text)) }
{}

/// The test of two values says whether they are the same.
pub fn values_equal_where_same()
    ensures { (v : Value) (w : Value) → (value_eq v w ≡ true) ↔ (v ≡ w) }
{}

/// Values that are spelled alike are the same.
#[tactic(auto, using(crate::proofs::ValueLaws::one_value))]
pub fn values_shown_apart()
    ensures { (v : Value) (w : Value) → IsValue v → IsValue w
        → value_text v ≡ value_text w → v ≡ w }
{}
