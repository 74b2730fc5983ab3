//! Laws of the definitions, for the proofs above. No program calls these functions.
ghost use Rattle.std.specs.Prelude.{◌≡◌, ◌↔◌, ℕ, List, [], ◌∷◌, ◌++◌, length, take, drop, Ok};
ghost use Rattle.rp_request.specs.declared.Payload.{Payload};
ghost use Rattle.rp_request.specs.Fits.{AreBytes, FitsPayload};
ghost use Rattle.rp_codec.specs.Reading.{bad, begins_with, payload_in};
ghost use Rattle.rp_codec.specs.Spelling.{spelling};
ghost use Rattle.rp_codec.specs.Stops.{IsBadPlace};
ghost use Rattle.rp_request.specs.Texts.{payload_has_text};
ghost use Rattle.rp_codec.specs.Worked.{put_of_a, put_bytes, text_of_a, text_put_bytes, number_by_2, put_byte};
ghost use Rattle.rp_request.specs.declared.Payload.TheVariants.{Nothing};

/// Each payload's spelling is read, and gives the payload.
#[tactic(auto, using(crate::proofs::SpellingLaws::read_as_spelled))]
pub fn what_is_spelled_is_read()
    ensures { (p : Payload) → FitsPayload p → payload_in (spelling p) ≡ Ok p }
{}

/// Bytes that are read as a payload are its spelling.
pub fn what_is_read_is_so_spelled()
    ensures { (bytes : List ℕ) (p : Payload) → AreBytes bytes → payload_in bytes ≡ Ok p → (bytes ≡ spelling p) × FitsPayload p }
{}

/// Payloads with one spelling are one payload.
#[tactic(auto, using(crate::proofs::SpellingLaws::one_spelling))]
pub fn one_spelling_is_of_one_payload()
    ensures { (p : Payload) (q : Payload) → FitsPayload p → FitsPayload q → spelling p ≡ spelling q → p ≡ q }
{}

/// No spelling begins another one.
pub fn no_spelling_begins_another()
    ensures { (p : Payload) (q : Payload) (more : List ℕ) → FitsPayload p → FitsPayload q → spelling p ++ more ≡ spelling q → (more ≡ []) × (p ≡ q) }
{}

/// Bytes behind a payload are bad at the payload's length.
#[tactic(auto, using(crate::proofs::SpellingLaws::read_past))]
pub fn bytes_behind_a_payload_are_bad()
    ensures { (p : Payload) (b : ℕ) (more : List ℕ) → FitsPayload p → payload_in (spelling p ++ b ∷ more) ≡ bad (length (spelling p)) }
{}

/// A spelling begins with 2 exactly where a text is held.
#[tactic(auto, using(crate::proofs::SpellingLaws::version_says))]
pub fn version_2_is_for_texts_alone()
    ensures { (p : Payload) → begins_with 2 (spelling p) ≡ payload_has_text p }
{}

/// Bytes are refused exactly where some place is bad, and that place is named.
pub fn a_bad_place_is_where_reading_stops()
    ensures { (bytes : List ℕ) (place : ℕ) → (payload_in bytes ≡ bad place) ↔ IsBadPlace bytes place }
{}

/// A put is these 51 bytes, and is read from them; it is bad at 43 without the last of them, and at
/// 51 with a byte behind them.
#[tactic(auto, using(crate::proofs::WorkedBytes::put_spelled, crate::proofs::WorkedBytes::put_read, crate::proofs::WorkedBytes::put_cut, crate::proofs::WorkedBytes::put_behind))]
pub fn a_put_is_51_bytes()
    ensures spelled { spelling put_of_a ≡ put_bytes }
    ensures read { payload_in put_bytes ≡ Ok put_of_a }
    ensures cut { payload_in (take 50 put_bytes) ≡ bad 43 }
    ensures behind { payload_in (put_bytes ++ 0 ∷ []) ≡ bad 51 }
{}

/// A put of a text is these 43 bytes, of version 2, and is read from them; it is bad at 43 with a
/// byte behind them, at the text's length byte where a byte of the text is a blank, and as
/// version 1 where an option's byte must stand.
#[tactic(auto, using(crate::proofs::WorkedBytes::text_spelled, crate::proofs::WorkedBytes::text_read, crate::proofs::WorkedBytes::text_behind, crate::proofs::WorkedBytes::text_with_blank, crate::proofs::WorkedBytes::text_as_version_1))]
pub fn a_put_of_a_text_is_43_bytes()
    ensures spelled { spelling text_of_a ≡ text_put_bytes }
    ensures read { payload_in text_put_bytes ≡ Ok text_of_a }
    ensures behind { payload_in (text_put_bytes ++ 0 ∷ []) ≡ bad 43 }
    ensures blank { payload_in (put_byte 31 32 text_put_bytes) ≡ bad 30 }
    ensures first { payload_in (1 ∷ drop 1 text_put_bytes) ≡ bad 38 }
{}

/// Version 2 without a text is bad at its version byte.
#[tactic(auto, using(crate::proofs::WorkedBytes::number_as_version_2))]
pub fn a_put_of_a_number_is_not_version_2()
    ensures { payload_in number_by_2 ≡ bad 0 }
{}

/// `Nothing` is two bytes, and no bytes are bad at 0.
#[tactic(auto, using(crate::proofs::WorkedBytes::nothing_read, crate::proofs::WorkedBytes::nothing_at_all))]
pub fn nothing_is_two_bytes()
    ensures read { payload_in (1 ∷ 0 ∷ []) ≡ Ok Nothing }
    ensures none { payload_in [] ≡ bad 0 }
{}
