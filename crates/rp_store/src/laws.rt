//! Laws of the definitions, for the proofs above. No program calls these functions.
ghost use Rattle.std.specs.Prelude.{◌≡◌, ℕ, List, [], Result, Ok};
ghost use Rattle.rp_store.specs.Records.{Gives};

/// A file gives one answer.
pub fn a_file_gives_one_answer()
    ensures { (file : List ℕ) (a b : Result (List (List ℕ)) ℕ) → Gives file a → Gives file b → a ≡ b }
{}

/// Each file gives some answer.
pub fn each_file_gives_an_answer()
    ensures { (file : List ℕ) → (answer : Result (List (List ℕ)) ℕ) × Gives file answer }
{}

/// The empty file gives no payload, and is not damaged.
pub fn the_empty_file_is_whole()
    ensures { Gives [] (Ok []) }
{}
