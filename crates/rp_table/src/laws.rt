//! Laws of tables, for the proofs above. No program calls these functions.
ghost use Rattle.std.specs.Prelude.{◌≡◌, ℕ, ◌++◌, nat_lt, nat_le};
ghost use Rattle.std.specs.FinMap.{entries, retain_keys};
ghost use Rattle.rp_base.specs.Tables.{Table};

/// The rows below a key and then those from the key on are the rows of the table.
#[tactic(auto, using(crate::proofs::Edits::parts_are_whole))]
pub fn parts_are_whole()
    ensures { (t : Table) (key : ℕ)
        → entries (retain_keys t (λ k. nat_lt k key)) ++ entries (retain_keys t (λ k. nat_le key k)) ≡ entries t }
{}
