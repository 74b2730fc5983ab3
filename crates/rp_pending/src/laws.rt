//! Laws of the definitions, for the proofs above. No program calls these functions.
ghost use Rattle.std.specs.Prelude.{◌≡◌, ℕ, ◌==◌, ◌&&◌, ◌||◌, Bool, true, false, List, IsTrue, IsFalse};
ghost use Rattle.std.specs.List.{filter};
ghost use Rattle.std.specs.List.Sorted.{IsNonDecreasingBy};
ghost use Rattle.rp_pending.specs.declared.proposals.Proposal.{Proposal};
ghost use Rattle.rp_pending.specs.Proposals.{is_proposed};
ghost use Rattle.rp_pending.specs.Refreshes.{by_key, goes_again, goes_back};

/// What is put in order ascends, and items with one key keep their order. So none is lost and none
/// comes twice.
pub fn in_order_by_key()
    ensures ascends { (key : Proposal → ℕ) (ps : List Proposal)
        → IsNonDecreasingBy key (by_key key ps) }
    ensures keeps { (key : Proposal → ℕ) (ps : List Proposal) (n : ℕ)
        → filter (λ p. key p == n) (by_key key ps) ≡ filter (λ p. key p == n) ps }
{}

/// A refresh of all parts the Proposed ones: each goes back or is proposed again, and not both.
pub fn a_refresh_of_all_takes_each_proposed()
    ensures each { (lai : ℕ) (now : ℕ) (p : Proposal)
        → (goes_back lai p || goes_again lai now true p) ≡ is_proposed p.stage }
    ensures once { (lai : ℕ) (now : ℕ) (all : Bool) (p : Proposal)
        → (goes_back lai p && goes_again lai now all p) ≡ false }
{}
