//! Laws of the definitions, for the proofs above. No program calls these functions.
ghost use Rattle.std.specs.Prelude.{◌≡◌, ℕ, ◌≤◌, ◌||◌, true, false, List, length, Some, None};
ghost use Rattle.std.specs.List.{list_any};
ghost use Rattle.rp_base.specs.Keys.{IsKey, key_text};
ghost use Rattle.rp_request.specs.declared.outcomes.Outcome.{Outcome};
ghost use Rattle.rp_request.specs.declared.outcomes.Refusal.{Refusal};
ghost use Rattle.rp_request.specs.declared.requests.Request.{Request};
ghost use Rattle.rp_session.specs.Tokens.{token_of, token_text, has_dash, IsAdd};
ghost use Rattle.rp_session.specs.Machine.{Adding, Answer, answer_of, command};
ghost use Rattle.rp_session.specs.Runs.{after_all, ended, is_doubtful, is_end, IsOfAdd, CanSend, FailsUndoubted, DoneBy};
ghost use Rattle.rp_session.specs.declared.turns.Turn.TheVariants.{Done, Failed};

/// A token is a key.
#[tactic(auto, using(crate::proofs::TokenLaws::is_key_token))]
pub fn tokens_are_keys()
    ensures { (client : ℕ) (number : ℕ) (key : ℕ) → IsKey key → length (key_text key) ≤ 7
        → IsKey (token_of client number key) }
{}

/// A token is spelled as it is said to be.
#[tactic(auto, using(crate::proofs::TokenLaws::token_spelled))]
pub fn tokens_are_spelled_so()
    ensures { (client : ℕ) (number : ℕ) (key : ℕ) → IsKey key → length (key_text key) ≤ 7
        → key_text (token_of client number key) ≡ token_text client number key }
{}

/// Each add has a token of its own.
pub fn each_add_has_its_token()
    ensures { (c : ℕ) (n : ℕ) (k : ℕ) (d : ℕ) (m : ℕ) (l : ℕ) (by : ℕ) (more : ℕ) → IsKey k → IsKey l
        → IsAdd c n k by → IsAdd d m l more → token_of c n k ≡ token_of d m l
        → (c ≡ d) × (n ≡ m) × (k ≡ l) }
{}

/// No key without a dash is a token.
#[tactic(auto, using(crate::proofs::TokenLaws::token_has_dash))]
pub fn tokens_have_a_dash()
    ensures { (client : ℕ) (number : ℕ) (key : ℕ) → IsKey key → length (key_text key) ≤ 7
        → has_dash (token_of client number key) ≡ true }
{}

/// Whatever the outcomes, an add sends its own three commands alone, over its one token.
#[tactic(auto, using(crate::proofs::RunLaws::only_its_own))]
pub fn an_add_sends_its_own_commands()
    ensures { (s : Adding) (outcomes : List Outcome) (t : Adding) → after_all s outcomes ≡ Some t
        → IsOfAdd s (command t) }
{}

/// An open add may come to send each of its commands yet, in whichever state it is.
#[tactic(auto, using(crate::proofs::RunLaws::can_send))]
pub fn an_open_add_can_send_each_command()
    ensures { (s : Adding) (request : Request) → s.has_ended ≡ false → IsOfAdd s request
        → CanSend s request }
{}

/// An add that has ended sends nothing more.
#[tactic(auto, using(crate::proofs::RunLaws::ended_for_good))]
pub fn an_ended_add_sends_nothing()
    ensures { (s : Adding) (outcome : Outcome) → s.has_ended ≡ true → answer_of s outcome ≡ None }
{}

/// An add ends with the turn that says done or failed, and with no other.
#[tactic(auto, using(crate::proofs::RunLaws::turn_ends))]
pub fn an_add_ends_done_or_failed()
    ensures { (s : Adding) (outcome : Outcome) (a : Answer) → answer_of s outcome ≡ Some a
        → a.state.has_ended ≡ is_end a.turn }
{}

/// An add is done where its move or its confirming command took effect.
#[tactic(auto, using(crate::proofs::RunLaws::done_by))]
pub fn an_add_is_done_by_an_effect()
    ensures { (s : Adding) (outcome : Outcome) (a : Answer) → answer_of s outcome ≡ Some a
        → a.turn ≡ Done → DoneBy s outcome }
{}

/// An add knows whether one of its moves ended ambiguous.
#[tactic(auto, using(crate::proofs::RunLaws::doubts))]
pub fn an_ambiguous_move_is_remembered()
    ensures { (s : Adding) (outcomes : List Outcome) (t : Adding) → after_all s outcomes ≡ Some t
        → t.is_doubted ≡ (s.is_doubted || list_any is_doubtful (ended s outcomes)) }
{}

/// An add fails by the refusal of its move, and only where none of its moves ended ambiguous.
pub fn an_add_fails_undoubted()
    ensures { (s : Adding) (outcomes : List Outcome) (t : Adding) (outcome : Outcome) (a : Answer) (why : Refusal)
        → after_all s outcomes ≡ Some t → answer_of t outcome ≡ Some a → a.turn ≡ Failed why
        → FailsUndoubted s outcomes t outcome why }
{}
