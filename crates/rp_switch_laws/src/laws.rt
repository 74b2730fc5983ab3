//! What no seat of a switch can do, and what it can rely on. No program calls these functions.
ghost use Rattle.std.specs.Prelude.{◌≡◌, ◌≢◌, ℕ, ◌+◌, ◌-◌, ◌<◌, ◌≤◌, List, ◌∷◌, slice_get, Option, None, Some};
ghost use Rattle.rp_base.specs.declared.ids.CmdId.{CmdId};
ghost use Rattle.rp_request.specs.declared.outcomes.Outcome.{Outcome};
ghost use Rattle.rp_request.specs.declared.outcomes.Outcome.TheVariants.{Ambiguous};
ghost use Rattle.rp_request.specs.declared.outcomes.Ambiguity.{Ambiguity};
ghost use Rattle.rp_clients.specs.Tries.{Try};
ghost use Rattle.rp_clients.specs.declared.answers.Answer.TheVariants.{Ended, Over};
ghost use Rattle.rp_events.specs.Nodes.{Node};
ghost use Rattle.rp_events.specs.Worlds.{World, first_world, node_of};
ghost use Rattle.rp_journals.specs.Growth.{Grows};
ghost use Rattle.rp_race.specs.Owed.{heard_from, carried, rounds_in};
ghost use Rattle.rp_race.specs.Played.{is_admission_by};
ghost use Rattle.rp_switch.specs.declared.terms.Terms.{Terms};
ghost use Rattle.rp_switch.specs.Gifts.{tries_known, CarriesClient, MayGive};
ghost use Rattle.rp_switch.specs.Rules.{IsNow, IsTrueOf};
ghost use Rattle.rp_switch.specs.Views.{Lacks, HasNode, OfClient, Knowledge, right_at, choosing, right};
ghost use Rattle.rp_switch_laws.specs.Barred.{times, is_try_of};

/// No end may be posted that no node has: at their start the nodes have none, so a seat that has seen
/// nothing else can post none; nor that of another client's attempt. That all is over may not be posted
/// where a node was seen with fewer than 20,000 rounds, whatever was refused.
pub fn no_answer_is_invented()
    ensures none { (t : Terms) (nodes : ℕ) (client : ℕ) (id : CmdId) (outcome : Outcome)
        → IsTrueOf t (first_world nodes) client (Ended id outcome) → ⊥ }
    ensures others { (t : Terms) (w : World) (client : ℕ) (id : CmdId) (outcome : Outcome)
        → IsTrueOf t w client (Ended id outcome) → id.client ≡ client }
    ensures early { (t : Terms) (w : World) (client : ℕ) → IsTrueOf t w client Over
        → (node : ℕ) (n : Node) → node_of w node ≡ Some n → 20000 ≤ n.rounds }
{}

/// What was seen of a node stands in it when it is taken; so it is none of the nodes as they start,
/// where it has written down or sent anything since.
pub fn what_was_seen_stands_in_the_node()
    ensures { (v : Knowledge) (at : World) → IsNow v at → (place : ℕ) (before now : Node)
        → slice_get v.seen place ≡ Some before → slice_get at place ≡ Some now → Grows before now }
{}

/// What is given back is that node, with all that it had when it was taken.
pub fn no_node_is_forged()
    ensures number { (v : Knowledge) (place : ℕ) (at : World) (number : ℕ) (after : Node)
        → MayGive v (HasNode place at) number after → number ≡ place + 1 }
    ensures drops { (v : Knowledge) (place : ℕ) (at : World) (number : ℕ) (after : Node)
        → MayGive v (HasNode place at) number after → (before : Node)
        → slice_get v.seen place ≡ Some before → slice_get at place ≡ Some before → Grows before after }
{}

/// No seat gives a node back with an admission of a client whose right it lacks.
pub fn no_seat_admits_for_another()
    ensures { (v : Knowledge) (place : ℕ) (at : World) (number : ℕ) (after : Node)
        → MayGive v (HasNode place at) number after → (before : Node)
        → slice_get v.seen place ≡ Some before → slice_get at place ≡ Some before
        → (client : ℕ) → (CarriesClient v client → ⊥)
        → times (is_admission_by client) after ≡ times (is_admission_by client) before }
{}

/// Behind an attempt that ended ambiguous its command is tried no more; and while the client has not
/// learnt how an attempt ended, it tries nothing.
pub fn nothing_follows_an_ambiguous_try()
    ensures ambiguous { (v : Knowledge) (place : ℕ) (at : World) (number : ℕ) (after : Node)
        → MayGive v (HasNode place at) number after → (before : Node)
        → slice_get v.seen place ≡ Some before → slice_get at place ≡ Some before
        → (client : ℕ) (last : Try) (older : List Try) → tries_known v client ≡ last ∷ older
        → (why : Ambiguity) → last.end ≡ Some (Ambiguous why)
        → times (is_try_of client last.id.seq) after ≡ times (is_try_of client last.id.seq) before }
    ensures pending { (v : Knowledge) (place : ℕ) (at : World) (number : ℕ) (after : Node)
        → MayGive v (HasNode place at) number after → (before : Node)
        → slice_get v.seen place ≡ Some before → slice_get at place ≡ Some before
        → (client : ℕ) (last : Try) (older : List Try) → tries_known v client ≡ last ∷ older
        → last.end ≡ None
        → times (is_admission_by client) after ≡ times (is_admission_by client) before }
{}

/// A node that is given back with a further round has heard all that goes to it and is not lost of what
/// the seat saw that the others have sent; and none of them was seen more than three rounds behind.
pub fn a_round_delivers_what_was_seen()
    ensures { (v : Knowledge) (place : ℕ) (at : World) (number : ℕ) (after : Node)
        → MayGive v (HasNode place at) number after → (before : Node)
        → slice_get v.seen place ≡ Some before → slice_get at place ≡ Some before
        → rounds_in after.journal ≢ rounds_in before.journal
        → (from : ℕ) (other : Node) → node_of v.seen from ≡ Some other → from ≢ number
        → (heard_from from after.journal ≡ carried v.terms.rules from number other.sent)
        × (after.rounds ≤ other.rounds + 3) }
{}

/// A seat that is split off for a client has the right of that client, where there was one, and no other.
pub fn a_split_hands_out_one_right()
    ensures { (v : Knowledge) (client : ℕ) (k : ℕ) → k ≢ v.terms.nodes + client - 1
        → right_at (right (choosing (OfClient client) v)).rights k ≡ Lacks }
{}
