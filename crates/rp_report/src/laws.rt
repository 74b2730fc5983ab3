//! Laws of the texts, for the proofs above. No program calls these functions.
ghost use Rattle.std.specs.Prelude.{map, ◌≡◌, ℕ, ◌<◌, ◌^◌};
ghost use Rattle.rp_request.specs.Fits.{FitsRequest, FitsReply};
ghost use Rattle.rp_request.specs.declared.requests.Request.{Request};
ghost use Rattle.rp_request.specs.declared.outcomes.Reply.{Reply};
ghost use Rattle.rp_request.specs.declared.outcomes.Refusal.{Refusal};
ghost use Rattle.rp_request.specs.declared.outcomes.End.{End};
ghost use Rattle.rp_request.specs.declared.items.Place.{Place};
ghost use Rattle.rp_request.specs.declared.items.Record.{Record};
ghost use Rattle.rp_report.specs.Items.{request_text, reply_text, item_text, record_line};
ghost use Rattle.rp_report.specs.Outcomes.{refusal_text, end_text};
ghost use Rattle.rp_report.specs.Report.{report};
ghost use Rattle.rp_report.specs.declared.views.View.{View};
ghost use Rattle.rp_report.specs.Widths.{FitsRefusal, FitsEnd, FitsPlace, FitsRecord, FitsView};
ghost use Rattle.rp_report.specs.InTexts.{reply_in_text, refusal_in_text, end_in_text, item_in_text, record_in_text, entries_in, entry_in_text};

/// Requests with one text are one request.
#[tactic(auto, using(crate::proofs::RequestWords::one_request))]
pub fn requests_are_told_apart()
    ensures { (p : Request) (q : Request) → FitsRequest p → FitsRequest q → request_text p ≡ request_text q
        → p ≡ q }
{}

/// Replies with one text are the same but for what their number counts.
#[tactic(auto, using(crate::proofs::EndWords::one_reply))]
pub fn replies_are_told_apart()
    ensures { (r : Reply) (s : Reply) → FitsReply r → FitsReply s → reply_text r ≡ reply_text s
        → reply_in_text r ≡ reply_in_text s }
{}

/// Refusals with one text are the same but for the tick at which a lease expires and the span that
/// is held.
#[tactic(auto, using(crate::proofs::EndWords::one_refusal))]
pub fn refusals_are_told_apart()
    ensures { (p : Refusal) (q : Refusal) → FitsRefusal p → FitsRefusal q
        → refusal_text p ≡ refusal_text q → refusal_in_text p ≡ refusal_in_text q }
{}

/// Ends of attempts with one text are the same but for what the texts of replies and refusals leave
/// out.
#[tactic(auto, using(crate::proofs::EndWords::one_end))]
pub fn ends_are_told_apart()
    ensures { (a : End) (b : End) → FitsEnd a → FitsEnd b → end_text a ≡ end_text b
        → end_in_text a ≡ end_in_text b }
{}

/// Items with one text are the same but for what the number of a reply counts.
#[tactic(auto, using(crate::proofs::ItemWords::one_item))]
pub fn items_are_told_apart()
    ensures { (i : Place) (j : Place) → FitsPlace i → FitsPlace j → item_text i ≡ item_text j
        → item_in_text i ≡ item_in_text j }
{}

/// Records with one line stand at one index and are the same, but for what the number of a reply
/// counts.
pub fn records_are_told_apart()
    ensures { (m : ℕ) (n : ℕ) (r : Record) (s : Record) → m < 2 ^ 64 → n < 2 ^ 64
        → FitsRecord r → FitsRecord s → record_line m r ≡ record_line n s → (m ≡ n) × (record_in_text r ≡ record_in_text s) }
{}

/// Views with one report have the same records at the same indexes in the same order.
pub fn reports_tell_their_records()
    ensures { (v : View) (w : View) → FitsView v → FitsView w → report v ≡ report w
        → map entry_in_text (entries_in v.ranges) ≡ map entry_in_text (entries_in w.ranges) }
{}

/// What the texts tell is all that they show: with the rest left out they are the same.
pub fn texts_show_what_they_tell()
    ensures replies { (r : Reply) → reply_text (reply_in_text r) ≡ reply_text r }
    ensures refusals { (r : Refusal) → refusal_text (refusal_in_text r) ≡ refusal_text r }
    ensures ends { (e : End) → end_text (end_in_text e) ≡ end_text e }
    ensures items { (i : Place) → item_text (item_in_text i) ≡ item_text i }
    ensures records { (index : ℕ) (r : Record)
        → record_line index (record_in_text r) ≡ record_line index r }
{}
