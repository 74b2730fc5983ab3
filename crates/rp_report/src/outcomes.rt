//! The words of refusals, outcomes and ends of attempts.
ghost use Rattle.std.specs.Prelude.{◌≡◌, ◌++◌, OnOk, OnErr, codes};
ghost use Rattle.rp_report.specs.Outcomes.{holder_text, mismatch_text, actual_text, tries_text, refusal_text, ambiguity_text, outcome_text, end_text};
ghost use Rattle.rp_report.specs.Words.{spaced_key};
ghost use Rattle.rp_report.specs.Shown.{IsShownDesc, IsShownRefusal, IsShownOutcome, IsShownEnd};

use crate::items::spell_reply;
use crate::words::{
    push_attempt, push_number_word, push_numbers, push_spaced, push_spaced_bound, push_spaced_key,
    push_value_or_none,
};
use rp_base::{Desc, Key, LeaseSeq, NoMemory, NodeId, Text, Value, push_word};
use rp_request::{Ambiguity, End, Outcome, Refusal};

/// A range that a request does not fit.
fn push_mismatch(out: &mut Text, desc: Desc) -> Result<(), NoMemory>
    requires { IsShownDesc desc }
    ensures { OnOk result (out.new ≡ out.old ++ mismatch_text desc) }
{
    push_word(out, "range-mismatch")?;
    push_spaced(out, u64::from(desc.id.get()))?;
    push_spaced_bound(out, desc.start)?;
    push_spaced_bound(out, desc.end)?;
    push_spaced(out, u64::from(desc.level))
}

/// Another node holds the lease.
fn push_holder(out: &mut Text, holder: NodeId, seq: LeaseSeq) -> Result<(), NoMemory>
    ensures { OnOk result (out.new ≡ out.old ++ holder_text holder seq) }
{
    push_numbers(out, "not-lease-holder", u64::from(holder.get()), seq.get())
}

/// The key has another value.
fn push_actual(out: &mut Text, actual: &Option<Value>) -> Result<(), NoMemory>
    ensures { OnOk result (out.new ≡ out.old ++ actual_text actual.now) }
{
    push_word(out, "condition-failed ")?;
    push_value_or_none(out, actual)
}

/// The key of an `add` or a `move` holds a text.
fn push_is_text(out: &mut Text, key: Key) -> Result<(), NoMemory>
    ensures { OnOk result (out.new ≡ out.old ++ (codes "is-text" ++ spaced_key key)) }
{
    push_word(out, "is-text")?;
    push_spaced_key(out, key)
}

/// A refusal, with the value that shows it.
pub fn spell_refusal(out: &mut Text, refusal: &Refusal) -> Result<(), NoMemory>
    requires { IsShownRefusal refusal.now }
    ensures { OnOk result (out.new ≡ out.old ++ refusal_text refusal.now) }
{
    match refusal {
        Refusal::NoReplica => push_word(out, "no-replica"),
        Refusal::NotLeaseHolder { lease } => push_holder(out, lease.holder, lease.seq),
        Refusal::RangeMismatch { desc } => push_mismatch(out, *desc),
        Refusal::Latched { by, held: _ } => {
            push_word(out, "latched ")?;
            push_attempt(out, *by)
        }
        Refusal::ConditionFailed { actual } => push_actual(out, actual),
        Refusal::IsText { key } => push_is_text(out, *key),
        Refusal::Overflow { actual } => push_number_word(out, "overflow", *actual),
        Refusal::Short { actual } => push_number_word(out, "short", *actual),
        Refusal::TooWide { count } => push_number_word(out, "too-wide", *count),
        Refusal::NotInside => push_word(out, "not-inside"),
        Refusal::SplitLimit { level } => push_number_word(out, "split-limit", u64::from(*level)),
    }
}

/// Why nobody can tell.
fn push_ambiguity(out: &mut Text, ambiguity: Ambiguity) -> Result<(), NoMemory>
    ensures { OnOk result (out.new ≡ out.old ++ ambiguity_text ambiguity) }
{
    match ambiguity {
        Ambiguity::Snapshot { own, passed } => push_numbers(
            out,
            "snapshot",
            own.get(),
            passed.get(),
        ),
        Ambiguity::Removed { own } => push_number_word(out, "removed", own.get()),
        Ambiguity::Restarted { own } => push_number_word(out, "restarted", own.get()),
    }
}

/// How an attempt ended.
fn spell_outcome(out: &mut Text, outcome: &Outcome) -> Result<(), NoMemory>
    requires { IsShownOutcome outcome.now }
    ensures { OnOk result (out.new ≡ out.old ++ outcome_text outcome.now) }
{
    match outcome {
        Outcome::Success(reply) => {
            push_word(out, "ok ")?;
            spell_reply(out, reply)
        }
        Outcome::Refused(refusal) => {
            push_word(out, "refused ")?;
            spell_refusal(out, refusal)
        }
        Outcome::Ambiguous(ambiguity) => {
            push_word(out, "ambiguous ")?;
            push_ambiguity(out, *ambiguity)
        }
        Outcome::Pending => push_word(out, "pending"),
    }
}

/// The last refusal of a command whose tries ended.
fn push_tries(out: &mut Text, last: &Refusal) -> Result<(), NoMemory>
    requires { IsShownRefusal last.now }
    ensures { OnOk result (out.new ≡ out.old ++ tries_text last.now) }
{
    push_word(out, "refused tries ")?;
    spell_refusal(out, last)
}

/// What a client knows of an attempt.
pub fn spell_end(out: &mut Text, end: &End) -> Result<(), NoMemory>
    requires { IsShownEnd end.now }
    ensures { OnOk result (out.new ≡ out.old ++ end_text end.now) }
{
    match end {
        End::Outcome(outcome) => spell_outcome(out, outcome),
        End::Tries(last) => push_tries(out, last),
        End::Unsent => push_word(out, "unsent"),
    }
}

/// Appends the refusal and the value that shows it, or nothing. Each bound that it names is the
/// least, the greatest, or a key.
pub fn push_refusal(out: &mut Text, refusal: &Refusal) -> Result<(), NoMemory>
    requires { IsShownRefusal refusal.now }
    ensures ok { OnOk result (out.new ≡ out.old ++ refusal_text refusal.now) }
    ensures err { OnErr result (out.new ≡ out.old) }
{
    let mut text = Text::new(out.alloc());
    spell_refusal(&mut text, refusal)?;
    out.append(text)
}

/// Appends how an attempt ended, or nothing. Each bound that it names is the least, the greatest, or
/// a key.
pub fn push_outcome(out: &mut Text, outcome: &Outcome) -> Result<(), NoMemory>
    requires { IsShownOutcome outcome.now }
    ensures ok { OnOk result (out.new ≡ out.old ++ outcome_text outcome.now) }
    ensures err { OnErr result (out.new ≡ out.old) }
{
    let mut text = Text::new(out.alloc());
    spell_outcome(&mut text, outcome)?;
    out.append(text)
}
