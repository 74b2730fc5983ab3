//! What is written: a view in a form, or why a script was not played to its end.
ghost use Rattle.std.specs.Prelude.{◌≡◌, ◌≢◌, ℕ, ◌≤◌, ◌++◌, IfOk, OnOk};
ghost use Rattle.rp_outside.specs.Devices.{Rose};
ghost use Rattle.rp_report.specs.Shown.{IsShownView};
ghost use Rattle.rp_top.specs.Answers.{Writes, kind_text, which_text, fault_line, fault_status, written};

use crate::statuses::Status;
use rp_base::{NoMemory, Text, Which, push_number, push_word};
use rp_outside::{Sink, put_all};
use rp_report::{View, write_json, write_summary, write_text};
use rp_script::{LineKind, ScriptFault};
use rp_words::Form;
use std::alloc::Global;

/// Why a line is refused.
fn kind_word(kind: LineKind) -> &'static str
    ensures { result.now ≡ kind_text kind }
{
    match kind {
        LineKind::NoCluster => "no-cluster",
        LineKind::SecondCluster => "second-cluster",
        LineKind::AfterEnd => "after-end",
        LineKind::NoEnd => "no-end",
        LineKind::UnknownWord => "unknown-word",
        LineKind::NotInRace => "not-in-race",
        LineKind::MissingWord => "missing-word",
        LineKind::NotNumber => "not-number",
        LineKind::OutOfRange => "out-of-range",
        LineKind::BadKey => "bad-key",
        LineKind::BadText => "bad-text",
        LineKind::BadSpan => "bad-span",
        LineKind::NotSent => "not-sent",
        LineKind::ExtraWord => "extra-word",
        LineKind::BadByte => "bad-byte",
        LineKind::NotJson => "not-json",
        LineKind::NotReport => "not-report",
    }
}

/// Which limit is passed.
fn which_word(which: Which) -> &'static str
    ensures { result.now ≡ which_text which }
{
    match which {
        Which::Lines => "lines",
        Which::LineBytes => "line-bytes",
        Which::Commands => "commands",
        Which::Events => "events",
        Which::Weight => "weight",
        Which::ReportBytes => "report-bytes",
        Which::DiskBytes => "disk-bytes",
    }
}

/// The line that says why a script was not played.
pub fn push_fault(out: &mut Text, fault: ScriptFault) -> Result<(), NoMemory>
    ensures { OnOk result (out.new ≡ out.old ++ fault_line fault) }
{
    match fault {
        ScriptFault::Refused { line, word, kind } => {
            push_word(out, "refused")?;
            push_word(out, " ")?;
            push_number(out, u64::from(line))?;
            push_word(out, " ")?;
            push_number(out, u64::from(word))?;
            push_word(out, " ")?;
            push_word(out, kind_word(kind))?;
            push_word(out, "\n")
        }
        ScriptFault::Limit { which, count } => {
            push_word(out, "limit ")?;
            push_word(out, which_word(which))?;
            push_word(out, " ")?;
            push_number(out, count)?;
            push_word(out, "\n")
        }
    }
}

/// The status of a script that was not played to its end.
pub fn status_of_fault(fault: ScriptFault) -> Status
    ensures { result ≡ fault_status fault }
{
    match fault {
        ScriptFault::Refused { line, word, kind } => Status::Refused { line, word, kind },
        ScriptFault::Limit { which, count } => Status::Limit { which, count },
    }
}

/// The line that says why a script was not played to its end.
fn fault_text(alloc: Global, fault: ScriptFault) -> Result<Text, NoMemory>
    ensures { IfOk result (λ text. text ≡ fault_line fault) }
{
    let mut text = Text::new(alloc);
    push_fault(&mut text, fault)?;
    Ok(text)
}

/// Writes why a script was not played to its end.
pub fn put_fault<K: Sink>(alloc: Global, sink: &mut K, fault: ScriptFault) -> Status
    ensures answers { Writes result (fault_status fault) (λ text. text ≡ fault_line fault)
        (K.held sink.old) (K.held sink.new) }
    ensures faults { K.faults sink.old ≤ K.faults sink.new }
    ensures cause { result ≡ Status.WriteFault → Rose (K.faults sink.old) (K.faults sink.new) }
    ensures calm { result ≢ Status.WriteFault → K.faults sink.new ≡ K.faults sink.old }
    ensures reads { result ≢ Status.ReadFault }
    ensures fails { result ≢ Status.Ok }
    ensures ended { (unended : ℕ) → result ≢ Status.Unfinished unended }
{
    let Ok(text) = fault_text(alloc, fault) else {
        return Status::NoMemory;
    };
    match put_all(sink, text.as_bytes()) {
        Ok(()) => status_of_fault(fault),
        Err(_) => Status::WriteFault,
    }
}

/// A view in a form.
pub fn written(alloc: Global, view: &View, form: Form) -> Result<Text, NoMemory>
    requires { IsShownView view.now }
    ensures { IfOk result (λ text. text ≡ written form view.now) }
{
    let mut text = Text::new(alloc);
    match form {
        Form::Text => write_text(view, &mut text)?,
        Form::Json => write_json(view, &mut text)?,
        Form::Summary => write_summary(view, &mut text)?,
    }
    Ok(text)
}
