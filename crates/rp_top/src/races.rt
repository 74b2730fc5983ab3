//! A race: its script is read, clients and workers play it on threads of their own, and what the nodes
//! show at the close is written.
ghost use Rattle.std.specs.Prelude.{◌≡◌, ◌≢◌, ℕ, ◌≤◌, ◌⊎◌, true, List, [], length, All, IfOk, Ok};
ghost use Rattle.rp_base.specs.declared.Which.{Which};
ghost use Rattle.rp_events.specs.Lawful.{IsReached};
ghost use Rattle.rp_lines.specs.Views.{IsViewWith};
ghost use Rattle.rp_outside.specs.Devices.{Rose, IsAtEnd, IsAll};
ghost use Rattle.rp_racelines.specs.declared.verdicts.Verdict.TheVariants as verdicts;
ghost use Rattle.rp_report.specs.Shown.{IsShownAnswer};
ghost use Rattle.rp_report.specs.declared.views.View.{View};
ghost use Rattle.rp_script.specs.Bounds.{IsScript};
ghost use Rattle.rp_script.specs.declared.faults.LineKind.{LineKind};
ghost use Rattle.rp_script.specs.declared.faults.ScriptFault.{ScriptFault};
ghost use Rattle.rp_script.specs.declared.faults.ScriptFault.TheVariants.{Refused, Limit};
ghost use Rattle.rp_switch.specs.Openings.{bare};
ghost use Rattle.rp_top.specs.Answers.{fault_status, written};
ghost use Rattle.rp_top.specs.Gives.{LeadsOn};
ghost use Rattle.rp_top.specs.Races.{race_script, EndsRaceEarly, IsRaceDue, IsShownRace, MayEnd, RaceAnswers};
ghost use Rattle.rp_words.specs.Asked.{IsPlan};

use crate::outputs::{put_fault, written};
use crate::plays::nodes_named;
use crate::sources::read_script;
use crate::statuses::Status;
use crate::stops::Stop;
use rp_base::{NoMemory, Seq, Text};
use rp_bufcore::BufferEnd;
use rp_buffer::SlotTable;
use rp_chronicle::view;
use rp_clients::Gate;
use rp_contest::{Raced, Setting, race};
use rp_node::Nodes;
use rp_outside::{Sink, Source, put_all};
use rp_racelines::{Verdict, rules_of};
use rp_request::Replies;
use rp_script::NumberedLine;
use rp_words::{Form, RacePlan};
use std::alloc::Global;
use std::sync::Wait;
use std::thread::Threads;

/// The status of a race that ended, and what shows it.
#[derive(Drop)]
struct RaceEnd {
    status: Status,
    text: Text,
}

/// The status of a race that does not go on.
fn status_of(verdict: Verdict) -> Status
    requires { verdict ≢ Verdict.GoesOn }
    ensures ok { verdict ≡ Verdict.Ok → result ≡ Status.Ok }
    ensures unfinished { (unended : ℕ) → verdict ≡ Verdict.Unfinished unended
        → result ≡ Status.Unfinished unended }
{
    match verdict {
        Verdict::Ok => Status::Ok,
        Verdict::Unfinished { unended } => Status::Unfinished { unended },
        Verdict::GoesOn => unreachable!(),
    }
}

/// What nodes show beside these reply lines, in a form, with no notes.
fn report_of<B: BufferEnd + Drop>(
    alloc: Global,
    nodes: &Nodes<B>,
    replies: Replies,
    form: Form,
) -> Result<Text, NoMemory>
    requires reached { IsReached (length nodes.now) (bare nodes.now) }
    requires shown { All IsShownAnswer replies }
    ensures { IfOk result (λ text. (v : View) × IsViewWith (bare nodes.now) replies [] v
        × (text ≡ written form v)) }
{
    let view = view(alloc, nodes, replies, Seq::new(alloc))?;
    written(alloc, &view, form)
}

/// Plays the race of these lines to its end, and gives how it ended and what shows it.
fn raced<R: Threads + Wait + Sync, G: Gate + Sync>(
    rt: &R,
    alloc: Global,
    lines: &[NumberedLine],
    plan: RacePlan,
    gate: &G,
) -> Result<RaceEnd, NoMemory>
    requires plan { IsPlan plan }
    requires few { length lines.now ≤ 65536 }
    requires is_script { IsScript lines.now }
    ensures { IfOk result (λ end. IsRaceDue plan (Ok lines.now) end.status end.text) }
{
    let rules = rules_of(alloc, lines, plan.loss, plan.salt)?;
    let (buffers, pass) = SlotTable::new(alloc)?;
    let setting = Setting {
        nodes: nodes_named(lines),
        workers: plan.workers,
        quota: plan.quota,
    };
    let Raced {
        nodes,
        replies,
        verdict,
    } = race(rt, alloc, &buffers, pass, &rules, setting, gate)?;
    Ok(RaceEnd {
        status: status_of(verdict),
        text: report_of(alloc, &nodes, replies, plan.form)?,
    })
}

/// Plays the race of these lines, and writes how it ended.
fn put_race<R: Threads + Wait + Sync, K: Sink, G: Gate + Sync>(
    rt: &R,
    alloc: Global,
    sink: &mut K,
    lines: &[NumberedLine],
    plan: RacePlan,
    gate: &G,
) -> Status
    requires plan { IsPlan plan }
    requires few { length lines.now ≤ 65536 }
    requires is_script { IsScript lines.now }
    ensures answers { RaceAnswers result plan (Ok lines.now) (K.held sink.old) (K.held sink.new) }
    ensures faults { K.faults sink.old ≤ K.faults sink.new }
    ensures cause { result ≡ Status.WriteFault → Rose (K.faults sink.old) (K.faults sink.new) }
    ensures calm { result ≢ Status.WriteFault → K.faults sink.new ≡ K.faults sink.old }
    ensures reads { result ≢ Status.ReadFault }
{
    let Ok(end) = raced(rt, alloc, lines, plan, gate) else {
        return Status::NoMemory;
    };
    match put_all(sink, end.text.as_bytes()) {
        Ok(()) => end.status,
        Err(_) => Status::WriteFault,
    }
}

/// Reads a script of a race to its end, plays it, and writes how it ended, each with the causes of its
/// answers.
fn call<R: Threads + Wait + Sync, S: Source, K: Sink, G: Gate + Sync>(
    rt: &R,
    alloc: Global,
    source: &mut S,
    sink: &mut K,
    plan: RacePlan,
    gate: &G,
) -> Status
    requires { IsPlan plan }
    ensures answers { (bytes : List ℕ) × IsAll (S.left source.old) bytes
        × RaceAnswers result plan (race_script bytes) (K.held sink.old) (K.held sink.new) }
    ensures early { (fault : ScriptFault) → result ≡ fault_status fault
        → EndsRaceEarly fault (S.left source.old) (S.left source.new) }
    ensures end { result ≡ Status.Ok → IsAtEnd (S.left source.new) }
    ensures open_end { (unended : ℕ) → result ≡ Status.Unfinished unended
        → IsAtEnd (S.left source.new) }
    ensures source { S.faults source.old ≤ S.faults source.new }
    ensures sink { K.faults sink.old ≤ K.faults sink.new }
    ensures read_fault { result ≡ Status.ReadFault
        → Rose (S.faults source.old) (S.faults source.new) }
    ensures fails { result ≡ Status.ReadFault
        → LeadsOn true (S.left source.old) (S.left source.new) }
    ensures write_fault { result ≡ Status.WriteFault
        → Rose (K.faults sink.old) (K.faults sink.new) }
    ensures source_calm { result ≢ Status.ReadFault → S.faults source.new ≡ S.faults source.old }
    ensures sink_calm { result ≢ Status.WriteFault → K.faults sink.new ≡ K.faults sink.old }
{
    match read_script(alloc, source, true) {
        Ok(lines) => put_race(rt, alloc, sink, lines.as_slice(), plan, gate),
        Err(Stop::Judged { fault }) => put_fault(alloc, sink, fault),
        Err(Stop::ReadFault) => Status::ReadFault,
        Err(Stop::NoMemory) => Status::NoMemory,
    }
}

/// Reads a script of a race from the source, plays it by clients and workers on threads of their own,
/// and writes what the nodes show at the close to the sink. It waits for these threads; what is said
/// here holds where it returns.
pub fn race_call<R: Threads + Wait + Sync, S: Source, K: Sink, G: Gate + Sync>(
    rt: &R,
    alloc: Global,
    source: &mut S,
    sink: &mut K,
    plan: RacePlan,
    gate: &G,
) -> Status
    requires { IsPlan plan }

    // The status and what was written are those of a race of the script, or of the script's refusal or
    // limit, but for a fault or want of memory.
    ensures answers { (bytes : List ℕ) × IsAll (S.left source.old) bytes
        × RaceAnswers result plan (race_script bytes) (K.held sink.old) (K.held sink.new) }

    // The headline: there is one script, one lawful list of events and one world, such that the bytes
    // mean the script, the list leads to the world, clients and workers played it by the script's rules,
    // the promise holds of it, no command is open there and no node full, and what was written is the
    // report of that world.
    ensures headline { result ≡ Status.Ok → (bytes : List ℕ) × IsAll (S.left source.old) bytes
        × IsShownRace plan verdicts.Ok bytes (K.held sink.old) (K.held sink.new) }

    // So it is where commands are open and no more is waited for: these are so many in that world.
    ensures unfinished { (unended : ℕ) → result ≡ Status.Unfinished unended
        → (bytes : List ℕ) × IsAll (S.left source.old) bytes
        × IsShownRace plan (verdicts.Unfinished unended) bytes (K.held sink.old) (K.held sink.new) }

    // In both cases the source was read to its end.
    ensures end { result ≡ Status.Ok → IsAtEnd (S.left source.new) }
    ensures open_end { (unended : ℕ) → result ≡ Status.Unfinished unended
        → IsAtEnd (S.left source.new) }

    // Each other answer has its cause, and a fault has its answer. Nothing was read behind the piece
    // with the refusal or the limit; where the source failed, none stands in what had come.
    ensures usage { result ≢ Status.Usage }
    ensures refused { (line word : ℕ) (kind : LineKind) → result ≡ Status.Refused line word kind
        → EndsRaceEarly (Refused line word kind) (S.left source.old) (S.left source.new) }
    ensures limit { (which : Which) (count : ℕ) → result ≡ Status.Limit which count
        → EndsRaceEarly (Limit which count) (S.left source.old) (S.left source.new) }
    ensures source { S.faults source.old ≤ S.faults source.new }
    ensures sink { K.faults sink.old ≤ K.faults sink.new }
    ensures read_fault { result ≡ Status.ReadFault
        → Rose (S.faults source.old) (S.faults source.new) }
    ensures fails { result ≡ Status.ReadFault
        → LeadsOn true (S.left source.old) (S.left source.new) }
    ensures write_fault { result ≡ Status.WriteFault
        → Rose (K.faults sink.old) (K.faults sink.new) }
    ensures source_calm { result ≢ Status.ReadFault → S.faults source.new ≡ S.faults source.old }
    ensures sink_calm { result ≢ Status.WriteFault → K.faults sink.new ≡ K.faults sink.old }

    // With no fault the answer is the script's refusal or limit, where it has one, else Ok or
    // Unfinished; or want of memory.
    ensures complete { ¬ (Rose (S.faults source.old) (S.faults source.new))
        → ¬ (Rose (K.faults sink.old) (K.faults sink.new))
        → (bytes : List ℕ) × IsAll (S.left source.old) bytes
        × ((result ≡ Status.NoMemory) ⊎ MayEnd (race_script bytes) result) }
{
    call(rt, alloc, source, sink, plan, gate)
}
