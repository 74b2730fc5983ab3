//! The calls of one thread: a script is read, played and shown, or made.
ghost use Rattle.std.specs.Prelude.{◌≡◌, ◌≢◌, ℕ, ◌≤◌, ◌⊎◌, false, List, length, Ok};
ghost use Rattle.rp_events.specs.Lawful.{IsReached};
ghost use Rattle.rp_gen.specs.Scripts.{script_of as generated};
ghost use Rattle.rp_lines.specs.Players.{Player};
ghost use Rattle.rp_outside.specs.Devices.{Rose, IsAtEnd, IsAll};
ghost use Rattle.rp_racelines.specs.Rules.{nodes_in};
ghost use Rattle.rp_script.specs.Bounds.{IsScript};
ghost use Rattle.rp_base.specs.declared.Which.{Which};
ghost use Rattle.rp_script.specs.declared.faults.LineKind.{LineKind};
ghost use Rattle.rp_script.specs.declared.faults.ScriptFault.{ScriptFault};
ghost use Rattle.rp_script.specs.declared.faults.ScriptFault.TheVariants.{Refused, Limit};
ghost use Rattle.rp_top.specs.Answers.{Answers, Writes, fault_status, status_of};
ghost use Rattle.rp_top.specs.Gives.{LeadsOn};
ghost use Rattle.rp_top.specs.Runs.{EndsEarly, IsShownRun};
ghost use Rattle.rp_top.specs.Scripts.{by_play, play_of, run_of};

use crate::outputs::put_fault;
use crate::plays::{play_script, shown};
use crate::sources::read_script;
use crate::statuses::Status;
use crate::stops::Stop;
use rp_gen::make;
use rp_outside::{Sink, Source, put_all};
use rp_script::NumberedLine;
use rp_words::Form;
use rp_world::World;
use std::alloc::Global;

/// Writes what a world shows that has played a script to its end.
fn put_report<K: Sink>(alloc: Global, sink: &mut K, world: World, form: Form) -> Status
    requires { IsReached (length world.world.nodes) world.world.nodes }
    ensures answers { Answers result form (Ok world) (K.held sink.old) (K.held sink.new) }
    ensures faults { K.faults sink.old ≤ K.faults sink.new }
    ensures cause { result ≡ Status.WriteFault → Rose (K.faults sink.old) (K.faults sink.new) }
    ensures calm { result ≢ Status.WriteFault → K.faults sink.new ≡ K.faults sink.old }
    ensures reads { result ≢ Status.ReadFault }
{
    let Ok(text) = shown(alloc, world, form) else {
        return Status::NoMemory;
    };
    match put_all(sink, text.as_bytes()) {
        Ok(()) => Status::Ok,
        Err(_) => Status::WriteFault,
    }
}

/// Plays a script, and writes what its world shows, or at which limit it ended.
fn put_run<K: Sink>(alloc: Global, sink: &mut K, lines: &[NumberedLine], form: Form) -> Status
    requires few { length lines.now ≤ 65536 }
    requires is_script { IsScript lines.now }
    ensures answers { Answers result form (by_play (play_of lines.now))
        (K.held sink.old) (K.held sink.new) }
    ensures reached { result ≡ Status.Ok → (p : Player) × (play_of lines.now ≡ Ok p)
        × IsReached (nodes_in lines.now) p.world.nodes }
    ensures faults { K.faults sink.old ≤ K.faults sink.new }
    ensures cause { result ≡ Status.WriteFault → Rose (K.faults sink.old) (K.faults sink.new) }
    ensures calm { result ≢ Status.WriteFault → K.faults sink.new ≡ K.faults sink.old }
    ensures reads { result ≢ Status.ReadFault }
{
    match play_script(alloc, lines) {
        Ok(world) => put_report(alloc, sink, world, form),
        Err(Stop::Judged { fault }) => put_fault(alloc, sink, fault),
        Err(_) => Status::NoMemory,
    }
}

/// Reads a script to its end, plays it, and writes what its world shows, each with the causes of its
/// answers.
fn call<S: Source, K: Sink>(alloc: Global, source: &mut S, sink: &mut K, form: Form) -> Status
    ensures answers { (bytes : List ℕ) × IsAll (S.left source.old) bytes
        × Answers result form (run_of bytes) (K.held sink.old) (K.held sink.new) }
    ensures headline { result ≡ Status.Ok → (bytes : List ℕ) × IsAll (S.left source.old) bytes
        × IsShownRun form bytes (K.held sink.old) (K.held sink.new) }
    ensures early { (fault : ScriptFault) → result ≡ fault_status fault
        → EndsEarly fault (S.left source.old) (S.left source.new) }
    ensures end { result ≡ Status.Ok → IsAtEnd (S.left source.new) }
    ensures source { S.faults source.old ≤ S.faults source.new }
    ensures sink { K.faults sink.old ≤ K.faults sink.new }
    ensures read_fault { result ≡ Status.ReadFault
        → Rose (S.faults source.old) (S.faults source.new) }
    ensures fails { result ≡ Status.ReadFault
        → LeadsOn false (S.left source.old) (S.left source.new) }
    ensures write_fault { result ≡ Status.WriteFault
        → Rose (K.faults sink.old) (K.faults sink.new) }
    ensures source_calm { result ≢ Status.ReadFault → S.faults source.new ≡ S.faults source.old }
    ensures sink_calm { result ≢ Status.WriteFault → K.faults sink.new ≡ K.faults sink.old }
{
    match read_script(alloc, source, false) {
        Ok(lines) => put_run(alloc, sink, lines.as_slice(), form),
        Err(Stop::Judged { fault }) => put_fault(alloc, sink, fault),
        Err(Stop::ReadFault) => Status::ReadFault,
        Err(Stop::NoMemory) => Status::NoMemory,
    }
}

/// Reads a script from the source, plays it on one to five nodes, and writes its report to the sink.
/// It waits for nobody.
pub fn run_call<S: Source, K: Sink>(
    alloc: Global,
    source: &mut S,
    sink: &mut K,
    form: Form,
) -> Status
    // The status and what was written are those of the script, but for a fault or want of memory.
    ensures answers { (bytes : List ℕ) × IsAll (S.left source.old) bytes
        × Answers result form (run_of bytes) (K.held sink.old) (K.held sink.new) }

    // The headline: there is one script, one lawful list of events and one world, such that the bytes
    // mean the script, its lines make the list, the promise holds of the world to which it leads, and
    // what was written is the report of that world. The source was read to its end.
    ensures headline { result ≡ Status.Ok → (bytes : List ℕ) × IsAll (S.left source.old) bytes
        × IsShownRun form bytes (K.held sink.old) (K.held sink.new) }
    ensures end { result ≡ Status.Ok → IsAtEnd (S.left source.new) }

    // Each other answer has its cause, and a fault has its answer. Nothing was read behind the piece
    // with the refusal or the limit; where the source failed, none stands in what had come.
    ensures usage { result ≢ Status.Usage }
    ensures refused { (line word : ℕ) (kind : LineKind) → result ≡ Status.Refused line word kind
        → EndsEarly (Refused line word kind) (S.left source.old) (S.left source.new) }
    ensures limit { (which : Which) (count : ℕ) → result ≡ Status.Limit which count
        → EndsEarly (Limit which count) (S.left source.old) (S.left source.new) }
    ensures source { S.faults source.old ≤ S.faults source.new }
    ensures sink { K.faults sink.old ≤ K.faults sink.new }
    ensures read_fault { result ≡ Status.ReadFault
        → Rose (S.faults source.old) (S.faults source.new) }
    ensures fails { result ≡ Status.ReadFault
        → LeadsOn false (S.left source.old) (S.left source.new) }
    ensures write_fault { result ≡ Status.WriteFault
        → Rose (K.faults sink.old) (K.faults sink.new) }
    ensures source_calm { result ≢ Status.ReadFault → S.faults source.new ≡ S.faults source.old }
    ensures sink_calm { result ≢ Status.WriteFault → K.faults sink.new ≡ K.faults sink.old }

    // With no fault the answer is the script's, or want of memory.
    ensures complete { ¬ (Rose (S.faults source.old) (S.faults source.new))
        → ¬ (Rose (K.faults sink.old) (K.faults sink.new))
        → (bytes : List ℕ) × IsAll (S.left source.old) bytes
        × ((result ≡ Status.NoMemory) ⊎ (result ≡ status_of (run_of bytes))) }
{
    call(alloc, source, sink, form)
}

/// Writes the script with this number of so many commands, 1 to 20,000.
pub fn gen_call<K: Sink>(alloc: Global, sink: &mut K, number: u64, size: u64) -> Status
    requires some { 1 ≤ size }
    requires most { size ≤ 20000 }
    ensures answers { Writes result Status.Ok (λ text. text ≡ generated number size)
        (K.held sink.old) (K.held sink.new) }
    ensures faults { K.faults sink.old ≤ K.faults sink.new }
    ensures cause { result ≡ Status.WriteFault → Rose (K.faults sink.old) (K.faults sink.new) }
    ensures calm { result ≢ Status.WriteFault → K.faults sink.new ≡ K.faults sink.old }
    ensures known { (result ≡ Status.Ok) ⊎ ((result ≡ Status.WriteFault)
        ⊎ (result ≡ Status.NoMemory)) }
{
    let Ok(text) = make(alloc, number, size) else {
        return Status::NoMemory;
    };
    match put_all(sink, text.as_bytes()) {
        Ok(()) => Status::Ok,
        Err(_) => Status::WriteFault,
    }
}
