//! All that the program does: its words are judged, and what they ask for is done.
ghost use Rattle.std.specs.Prelude.{◌≡◌, ◌≢◌, ℕ, ◌≤◌, ◌⊎◌, List, map, string_bytes, None};
ghost use Rattle.rp_outside.specs.Devices.{Rose, Adds, IsAll};
ghost use Rattle.rp_script.specs.declared.faults.ScriptFault.{ScriptFault};
ghost use Rattle.rp_top.specs.Answers.{Writes, fault_status};
ghost use Rattle.rp_top.specs.Status.{code_of};
ghost use Rattle.rp_top.specs.Tops.{EndsUnfinished, EndsWell, FailsReading, IsScriptAsked, IsStatusDue, IsTextDue, StopsEarly, usage_line};
ghost use Rattle.rp_words.specs.Asked.{asked_of};

use crate::calls::{gen_call, run_call};
use crate::races::race_call;
use crate::statuses::Status;
use rp_clients::Gate;
use rp_outside::{Sink, Source, put_all};
use rp_words::{Asked, WordsFault, read_words};
use std::alloc::Global;
use std::sync::Wait;
use std::thread::Threads;

/// How the program is used.
const USAGE: &str =
    "usage: rp run [--form F] | rp race [--workers W] [--loss P] [--salt S] [--quota U] [--form F] | rp gen NUMBER SIZE\n";

/// Writes how the program is used.
fn put_usage<K: Sink>(sink: &mut K) -> Status
    ensures answers { Writes result Status.Usage (λ text. text ≡ usage_line)
        (K.held sink.old) (K.held sink.new) }
    ensures faults { K.faults sink.old ≤ K.faults sink.new }
    ensures cause { result ≡ Status.WriteFault → Rose (K.faults sink.old) (K.faults sink.new) }
    ensures calm { result ≢ Status.WriteFault → K.faults sink.new ≡ K.faults sink.old }
    ensures known { (result ≡ Status.Usage) ⊎ (result ≡ Status.WriteFault) }
{
    match put_all(sink, USAGE.as_bytes()) {
        Ok(()) => Status::Usage,
        Err(_) => Status::WriteFault,
    }
}

/// All that the program does: the words without the program's name, a source and a sink; the runtime,
/// on which a race starts its threads, and a gate, at which they call. It answers the exit status. The
/// words are judged first, and the source is read where they ask for a script to be played. A run and
/// the making of a script wait for nobody.
pub fn top_call<R: Threads + Wait + Sync, S: Source, K: Sink, G: Gate + Sync>(
    rt: &R,
    alloc: Global,
    words: &[String],
    source: &mut S,
    sink: &mut K,
    gate: &G,
) -> u8
    // The status and what was written are what is due, but for a fault or want of memory.
    ensures answers { (bytes : List ℕ) × (status : Status) × (due : Status)
        × IsAll (S.left source.old) bytes × (result ≡ code_of status)
        × Writes status due (IsTextDue (map string_bytes words.now) bytes due)
        (K.held sink.old) (K.held sink.new) }

    // The headline: words that end well asked for a script to be made, which was written; or for one to
    // be played, and there is one script, one lawful list of events and one world of which the promise
    // holds and whose report was written, by one thread as the lines say, or by clients and workers of a
    // race as its rules say, with no command open.
    ensures headline { result ≡ 0 → (bytes : List ℕ) × IsAll (S.left source.old) bytes
        × EndsWell (map string_bytes words.now) bytes (K.held sink.old) (K.held sink.new)
        (S.left source.new) }

    // So it is of a race in which commands are open and no more is waited for.
    ensures unfinished { result ≡ 8 → (bytes : List ℕ) × IsAll (S.left source.old) bytes
        × EndsUnfinished (map string_bytes words.now) bytes (K.held sink.old) (K.held sink.new)
        (S.left source.new) }

    // Each other answer has its cause, and a fault has its answer.
    ensures usage { result ≡ 2 → asked_of (map string_bytes words.now) ≡ None }
    ensures unread { ¬ (IsScriptAsked (asked_of (map string_bytes words.now)))
        → S.left source.new ≡ S.left source.old }
    ensures early { (result ≡ 3) ⊎ (result ≡ 4) → (fault : ScriptFault)
        × (result ≡ code_of (fault_status fault))
        × StopsEarly (map string_bytes words.now) fault (S.left source.old) (S.left source.new) }
    ensures source { S.faults source.old ≤ S.faults source.new }
    ensures sink { K.faults sink.old ≤ K.faults sink.new }
    ensures read_fault { result ≡ 5 → Rose (S.faults source.old) (S.faults source.new) }
    ensures fails { result ≡ 5
        → FailsReading (map string_bytes words.now) (S.left source.old) (S.left source.new) }
    ensures write_fault { result ≡ 6 → Rose (K.faults sink.old) (K.faults sink.new) }
    ensures source_calm { result ≢ 5 → S.faults source.new ≡ S.faults source.old }
    ensures sink_calm { result ≢ 6 → K.faults sink.new ≡ K.faults sink.old }

    // With no fault the answer is one that is due, or want of memory.
    ensures complete { ¬ (Rose (S.faults source.old) (S.faults source.new))
        → ¬ (Rose (K.faults sink.old) (K.faults sink.new))
        → (bytes : List ℕ) × IsAll (S.left source.old) bytes
        × ((result ≡ 7) ⊎ ((due : Status) × (result ≡ code_of due)
        × IsStatusDue (map string_bytes words.now) bytes due)) }
{
    match read_words(alloc, words) {
        Ok(Asked::Run(form)) => run_call(alloc, source, sink, form).code(),
        Ok(Asked::Race(plan)) => race_call(rt, alloc, source, sink, plan, gate).code(),
        Ok(Asked::Gen { number, size }) => gen_call(alloc, sink, number, size).code(),
        Err(WordsFault::Usage) => put_usage(sink).code(),
        Err(WordsFault::NoMemory) => Status::NoMemory.code(),
    }
}
