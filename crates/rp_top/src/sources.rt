//! The reading of a script from a source.
ghost use Rattle.std.specs.Prelude.{◌≡◌, ◌≢◌, ℕ, ◌+◌, ◌≤◌, List, Err, length, IfOk, OnOk};
ghost use Rattle.rp_outside.specs.Devices.{Rose, IsAtEnd, IsAll};
ghost use Rattle.rp_script.specs.Bounds.{IsScript};
ghost use Rattle.rp_script.specs.Meaning.{meaning};
ghost use Rattle.rp_script.specs.Reading.{fed_all, finished, weight};
ghost use Rattle.rp_script.specs.declared.faults.ScriptFault.{ScriptFault};
ghost use Rattle.rp_top.specs.Gives.{Gives, HasStopped, LeadsOn};

use crate::stops::{Stop, stop_of};
use rp_base::Seq;
use rp_outside::Source;
use rp_script::{NumberedLine, ScriptReader};
use std::alloc::Global;

/// Feeds a piece of the source.
fn feed(reader: ScriptReader, piece: &[u8]) -> Result<ScriptReader, Stop>
    ensures gives { Gives result (fed_all reader piece.now) }
    ensures calm { result ≢ Err Stop.ReadFault }
    ensures further { IfOk result (λ fed. weight reader + length piece.now ≤ weight fed) }
    ensures ends { IfOk result (λ fed. weight fed ≤ 16842752) }
{
    match reader.feed(piece) {
        Ok(fed) => Ok(fed),
        Err(stop) => Err(stop_of(stop)),
    }
}

/// Ends the source.
fn finish(reader: ScriptReader) -> Result<Seq<NumberedLine>, Stop>
    ensures gives { Gives result (finished reader reader.line) }
    ensures calm { result ≢ Err Stop.ReadFault }
    ensures few { IfOk result (λ lines. length lines ≤ 65536) }
    ensures is_script { IfOk result IsScript }
{
    match reader.finish() {
        Ok(lines) => Ok(lines),
        Err(stop) => Err(stop_of(stop)),
    }
}

/// Reads the lines of a script, a race's or another, to the source's end, in pieces of up to 4,096
/// bytes. The first fault of the source, limit or refusal ends the reading, and the rest is left unread.
pub fn read_script<S: Source>(
    alloc: Global,
    source: &mut S,
    race: bool,
) -> Result<Seq<NumberedLine>, Stop>
    ensures script { (bytes : List ℕ) × IsAll (S.left source.old) bytes
        × Gives result (meaning race bytes) }
    ensures end { OnOk result (IsAtEnd (S.left source.new)) }
    ensures stops { (fault : ScriptFault) → result ≡ Err (Stop.Judged fault)
        → HasStopped race (S.left source.old) (S.left source.new) fault }
    ensures fails { result ≡ Err Stop.ReadFault → LeadsOn race (S.left source.old) (S.left source.new) }
    ensures few { IfOk result (λ lines. length lines ≤ 65536) }
    ensures is_script { IfOk result IsScript }
    ensures faults { S.faults source.old ≤ S.faults source.new }
    ensures cause { result ≡ Err Stop.ReadFault → Rose (S.faults source.old) (S.faults source.new) }
    ensures calm { result ≢ Err Stop.ReadFault → S.faults source.new ≡ S.faults source.old }
{
    let mut reader = ScriptReader::new(alloc, race);
    let mut buffer = [0u8; 4096];
    loop {
        let Ok(n) = source.read(&mut buffer) else {
            return Err(Stop::ReadFault);
        };
        if n == 0 {
            return finish(reader);
        }
        reader = match feed(reader, &buffer[..n]) {
            Ok(fed) => fed,
            Err(stop) => return Err(stop),
        };
    }
}
