//! A script that is read piece after piece.
ghost use Rattle.std.specs.Prelude.{◌≡◌, ◌+◌, ◌≤◌, ◌<◌, length, IfOk, IfSome, OnOk, OnErr, IfErr, ◌++◌};
ghost use Rattle.rp_base.specs.Gives.{Gives};
ghost use Rattle.rp_script.specs.Bounds.{IsBounded, Follows, IsScript};
ghost use Rattle.rp_script.specs.Meaning.{numbered, meaning, script_fault};
ghost use Rattle.rp_script.specs.Seen.{judged};
ghost use Rattle.rp_script.specs.Reading.{unread, line_taken, line_ended, fed, fed_all, closed, finished, weight};

use crate::faults::{LineKind, ScriptFault, ScriptStop};
use crate::lines::{NumberedLine, ScriptLine};
use crate::scripts::Script;
use rp_base::{Seq, Which};
use std::alloc::Global;
use std::marker::Model;

/// A script that is being read, piece after piece. Contracts see what must be
/// known of the lines that ended, the bytes of the line that has begun, and what the lines said.
#[derive(Drop)]
pub struct ScriptReader {
    script: Script,
    line: Vec<u8>,
    taken: Vec<NumberedLine>,
}

impl Model for ScriptReader {
    ghost use Rattle.std.specs.Prelude.{◌+◌, ◌*◌, ◌≤◌, length};
    ghost use Rattle.rp_script.specs.Bounds.{IsAlong};
    ghost use Rattle.rp_script.specs.Reading.{Reading};

    ghost Value = { Reading };

    ghost view = { λ r. record {
      seen = r.script;
      line = r.line.items;
      taken = r.taken.items;
    } };

    ghost invariant = { λ r. (length r.line.items ≤ 256)
        × (r.script.lines * 257 + length r.line.items ≤ 16842752)
        × (length r.taken.items ≤ r.script.lines)
        × IsAlong r.script r.taken.items };
}

/// A limit is passed by this count.
fn limit(which: Which, count: u64) -> ScriptStop
    ensures { result ≡ ScriptStop.Judged (ScriptFault.Limit which count) }
{
    ScriptStop::Judged {
        fault: ScriptFault::Limit { which, count },
    }
}

/// The source ends behind the last line, and this is missing.
fn cut_off(line: u32, kind: LineKind) -> ScriptStop
    ensures { result ≡ ScriptStop.Judged (ScriptFault.Refused line 0 kind) }
{
    ScriptStop::Judged {
        fault: ScriptFault::Refused {
            line,
            word: 0,
            kind,
        },
    }
}

/// Appends the line, if there is one, under its number.
fn push_line(
    taken: &mut Vec<NumberedLine>,
    number: u32,
    said: &Option<ScriptLine>,
) -> Result<(), ScriptStop>
    ensures more { OnOk result (taken.new.items ≡ taken.old.items ++ numbered number said.now) }
    ensures same { OnErr result (taken.new.items ≡ taken.old.items) }
    ensures memory { IfErr result (λ stop. stop ≡ ScriptStop.NoMemory) }
{
    if let Some(line) = said {
        let record = NumberedLine {
            number,
            line: *line,
        };
        taken.extend_from_slice(std::slice::from_ref(&record))?;
    }
    Ok(())
}

impl ScriptReader {
    /// Nothing was read. A race takes fewer forms of line. It takes no memory.
    pub fn new(alloc: Global, race: bool) -> ScriptReader
        ensures { result ≡ unread race }
    {
        ScriptReader {
            script: Script::new(race),
            line: Vec::new(alloc),
            taken: Vec::new(alloc),
        }
    }

    /// What the line that has begun says.
    fn judge(&self) -> Result<Option<ScriptLine>, ScriptFault>
        ensures line { result ≡ judged self.now.seen self.now.line }
        ensures follows { IfOk result (λ o. IfSome o (Follows self.now.seen)) }
        ensures bounded { IfOk result (λ o. IfSome o IsBounded) }
    {
        self.script.judge(&self.line)
    }

    /// Keeps what the line that has begun says, and that it ended.
    fn take_line(&mut self, said: Option<ScriptLine>) -> Result<(), ScriptStop>
        requires room { self.old.seen.lines < 65536 }
        requires follows { IfSome said (Follows self.old.seen) }
        requires bounded { IfSome said IsBounded }
        ensures ends { OnOk result (self.new ≡ line_taken self.old said) }
        ensures memory { IfErr result (λ stop. stop ≡ ScriptStop.NoMemory) }
        ensures further { OnOk result (weight self.old + 1 ≤ weight self.new) }
        ensures most { weight self.new ≤ 16842752 }
    {
        let number = self.script.lines() + 1;
        push_line(&mut self.taken, number, &said)?;
        self.script.keep(&said);
        self.line.clear();
        Ok(())
    }

    /// Ends the line that has begun.
    fn end_line(&mut self) -> Result<(), ScriptStop>
        requires { self.old.seen.lines < 65536 }
        ensures gives { Gives (λ _. self.new) script_fault result (line_ended self.old) }
        ensures further { OnOk result (weight self.old + 1 ≤ weight self.new) }
        ensures ends { weight self.new ≤ 16842752 }
    {
        let _ = &self.line;
        match self.judge() {
            Ok(said) => self.take_line(said),
            Err(fault) => Err(ScriptStop::Judged { fault }),
        }
    }

    /// Takes one byte.
    fn feed_byte(&mut self, byte: u8) -> Result<(), ScriptStop>
        ensures gives { Gives (λ _. self.new) script_fault result (fed self.old byte) }
        ensures further { OnOk result (weight self.old + 1 ≤ weight self.new) }
        ensures ends { weight self.new ≤ 16842752 }
    {
        if self.script.lines() == 65536 {
            return Err(limit(Which::Lines, 65537));
        }
        if byte == b'\n' {
            return self.end_line();
        }
        if self.line.len() == 256 {
            return Err(limit(Which::LineBytes, 257));
        }
        self.line.push(byte)?;
        Ok(())
    }

    /// Takes the bytes of a piece, one after another.
    fn feed_all(&mut self, piece: &[u8]) -> Result<(), ScriptStop>
        ensures gives { Gives (λ _. self.new) script_fault result (fed_all self.old piece.now) }
        ensures further { OnOk result (weight self.old + length piece.now ≤ weight self.new) }
        ensures ends { weight self.new ≤ 16842752 }
    {
        let _ = &self.line;
        for byte in piece {
            self.feed_byte(*byte)?;
        }
        Ok(())
    }

    /// Takes a piece of the source, which may end anywhere. The first limit or refusal ends the
    /// reading, and what follows it is not looked at.
    pub fn feed(mut self, piece: &[u8]) -> Result<ScriptReader, ScriptStop>
        ensures gives { Gives (λ reader. reader) script_fault result (fed_all self piece.now) }
        ensures further { IfOk result (λ reader. weight self + length piece.now ≤ weight reader) }
        ensures ends { IfOk result (λ reader. weight reader ≤ 16842752) }
    {
        self.feed_all(piece)?;
        Ok(self)
    }

    /// Ends the source: a line that has begun ends with it. It gives the lines that are not
    /// skipped.
    pub fn finish(mut self) -> Result<Seq<NumberedLine>, ScriptStop>
        ensures gives { Gives (λ lines. lines) script_fault result (finished self self.line) }
        ensures few { IfOk result (λ lines. length lines ≤ 65536) }
        ensures script { IfOk result IsScript }
    {
        if !self.line.is_empty() {
            self.end_line()?;
        }
        self.close()
    }

    /// The lines of a source that ends behind an ended line.
    fn close(self) -> Result<Seq<NumberedLine>, ScriptStop>
        ensures gives { Gives (λ lines. lines) script_fault result (closed self) }
        ensures few { IfOk result (λ lines. length lines ≤ 65536) }
        ensures script { IfOk result IsScript }
    {
        let ScriptReader {
            script,
            line: _,
            taken,
        } = self;
        match script.finish() {
            Ok(()) => Ok(Seq::from_vec(taken)),
            Err(kind) => Err(cut_off(script.lines() + 1, kind)),
        }
    }
}

/// Reads a script that is at hand whole: its lines that are not skipped, or what ends it.
pub fn read_lines(alloc: Global, race: bool, source: &[u8]) -> Result<Seq<NumberedLine>, ScriptStop>
    ensures meaning { Gives (λ lines. lines) script_fault result (meaning race source.now) }
    ensures few { IfOk result (λ lines. length lines ≤ 65536) }
    ensures script { IfOk result IsScript }
{
    let reader = match ScriptReader::new(alloc, race).feed(source) {
        Ok(reader) => reader,
        Err(stop) => return Err(stop),
    };
    reader.finish()
}
