//! The lines of a script, taken one after another.
ghost use Rattle.std.specs.Prelude.{◌≡◌, ◌<◌, ◌≤◌, ◌+◌, ◌-◌, ◌==◌, [], length, IsTrue, None, Some, IfOk, IfSome, MatchResult, slice_index};
ghost use Rattle.rp_request.specs.Words.{words_of};
ghost use Rattle.rp_script.specs.Bounds.{IsBounded, Follows};
ghost use Rattle.rp_script.specs.Seen.{Seen, unseen, begins_send, limit_of, has_bad_byte, bad_byte_of, begins_comment, placed, said, judged, answer_of, after, left, unended};

use crate::faults::{BadWord, Excess, LineFault, LineKind, ScriptFault, bad_word, line_fault};
use crate::forms::{cluster, form};
use crate::keywords::{Keyword, is_barred_in_race, keyword_of};
use crate::lines::ScriptLine;
use crate::words::Words;
use rp_base::{ClientCounts, Which};
use std::marker::Model;

/// The lines of a script, taken one after another. Contracts see what must be known of the lines
/// that were taken: how many they are and how many of them send, the nodes that `cluster` named,
/// whether `end` came, and how many commands each client has.
#[derive(Drop)]
pub struct Script {
    race: bool,
    lines: u32,
    sends: u32,
    nodes: Option<u8>,
    ended: bool,
    commands: ClientCounts,
}

impl Model for Script {
    ghost use Rattle.std.specs.Prelude.{ℕ, ◌≤◌, slice_index, length, ◌≡◌, IfSome};
    ghost use Rattle.rp_script.specs.Seen.{Seen};

    ghost Value = { Seen };

    ghost view = { λ s. record {
      race = s.race;
      lines = s.lines;
      sends = s.sends;
      nodes = s.nodes;
      ended = s.ended;
      commands = s.commands;
    } };

    ghost invariant = { λ s. (s.lines ≤ 65536)
        × (s.sends ≤ s.lines)
        × IfSome s.nodes (λ n. n ≤ 5)
        × ((k : ℕ) → slice_index s.commands k ≤ s.lines) };
}

/// Whether the first word of a line is `send`.
fn begins_send(line: &[u8]) -> bool
    ensures { result ≡ begins_send (words_of line.now) }
{
    match Words::new(line).next() {
        Some(first) => first == b"send".as_slice(),
        None => false,
    }
}

/// Whether a word begins a comment.
fn begins_comment(word: &[u8]) -> bool
    ensures { result ≡ begins_comment word.now }
{
    matches!(word, [b'#', ..])
}

/// Whether a word has a byte outside 32 to 126.
fn has_bad_byte(word: &[u8]) -> bool
    ensures { result ≡ has_bad_byte word.now }
{
    word.iter().any(|b| !(32 <= *b && *b <= 126))
}

/// The first word of a line with such a byte, from 1.
#[tactic(auto, using(crate::proofs::WordCount::words_count), unfolding(crate::specs::Seen::bad_byte_of))]
fn bad_byte_of(line: &[u8]) -> Option<u32>
    requires { length line.now ≤ 256 }
    ensures { result ≡ bad_byte_of (words_of line.now) }
{
    let mut words = Words::new(line);
    let mut at = 1;
    while let Some(word) = words.next() {
        if has_bad_byte(word) {
            return Some(at);
        }
        at += 1;
    }
    None
}

impl Script {
    /// No line was taken yet. A race takes fewer forms of line.
    pub fn new(race: bool) -> Script
        ensures { result ≡ unseen race }
    {
        Script {
            race,
            lines: 0,
            sends: 0,
            nodes: None,
            ended: false,
            commands: ClientCounts::new(),
        }
    }

    /// The limit that the line passes.
    #[tactic(auto, unfolding(crate::specs::Seen::limit_of))]
    fn limit_of(&self, line: &[u8]) -> Option<Excess>
        ensures limit { result ≡ limit_of self.now line.now }
        ensures room { result ≡ None → self.now.lines < 65536 }
        ensures short { result ≡ None → length line.now ≤ 256 }
    {
        if self.lines == 65536 {
            Some(Excess {
                which: Which::Lines,
                count: 65537,
            })
        } else if line.len() > 256 {
            Some(Excess {
                which: Which::LineBytes,
                count: 257,
            })
        } else if self.race && self.sends == 4096 && begins_send(line) {
            Some(Excess {
                which: Which::Commands,
                count: 4097,
            })
        } else {
            None
        }
    }

    /// Reads the words behind the first one, where a line that begins so may come.
    #[tactic(auto, unfolding(crate::specs::Seen::placed))]
    fn placed(&self, keyword: Keyword, words: &mut Words) -> Result<ScriptLine, BadWord>
        ensures { result ≡ placed self.now keyword words.old }
    {
        match (self.nodes, keyword) {
            (None, Keyword::Cluster) => cluster(words),
            (None, _) => Err(bad_word(1, LineKind::NoCluster)),
            (Some(_), Keyword::Cluster) => Err(bad_word(1, LineKind::SecondCluster)),
            (Some(_), _) if self.ended => Err(bad_word(1, LineKind::AfterEnd)),
            (Some(_), keyword) if self.race && is_barred_in_race(keyword) => {
                Err(bad_word(1, LineKind::NotInRace))
            }
            (Some(nodes), keyword) => form(keyword, words, nodes, &self.commands),
        }
    }

    /// Reads a line of at most 256 bytes.
    #[tactic(auto, unfolding(crate::specs::Seen::said))]
    fn said(&self, line: &[u8]) -> Result<Option<ScriptLine>, BadWord>
        requires { length line.now ≤ 256 }
        ensures { result ≡ said self.now (words_of line.now) }
    {
        let bad = bad_byte_of(line);
        let mut words = Words::new(line);
        let Some(first) = words.next() else {
            return Ok(None);
        };
        match bad {
            Some(_) if begins_comment(first) => Err(bad_word(0, LineKind::BadByte)),
            Some(at) => Err(bad_word(at, LineKind::BadByte)),
            None if begins_comment(first) => Ok(None),
            None => Ok(Some(self.placed(keyword_of(first), &mut words)?)),
        }
    }

    /// How many lines were taken.
    pub(crate) fn lines(&self) -> u32
        ensures value { result ≡ self.now.lines }
        ensures few { result ≤ 65536 }
    {
        self.lines
    }

    /// What the next line says; the script stays as it is.
    #[tactic(auto, unfolding(crate::specs::Seen::judged))]
    fn judge_words(&self, line: &[u8]) -> Result<Option<ScriptLine>, ScriptFault>
        ensures line { result ≡ judged self.now line.now }
        ensures room { IfOk result (λ _. self.now.lines < 65536) }
    {
        if let Some(Excess { which, count }) = self.limit_of(line) {
            return Err(ScriptFault::Limit { which, count });
        }
        match self.said(line) {
            Ok(line) => Ok(line),
            Err(BadWord { word, kind }) => Err(ScriptFault::Refused {
                line: self.lines + 1,
                word,
                kind,
            }),
        }
    }

    /// The same, and that it may follow the lines that were taken.
    #[tactic(auto, using(crate::proofs::Along::judged_follows, crate::proofs::Along::judged_bounded))]
    pub(crate) fn judge(&self, line: &[u8]) -> Result<Option<ScriptLine>, ScriptFault>
        ensures line { result ≡ judged self.now line.now }
        ensures room { IfOk result (λ _. self.now.lines < 65536) }
        ensures follows { IfOk result (λ o. IfSome o (Follows self.now)) }
        ensures bounded { IfOk result (λ o. IfSome o IsBounded) }
    {
        self.judge_words(line)
    }

    /// Keeps what must be known of a line that was taken.
    pub(crate) fn keep(&mut self, line: &Option<ScriptLine>)
        requires room { self.old.lines < 65536 }
        requires bounded { IfSome line.now IsBounded }
        ensures kept { self.new ≡ after self.old line.now }
        ensures lines { self.new.lines ≡ self.old.lines + 1 }
    {
        match *line {
            Some(ScriptLine::Cluster { nodes }) => self.nodes = Some(nodes),
            Some(ScriptLine::Send { client, .. }) => {
                self.commands.add_one(client);
                self.sends += 1;
            }
            Some(ScriptLine::Admit { client, .. }) => {
                self.commands.add_one(client);
            }
            Some(ScriptLine::End) => self.ended = true,
            _ => {}
        }
        self.lines += 1;
    }

    /// Takes the next line, without its newline; None for a line without words or a comment. It
    /// takes no memory. A refusal leaves the script as it was.
    pub fn take(&mut self, line: &[u8]) -> Result<Option<ScriptLine>, LineFault>
        ensures answer { result ≡ answer_of self.old line.now }
        ensures kept { self.new ≡ left self.old result }
        ensures follows { IfOk result (λ o. IfSome o (Follows self.old)) }
    {
        match self.judge(line) {
            Ok(taken) => {
                self.keep(&taken);
                Ok(taken)
            }
            Err(fault) => Err(line_fault(fault)),
        }
    }

    /// Whether the source may end here: a line `cluster` and a line `end` were taken.
    pub fn finish(&self) -> Result<(), LineKind>
        ensures { MatchResult result (λ _. unended self.now ≡ None)
            (λ kind. unended self.now ≡ Some kind) }
    {
        match self.nodes {
            None => Err(LineKind::NoCluster),
            Some(_) if self.ended => Ok(()),
            Some(_) => Err(LineKind::NoEnd),
        }
    }
}
