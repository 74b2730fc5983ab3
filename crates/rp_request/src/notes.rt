//! What a run has to tell: notes, and the ends of attempts.
use crate::outcomes::End;
use rp_base::{Seq, Text};

/// What a line of a script has to tell.
#[derive(Drop)]
pub struct Note {
    /// The line's number, from 1.
    pub line: u32,
    pub text: Text,
}

/// Notes in the order of their lines.
pub type Notes = Seq<Note>;

/// How an attempt of a client's command ended.
#[derive(Clone, Copy, PartialEq, Eq)]
pub struct ReplyLine {
    pub client: u16,
    pub seq: u32,
    pub attempt: u16,
    pub end: End,
}

/// Ends of attempts, by client, command, attempt.
pub type Replies = Seq<ReplyLine>;
