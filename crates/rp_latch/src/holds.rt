//! A hold, and what stands in the way of one.
ghost use Rattle.std.specs.Prelude.{◌≡◌};
ghost use Rattle.rp_base.specs.Spans.{meets_one};
ghost use Rattle.rp_latch.specs.Holds.{met_in, held_by};

use rp_base::{CmdId, Span, Spans};
use std::error::Error;
use std::fmt;

/// The spans that one attempt of a command holds.
#[derive(Clone, Copy, PartialEq, Eq)]
pub struct Hold {
    pub id: CmdId,
    pub spans: Spans,
}

/// A held span meets one of those asked: of the oldest hold that has such a span, the first.
#[derive(Clone, Copy, Debug, PartialEq, Eq)]
pub struct Held {
    pub by: CmdId,
    pub held: Span,
}

impl fmt::Display for Held {
    fn fmt<W: fmt::Write>(&self, f: &mut fmt::Formatter<W>) -> fmt::Result {
        f.write_str("held by another command")
    }
}

impl Error for Held {}

/// Whether the span meets one of these.
fn meets_one(spans: Spans, span: Span) -> bool
    ensures { result ≡ meets_one spans span }
{
    match spans.second {
        None => span.meets(spans.first),
        Some(second) => span.meets(spans.first) || span.meets(second),
    }
}

/// Of the held spans the first that meets one asked.
fn met_in(held: Spans, asked: Spans) -> Option<Span>
    ensures { result ≡ met_in held asked }
{
    if meets_one(asked, held.first) {
        return Some(held.first);
    }
    match held.second {
        Some(second) if meets_one(asked, second) => Some(second),
        _ => None,
    }
}

/// Of the hold the first span that meets one asked.
pub fn held_by(hold: Hold, asked: Spans) -> Option<Held>
    ensures { result ≡ held_by hold asked }
{
    match met_in(hold.spans, asked) {
        None => None,
        Some(held) => Some(Held { by: hold.id, held }),
    }
}
