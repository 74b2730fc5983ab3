//! Spans of the key space.
ghost use Rattle.std.specs.Prelude.{◌<◌};
ghost use Rattle.rp_base.specs.Keys.{end_of};

use crate::keys::Key;

/// The numbers from a start on and below an end. The start is below the end.
#[derive(Clone, Copy, Debug, PartialEq, Eq, Hash)]
pub struct Span {
    pub start: u128,
    pub end: u128,
    pub ghost ordered: { start < end },
}

/// The numbers from a key on and below another key, or up to the end of the key space where none is
/// given. The start is below the end.
#[derive(Clone, Copy, Debug, PartialEq, Eq, Hash)]
pub struct KeySpan {
    pub start: Key,
    pub end: Option<Key>,
    pub ghost ordered: { start < end_of end },
}

/// One span or two.
#[derive(Clone, Copy, Debug, PartialEq, Eq, Hash)]
pub struct Spans {
    pub first: Span,
    pub second: Option<Span>,
}

impl Span {
    ghost use Rattle.std.specs.Prelude.{◌≡◌, ◌≤◌, ◌↔◌, IsTrue, IsNone, IfSome};
    ghost use Rattle.rp_base.specs.Spans.{Overlaps, meets, LiesWithin, within, one_key, whole};

    /// None exactly where the start is not below the end.
    pub fn new(start: u128, end: u128) -> Option<Span>
        ensures none { IsNone result ↔ (end ≤ start) }
        ensures start { IfSome result (λ s. s.start ≡ start) }
        ensures end { IfSome result (λ s. s.end ≡ end) }
    {
        if start < end {
            Some(Span { start, end })
        } else {
            None
        }
    }

    /// The span of one key alone.
    pub fn one(key: Key) -> Span
        ensures { result ≡ one_key key }
    {
        let start = key.bound();
        Span {
            start,
            end: start + 1,
        }
    }

    /// The whole key space.
    pub fn whole() -> Span
        ensures { result ≡ whole }
    {
        Span {
            start: 0,
            end: u128::MAX,
        }
    }

    /// Whether some number lies in both.
    pub fn meets(self, other: Span) -> bool
        ensures test { result ≡ meets self other }
        ensures overlaps { IsTrue result ↔ Overlaps self other }
    {
        self.start < other.end && other.start < self.end
    }

    /// Whether each number of the span lies from the start on and below the end.
    pub fn within(self, start: u128, end: u128) -> bool
        ensures test { result ≡ within self start end }
        ensures lies { IsTrue result ↔ LiesWithin self start end }
    {
        start <= self.start && self.end <= end
    }
}

impl KeySpan {
    ghost use Rattle.std.specs.Prelude.{◌≡◌, ◌≤◌, ◌↔◌, IsNone, IfSome, IsSomeAnd};
    ghost use Rattle.rp_base.specs.Spans.{key_span_of, span_of};

    /// None exactly where the end is a key at or below the start.
    pub fn new(start: Key, end: Option<Key>) -> Option<KeySpan>
        ensures span { result ≡ key_span_of start end }
        ensures none { IsNone result ↔ IsSomeAnd end (λ e. e ≤ start) }
        ensures start { IfSome result (λ s. s.start ≡ start) }
        ensures end { IfSome result (λ s. s.end ≡ end) }
    {
        let first = start.bound();
        match end {
            Some(key) if key.bound() <= first => None,
            _ => Some(KeySpan { start, end }),
        }
    }

    /// The numbers of the span.
    pub fn span(self) -> Span
        ensures { result ≡ span_of self }
    {
        let end = match self.end {
            Some(key) => key.bound(),
            None => u128::MAX,
        };
        Span {
            start: self.start.bound(),
            end,
        }
    }
}
