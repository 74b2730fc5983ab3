//! Requests, and the spans of keys that they touch.
ghost use Rattle.std.specs.Prelude.{◌≡◌};
ghost use Rattle.rp_request.specs.Covers.{alone, both};

use rp_base::{Key, KeySpan, Seq, Span, Spans, Value};

/// What a client asks of a range (this project's requests). An absent key counts as 0 for `Add` and
/// `Move`.
#[derive(Clone, Copy, PartialEq, Eq)]
pub enum Request {
    /// The key gets the value.
    Put {
        key: Key,
        value: Value,
    },
    /// The key's number rises.
    Add {
        key: Key,
        by: u64,
    },
    /// The key gets the value where it has the expected one, `None` for no value.
    CPut {
        key: Key,
        expect: Option<Value>,
        value: Value,
    },
    /// The key is taken away.
    Del {
        key: Key,
    },
    /// All keys of the span are taken away, where they are at most 16.
    Wipe {
        span: KeySpan,
    },
    /// So much goes from the number of one key to that of the other.
    Move {
        from: Key,
        to: Key,
        by: u64,
    },
    /// The range splits: the keys from this one on leave for a range of their own.
    Split {
        key: Key,
    },
}

/// Requests in the order in which a client sends them.
pub type RequestList = Seq<Request>;

impl Request {
    ghost use Rattle.rp_request.specs.Covers.{spans_of, HasKeys};

    /// The spans of keys that the request may read and change; at a move, that of the key that is
    /// taken from comes first. A split has the whole key space.
    pub fn spans(&self) -> Spans
        ensures spans { result ≡ spans_of self.now }
        ensures keys { HasKeys self.now }
    {
        match *self {
            Request::Put { key, .. }
            | Request::Add { key, .. }
            | Request::CPut { key, .. }
            | Request::Del { key } => alone(Span::one(key)),
            Request::Wipe { span } => alone(span.span()),
            Request::Move { from, to, .. } => both(from, to),
            Request::Split { .. } => alone(Span::whole()),
        }
    }
}

fn alone(first: Span) -> Spans
    ensures { result ≡ alone first }
{
    Spans {
        first,
        second: None,
    }
}

fn both(from: Key, to: Key) -> Spans
    ensures { result ≡ both from to }
{
    if from == to {
        return alone(Span::one(from));
    }
    Spans {
        first: Span::one(from),
        second: Some(Span::one(to)),
    }
}
