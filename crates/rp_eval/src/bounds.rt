//! Whether a range takes a request.
ghost use Rattle.std.specs.Prelude.{◌≡◌};
ghost use Rattle.rp_base.specs.Spans.{all_within};
ghost use Rattle.rp_request.specs.Covers.{in_bounds};

use rp_base::{Desc, Spans};
use rp_request::Request;

fn all_within(desc: Desc, spans: Spans) -> bool
    ensures { result ≡ all_within desc spans }
{
    let first = spans.first.within(desc.start, desc.end);
    match spans.second {
        None => first,
        Some(second) => first && second.within(desc.start, desc.end),
    }
}

/// Whether the range takes the request: all its spans lie in the range's bounds; at a split, its key
/// does (this project).
pub fn in_bounds(desc: Desc, request: &Request) -> bool
    ensures { result ≡ in_bounds desc request.now }
{
    match *request {
        Request::Split { key } => desc.start <= key.bound() && key.bound() < desc.end,
        _ => all_within(desc, request.spans()),
    }
}
