//! What a client reads of its requests and of their refusals.
ghost use Rattle.std.specs.Prelude.{◌≡◌};
ghost use Rattle.rp_clients.specs.Tries.{tries_again, first_key, weight_of, units_of};

use rp_base::Key;
use rp_request::{Refusal, Request};

/// A request is sent where its first key is served.
pub(crate) fn first_key(request: &Request) -> Key
    ensures { result ≡ first_key request.now }
{
    match *request {
        Request::Put { key, .. }
        | Request::Add { key, .. }
        | Request::CPut { key, .. }
        | Request::Del { key }
        | Request::Split { key } => key,
        Request::Wipe { span } => span.start,
        Request::Move { from, .. } => from,
    }
}

fn weight_of(request: &Request) -> u64
    ensures { result ≡ weight_of request.now }
{
    match *request {
        Request::Put { .. }
        | Request::Add { .. }
        | Request::CPut { .. }
        | Request::Del { .. }
        | Request::Split { .. } => 1,
        Request::Wipe { .. } => 16,
        Request::Move { .. } => 2,
    }
}

/// The units of a quota that a request takes, never more than there are.
pub(crate) fn units_of(capacity: u64, request: &Request) -> u64
    ensures { result ≡ units_of capacity request.now }
{
    capacity.min(weight_of(request))
}

/// Whether a command is tried again after this refusal.
pub fn tries_again(refusal: &Refusal) -> bool
    ensures { result ≡ tries_again refusal.now }
{
    match *refusal {
        Refusal::NoReplica
        | Refusal::NotLeaseHolder { .. }
        | Refusal::RangeMismatch { .. }
        | Refusal::Latched { .. } => true,
        Refusal::ConditionFailed { .. }
        | Refusal::IsText { .. }
        | Refusal::Overflow { .. }
        | Refusal::Short { .. }
        | Refusal::TooWide { .. }
        | Refusal::NotInside
        | Refusal::SplitLimit { .. } => false,
    }
}
