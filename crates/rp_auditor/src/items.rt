//! What an item has to be at a state.
ghost use Rattle.std.specs.Prelude.{◌≡◌, ◌==◌, ◌+◌};
ghost use Rattle.rp_auditor.specs.Playing.{is_number, is_text, is_none, is_set, is_range, is_value, is_told, follows};
ghost use Rattle.rp_auditor.specs.Audits.{same_lease};

use rp_base::{Lease, RangeId, ShortText, Value};
use rp_request::Reply;

fn is_number(number: u64, told: &Reply) -> bool
    ensures { result ≡ is_number number told.now }
{
    match told {
        Reply::Old(Some(Value::Number(other))) | Reply::Now(other) | Reply::Count(other) => {
            number == *other
        }
        _ => false,
    }
}

fn is_text(text: &ShortText, told: &Reply) -> bool
    ensures { result ≡ is_text text.now told.now }
{
    match told {
        Reply::Old(Some(Value::Text(other))) => text == other,
        _ => false,
    }
}

fn is_none(told: &Reply) -> bool
    ensures { result ≡ is_none told.now }
{
    matches!(told, Reply::Old(None))
}

fn is_set(told: &Reply) -> bool
    ensures { result ≡ is_set told.now }
{
    matches!(told, Reply::Set)
}

fn is_range(range: RangeId, told: &Reply) -> bool
    ensures { result ≡ is_range range told.now }
{
    match told {
        Reply::Range(right) => range == *right,
        _ => false,
    }
}

fn is_value(value: &Value, told: &Reply) -> bool
    ensures { result ≡ is_value value.now told.now }
{
    match value {
        Value::Number(number) => is_number(*number, told),
        Value::Text(text) => is_text(text, told),
    }
}

/// Whether a reply has the text of another.
pub(crate) fn is_told(reply: &Reply, told: &Reply) -> bool
    ensures { result ≡ is_told reply.now told.now }
{
    match reply {
        Reply::Old(None) => is_none(told),
        Reply::Old(Some(value)) => is_value(value, told),
        Reply::Now(number) | Reply::Count(number) => is_number(*number, told),
        Reply::Set => is_set(told),
        Reply::Range(range) => is_range(*range, told),
    }
}

/// Whether a number is the next one.
fn is_next(old: u64, new: u64) -> bool
    ensures { result ≡ (new == old + 1) }
{
    old < u64::MAX && new == old + 1
}

/// Whether a lease follows another.
pub(crate) fn follows(old: &Lease, new: &Lease) -> bool
    ensures { result ≡ follows old.now new.now }
{
    let stays = new.holder == old.holder && new.seq == old.seq && old.expires <= new.expires;
    stays || is_next(old.seq.get(), new.seq.get())
}

/// Whether two leases are one.
pub(crate) fn same_lease(one: &Lease, other: &Lease) -> bool
    ensures { result ≡ same_lease one.now other.now }
{
    one.holder == other.holder && one.seq == other.seq && one.expires == other.expires
}
