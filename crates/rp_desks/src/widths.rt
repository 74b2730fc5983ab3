//! The widths of the numbers in an admission.
ghost use Rattle.std.specs.Prelude.{◌<◌, ◌≤◌, ◌^◌};
ghost use Rattle.rp_base.specs.Keys.{IsKey};
ghost use Rattle.rp_base.specs.Values.{IsValue};
ghost use Rattle.rp_request.specs.Fits.{FitsEnd, FitsId, FitsOption, FitsRequest, FitsSpan};

use rp_base::{CmdId, Key, KeySpan, NodeId, Value};
use rp_request::Request;

// What the types say of numbers and keys. The functions do nothing.

/// A node's number.
pub(crate) fn node_fits(node: NodeId)
    ensures from_one { 1 ≤ node }
    ensures to_five { node ≤ 5 }
{}

fn number_fits(number: u64)
    ensures { number < 2 ^ 64 }
{}

fn short_fits(number: u16)
    ensures { number < 2 ^ 16 }
{}

fn seq_fits(number: u32)
    ensures { number < 2 ^ 32 }
{}

/// The numbers of an id have their widths. There is nothing to do.
pub(crate) fn id_fits(id: CmdId)
    ensures { FitsId id }
{
    short_fits(id.client);
    seq_fits(id.seq);
    short_fits(id.attempt);
}

fn value_fits(value: Value)
    ensures { IsValue value }
{
    if let Value::Text(text) = value {
        let _text = text.as_bytes();
    }
}

fn option_fits(option: Option<Value>)
    ensures { FitsOption option }
{
    if let Some(value) = option {
        value_fits(value);
    }
}

fn key_fits(key: Key)
    ensures { IsKey key }
{}

fn span_fits(span: KeySpan)
    ensures { FitsSpan span }
{
    key_fits(span.start);
    if let Some(end) = span.end {
        key_fits(end);
    }
}

/// So have those of a request.
pub(crate) fn request_fits(request: Request)
    ensures { FitsRequest request }
{
    match request {
        Request::Put { key, value } => {
            key_fits(key);
            value_fits(value);
        }
        Request::Add { key, by } => {
            key_fits(key);
            number_fits(by);
        }
        Request::CPut { key, expect, value } => {
            key_fits(key);
            option_fits(expect);
            value_fits(value);
        }
        Request::Del { key } | Request::Split { key } => key_fits(key),
        Request::Wipe { span } => span_fits(span),
        Request::Move { from, to, by } => {
            key_fits(from);
            key_fits(to);
            number_fits(by);
        }
    }
}
