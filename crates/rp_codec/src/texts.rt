//! Whether a payload holds a text.
ghost use Rattle.std.specs.Prelude.{◌≡◌, Some};
ghost use Rattle.std.specs.List.{list_any};
ghost use Rattle.rp_base.specs.Values.{is_text};
ghost use Rattle.rp_request.specs.Texts.{request_has_text, reply_has_text, op_has_text, command_has_text, payload_has_text};

use rp_base::Value;
use rp_request::{Command, Op, Payload, Reply, Request};

fn is_text(value: &Value) -> bool
    ensures { result ≡ is_text (Some value.now) }
{
    match value {
        Value::Number(_) => false,
        Value::Text(_) => true,
    }
}

fn may_be_text(option: &Option<Value>) -> bool
    ensures { result ≡ is_text option.now }
{
    match option {
        None => false,
        Some(value) => is_text(value),
    }
}

fn request_has_text(request: &Request) -> bool
    ensures { result ≡ request_has_text request.now }
{
    match request {
        Request::Put { value, .. } => is_text(value),
        Request::CPut { expect, value, .. } => may_be_text(expect) || is_text(value),
        Request::Add { .. }
        | Request::Del { .. }
        | Request::Wipe { .. }
        | Request::Move { .. }
        | Request::Split { .. } => false,
    }
}

fn reply_has_text(reply: &Reply) -> bool
    ensures { result ≡ reply_has_text reply.now }
{
    match reply {
        Reply::Old(option) => may_be_text(option),
        Reply::Now(_) | Reply::Set | Reply::Count(_) | Reply::Range(_) => false,
    }
}

fn op_has_text(op: &Op) -> bool
    ensures { result ≡ op_has_text op.now }
{
    match op {
        Op::Set { value, .. } => is_text(value),
        Op::Remove { .. } => false,
    }
}

fn any_has_text(ops: &[Op]) -> bool
    ensures { result ≡ list_any op_has_text ops.now }
{
    ops.iter().any(|op| op_has_text(op))
}

/// Whether the request, the reply or the batch holds a text.
fn command_has_text(command: &Command) -> bool
    ensures { result ≡ command_has_text command.now }
{
    request_has_text(&command.request)
        || reply_has_text(&command.reply)
        || any_has_text(command.batch.as_slice())
}

/// Whether the payload holds a text.
pub fn payload_has_text(payload: &Payload) -> bool
    ensures { result ≡ payload_has_text payload.now }
{
    match payload {
        Payload::Write(command) => command_has_text(command),
        Payload::Nothing | Payload::Lease(_) => false,
    }
}
