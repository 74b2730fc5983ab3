//! The worked payloads, and places of bad fields.
ghost use Rattle.std.specs.Prelude.{◌<◌};

use crate::samples::{attempt, key, text};
use rp_base::{LeaseAsk, LeaseIndex, LeaseSeq, NodeId, RangeId, Tick, Value};
use rp_codec::{DecodeFault, decode, encode};
use rp_request::{Batch, Command, Op, Payload, Reply, Request};
use std::alloc::Global;
use std::test::Fail;

/// The put of `a` to 5 by client 1, number 1, attempt 1 under sequence 1 with maximum 1; before it
/// the key had no value.
const PUT: [u8; 51] = [
    1, 1, 0, 1, 0, 0, 0, 1, 0, 1, 0, 0, 0, 0, 0, 0, 0, 1, 0, 0, 0, 0, 0, 0, 0, 1, 1, 1, 0x61, 0, 0,
    0, 0, 0, 0, 0, 5, 1, 0, 1, 1, 1, 0x61, 0, 0, 0, 0, 0, 0, 0, 5,
];

/// The same put of the text `hi`.
const PUT_TEXT: [u8; 43] = [
    2, 1, 0, 1, 0, 0, 0, 1, 0, 1, 0, 0, 0, 0, 0, 0, 0, 1, 0, 0, 0, 0, 0, 0, 0, 1, 1, 1, 0x61, 1, 2,
    0x68, 0x69, 1, 0, 1, 1, 1, 0x61, 1, 2, 0x68, 0x69,
];

/// Node 3 asks for the lease behind sequence 258, to tick 40.
const ASK: [u8; 19] = [1, 2, 3, 0, 0, 0, 0, 0, 0, 1, 2, 0, 0, 0, 0, 0, 0, 0, 40];

/// A command of client 1, number 1, attempt 1 under sequence 1 with maximum 1, with one write.
fn command(alloc: Global, request: &Request, reply: &Reply, op: &Op) -> Result<Payload, Fail> {
    let mut batch = Batch::new(alloc);
    batch.push(*op)?;
    Ok(Payload::Write(Command {
        id: attempt(1),
        request: *request,
        batch,
        reply: *reply,
        seq: LeaseSeq::new(1),
        max: LeaseIndex::new(1),
    }))
}

/// The put of `a` to a value, which was missing before.
fn put(alloc: Global, value: &Value) -> Result<Payload, Fail> {
    let key = key("a")?;
    let request = Request::Put { key, value: *value };
    let op = Op::Set { key, value: *value };
    command(alloc, &request, &Reply::Old(None), &op)
}

/// Whether the bytes are refused at this place.
fn bad(alloc: Global, bytes: &[u8], place: usize) -> bool {
    match decode(alloc, bytes) {
        Ok(_) => false,
        Err(fault) => fault == DecodeFault::Bad { place },
    }
}

/// Whether the put is refused at this place where this byte stands in it.
fn bad_with(alloc: Global, at: usize, byte: u8, place: usize) -> bool
    requires { at < 51 }
{
    let mut bytes = PUT;
    bytes[at] = byte;
    bad(alloc, &bytes, place)
}

/// Whether the put of a text is refused at this place where this byte stands in it.
fn bad_text_with(alloc: Global, at: usize, byte: u8, place: usize) -> bool
    requires { at < 43 }
{
    let mut bytes = PUT_TEXT;
    bytes[at] = byte;
    bad(alloc, &bytes, place)
}

/// Whether the payload is spelled by these bytes.
fn is_written(alloc: Global, payload: &Payload, bytes: &[u8]) -> bool {
    match encode(alloc, payload) {
        Ok(written) => written.as_slice() == bytes,
        Err(_) => false,
    }
}

/// Whether the bytes are read, and what was read is spelled by them.
fn is_read(alloc: Global, bytes: &[u8]) -> bool {
    match decode(alloc, bytes) {
        Ok(payload) => is_written(alloc, &payload, bytes),
        Err(_) => false,
    }
}

#[test]
fn worked_payloads_are_written(rt: HostRuntime) -> Result<(), Fail> {
    let ask = LeaseAsk {
        holder: NodeId::new(3).ok_or("a node")?,
        prev: LeaseSeq::new(258),
        expires: Tick::new(40),
    };
    let number = put(rt.alloc(), &Value::Number(5))?;
    let text = put(rt.alloc(), &text("hi")?)?;
    assert!(rt; is_written(rt.alloc(), &number, &PUT));
    assert!(rt; is_written(rt.alloc(), &text, &PUT_TEXT));
    assert!(rt; is_written(rt.alloc(), &Payload::Lease(ask), &ASK));
    Ok(())
}

#[test]
fn spellings_are_read(rt: HostRuntime) {
    assert!(rt; is_read(rt.alloc(), &PUT) && is_read(rt.alloc(), &PUT_TEXT));
    assert!(rt; is_read(rt.alloc(), &ASK) && is_read(rt.alloc(), &[1, 0]));
}

#[test]
fn a_split_comes_back(rt: HostRuntime) -> Result<(), Fail> {
    let key = key("a")?;
    let right = RangeId::new(4).ok_or("a range")?;
    let op = Op::Remove { key };
    let split = command(
        rt.alloc(),
        &Request::Split { key },
        &Reply::Range(right),
        &op,
    )?;
    let bytes = encode(rt.alloc(), &split)?;
    assert!(rt; is_read(rt.alloc(), bytes.as_slice()));
    Ok(())
}

#[test]
fn places_of_version_1(rt: HostRuntime) {
    assert!(rt; bad(rt.alloc(), &[], 0));
    assert!(rt; bad(rt.alloc(), &PUT[..28], 27));
    assert!(rt; bad(rt.alloc(), &PUT[..50], 43));
    assert!(rt; bad_with(rt.alloc(), 0, 3, 0));
    assert!(rt; bad_with(rt.alloc(), 1, 3, 1));
    assert!(rt; bad_with(rt.alloc(), 28, 0x41, 27));
    assert!(rt; bad_with(rt.alloc(), 38, 2, 38));
    assert!(rt; bad_with(rt.alloc(), 39, 17, 39));
}

#[test]
fn places_of_version_2(rt: HostRuntime) {
    assert!(rt; bad_text_with(rt.alloc(), 0, 1, 38));
    assert!(rt; bad_text_with(rt.alloc(), 1, 2, 1));
    assert!(rt; bad_text_with(rt.alloc(), 29, 2, 29));
    assert!(rt; bad_text_with(rt.alloc(), 30, 65, 30));
    assert!(rt; bad_text_with(rt.alloc(), 31, 32, 30));
    assert!(rt; bad_text_with(rt.alloc(), 34, 2, 34));
    assert!(rt; bad(rt.alloc(), &PUT_TEXT[..42], 40));
}
