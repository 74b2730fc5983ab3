//! Spans that are held and freed.
use crate::samples::{key, passed};
use rp_base::{CmdId, Span, Spans};
use rp_latch::{Held, Latches};
use std::test::Fail;

fn attempt(client: u16) -> CmdId {
    CmdId {
        client,
        seq: 1,
        attempt: 1,
    }
}

fn one(text: &str) -> Result<Spans, Fail> {
    Ok(Spans {
        first: Span::one(key(text)?),
        second: None,
    })
}

/// Whether the oldest hold that the whole key space meets is this attempt's, of this span.
fn is_oldest(latches: &Latches, by: CmdId, held: Span) -> bool {
    let whole = Spans {
        first: Span::whole(),
        second: None,
    };
    latches.conflict(whole) == Some(Held { by, held })
}

/// The older hold is found as long as it is held, then the other one.
fn frees_both(latches: &mut Latches, a: Spans, b: Spans) -> bool {
    let older = is_oldest(latches, attempt(1), a.first);
    latches.free(attempt(1));
    let other = is_oldest(latches, attempt(2), b.first);
    latches.clear();
    older && other && latches.conflict(b).is_none()
}

#[test]
fn holds_and_frees(rt: HostRuntime) -> Result<(), Fail> {
    let (a, b) = (one("a")?, one("b")?);
    let mut latches = Latches::new(rt.alloc());
    latches.make_room(2)?;
    assert!(rt; latches.hold(attempt(1), a).is_ok());
    assert!(rt; latches.hold(attempt(2), b).is_ok());
    assert!(rt; frees_both(&mut latches, a, b));
    Ok(())
}

#[test]
fn passes_through_a_thread(rt: HostRuntime) {
    let latches = Latches::new(rt.alloc());
    let latches = passed(&rt, latches);
    assert!(rt;
        latches
            .conflict(Spans {
                first: Span::whole(),
                second: None
            })
            .is_none()
    );
}

/// The span of one number, and the attempt that holds it.
fn numbered(n: u32) -> Result<(CmdId, Spans), Fail> {
    let start = u128::from(n);
    let id = CmdId {
        client: 1,
        seq: n,
        attempt: 1,
    };
    let spans = Spans {
        first: Span::new(start, start + 1).ok_or("a span")?,
        second: None,
    };
    Ok((id, spans))
}

/// Holds the span of this number.
fn hold(latches: &mut Latches, n: u32) -> Result<bool, Fail> {
    let (id, spans) = numbered(n)?;
    latches.make_room(1)?;
    Ok(latches.hold(id, spans).is_ok())
}

/// Quick, since no call goes through all holds.
#[test]
fn many_holds(rt: HostRuntime) -> Result<(), Fail> {
    let mut latches = Latches::new(rt.alloc());
    for n in 0..65000u32 {
        assert!(rt; hold(&mut latches, n)?);
    }
    for n in 0..65000u32 {
        assert!(rt; !hold(&mut latches, n)?);
    }
    Ok(())
}
