//! Draws, publications and collects.
use rp_base::{BUFFER_CAPACITY, CmdId, Grown, Item, RangeId};
use rp_bufcore::{BufferEnd, PlainBuf, PlainEnd};
use std::alloc::Global;
use std::test::Fail;

fn item(client: u16) -> Item {
    Item::Write(CmdId {
        client,
        seq: 1,
        attempt: 1,
    })
}

/// A collect gives just these items, in this order.
fn gives(alloc: Global, buffer: &mut PlainBuf, want: &[Item]) -> Result<bool, Fail> {
    let mut out = Grown::new(alloc);
    out.make_room(BUFFER_CAPACITY)?;
    buffer.collect(&mut out);
    Ok(out.as_slice() == want)
}

/// A collect from a range's buffer gives just these items, in this order.
fn end_gives<B: BufferEnd>(
    alloc: Global,
    end: &mut B,
    range: RangeId,
    want: &[Item],
) -> Result<bool, Fail> {
    let mut out = Grown::new(alloc);
    out.make_room(BUFFER_CAPACITY)?;
    end.collect(range, &mut out);
    Ok(out.as_slice() == want)
}

#[test]
fn a_drawn_place_keeps_the_buffer_closed(rt: HostRuntime) -> Result<(), Fail> {
    let mut buffer = PlainBuf::new();
    assert!(rt; buffer.draw().is_ok_and(|place| place == 0));
    assert!(rt; buffer.draw().is_ok_and(|place| place == 1));
    assert!(rt; buffer.publish(1, item(7)).is_ok());
    assert!(rt; gives(rt.alloc(), &mut buffer, &[item(7)])?);
    assert!(rt; buffer.draw().is_err());
    assert!(rt; buffer.publish(0, item(8)).is_ok());
    assert!(rt; gives(rt.alloc(), &mut buffer, &[item(8)])?);
    assert!(rt; buffer.draw().is_ok_and(|place| place == 0));
    Ok(())
}

#[test]
fn each_range_has_its_buffer(rt: HostRuntime) -> Result<(), Fail> {
    let first = RangeId::new(0).ok_or("range 0")?;
    let last = RangeId::new(7).ok_or("range 7")?;
    let mut end = PlainEnd::new();
    assert!(rt; end.draw(last).is_ok_and(|place| place == 0));
    assert!(rt; end.publish(first, 0, item(3)).is_err());
    assert!(rt; end.publish(last, 0, item(3)).is_ok());
    assert!(rt; end_gives(rt.alloc(), &mut end, first, &[])?);
    assert!(rt; end_gives(rt.alloc(), &mut end, last, &[item(3)])?);
    Ok(())
}
