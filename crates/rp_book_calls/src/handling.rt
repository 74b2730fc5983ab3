//! Messages that are handled out of order.
use rp_book::Handled;
use std::test::Fail;

#[test]
fn the_first_unhandled_message_is_behind_those_in_front(rt: HostRuntime) -> Result<(), Fail> {
    let mut handled = Handled::new(rt.alloc());
    let none = handled.first_unhandled();
    handled.handle(2)?;
    let first = handled.first_unhandled();
    handled.handle(1)?;
    assert_eq!(rt; (none, first, handled.first_unhandled()), (1, 1, 3));
    assert!(rt; handled.is_handled(2) && !handled.is_handled(3));
    Ok(())
}
