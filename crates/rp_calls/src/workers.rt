//! Losses beside those that PCG's published algorithm gives.
use rp_base::NodeId;
use rp_workers::lost;
use std::test::Fail;

/// Which of the messages 1 to 64 are lost, as bits, the first message lowest.
fn lost_of(percent: u8, salt: u64, sender: NodeId) -> u64 {
    let mut bits = 0;
    for number in 1..65 {
        if lost(percent, salt, sender, number) {
            bits |= 1 << (number - 1);
        }
    }
    bits
}

#[test]
fn one_in_ten_and_half(rt: HostRuntime) -> Result<(), Fail> {
    let first = NodeId::new(1).ok_or("node 1")?;
    let last = NodeId::new(5).ok_or("node 5")?;
    assert!(rt; lost_of(10, 1, first) == 0x0220_0000_0120_2000);
    assert!(rt; lost_of(0, 1, first) == 0 && lost_of(100, 1, first) == u64::MAX);
    assert!(rt; lost_of(50, u64::MAX - 2, last) == 0x167b_5209_2b7b_3a0c);
    Ok(())
}
