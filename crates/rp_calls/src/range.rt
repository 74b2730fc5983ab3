//! Splits, and leases that follow each other.
use crate::samples::key;
use rp_base::{Desc, LeaseAsk, LeaseSeq, NodeId, SplitFault, Tick};
use rp_range::{after, first_desc, first_lease, split_at};
use std::test::Fail;

/// Whether a part has this number, this level and these ends.
fn is(part: Desc, id: u8, level: u8, start: u128, end: u128) -> bool {
    part.id.get() == id && part.level == level && part.start == start && part.end == end
}

#[test]
fn range_0_splits_three_times(rt: HostRuntime) -> Result<(), Fail> {
    let mut left = first_desc();
    for (text, id, level) in [("m", 1, 1), ("f", 2, 2), ("c", 4, 3)] {
        let at = key(text)?;
        let end = left.end;
        let (low, high) = split_at(left, at)?;
        assert!(rt; is(low, 0, level, 0, at.bound()) && is(high, id, level, at.bound(), end));
        left = low;
    }
    let level = left.level;
    assert!(rt; split_at(left, key("b")?) == Err(SplitFault::SplitLimit { level }));
    let (_, right) = split_at(first_desc(), key("m")?)?;
    assert!(rt; split_at(right, key("m")?) == Err(SplitFault::NotInside));
    Ok(())
}

/// What an ask for this node under this sequence makes of the first lease: whose it is, its sequence
/// and its end.
fn asked(holder: NodeId, prev: u64, expires: u64) -> Option<(u8, u64, u64)> {
    let ask = LeaseAsk {
        holder,
        prev: LeaseSeq::new(prev),
        expires: Tick::new(expires),
    };
    after(first_lease(), ask).map(|lease| (
        lease.holder.get(),
        lease.seq.get(),
        lease.expires.get(),
    ))
}

#[test]
fn leases_follow(rt: HostRuntime) -> Result<(), Fail> {
    let own = first_lease().holder;
    let other = NodeId::new(2).ok_or("2 is a node")?;
    for (holder, prev, expires, want) in [
        (own, 1, 30, Some((1, 1, 40))),
        (own, 1, 56, Some((1, 1, 56))),
        (own, 1, 0, Some((1, 2, 40))),
        (own, 2, 0, None),
        (other, 1, 0, Some((2, 2, 0))),
        (other, 1, 40, Some((2, 2, 40))),
        (other, 2, 40, None),
        (own, 0, 40, None),
    ] {
        assert!(rt; asked(holder, prev, expires) == want);
    }
    Ok(())
}
