//! How a range splits, and how a lease follows another.
#![tactic(auto)]

ghost use Rattle.std.specs.Prelude.{◌≡◌, ◌<◌, ◌-◌, ◌^◌};
ghost use Rattle.rp_base.specs.Splits.{split_of, first_desc};
ghost use Rattle.rp_base.specs.Leases.{lease_after, first_lease};

use rp_base::{Desc, Key, Lease, LeaseAsk, LeaseSeq, NodeId, RangeId, SplitFault, Tick};

/// The two ranges that a split at the key makes: the left one keeps its number, and the right one
/// has the left one's plus 2 to the level (this project's numbers). `NotInside` where the key is the
/// range's start, else `SplitLimit` at level 3.
pub fn split_at(desc: Desc, key: Key) -> Result<(Desc, Desc), SplitFault>
    ensures { result ≡ split_of desc key }
{
    let bound = key.bound();
    if bound == desc.start {
        return Err(SplitFault::NotInside);
    }
    if desc.level >= 3 {
        return Err(SplitFault::SplitLimit { level: desc.level });
    }
    let Desc {
        id,
        level,
        start,
        end,
        ..
    } = desc;
    let left = Desc {
        id,
        level: level + 1,
        start,
        end: bound,
    };
    let right = Desc {
        id: desc.right_id(),
        level: level + 1,
        start: bound,
        end,
    };
    Ok((left, right))
}

/// What an ask makes of a lease. The holder's own ask moves the end, to the later tick; at tick 0 it
/// begins the holder's next lease, with the same end; another node's begins that node's next lease.
/// None exactly where the ask was made under another sequence.
pub fn after(lease: Lease, ask: LeaseAsk) -> Option<Lease>
    requires { lease.seq < 2 ^ 64 - 1 }
    ensures { result ≡ lease_after lease ask }
{
    if ask.prev != lease.seq {
        return None;
    }
    let next = LeaseSeq::new(lease.seq.get() + 1);
    if ask.holder != lease.holder {
        return Some(Lease {
            holder: ask.holder,
            seq: next,
            expires: ask.expires,
        });
    }
    if ask.expires == Tick::new(0) {
        return Some(Lease { seq: next, ..lease });
    }
    Some(Lease {
        expires: lease.expires.max(ask.expires),
        ..lease
    })
}

/// The first range: all keys, never split.
pub fn first_desc() -> Desc
    ensures { result ≡ first_desc }
{
    Desc {
        id: RangeId::new(0).unwrap(),
        level: 0,
        start: 0,
        end: u128::MAX,
    }
}

/// The first lease: of node 1, up to tick 40.
pub fn first_lease() -> Lease
    ensures { result ≡ first_lease }
{
    Lease {
        holder: NodeId::new(1).unwrap(),
        seq: LeaseSeq::new(1),
        expires: Tick::new(40),
    }
}
