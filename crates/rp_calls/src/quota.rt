//! Shares take and give.
ghost use Rattle.std.specs.Prelude.{◌≡◌, ◌≤◌};
ghost use Rattle.rp_quota.specs.Shares.{capacity_of, known_by, IsShareOf, IsSame};

use rp_quota::{Quota, QuotaFault, Share};
use std::test::Fail;
use std::thread::join;

#[test]
fn two_shares_of_three_units(rt: HostRuntime) -> Result<(), Fail> {
    let (quota, mut first) = Quota::new(rt.alloc(), 3)?;
    let mut second = quota.split(&mut first);
    assert!(rt; quota.try_take(&mut first, 2).is_ok());
    assert!(rt;
        quota
            .try_take(&mut second, 2)
            .is_err_and(|fault| fault == QuotaFault::Low { free: 1 })
    );
    quota.give(&mut first, 2);
    assert!(rt; quota.try_take(&mut second, 2).is_ok());
    quota.join(&mut first, second);
    let closed = quota.close(first)?;
    assert!(rt; closed.free == 1 && closed.held == 2);
    Ok(())
}

/// Takes two units and gives them back, where they are had.
fn use_two(quota: &Quota, share: &mut Share)
    requires of { IsShareOf quota.now share.old }
    requires two { 2 ≤ capacity_of quota.now }
    ensures same { IsSame share.old share.new }
    ensures parts { (known_by share.new).parts ≡ (known_by share.old).parts }
{
    if quota.try_take(share, 2).is_ok() {
        quota.give(share, 2);
    }
}

fn use_often(quota: &Quota, mut share: Share) -> Share
    requires of { IsShareOf quota.now share }
    requires two { 2 ≤ capacity_of quota.now }
    ensures of { IsShareOf quota.now result }
    ensures parts { (known_by result).parts ≡ (known_by share).parts }
{
    for _ in 0..1000 {
        use_two(quota, &mut share);
    }
    share
}

#[test]
fn shares_on_two_threads(rt: HostRuntime) -> Result<(), Fail> {
    let (quota, mut first) = Quota::new(rt.alloc(), 3)?;
    let second = quota.split(&mut first);
    let pair = join(
        &rt,
        || -> Share
            requires { IsShareOf quota first × (2 ≤ capacity_of quota) }
            ensures { IsShareOf quota result × ((known_by result).parts ≡ (known_by first).parts) }
        { use_often(&quota, first) },
        || -> Share
            requires { IsShareOf quota second × (2 ≤ capacity_of quota) }
            ensures { IsShareOf quota result × ((known_by result).parts ≡ (known_by second).parts) }
        { use_often(&quota, second) },
    );
    let (mut first, second) = pair;
    quota.join(&mut first, second);
    let closed = quota.close(first)?;
    assert!(rt; closed.free == 3 && closed.held == 0);
    Ok(())
}
