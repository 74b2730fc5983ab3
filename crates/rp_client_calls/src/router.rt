//! Where a client asks, refusal by refusal.
ghost use Rattle.std.specs.Prelude.{◌≡◌, ℕ, ◌≤◌, IfOk};
ghost use Rattle.rp_router.specs.Hints.{NamesNode};

use rp_base::{CmdId, Key, Lease, LeaseSeq, NodeId, RangeId, Span, Tick};
use rp_range::{first_desc, split_at};
use rp_request::Refusal;
use rp_router::Hints;
use std::test::Fail;

fn key(text: &str) -> Result<Key, Fail> {
    Ok(Key::read(text.as_bytes()).ok().ok_or("a key")?)
}

fn held_by(holder: NodeId) -> Refusal
    ensures { (nodes : ℕ) → holder ≤ nodes → NamesNode nodes result }
{
    Refusal::NotLeaseHolder {
        lease: Lease {
            holder,
            seq: LeaseSeq::new(2),
            expires: Tick::new(40),
        },
    }
}

fn aims_at(hints: &Hints, text: &str, want_node: u8, want_range: u8) -> Result<bool, Fail> {
    let (node, range) = hints.aim(key(text)?);
    Ok(node.get() == want_node && range.get() == want_range)
}

#[test]
fn holders_are_learnt(rt: HostRuntime) -> Result<(), Fail> {
    let (one, two) = (NodeId::new(1).unwrap(), NodeId::new(2).unwrap());
    let first = RangeId::new(0).unwrap();
    let mut hints = Hints::start(3);
    assert!(rt; aims_at(&hints, "a", 1, 0)?);
    hints.learn(one, first, &held_by(two));
    assert!(rt; aims_at(&hints, "a", 2, 0)?);
    hints.learn(two, first, &Refusal::NoReplica);
    assert!(rt; aims_at(&hints, "a", 3, 0)?);
    hints.learn(NodeId::new(3).unwrap(), first, &Refusal::NoReplica);
    assert!(rt; aims_at(&hints, "z", 1, 0)?);
    Ok(())
}

/// What a client of two nodes knows once range 0 has split at `m`, as far as it was told.
fn after_split(told: bool) -> Result<Hints, Fail>
    ensures { IfOk result (λ h. h.nodes ≡ 2) }
{
    let one = NodeId::new(1).unwrap();
    let (left, right) = split_at(first_desc(), key("m")?).ok().ok_or("a split")?;
    let mut hints = Hints::start(2);
    let first = RangeId::new(0).unwrap();
    hints.learn(one, first, &Refusal::RangeMismatch { desc: left });
    if told {
        let second = RangeId::new(1).unwrap();
        hints.learn(one, second, &Refusal::RangeMismatch { desc: right });
    }
    Ok(hints)
}

#[test]
fn an_unknown_range_is_sought(rt: HostRuntime) -> Result<(), Fail> {
    let hints = after_split(false)?;
    assert!(rt; aims_at(&hints, "a", 1, 0)?);
    assert!(rt; aims_at(&hints, "m", 1, 1)?);
    Ok(())
}

#[test]
fn an_older_description_is_passed_over(rt: HostRuntime) -> Result<(), Fail> {
    let mut hints = after_split(true)?;
    let one = NodeId::new(1).unwrap();
    let first = RangeId::new(0).unwrap();
    hints.learn(one, first, &Refusal::RangeMismatch { desc: first_desc() });
    let by = CmdId {
        client: 1,
        seq: 1,
        attempt: 1,
    };
    hints.learn(
        one,
        first,
        &Refusal::Latched {
            by,
            held: Span::whole(),
        },
    );
    assert!(rt; aims_at(&hints, "z", 1, 1)?);
    Ok(())
}
