//! The rules of scripts.

use crate::samples::{key, rules};
use rp_base::Key;
use rp_race::{ClientRequests, Handover, RaceRules};
use rp_request::Request;
use std::test::Fail;

/// Whether these are deletions of two keys, in this order.
fn deletes(sent: &ClientRequests, first: Key, second: Key) -> bool {
    match sent.requests.as_slice() {
        [one, other] => {
            *one == Request::Del { key: first } && *other == Request::Del { key: second }
        }
        _ => false,
    }
}

/// Whether of seven clients the third sends two requests, in order, and the last one.
fn are_sent(sent: &[ClientRequests], first: Key, second: Key) -> bool {
    match sent {
        [a, b, third, d, e, f, last] => {
            let first_none = a.requests.len() == 0 && b.requests.len() == 0;
            let more_none = d.requests.len() == 0 && e.requests.len() == 0 && f.requests.len() == 0;
            first_none && more_none && deletes(third, first, second) && last.requests.len() == 1
        }
        _ => false,
    }
}

/// Whether range 0 is to go from node 2 to node 4 alone.
fn is_moved(transfers: &[Handover]) -> bool {
    match transfers {
        [one] => one.node.get() == 2 && one.range.get() == 0 && one.to.get() == 4,
        _ => false,
    }
}

fn is_as_written(rules: &RaceRules, first: Key, second: Key) -> bool {
    (rules.loss, rules.salt) == (5, 9)
        && are_sent(rules.requests.as_slice(), first, second)
        && is_moved(rules.transfers.as_slice())
}

#[test]
fn clients_keep_their_numbers(rt: HostRuntime) -> Result<(), Fail> {
    let text =
        "cluster 5\nsend 1 0 3 del a\nsend 2 0 7 del b\ntransfer 2 0 4\nsend 3 0 3 del c\nend";
    let rules = rules(rt.alloc(), text).ok_or("rules")?;
    let (first, second) = (key("a")?, key("c")?);
    assert!(rt; is_as_written(&rules, first, second));
    Ok(())
}
