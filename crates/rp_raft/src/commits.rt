//! How a leader's commit index moves on (Raft 2014, sections 5.3 and 5.4.2).

ghost use Rattle.std.specs.Prelude.{◌≡◌, ◌<◌, ◌≤◌, ℕ, false, true, length, max, take};
ghost use Rattle.rp_raftstep.specs.RaftState.{is_majority, with_node};
ghost use Rattle.rp_raftstep.specs.Step.{advanced, committable, is_committable, matched_by};
ghost use Rattle.rp_raft.specs.Plans.{CanHold, ahead, at_least, with_commit};

use crate::ahead::{last_in, term_in};
use crate::heads::{is_majority, place};
use rp_raftlog::{Entry, Log};
use rp_raftstep::{Head, Role};

/// How far the log of each node is known to be as the leader's, whose own reaches to `last`.
fn matched_by(head: &Head, last: u64) -> [u64; 5]
    ensures { result ≡ with_node head.now.matched head.now.node last }
{
    let mut matched = head.matched;
    matched[place(head.node)] = last;
    matched
}

/// Whether a majority has the entry with this index.
fn is_on_majority(head: &Head, matched: &[u64], index: u64) -> bool
    requires { length matched.now ≤ 5 }
    ensures { result ≡ is_majority head.now (at_least index matched.now) }
{
    let count = matched.iter().filter(|known| index <= **known).count();
    is_majority(head, count)
}

/// The reach with one index of the table more.
fn reach_with(head: &Head, matched: &[u64], reach: u64, known: u64) -> u64
    requires { length matched.now ≤ 5 }
    ensures more { reach ≤ result }
    ensures known { is_majority head.now (at_least known matched.now) ≡ true → known ≤ result }
{
    if reach < known && is_on_majority(head, matched, known) {
        return known;
    }
    reach
}

/// The greatest index that a majority has, or the commit index where that is greater.
fn reach(head: &Head, matched: &[u64]) -> u64
    requires { length matched.now ≤ 5 }
    ensures { (index : ℕ) → result < index
        → is_majority head.now (at_least index matched.now) ≡ false }
{
    let mut reach = head.commit;
    for known in matched {
        reach = reach_with(head, matched, reach, *known);
    }
    reach
}

/// Whether the entry there is of the present term, and a majority has it.
fn is_committable(head: &Head, log: &Log, added: &[Entry], matched: &[u64], index: u64) -> bool
    requires nodes { head.now.nodes ≤ 5 }
    requires matched { matched.now
        ≡ take head.now.nodes (matched_by (ahead head.now log.now.log added.now)) }
    ensures { result ≡ is_committable (ahead head.now log.now.log added.now) index }
{
    let present = head.term;
    term_in(log, added, index) == Some(present) && is_on_majority(head, matched, index)
}

/// The commit index, moved on to the greatest index of the present term that a majority has.
fn committed(head: &Head, log: &Log, added: &[Entry]) -> u64
    requires nodes { head.now.nodes ≤ 5 }
    requires hold { CanHold log.now.log added.now }
    ensures { result ≡ max head.now.commit (committable (ahead head.now log.now.log added.now)) }
{
    let last = last_in(log, added);
    let matched_by_all = matched_by(head, last);
    let matched = &matched_by_all[..usize::from(head.nodes)];
    let mut index = last.min(reach(head, matched));
    while head.commit < index {
        if is_committable(head, log, added, matched, index) {
            return index;
        }
        index -= 1;
    }
    head.commit
}

/// The commit index at the end of an event: a leader's moves on.
pub(crate) fn commit_after(head: &Head, log: &Log, added: &[Entry]) -> u64
    requires nodes { head.now.nodes ≤ 5 }
    requires hold { CanHold log.now.log added.now }
    ensures { ahead (with_commit head.now result) log.now.log added.now
        ≡ advanced (ahead head.now log.now.log added.now) }
{
    if head.role != Role::Leader {
        return head.commit;
    }
    committed(head, log, added)
}
