//! The log that a leader's event leaves: entries behind the present one, which stays as it is.

ghost use Rattle.std.specs.Prelude.{◌≡◌, ◌+◌, ◌-◌, ◌<◌, ◌≤◌, ◌^◌, ◌++◌, take, drop, IfOk, OnOk};
ghost use Rattle.rp_raft.specs.Plans.{CanHold};
ghost use Rattle.rp_raftlog.specs.LogState.{appended, last_index, suffix, term_at};

use rp_base::{NoMemory, Seq};
use rp_raftlog::{Entries, Entry, Log};

/// The last index with these entries behind.
#[tactic(auto, using(crate::proofs::Behind::last_ahead))]
pub(crate) fn last_in(log: &Log, added: &[Entry]) -> u64
    requires { CanHold log.now.log added.now }
    ensures { result ≡ last_index (appended log.now.log added.now) }
{
    log.last().0 + added.len() as u64
}

/// The term at an index with these entries behind.
#[tactic(auto, using(crate::proofs::Behind::term_held, crate::proofs::Behind::term_added))]
pub(crate) fn term_in(log: &Log, added: &[Entry], index: u64) -> Option<u64>
    ensures { result ≡ term_at (appended log.now.log added.now) index }
{
    let last = log.last().0;
    if index <= last {
        return log.term_at(index);
    }
    added
        .get((index - last - 1) as usize)
        .map(|entry| entry.term)
}

/// The first `most` of these entries behind so many.
fn part(added: &[Entry], skipped: usize, most: usize) -> &[Entry]
    ensures { result.now ≡ take most (drop skipped added.now) }
{
    let rest = &added[skipped.min(added.len())..];
    &rest[..most.min(rest.len())]
}

/// Puts copies of entries behind the others.
fn push_copies(entries: &mut Entries, more: &[Entry]) -> Result<(), NoMemory>
    ensures { OnOk result (entries.new ≡ entries.old ++ more.now) }
{
    for entry in more {
        entries.push(entry.copy()?)?;
    }
    Ok(())
}

/// Copies of the first `most` entries from an index on, with these entries behind.
pub(crate) fn suffix_in(
    log: &Log,
    added: &[Entry],
    from: u64,
    most: usize,
) -> Result<Entries, NoMemory>
    requires behind { log.now.log.base ≤ from - 1 }
    requires base { log.now.log.base + 1 < 2 ^ 64 }
    ensures { IfOk result (λ entries. entries ≡ suffix (appended log.now.log added.now) from most) }
{
    let end = log.last().0.saturating_add(1);
    let mut entries = log.suffix(from.max(1).min(end), most)?;
    let skipped = from.saturating_sub(end) as usize;
    let left = most - entries.len();
    push_copies(&mut entries, part(added, skipped, left))?;
    Ok(entries)
}
