//! Putting a leader's entries over those that are held.
ghost use Rattle.std.specs.Prelude.{◌≡◌, ◌+◌, ◌<◌, ◌≤◌, ◌^◌, ◌++◌, length, drop, max, vec_len};
ghost use Rattle.rp_raftlog.specs.LogState.{edited, overlay, same_terms};

use crate::entries::{Entries, Entry};
use crate::segments::Segments;

/// How many entries from the front have the terms of those held from this place on.
fn same_terms(news: &[Entry], held: &Segments, place: usize) -> usize
    requires { place ≤ length held.now.entries }
    ensures { result ≡ same_terms news.now (drop place held.now.entries) }
{
    let most = news.len().min(held.len() - place);
    for same in 0..most {
        if held.at(place + same).term != news[same].term {
            return same;
        }
    }
    most
}

/// The entries after the first n. It takes no memory.
pub(crate) fn after_first(n: usize, entries: Entries) -> Vec<Entry>
    ensures entries { result.items ≡ drop n entries }
    ensures most { vec_len result ≤ length entries }
{
    let mut rest = entries.into_vec();
    rest.drain(..n.min(rest.len()));
    rest
}

/// Puts entries over those from this place on: the first that differs in term cuts the list there.
/// It takes no memory.
pub(crate) fn put_over(held: &mut Segments, place: usize, mut news: Vec<Entry>)
    requires place { place ≤ length held.old.entries }
    requires room { vec_len news ≤ held.old.spare }
    requires index { place + vec_len news < 2 ^ 64 }
    ensures entries { held.new.entries ≡ edited held.old.entries (overlay held.old.entries place news.items) }
    ensures most { length held.new.entries ≤ max (length held.old.entries) (place + vec_len news) }
    ensures spare { held.old.spare ≤ held.new.spare + vec_len news }
{
    let same = same_terms(&news, held, place);
    if same < news.len() {
        held.truncate(place + same);
        news.drain(..same);
        append_all(held, news);
    }
}

/// Puts entries behind the last, without memory.
pub(crate) fn append_all(held: &mut Segments, news: Vec<Entry>)
    requires { vec_len news ≤ held.old.spare }
    ensures entries { held.new.entries ≡ held.old.entries ++ news.items }
    ensures spare { held.new.spare + vec_len news ≡ held.old.spare }
{
    for new in news {
        held.push(new);
    }
}
