//! Entries of a log.
ghost use Rattle.std.specs.Prelude.{◌≡◌, IfOk};

use crate::payloads::SharedBytes;
use rp_base::{NoMemory, Seq};
use std::alloc::Global;

/// An entry of a log: a payload, and the term of the leader that appended it (Raft 2014, section 5.3).
#[derive(Drop)]
pub struct Entry {
    pub term: u64,
    pub payload: SharedBytes,
}

impl Entry {
    /// An equal entry, which shares the payload.
    pub fn copy(&self) -> Result<Entry, NoMemory>
        ensures { IfOk result (λ copy. copy ≡ self.now) }
    {
        let payload = self.payload.share()?;
        Ok(Entry {
            term: self.term,
            payload,
        })
    }
}

/// Entries in the order of their indexes.
pub type Entries = Seq<Entry>;

/// Copies of entries.
pub fn copies(alloc: Global, entries: &[Entry]) -> Result<Entries, NoMemory>
    ensures { IfOk result (λ copies. copies ≡ entries.now) }
{
    let mut copies = Vec::with_capacity(alloc, entries.len())?;
    for entry in entries {
        copies.push(entry.copy()?)?;
    }
    Ok(Seq::from_vec(copies))
}
