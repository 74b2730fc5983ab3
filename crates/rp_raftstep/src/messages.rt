//! What replicas send to one another.

use rp_base::Bytes;
use rp_raftlog::Entries;

/// What one replica of a range sends to another. `S` is the type of snapshots.
/// The requests are those of Raft (2014), sections 5.2, 5.3 and 7; each has an answer of its own.
#[derive(Drop)]
pub enum Message<S> {
    /// A candidate asks for a vote, and says with which entry its log ends.
    Vote {
        term: u64,
        last_index: u64,
        last_term: u64,
    },
    /// The answer to a `Vote`.
    VoteReply {
        term: u64,
        granted: bool,
    },
    /// A leader's entries behind the index `prev_index`, and its commit index.
    Append {
        term: u64,
        prev_index: u64,
        prev_term: u64,
        entries: Entries,
        commit: u64,
    },
    /// The answer to an `Append` or a `Snap`: up to `index` the log is as the leader's, or, where
    /// `ok` is false, `index` is the commit index of the replica that answers.
    AppendReply {
        term: u64,
        ok: bool,
        index: u64,
    },
    /// A payload for the leader to append (this project).
    Forward {
        payload: Bytes,
    },
    /// A leader's applied state at `index`, whose entry has the term `index_term`.
    Snap {
        term: u64,
        index: u64,
        index_term: u64,
        snapshot: S,
    },
}
