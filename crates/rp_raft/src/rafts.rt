//! A replica's Raft: how it begins, what it shows, and how it starts again.

ghost use Rattle.std.specs.Prelude.{◌≡◌, ◌+◌, ◌<◌, ◌≤◌, ◌^◌, option_copied, None, Some};
ghost use Rattle.rp_raftlog.specs.LogState.{entry_at, last_index, last_term, log_at};
ghost use Rattle.rp_raftstep.specs.RaftState.{is_leader, made_by_snap, restarted, revived, started};

use rp_base::NodeId;
use rp_raftlog::{Entry, Log};
use rp_raftstep::{Head, Role};
use std::alloc::Global;
use std::marker::{Model, PhantomData};

/// One replica's part in Raft. `S` is the type of snapshots. Contracts see its state, and apart
/// from it the spare room: how many entries its log takes without memory.
#[derive(Drop)]
pub struct Raft<S> {
    pub(crate) head: Head,
    pub(crate) log: Log,
    pub(crate) alloc: Global,
    of: PhantomData<S>,
}

impl<S> Model for Raft<S> {
    ghost use Rattle.rp_raft.specs.Held.{Held, IsSound};

    ghost Value = { Held };

    ghost view = { λ r. record {
      raft = record { head = r.head; log = r.log.log };
      spare = r.log.spare;
    } };

    ghost invariant = { λ r. IsSound (record { head = r.head; log = r.log.log }) };
}

/// A follower's head, of a term whose leader may be known, behind this base.
fn follower(node: NodeId, nodes: u8, term: u64, base: u64) -> Head
    requires { base + 1 < 2 ^ 64 }
    ensures { result ≡ (revived node nodes term None (log_at base 0) base).head }
{
    Head {
        node,
        nodes,
        term,
        vote: None,
        role: Role::Follower,
        leader: None,
        commit: base,
        votes: [false; 5],
        next: [base + 1; 5],
        matched: [0; 5],
        silent: 0,
        beat: 0,
    }
}

impl<S> Raft<S> {
    /// A replica at the start of a range: each node knows the leader of term 1 and has voted for
    /// it. It takes no memory.
    pub fn start(
        alloc: Global,
        node: NodeId,
        nodes: u8,
        leader: NodeId,
        base: (u64, u64),
    ) -> Raft<S>
        requires nodes { nodes ≤ 5 }
        requires index { base.0 + 1 < 2 ^ 64 }
        ensures { result.raft ≡ started node nodes leader base.0 base.1 }
    {
        let role = if node == leader {
            Role::Leader
        } else {
            Role::Follower
        };
        let head = Head {
            vote: Some(leader),
            role,
            leader: Some(leader),
            ..follower(node, nodes, 1, base.0)
        };
        Raft {
            head,
            log: Log::at(alloc, base.0, base.1),
            alloc,
            of: PhantomData,
        }
    }

    /// A replica that the snapshot of a leader makes. It takes no memory.
    pub fn from_snap(
        alloc: Global,
        node: NodeId,
        nodes: u8,
        term: u64,
        from: NodeId,
        base: (u64, u64),
    ) -> Raft<S>
        requires nodes { nodes ≤ 5 }
        requires index { base.0 + 1 < 2 ^ 64 }
        ensures { result.raft ≡ made_by_snap node nodes term from base.0 base.1 }
    {
        let head = Head {
            leader: Some(from),
            ..follower(node, nodes, term, base.0)
        };
        Raft {
            head,
            log: Log::at(alloc, base.0, base.1),
            alloc,
            of: PhantomData,
        }
    }

    /// A replica made of what was kept, as after a restart. It takes no memory.
    pub fn revived(
        alloc: Global,
        node: NodeId,
        nodes: u8,
        term: u64,
        vote: Option<NodeId>,
        log: Log,
        applied: u64,
    ) -> Raft<S>
        requires nodes { nodes ≤ 5 }
        requires index { log.log.base + 1 < 2 ^ 64 }
        ensures { result.raft ≡ revived node nodes term vote log.log applied }
    {
        let head = Head {
            vote,
            commit: applied,
            ..follower(node, nodes, term, log.base().0)
        };
        Raft {
            head,
            log,
            alloc,
            of: PhantomData,
        }
    }

    /// The replica after a restart: term, vote and log stay, and of the commit index what is
    /// applied.
    pub fn restart(&mut self, applied: u64)
        ensures raft { self.new.raft ≡ restarted applied self.old.raft }
        ensures room { self.old.spare ≤ self.new.spare }
    {
        let old = self.head;
        let base = self.log.base().0;
        self.head = Head {
            vote: old.vote,
            commit: applied,
            ..follower(old.node, old.nodes, old.term, base)
        };
    }

    /// The replica's own node.
    pub fn node(&self) -> NodeId
        ensures { result ≡ self.now.raft.head.node }
    {
        self.head.node
    }

    /// The term that it is in.
    pub fn term(&self) -> u64
        ensures { result ≡ self.now.raft.head.term }
    {
        self.head.term
    }

    /// Who has this replica's vote in the term.
    pub fn vote(&self) -> Option<NodeId>
        ensures { result ≡ self.now.raft.head.vote }
    {
        self.head.vote
    }

    /// Who leads the term, if that is known.
    pub fn leader(&self) -> Option<NodeId>
        ensures { result ≡ self.now.raft.head.leader }
    {
        self.head.leader
    }

    /// Whether it leads its term.
    pub fn is_leader(&self) -> bool
        ensures { result ≡ is_leader self.now.raft.head.role }
    {
        self.head.role == Role::Leader
    }

    /// The greatest index that is known to be committed.
    pub fn commit_index(&self) -> u64
        ensures { result ≡ self.now.raft.head.commit }
    {
        self.head.commit
    }

    /// The index and the term of the log's base.
    pub fn base(&self) -> (u64, u64)
        ensures index { result.0 ≡ self.now.raft.log.base }
        ensures term { result.1 ≡ self.now.raft.log.base_term }
    {
        self.log.base()
    }

    /// The index and the term of the log's last entry, or the base's.
    pub fn last(&self) -> (u64, u64)
        ensures index { result.0 ≡ last_index self.now.raft.log }
        ensures term { result.1 ≡ last_term self.now.raft.log }
    {
        self.log.last()
    }

    /// The entry with this index.
    pub fn entry(&self, index: u64) -> &Entry
        requires behind { self.now.raft.log.base < index }
        requires within { index ≤ last_index self.now.raft.log }
        ensures { entry_at self.now.raft.log index ≡ Some result.now }
    {
        self.log.entry_at(index).unwrap()
    }

    /// The entry with this index: `None` exactly where the index is at or below the base or past
    /// the last.
    pub fn entry_at(&self, index: u64) -> Option<&Entry>
        ensures { option_copied result ≡ entry_at self.now.raft.log index }
    {
        self.log.entry_at(index)
    }
}
