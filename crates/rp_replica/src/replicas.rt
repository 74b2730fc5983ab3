//! A replica: how it begins, and what it shows.
ghost use Rattle.std.specs.Prelude.{◌≡◌, ◌+◌, ◌<◌, ◌≤◌, ◌^◌};
ghost use Rattle.rp_pending.specs.Refreshes.{first_round};
ghost use Rattle.rp_events.specs.Replicas.{fresh, made_by_snap, started};

use crate::sources::Source;
use rp_apply::ApplyState;
use rp_base::{Item, Items, LeaseAsk, LeaseIndex, LeaseSeq, NodeId};
use rp_latch::Latches;
use rp_pending::Pending;
use rp_raft::Raft;
use rp_snapshot::Snapshot;
use rp_split::RightStart;
use std::alloc::Global;
use std::marker::Model;

/// One replica of a range, at a node. Contracts see what it is, and apart from it the room.
#[derive(Drop)]
pub struct Replica {
    pub(crate) raft: Raft<Snapshot>,
    pub(crate) source: Source,
    pub(crate) latches: Latches,
    pub(crate) pending: Pending,
    pub(crate) assigned: LeaseIndex,
    pub(crate) inbox: Items,
    pub(crate) asks: Vec<LeaseAsk>,
    pub(crate) barrier: LeaseSeq,
}

impl Model for Replica {
    ghost use Rattle.std.specs.Prelude.{◌-◌, vec_len, vec_capacity};
    ghost use Rattle.std.specs.Coded.{codes};
    ghost use Rattle.rp_base.specs.Tables.{table_code};
    ghost use Rattle.rp_replica.specs.Rooms.{Held};

    ghost Value = { Held };

    ghost coded = { Prim.hlevel (codes, table_code) };

    ghost view = { λ r. record {
      replica = record {
        raft = r.raft.raft;
        applied = r.source.state.history;
        latches = r.latches.list;
        pending = r.pending.list;
        assigned = r.assigned;
        inbox = r.inbox.list;
        asks = r.asks.items;
        barrier = r.barrier;
      };
      room = record {
        log = r.raft.spare;
        applied = r.source.state.room;
        latches = r.latches.spare;
        pending = r.pending.spare;
        inbox = r.inbox.spare;
        asks = vec_capacity r.asks - vec_len r.asks;
      };
    } };
}

/// A replica that has proposed nothing yet.
fn fresh(alloc: Global, raft: Raft<Snapshot>, state: ApplyState) -> Replica
    ensures { result.replica ≡ fresh raft.raft state.history }
{
    Replica {
        raft,
        source: Source { state, alloc },
        latches: Latches::new(alloc),
        pending: Pending::new(alloc),
        assigned: LeaseIndex::new(0),
        inbox: Items::new(alloc),
        asks: Vec::new(alloc),
        barrier: LeaseSeq::new(0),
    }
}

impl Replica {
    /// A replica of a range that starts so, behind this index and term of its log, with this leader.
    /// It takes no memory.
    pub fn start(
        alloc: Global,
        node: NodeId,
        nodes: u8,
        start: RightStart,
        leader: NodeId,
        base: (u64, u64),
    ) -> Replica
        requires nodes { nodes ≤ 5 }
        requires index { base.0 + 1 < 2 ^ 64 }
        ensures { result.replica ≡ started node nodes leader base.0 base.1 start }
    {
        let (desc, lease, table) = start.into_parts();
        let raft = Raft::start(alloc, node, nodes, leader, base);
        let lai = LeaseIndex::new(0);
        let state = ApplyState::start(alloc, desc, lease, lai, table, base.0);
        fresh(alloc, raft, state)
    }

    /// A replica that a leader's snapshot makes, at the index and term of its message. It takes no
    /// memory.
    pub fn from_snap(
        alloc: Global,
        node: NodeId,
        nodes: u8,
        term: u64,
        from: NodeId,
        base: (u64, u64),
        snapshot: Snapshot,
    ) -> Replica
        requires nodes { nodes ≤ 5 }
        requires index { base.0 + 1 < 2 ^ 64 }
        ensures { result.replica ≡ made_by_snap node nodes term from base.0 base.1 snapshot }
    {
        let (desc, lease, lai, table) = snapshot.into_parts();
        let raft = Raft::from_snap(alloc, node, nodes, term, from, base);
        let state = ApplyState::start(alloc, desc, lease, lai, table, base.0);
        fresh(alloc, raft, state)
    }

    /// A replica made of what was kept, as after a restart: it stands at the node of its Raft, and
    /// nothing is pending. It takes no memory.
    pub fn revived(
        alloc: Global,
        barrier: LeaseSeq,
        raft: Raft<Snapshot>,
        applied: ApplyState,
    ) -> Replica
        requires { raft.raft.head.commit ≡ applied.history.index }
        ensures { result.replica
            ≡ record (fresh raft.raft applied.history) { barrier = barrier } }
    {
        Replica {
            barrier,
            ..fresh(alloc, raft, applied)
        }
    }

    /// What the replica has applied, with its records.
    pub fn applied(&self) -> &ApplyState
        ensures { result.now.history ≡ self.now.replica.applied }
    {
        &self.source.state
    }

    /// What it has applied, as its tombstone keeps it.
    pub fn into_applied(self) -> ApplyState
        ensures { result.history ≡ self.replica.applied }
    {
        let Replica { source, .. } = self;
        let Source { state, .. } = source;
        state
    }

    /// The term of its Raft.
    pub fn term(&self) -> u64
        ensures { result ≡ self.now.replica.raft.head.term }
    {
        self.raft.term()
    }

    /// The greatest index that is known to be committed: an entry waits to be applied exactly where
    /// it is above the applied index.
    pub fn commit_index(&self) -> u64
        ensures { result ≡ self.now.replica.raft.head.commit }
    {
        self.raft.commit_index()
    }

    /// The least round at which a pending proposal was flushed first, `None` where none was flushed.
    pub fn first_round(&self) -> Option<u64>
        ensures { result ≡ first_round self.now.replica.pending }
    {
        self.pending.first_round()
    }

    /// Its part in Raft.
    pub fn raft(&self) -> &Raft<Snapshot>
        ensures { result.now.raft ≡ self.now.replica.raft }
    {
        &self.raft
    }

    /// The lease sequence at its last restart, 0 before: under it no attempt is admitted.
    pub fn barrier(&self) -> LeaseSeq
        ensures { result ≡ self.now.replica.barrier }
    {
        self.barrier
    }

    /// The last lease index that it gave, 0 before the first.
    pub fn assigned(&self) -> LeaseIndex
        ensures { result ≡ self.now.replica.assigned }
    {
        self.assigned
    }

    /// What its buffer gave and no flush has taken, in order.
    pub fn inbox(&self) -> &[Item]
        ensures { result.now ≡ self.now.replica.inbox }
    {
        self.inbox.as_slice()
    }

    /// The attempts that have not ended, in order of admission.
    pub fn pending(&self) -> &Pending
        ensures { result.now.list ≡ self.now.replica.pending }
    {
        &self.pending
    }
}
