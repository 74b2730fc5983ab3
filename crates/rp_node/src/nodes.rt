//! A node: how it begins, and what it shows.
ghost use Rattle.std.specs.Prelude.{◌≡◌, ◌≤◌};
ghost use Rattle.rp_events.specs.Nodes.{first_node, is_full, seat};
ghost use Rattle.rp_node.specs.Seen.{Shows};

use crate::cores::Core;
use crate::journals::Journal;
use crate::logs::{Outcomes, Requests, Sent};
use crate::seats::Seen;
use rp_base::{NodeId, RangeId};
use rp_bufcore::BufferEnd;
use std::alloc::Global;
use std::marker::Model;

/// A journal of so many events is full.
const JOURNAL_END: usize = 1 << 31;

/// One node with its replicas, all that it keeps, and its end of the proposal buffers. Contracts see
/// the node and its buffer end, room aside.
#[derive(Drop)]
pub struct Node<B: BufferEnd + Drop> {
    pub(crate) core: Core,
    pub(crate) end: B,
}

impl<B: BufferEnd + Drop> Model for Node<B> {
    ghost use Rattle.std.specs.Coded.{codes};
    ghost use Rattle.rp_base.specs.Tables.{table_code};
    ghost use Rattle.rp_node.specs.Cores.{node_of};
    ghost use Rattle.rp_node.specs.Steps.{Held};

    ghost Value = { Held B };

    ghost coded = { Prim.hlevel (codes, table_code) };

    ghost view = { λ n. record { node = node_of n.core; end = n.end } };
}

impl<B: BufferEnd + Drop> Node<B> {
    /// A node that has range 0 as it starts, one of so many nodes. It takes no memory.
    pub fn start(alloc: Global, node: NodeId, nodes: u8, end: B) -> Node<B>
        requires { nodes ≤ 5 }
        ensures node { result.node ≡ first_node node nodes }
        ensures end { result.end ≡ end }
    {
        Node {
            core: Core::start(alloc, node, nodes),
            end,
        }
    }

    /// Whether its journal is full: it takes no further event.
    pub fn is_full(&self) -> bool
        ensures { result ≡ is_full self.now.node }
    {
        self.core.logs.journal.len() >= JOURNAL_END
    }

    /// The rounds of its workers so far.
    pub fn rounds(&self) -> u64
        ensures { result ≡ self.now.node.rounds }
    {
        self.core.rounds
    }

    /// The most rounds through which an attempt of this node was pending, counted from its first
    /// flush; 0 where none was flushed.
    pub fn waited(&self) -> u64
        ensures { result ≡ self.now.node.waited }
    {
        self.core.waited
    }

    /// All its events with their answers.
    pub fn journal(&self) -> &Journal
        ensures { result.now.list ≡ self.now.node.journal }
    {
        &self.core.logs.journal
    }

    /// The requests of its admissions.
    pub fn requests(&self) -> &Requests
        ensures { result.now.list ≡ self.now.node.requests }
    {
        &self.core.logs.requests
    }

    /// All that it has sent.
    pub fn sent(&self) -> &Sent
        ensures { result.now.list ≡ self.now.node.sent }
    {
        &self.core.logs.sent
    }

    /// How its admitted attempts ended.
    pub fn outcomes(&self) -> &Outcomes
        ensures { result.now.list ≡ self.now.node.outcomes }
    {
        &self.core.logs.outcomes
    }

    /// What it has of a range.
    pub fn seen(&self, range: RangeId) -> Seen<'_>
        ensures { Shows (seat self.now.node range) result }
    {
        self.core.seats[usize::from(range.get())].seen()
    }

    /// Its buffer end.
    pub fn end(self) -> B
        ensures { result ≡ self.end }
    {
        let Node { end, .. } = self;
        end
    }
}
