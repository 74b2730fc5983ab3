//! What a leader sends, from the state that the event leaves.

ghost use Rattle.std.specs.Prelude.{◌≡◌, ◌+◌, ◌<◌, ◌≤◌, ◌==◌, ◌++◌, ◌∷◌, [], filter, not, unwrap_or, IfOk, OnOk};
ghost use Rattle.rp_raftlog.specs.LogState.{appended, term_at};
ghost use Rattle.rp_raftstep.specs.declared.messages.Message.TheVariants.{Snap};
ghost use Rattle.rp_raftstep.specs.RaftState.{peers};
ghost use Rattle.rp_raftstep.specs.Step.{due_peers, sends_among, to_peer};
ghost use Rattle.rp_raft.specs.Plans.{ahead, with_commit};

use crate::ahead::{suffix_in, term_in};
use crate::heads::place;
use crate::plans::Messages;
use crate::rafts::Raft;
use rp_base::{NoMemory, NodeId};
use rp_raftlog::Entry;
use rp_raftstep::{Due, Head, MakeSnap, Message};

/// How many entries an `Append` carries at most.
const MOST_ENTRIES: usize = 8;

impl<S: Drop> Raft<S> {
    /// The applied state, for a peer whose entries are cut away.
    #[cold]
    #[inline(never)]
    fn snap_message<M: MakeSnap<S>>(
        &self,
        term: u64,
        added: &[Entry],
        snap: &M,
    ) -> Result<Message<S>, NoMemory>
        ensures { IfOk result (λ m. m ≡ Snap term (M.index snap.now)
            (unwrap_or (term_at (appended self.now.raft.log added.now) (M.index snap.now)) 0)
            (M.snapshot snap.now)) }
    {
        let index = snap.applied();
        let index_term = term_in(&self.log, added, index).unwrap_or(0);
        let snapshot = snap.make_snap()?;
        Ok(Message::Snap {
            term,
            index,
            index_term,
            snapshot,
        })
    }

    /// What a leader sends to a peer, with this commit index: entries from the next index on, or
    /// its applied state where those are cut away. A snapshot is made only there.
    fn to_peer<M: MakeSnap<S>>(
        &self,
        head: &Head,
        commit: u64,
        added: &[Entry],
        snap: &M,
        peer: NodeId,
    ) -> Result<Message<S>, NoMemory>
        ensures { IfOk result (λ m. m ≡ to_peer (M.index snap.now) (M.snapshot snap.now)
            (ahead (with_commit head.now commit) self.now.raft.log added.now) peer) }
    {
        let term = head.term;
        let next = head.next[place(peer)];
        let prev_index = next.saturating_sub(1);
        if prev_index < self.log.base().0 {
            return self.snap_message(term, added, snap);
        }
        let prev_term = term_in(&self.log, added, prev_index).unwrap_or(0);
        let entries = suffix_in(&self.log, added, next, MOST_ENTRIES)?;
        Ok(Message::Append {
            term,
            prev_index,
            prev_term,
            entries,
            commit,
        })
    }

    /// Puts what is sent to a peer behind other messages.
    fn push_send<M: MakeSnap<S>>(
        &self,
        messages: &mut Messages<S>,
        head: &Head,
        commit: u64,
        added: &[Entry],
        snap: &M,
        peer: NodeId,
    ) -> Result<(), NoMemory>
        ensures { OnOk result (messages.new ≡ messages.old
            ++ sends_among (M.index snap.now) (M.snapshot snap.now)
            (ahead (with_commit head.now commit) self.now.raft.log added.now) (peer ∷ [])) }
    {
        let message = self.to_peer(head, commit, added, snap, peer)?;
        messages.push((peer, message))
    }

    /// Puts what is sent to the node with this number behind other messages, unless it is the
    /// replica's own.
    fn push_to_other<M: MakeSnap<S>>(
        &self,
        messages: &mut Messages<S>,
        head: &Head,
        commit: u64,
        added: &[Entry],
        snap: &M,
        number: u8,
    ) -> Result<(), NoMemory>
        requires from_one { 1 ≤ number }
        requires to_five { number ≤ 5 }
        ensures { OnOk result (messages.new ≡ messages.old
            ++ sends_among (M.index snap.now) (M.snapshot snap.now)
            (ahead (with_commit head.now commit) self.now.raft.log added.now)
            (filter (λ node. not (node == head.now.node)) (number ∷ []))) }
    {
        let node = NodeId::new(number).unwrap();
        if node == head.node {
            return Ok(());
        }
        self.push_send(messages, head, commit, added, snap, node)
    }

    /// Puts what is sent to all others behind other messages.
    fn push_to_others<M: MakeSnap<S>>(
        &self,
        messages: &mut Messages<S>,
        head: &Head,
        commit: u64,
        added: &[Entry],
        snap: &M,
    ) -> Result<(), NoMemory>
        requires { head.now.nodes ≤ 5 }
        ensures { OnOk result (messages.new ≡ messages.old
            ++ sends_among (M.index snap.now) (M.snapshot snap.now)
            (ahead (with_commit head.now commit) self.now.raft.log added.now) (peers head.now)) }
    {
        for number in 0..head.nodes {
            self.push_to_other(messages, head, commit, added, snap, number + 1)?;
        }
        Ok(())
    }

    /// Puts what is sent to the peers that are due behind other messages.
    pub(crate) fn push_sends<M: MakeSnap<S>>(
        &self,
        messages: &mut Messages<S>,
        due: Due,
        head: &Head,
        commit: u64,
        added: &[Entry],
        snap: &M,
    ) -> Result<(), NoMemory>
        requires { head.now.nodes ≤ 5 }
        ensures { OnOk result (messages.new ≡ messages.old
            ++ sends_among (M.index snap.now) (M.snapshot snap.now)
            (ahead (with_commit head.now commit) self.now.raft.log added.now)
            (due_peers (with_commit head.now commit) due)) }
    {
        match due {
            Due::Nobody => Ok(()),
            Due::One(peer) => self.push_send(messages, head, commit, added, snap, peer),
            Due::Everyone => self.push_to_others(messages, head, commit, added, snap),
        }
    }
}
