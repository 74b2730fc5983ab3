//! Ticks and votes (Raft 2014, section 5.2).

ghost use Rattle.std.specs.Prelude.{◌≡◌, ◌+◌, ◌<◌, ◌≤◌, ◌^◌, ◌++◌, ◌∷◌, [], filter, not, ◌==◌, IfOk, OnOk};
ghost use Rattle.rp_raftlog.specs.LogState.{last_index, last_term};
ghost use Rattle.rp_raftstep.specs.RaftState.{nodes_to};
ghost use Rattle.rp_raftstep.specs.Conditions.{CanRise};
ghost use Rattle.rp_raftstep.specs.Step.{elected, is_up_to_date, on_vote, on_vote_reply, requests, stand, tick, tick_leading};
ghost use Rattle.rp_raft.specs.Plans.{Drafts, IsBegun, with_head};

use crate::drafts::{answer, nothing, one_entry};
use crate::heads::{is_elected, may_vote, patience, place, stand};
use crate::plans::{LogEdit, Messages, RaftDraft};
use crate::rafts::Raft;
use rp_base::{NoMemory, NodeId, Seq};
use rp_raftstep::{Due, Head, Message, Role};
use std::alloc::Global;

/// Puts a node behind the others unless it is the replica's own.
fn push_peer(others: &mut Seq<NodeId>, own: NodeId, number: u8) -> Result<(), NoMemory>
    requires from_one { 1 ≤ number }
    requires to_five { number ≤ 5 }
    ensures { OnOk result (others.new ≡ others.old
        ++ filter (λ node. not (node == own)) (number ∷ [])) }
{
    let node = NodeId::new(number).unwrap();
    if node != own {
        others.push(node)?;
    }
    Ok(())
}

/// The other nodes of so many, ascending.
#[tactic(auto, using(crate::proofs::Nodes::filter_more))]
pub(crate) fn others(alloc: Global, own: NodeId, nodes: u8) -> Result<Seq<NodeId>, NoMemory>
    requires { nodes ≤ 5 }
    ensures { IfOk result (λ others. others ≡ filter (λ node. not (node == own)) (nodes_to nodes)) }
{
    let mut others = Seq::new(alloc);
    for number in 0..nodes {
        push_peer(&mut others, own, number + 1)?;
    }
    Ok(others)
}

impl<S: Drop> Raft<S> {
    /// A candidate leads where a majority has voted, and appends an entry Nothing.
    #[cold]
    #[inline(never)]
    fn elect(&self, draft: &mut RaftDraft<S>) -> Result<(), NoMemory>
        requires begun { IsBegun self.now.raft draft.old }
        requires last { last_index self.now.raft.log + 1 < 2 ^ 64 }
        ensures { OnOk result (Drafts self.now.raft.log draft.new
            (elected (with_head self.now.raft draft.old.head))) }
    {
        if !is_elected(&draft.head) {
            return Ok(());
        }
        let next = self.log.last().0 + 1;
        let entries = one_entry(self.alloc, draft.head.term, nothing(self.alloc)?)?;
        draft.head.role = Role::Leader;
        draft.head.leader = Some(draft.head.node);
        draft.head.next = [next; 5];
        draft.head.matched = [0; 5];
        draft.head.silent = 0;
        draft.head.beat = 0;
        draft.edit = LogEdit::Appends { entries };
        draft.due = Due::Everyone;
        Ok(())
    }

    /// The requests for votes, to all others.
    fn requests(&self, head: &Head) -> Result<Messages<S>, NoMemory>
        requires { head.now.nodes ≤ 5 }
        ensures { IfOk result (λ sent. sent ≡ requests (with_head self.now.raft head.now)) }
    {
        let (last_index, last_term) = self.log.last();
        let term = head.term;
        let others = others(self.alloc, head.node, head.nodes)?;
        let mut messages = Seq::new(self.alloc);
        for peer in others.as_slice() {
            let message = Message::Vote {
                term,
                last_index,
                last_term,
            };
            let to = *peer;
            messages.push((to, message))?;
        }
        Ok(messages)
    }

    /// A node stands for election. Its own vote may be a majority.
    #[cold]
    #[inline(never)]
    fn stand(&self, draft: &mut RaftDraft<S>) -> Result<(), NoMemory>
        requires begun { IsBegun self.now.raft draft.old }
        requires rise { CanRise (with_head self.now.raft draft.old.head) }
        ensures { OnOk result (Drafts self.now.raft.log draft.new
            (stand (with_head self.now.raft draft.old.head))) }
    {
        stand(&mut draft.head);
        let messages = self.requests(&draft.head)?;
        self.elect(draft)?;
        draft.messages = messages;
        Ok(())
    }

    /// Tick, as leader.
    fn tick_leading(&self, draft: &mut RaftDraft<S>)
        requires { IsBegun self.now.raft draft.old }
        ensures { Drafts self.now.raft.log draft.new
            (tick_leading (with_head self.now.raft draft.old.head)) }
    {
        draft.head.beat += 1;
        if draft.head.beat == 2 {
            draft.head.beat = 0;
            draft.due = Due::Everyone;
        }
    }

    /// Tick.
    pub(crate) fn plan_tick(&self, draft: &mut RaftDraft<S>) -> Result<(), NoMemory>
        requires begun { IsBegun self.now.raft draft.old }
        requires rise { CanRise (with_head self.now.raft draft.old.head) }
        ensures { OnOk result (Drafts self.now.raft.log draft.new
            (tick (with_head self.now.raft draft.old.head))) }
    {
        if draft.head.role == Role::Leader {
            self.tick_leading(draft);
            return Ok(());
        }
        let most = patience(draft.head.node);
        let silent = draft.head.silent + 1;
        if silent == most {
            return self.stand(draft);
        }
        draft.head.silent = silent;
        Ok(())
    }

    /// Whether a log that ends so is at least as up to date as the replica's own.
    fn is_up_to_date(&self, index: u64, term: u64) -> bool
        ensures { result ≡ is_up_to_date self.now.raft.log index term }
    {
        let (last_index, last_term) = self.log.last();
        last_term < term || (last_term == term && last_index <= index)
    }

    /// `Vote`.
    #[cold]
    #[inline(never)]
    pub(crate) fn plan_vote(
        &self,
        draft: &mut RaftDraft<S>,
        from: NodeId,
        term: u64,
        index: u64,
        index_term: u64,
    ) -> Result<(), NoMemory>
        requires { IsBegun self.now.raft draft.old }
        ensures { OnOk result (Drafts self.now.raft.log draft.new
            (on_vote (with_head self.now.raft draft.old.head) from term index index_term)) }
    {
        let is_free = may_vote(&draft.head, from);
        let is_recent = self.is_up_to_date(index, index_term);
        let present = draft.head.term;
        let granted = term == present && is_free && is_recent;
        if granted {
            draft.head.vote = Some(from);
            draft.head.silent = 0;
        }
        let message = Message::VoteReply {
            term: present,
            granted,
        };
        answer(draft, from, message)
    }

    /// `VoteReply`.
    #[cold]
    #[inline(never)]
    pub(crate) fn plan_vote_reply(
        &self,
        draft: &mut RaftDraft<S>,
        from: NodeId,
        term: u64,
        granted: bool,
    ) -> Result<(), NoMemory>
        requires begun { IsBegun self.now.raft draft.old }
        requires last { last_index self.now.raft.log + 1 < 2 ^ 64 }
        ensures { OnOk result (Drafts self.now.raft.log draft.new
            (on_vote_reply (with_head self.now.raft draft.old.head) from term granted)) }
    {
        if granted && term == draft.head.term && draft.head.role == Role::Candidate {
            draft.head.votes[place(from)] = true;
            return self.elect(draft);
        }
        Ok(())
    }
}
