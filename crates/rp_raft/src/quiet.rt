//! Events after which nothing is sent. They take no memory, so they happen at once, without a plan.

ghost use Rattle.std.specs.Prelude.{◌≡◌, ℕ, ◌+◌, ◌<◌, ◌^◌, false, IsTrue};
ghost use Rattle.rp_raftlog.specs.LogState.{last_index};
ghost use Rattle.rp_raftstep.specs.declared.events.RaftEvent.TheVariants.{Receive, Tick};
ghost use Rattle.rp_raftstep.specs.declared.messages.Message.TheVariants.{AppendReply};
ghost use Rattle.rp_raftstep.specs.Step.{advanced, patience, step};
ghost use Rattle.rp_raft.specs.Held.{IsSound};
ghost use Rattle.rp_raft.specs.Plans.{with_head};
ghost use Rattle.rp_raft.specs.Quiet.{counted, leaves_nothing, only_counts, quietly};

use crate::commits::commit_after;
use crate::heads::{observe, patience};
use crate::rafts::Raft;
use rp_base::NodeId;
use rp_raftstep::{Due, Head, Role};

/// The head once a tick is counted.
fn counted(head: &Head) -> Head
    requires beat { head.now.beat < 2 }
    requires silent { head.now.silent < patience head.now.node }
    ensures { result ≡ counted head.now }
{
    if head.role == Role::Leader {
        return Head {
            beat: head.beat + 1,
            ..*head
        };
    }
    // Patience is short, and not yet at its end.
    let most = patience(head.node);
    prove!(head.silent < most);
    Head {
        silent: head.silent + 1,
        ..*head
    }
}

impl<S: Drop> Raft<S> {
    /// The head becomes this one, and the commit index of a leader moves on.
    #[tactic(auto, using(crate::proofs::Silence::moves_on))]
    fn becomes(&mut self, head: Head)
        requires { IsSound (with_head self.old.raft head) }
        ensures raft { self.new.raft ≡ advanced (with_head self.old.raft head) }
        ensures room { self.new.spare ≡ self.old.spare }
    {
        let commit = commit_after(&head, &self.log, &[]);
        self.head = Head { commit, ..head };
    }

    /// Whether a tick is counted and no more: nothing is sent, and no term begins.
    pub fn only_counts(&self) -> bool
        ensures { result ≡ only_counts self.now.raft.head }
    {
        let head = &self.head;
        if head.role == Role::Leader {
            return head.beat + 1 != 2;
        }
        patience(head.node) != head.silent + 1
    }

    /// Time goes on by one tick, which is counted and no more. It takes no memory.
    #[tactic(auto, using(crate::proofs::Silence::counts, crate::proofs::Silence::sound_counted))]
    pub fn count_tick(&mut self)
        requires { IsTrue (only_counts self.old.raft.head) }
        ensures step { (applied : ℕ) (snapshot : S)
            → step applied snapshot self.old.raft Tick ≡ quietly self.new.raft }
        ensures room { self.new.spare ≡ self.old.spare }
    {
        let head = counted(&self.head);
        self.becomes(head);
    }

    /// The answer of a peer to an `Append` or a `Snap` comes. Where something is left to be sent the
    /// answer is `false`, and nothing has happened. It takes no memory.
    #[tactic(auto, using(crate::proofs::Silence::hears, crate::proofs::Silence::leaves))]
    pub fn hear(&mut self, from: NodeId, term: u64, ok: bool, index: u64) -> bool
        requires { last_index self.old.raft.log + 1 < 2 ^ 64 }
        ensures heard { result ≡ leaves_nothing self.old.raft from term ok index }
        ensures step { IsTrue result → (applied : ℕ) (snapshot : S)
            → step applied snapshot self.old.raft (Receive from (AppendReply term ok index))
            ≡ quietly self.new.raft }
        ensures stays { result ≡ false → self.new.raft ≡ self.old.raft }
        ensures room { self.new.spare ≡ self.old.spare }
    {
        let mut head = self.head;
        observe(&mut head, term);
        let due = self.note_reply(&mut head, from, term, ok, index);
        if due != Due::Nobody {
            return false;
        }
        self.becomes(head);
        true
    }
}
