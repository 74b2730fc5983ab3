//! Small changes and tests of a head.

ghost use Rattle.std.specs.Prelude.{◌≡◌, ◌+◌, ◌<◌, ◌≤◌, ◌^◌};
ghost use Rattle.rp_raftstep.specs.RaftState.{is_majority};
ghost use Rattle.rp_raftstep.specs.Step.{candidate, following, is_elected, may_vote, observed, patience};

use rp_base::NodeId;
use rp_raftstep::{Head, Role};

/// The place of a node in a table.
pub(crate) fn place(node: NodeId) -> usize
    ensures behind { result + 1 ≡ node }
    ensures within { result < 5 }
{
    (node.get() - 1) as usize
}

/// Any message but `Forward` with a higher term: that term comes first.
pub(crate) fn observe(head: &mut Head, term: u64)
    ensures { head.new ≡ observed head.old term }
{
    if head.term < term {
        head.term = term;
        head.vote = None;
        head.role = Role::Follower;
        head.leader = None;
    }
}

/// The sender leads the present term.
pub(crate) fn follow(head: &mut Head, from: NodeId)
    ensures { head.new ≡ following head.old from }
{
    head.role = Role::Follower;
    head.leader = Some(from);
    head.silent = 0;
}

/// It stands for election in the next term.
pub(crate) fn stand(head: &mut Head)
    requires { head.old.term + 1 < 2 ^ 64 }
    ensures { head.new ≡ candidate head.old }
{
    head.term += 1;
    head.vote = Some(head.node);
    head.role = Role::Candidate;
    head.leader = None;
    head.votes = [false; 5];
    head.votes[place(head.node)] = true;
    head.silent = 0;
}

/// How many ticks a node waits for a leader (this project).
pub(crate) fn patience(node: NodeId) -> u64
    ensures value { result ≡ patience node }
    ensures small { result ≤ 25 }
{
    10 + 3 * u64::from(node.get())
}

/// Whether the vote of this term is free for the node, or is its own already.
pub(crate) fn may_vote(head: &Head, node: NodeId) -> bool
    ensures { result ≡ may_vote head.now node }
{
    match head.vote {
        Some(vote) => vote == node,
        None => true,
    }
}

/// Whether so many are more than half of the nodes.
pub(crate) fn is_majority(head: &Head, count: usize) -> bool
    requires { count ≤ 5 }
    ensures { result ≡ is_majority head.now count }
{
    usize::from(head.nodes) < 2 * count
}

/// Whether a majority has voted for the candidate.
pub(crate) fn is_elected(head: &Head) -> bool
    requires { head.now.nodes ≤ 5 }
    ensures { result ≡ is_elected head.now }
{
    let voted = head.votes[..usize::from(head.nodes)]
        .iter()
        .filter(|voted| **voted)
        .count();
    is_majority(head, voted)
}
