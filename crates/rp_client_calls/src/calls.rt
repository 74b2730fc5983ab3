//! The calls at a bench, in their order.
ghost use Rattle.std.specs.Prelude.{◌≡◌, ◌≤◌};
ghost use Rattle.rp_rounds.specs.Rounds.{pull_or_round, pulls_from, first_due, round_from};
ghost use Rattle.rp_client_calls.specs.Calls.{due_of};

/// A call that is due.
#[derive(Clone, Copy, PartialEq, Eq)]
pub enum Call {
    Pull(u8, u8),
    Round(u8),
    Post(u8),
    Nothing,
}

fn pull_or_round(nodes: u8, to: u8, from: u8) -> Call
    ensures { due_of result ≡ pull_or_round nodes to from }
{
    if from <= nodes {
        Call::Pull(from, to)
    } else {
        Call::Round(to)
    }
}

/// The pulls to a node from this node on, then its round.
pub fn pulls_from(nodes: u8, to: u8, from: u8) -> Call
    requires { from ≤ 13 }
    ensures { due_of result ≡ pulls_from nodes to from }
{
    if from == to {
        pull_or_round(nodes, to, from + 1)
    } else {
        pull_or_round(nodes, to, from)
    }
}

/// The first call of a worker.
pub fn first_due(worker: u8, nodes: u8) -> Call
    requires { worker ≤ 8 }
    ensures { due_of result ≡ first_due worker nodes }
{
    if worker + 1 <= nodes {
        pulls_from(nodes, worker + 1, 1)
    } else {
        Call::Nothing
    }
}

/// The first call of the round of this node, if there is one, else of the worker's first.
pub fn round_from(worker: u8, nodes: u8, node: u8) -> Call
    requires { worker ≤ 8 }
    ensures { due_of result ≡ round_from worker nodes node }
{
    if node <= nodes {
        pulls_from(nodes, node, 1)
    } else {
        first_due(worker, nodes)
    }
}
