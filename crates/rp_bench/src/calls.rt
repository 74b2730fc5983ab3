//! The calls at a worker's bench, in their order.
ghost use Rattle.std.specs.Prelude.{◌≡◌, ◌≤◌};
ghost use Rattle.rp_rounds.specs.Rounds.{pull_or_round, pulls_from, first_due, round_from};
ghost use Rattle.rp_bench.specs.Dues.{due_of, next_or_nothing};

use rp_base::NoMemory;

/// The call that is due.
#[derive(Clone, Copy, Debug, PartialEq, Eq)]
pub enum Call {
    Pull { from: u8, to: u8 },
    Round(u8),
    Post(u8),
    Nothing,
}

fn pull_or_round(nodes: u8, to: u8, from: u8) -> Call
    ensures { due_of result ≡ pull_or_round nodes to from }
{
    if from <= nodes {
        Call::Pull { from, to }
    } else {
        Call::Round(to)
    }
}

/// The pulls to a node from this node on, then its round.
pub(crate) fn pulls_from(nodes: u8, to: u8, from: u8) -> Call
    requires { from ≤ 13 }
    ensures { due_of result ≡ pulls_from nodes to from }
{
    if from == to {
        pull_or_round(nodes, to, from + 1)
    } else {
        pull_or_round(nodes, to, from)
    }
}

/// The first call of a worker.
pub(crate) fn first_due(worker: u8, nodes: u8) -> Call
    requires { worker ≤ 8 }
    ensures { due_of result ≡ first_due worker nodes }
{
    if worker + 1 <= nodes {
        pulls_from(nodes, worker + 1, 1)
    } else {
        Call::Nothing
    }
}

/// The first call of the round of this node, if there is such a one, else of the worker's first.
pub(crate) fn round_from(worker: u8, nodes: u8, node: u8) -> Call
    requires { worker ≤ 8 }
    ensures { due_of result ≡ round_from worker nodes node }
{
    if node <= nodes {
        pulls_from(nodes, node, 1)
    } else {
        first_due(worker, nodes)
    }
}

/// After want of memory no call is due.
pub(crate) fn due_after(done: &Result<(), NoMemory>, next: Call) -> Call
    ensures { due_of result ≡ next_or_nothing done.now (due_of next) }
{
    match done {
        Ok(()) => next,
        Err(NoMemory) => Call::Nothing,
    }
}
