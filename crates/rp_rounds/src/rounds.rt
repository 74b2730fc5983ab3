//! A worker's rounds.
ghost use Rattle.std.specs.Prelude.{◌≡◌, ◌+◌, ◌≤◌, ◌<◌, true, false, OnOk, OnErr};
ghost use Rattle.rp_rounds.specs.Rounds.{nothing, round, begins, round_from, first_due, at_due, IsBenchOf, IsAtStart};

use crate::benches::Bench;
use rp_base::{NoMemory, NodeId};
use std::sync::Wait;
use std::thread::yield_now;

/// Serves the worker's nodes in whole rounds, node after node and again, until the bench says that
/// the work is over. It asks before each pass over its nodes. At want of memory it stops, and what
/// was done before stands.
pub fn serve<R: Wait, B: Bench>(
    rt: &R,
    bench: &mut B,
    worker: u8,
    workers: u8,
    nodes: u8,
) -> Result<(), NoMemory>
    requires of { IsBenchOf worker workers nodes (B.stands bench.old) }
    requires some { 1 ≤ workers }
    requires most { workers ≤ 8 }
    requires worker { worker < workers }
    requires nodes { nodes ≤ 5 }
    requires due { IsAtStart (B.stands bench.old) }
    requires goes_on { (B.stands bench.old).is_over ≡ false }
    ensures of { IsBenchOf worker workers nodes (B.stands bench.new) }
    ensures over { OnOk result ((B.stands bench.new).is_over ≡ true) }
    ensures whole { OnOk result (IsAtStart (B.stands bench.new)) }
    ensures broken { OnErr result ((B.stands bench.new).due ≡ nothing) }
    ensures unasked { OnErr result ((B.stands bench.new).is_over ≡ false) }
{
    for _ in rt.forever() {
        if bench.over() {
            return Ok(());
        }
        serve_all(bench, worker, workers, nodes)?;
    }
    unreachable!()
}

/// One round of each node that the worker serves, ascending.
fn serve_all<B: Bench>(bench: &mut B, worker: u8, workers: u8, nodes: u8) -> Result<(), NoMemory>
    requires of { IsBenchOf worker workers nodes (B.stands bench.old) }
    requires some { 1 ≤ workers }
    requires most { workers ≤ 8 }
    requires worker { worker < workers }
    requires nodes { nodes ≤ 5 }
    requires due { IsAtStart (B.stands bench.old) }
    ensures ok { OnOk result (B.stands bench.new ≡ B.stands bench.old) }
    ensures err { OnErr result (B.stands bench.new ≡ at_due nothing (B.stands bench.old)) }
{
    let mut node = worker + 1;
    while node <= nodes {
        serve_one(bench, NodeId::new(node).unwrap(), nodes)?;
        node += workers;
    }
    Ok(())
}

/// One round of a node. Then another thread may run.
fn serve_one<B: Bench>(bench: &mut B, node: NodeId, nodes: u8) -> Result<(), NoMemory>
    requires of { (B.stands bench.old).nodes ≡ nodes }
    requires nodes { nodes ≤ 5 }
    requires node { node ≤ nodes }
    requires due { (B.stands bench.old).due ≡ begins nodes node }
    ensures ok { OnOk result (let s = B.stands bench.old in
        B.stands bench.new ≡ at_due (round_from s.worker nodes (node + s.workers)) s) }
    ensures err { OnErr result (B.stands bench.new ≡ at_due nothing (B.stands bench.old)) }
{
    pull_all(bench, node, nodes)?;
    bench.round(node)?;
    bench.post(node)?;
    yield_now();
    Ok(())
}

/// Pulls from each other node, ascending.
fn pull_all<B: Bench>(bench: &mut B, to: NodeId, nodes: u8) -> Result<(), NoMemory>
    requires of { (B.stands bench.old).nodes ≡ nodes }
    requires nodes { nodes ≤ 5 }
    requires node { to ≤ nodes }
    requires due { (B.stands bench.old).due ≡ begins nodes to }
    ensures ok { OnOk result (B.stands bench.new ≡ at_due (round to) (B.stands bench.old)) }
    ensures err { OnErr result (B.stands bench.new ≡ at_due nothing (B.stands bench.old)) }
{
    for from in 1..nodes + 1 {
        if from != to.get() {
            bench.pull(NodeId::new(from).unwrap(), to)?;
        }
    }
    Ok(())
}
