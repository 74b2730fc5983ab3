//! A bench in memory.
ghost use Rattle.std.specs.Prelude.{◌≡◌, ◌≤◌, false};

use crate::calls::{Call, first_due, pulls_from, round_from};
use rp_base::{NoMemory, NodeId};
use rp_rounds::Bench;

/// It keeps which call is due, refuses memory at one call, and says that the work is over after so
/// many passes. The nodes of its rounds stand in `trace` as decimal digits.
#[derive(Clone, Copy)]
pub struct FakeBench {
    pub worker: u8,
    pub workers: u8,
    pub nodes: u8,
    pub due: Call,
    pub is_over: bool,
    pub calls_left: u32,
    pub passes_left: u32,
    pub pulls: u32,
    pub trace: u64,
    pub ghost few: { (worker ≤ 8) × (workers ≤ 8) },
}

impl FakeBench {
    ghost use Rattle.rp_client_calls.specs.Calls.{due_of};
    ghost use Rattle.rp_rounds.specs.Rounds.{first_due};

    /// A bench with these numbers, of which `calls` calls succeed and `passes` looks see no end.
    pub fn new(worker: u8, workers: u8, nodes: u8, calls: u32, passes: u32) -> FakeBench
        requires workers { workers ≤ 8 }
        requires worker { worker ≤ 8 }
        ensures worker { result.worker ≡ worker }
        ensures workers { result.workers ≡ workers }
        ensures nodes { result.nodes ≡ nodes }
        ensures due { due_of result.due ≡ first_due worker nodes }
        ensures goes_on { result.is_over ≡ false }
    {
        FakeBench {
            worker,
            workers,
            nodes,
            due: first_due(worker, nodes),
            is_over: false,
            calls_left: calls,
            passes_left: passes,
            pulls: 0,
            trace: 0,
        }
    }
}

impl Bench for FakeBench {
    ghost use Rattle.rp_rounds.specs.Rounds.{Standing};
    ghost use Rattle.rp_client_calls.specs.Calls.{due_of};

    ghost stands = { λ b. record {
      worker = b.worker;
      workers = b.workers;
      nodes = b.nodes;
      due = due_of b.due;
      is_over = b.is_over;
    } };

    fn pull(&mut self, from: NodeId, to: NodeId) -> Result<(), NoMemory> {
        self.pulls = self.pulls.wrapping_add(1);
        if self.calls_left == 0 {
            self.due = Call::Nothing;
            return Err(NoMemory);
        }
        self.calls_left -= 1;
        self.due = pulls_from(self.nodes, to.get(), from.get() + 1);
        Ok(())
    }

    fn round(&mut self, node: NodeId) -> Result<(), NoMemory> {
        self.trace = self
            .trace
            .wrapping_mul(10)
            .wrapping_add(u64::from(node.get()));
        if self.calls_left == 0 {
            self.due = Call::Nothing;
            return Err(NoMemory);
        }
        self.calls_left -= 1;
        self.due = Call::Post(node.get());
        Ok(())
    }

    fn post(&mut self, node: NodeId) -> Result<(), NoMemory> {
        if self.calls_left == 0 {
            self.due = Call::Nothing;
            return Err(NoMemory);
        }
        self.calls_left -= 1;
        self.due = round_from(self.worker, self.nodes, node.get() + self.workers);
        Ok(())
    }

    fn over(&mut self) -> bool {
        let answer = self.passes_left == 0;
        self.passes_left = self.passes_left.saturating_sub(1);
        if answer {
            self.is_over = true;
        }
        answer
    }
}
