//! What a client keeps along its tries.
ghost use Rattle.std.specs.Prelude.{◌≡◌, ◌-◌, ◌≤◌, None, Some, length, replicate, slice_set};
ghost use Rattle.rp_request.specs.declared.outcomes.Outcome.TheVariants.{Pending};
ghost use Rattle.rp_request.specs.declared.outcomes.End.TheVariants as ends;
ghost use Rattle.rp_router.specs.Hints.{started};
ghost use Rattle.rp_clients.specs.Desks.{IsEnd};
ghost use Rattle.rp_clients.specs.Finals.{unsent, end_by};
ghost use Rattle.rp_clients.specs.Courses.{last_at, hints_with, is_again};

use crate::finals::{CommandEnd, Final};
use crate::requests::tries_again;
use rp_base::{NodeId, RangeId};
use rp_request::{Outcome, Request};
use rp_router::Hints;

/// How often a command may be tried.
pub(crate) const MOST_TRIES: u16 = 4096;

/// A command of a client.
#[derive(Clone, Copy)]
pub(crate) struct Sending {
    pub client: u16,
    pub seq: u32,
    pub request: Request,
}

/// What a client keeps along its tries: where ranges are served, for each node a number that its
/// rounds have to pass before the command is tried there again, and how the command is left so far.
#[derive(Clone, Copy)]
pub(crate) struct Course {
    pub hints: Hints,
    pub last_rounds: [Option<u64>; 5],
    pub so_far: CommandEnd,
}

/// What comes after a try.
#[derive(Clone, Copy)]
pub(crate) enum Next {
    /// A further try.
    Again,
    /// The next command.
    Ended,
    /// Nothing: all is over.
    Over,
}

/// A command that was never tried.
fn unsent() -> CommandEnd
    ensures { result ≡ unsent }
{
    CommandEnd {
        attempt: 0,
        end: Final::Unsent,
    }
}

/// How a command is left after a try with this end, where all tries before were refused.
fn end_after(attempt: u16, outcome: &Outcome) -> Final
    ensures { result ≡ end_by attempt (Some outcome.now) }
{
    match *outcome {
        Outcome::Refused(last) if attempt == MOST_TRIES => Final::Tries(last),
        _ => Final::Outcome(*outcome),
    }
}

impl Course {
    /// What a client of so many nodes keeps at first.
    pub(crate) fn start(nodes: u8) -> Course
        requires some { 1 ≤ nodes }
        requires most { nodes ≤ 5 }
        ensures hints { result.hints ≡ started nodes }
    {
        Course {
            hints: Hints::start(nodes),
            last_rounds: [None; 5],
            so_far: unsent(),
        }
    }

    /// A command begins.
    pub(crate) fn begin(&mut self)
        ensures hints { self.new.hints ≡ self.old.hints }
        ensures rounds { self.new.last_rounds ≡ replicate 5 None }
        ensures so_far { self.new.so_far ≡ unsent }
    {
        self.last_rounds = [None; 5];
        self.so_far = unsent();
    }

    /// How the command is left so far.
    pub(crate) fn so_far(&self) -> CommandEnd
        ensures { result ≡ self.now.so_far }
    {
        self.so_far
    }

    /// The number that the node's rounds have to pass.
    pub(crate) fn last_at(&self, node: NodeId) -> Option<u64>
        ensures { result ≡ last_at self.now.last_rounds node }
    {
        self.last_rounds[usize::from(node.get()) - 1]
    }

    /// A further number is kept for a node.
    pub(crate) fn set_last(&mut self, node: NodeId, rounds: u64)
        ensures hints { self.new.hints ≡ self.old.hints }
        ensures so_far { self.new.so_far ≡ self.old.so_far }
        ensures rounds { self.new.last_rounds
            ≡ slice_set self.old.last_rounds (node - 1) (Some rounds) }
        ensures some { 1 ≤ node }
        ensures most { node ≤ 5 }
        ensures five { length self.old.last_rounds ≡ 5 }
    {
        self.last_rounds[usize::from(node.get()) - 1] = Some(rounds);
    }

    /// Keeps how a try at a node ended. True where the command is tried again.
    pub(crate) fn take_end(
        &mut self,
        node: NodeId,
        range: RangeId,
        attempt: u16,
        outcome: &Outcome,
    ) -> bool
        requires node { node ≤ self.old.hints.nodes }
        requires end { IsEnd self.old.hints.nodes outcome.now }
        ensures hints { self.new.hints ≡ hints_with self.old.hints node range outcome.now }
        ensures rounds { self.new.last_rounds ≡ self.old.last_rounds }
        ensures attempt { self.new.so_far.attempt ≡ attempt }
        ensures end { self.new.so_far.end ≡ end_by attempt (Some outcome.now) }
        ensures again { result ≡ is_again attempt outcome.now }
    {
        let end = end_after(attempt, outcome);
        self.so_far = CommandEnd { attempt, end };
        match outcome {
            Outcome::Refused(refusal) => {
                self.hints.learn(node, range, refusal);
                tries_again(refusal) && attempt < MOST_TRIES
            }
            Outcome::Success(_) | Outcome::Ambiguous(_) | Outcome::Pending => false,
        }
    }

    /// The try is out, and all is over.
    pub(crate) fn leave_out(&mut self, attempt: u16)
        ensures hints { self.new.hints ≡ self.old.hints }
        ensures attempt { self.new.so_far.attempt ≡ attempt }
        ensures end { self.new.so_far.end ≡ ends.Outcome Pending }
    {
        let end = Final::Outcome(Outcome::Pending);
        self.so_far = CommandEnd { attempt, end };
    }
}
