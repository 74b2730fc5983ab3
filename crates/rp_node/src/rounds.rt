//! A worker's round at a node ends.
ghost use Rattle.std.specs.Prelude.{◌≡◌, ◌+◌, ◌<◌, ◌^◌, OnOk, OnErr, length, map};
ghost use Rattle.rp_events.specs.NodeEvents.{done, rounded};
ghost use Rattle.rp_events.specs.Nodes.{longest_wait, written};
ghost use Rattle.rp_events.specs.declared.answers.EventAnswer.TheVariants as answers;
ghost use Rattle.rp_events.specs.declared.journals.PastEvent.TheVariants as past;
ghost use Rattle.rp_node.specs.Cores.{node_of, status_of};
ghost use Rattle.rp_node.specs.Plans.{answered};
ghost use Rattle.rp_node.specs.Waits.{with_wait};

use crate::cores::Core;
use crate::seats::Seat;
use rp_base::NoMemory;
use rp_events::{EventAnswer, PastEvent};

/// The longer one of a wait and of that of an attempt, where one was flushed.
fn with_wait(most: u64, rounds: u64, first: Option<u64>) -> u64
    ensures { result ≡ with_wait most rounds first }
{
    match first {
        None => most,
        Some(first) => most.max(rounds.saturating_sub(first)),
    }
}

/// The most rounds through which a pending attempt of these seats was pending.
fn longest_wait(seats: &[Seat], rounds: u64) -> u64
    ensures { result ≡ longest_wait rounds (map status_of seats.now) }
{
    let mut most = 0;
    for seat in seats {
        most = with_wait(most, rounds, seat.first_round());
    }
    most
}

impl Core {
    /// A round ends. At want of memory nothing happens.
    #[inline(never)]
    pub(crate) fn round(&mut self) -> Result<(), NoMemory>
        requires { self.old.rounds + 1 < 2 ^ 64 }
        ensures ok { OnOk result (answered (node_of self.new) answers.Done
            ≡ written (past.Round (length self.old.logs.sent.list)) (done (rounded (node_of self.old)))) }
        ensures err { OnErr result (node_of self.new ≡ node_of self.old) }
    {
        self.logs.make_room(0, 0)?;
        let sent = self.logs.sent.len() as u64;
        let rounds = self.rounds + 1;
        let wait = longest_wait(&self.seats, rounds);
        self.rounds = rounds;
        self.waited = self.waited.max(wait);
        self.logs
            .write(PastEvent::Round { sent }, &EventAnswer::Done);
        Ok(())
    }
}
