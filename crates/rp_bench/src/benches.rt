//! The bench of a worker.
ghost use Rattle.std.specs.Prelude.{◌≡◌, ◌+◌, ◌≤◌, true};
ghost use Rattle.rp_switch.specs.Seats.{known_by};
ghost use Rattle.rp_bench.specs.Dues.{due_of, is_within, served_by, copied_to, IsPulled};

use crate::calls::{Call, due_after, pulls_from, round_from};
use crate::origins::Origin;
use crate::seats::WorkerSeat;
use rp_base::{NoMemory, NodeId};
use rp_bufcore::BufferEnd;
use rp_clients::Gate;
use rp_rounds::Bench;
use std::sync::Wait;

/// The bench of a worker: its seat at a switch, and which call is due.
#[derive(Drop)]
pub struct SwitchBench<'a, R: Wait, E: BufferEnd + Drop, G: Gate, K: Origin> {
    pub(crate) seat: WorkerSeat<'a, R, E, K>,
    pub(crate) gate: &'a G,
    pub(crate) worker: u8,
    pub(crate) workers: u8,
    pub(crate) due: Call,
    pub(crate) is_over: bool,
    pub ghost few: { (worker ≤ 8) × (workers ≤ 8) },
    pub ghost within: { is_within K.from.known.terms.nodes (due_of due) ≡ true },
    pub ghost pulled: { IsPulled (known_by seat.seat).seen seat.stations (served_by (due_of due))
        (copied_to K.from.known.terms.nodes (due_of due)) },
}

impl<'a, R: Wait, E: BufferEnd + Drop, K: Origin> WorkerSeat<'a, R, E, K> {
    /// Plays a round of the node, unless another node is behind or no more may be played: then nothing
    /// happens.
    fn serve(&mut self, node: NodeId) -> Result<(), NoMemory>
        requires node { node ≤ K.from.known.terms.nodes }
        requires pulled { IsPulled (known_by self.old.seat).seen self.old.stations node (K.from.known.terms.nodes + 1) }
    {
        if self.is_due(node) {
            self.play(node)
        } else {
            Ok(())
        }
    }
}

impl<'a, R: Wait, E: BufferEnd + Drop, G: Gate, K: Origin> Bench for SwitchBench<'a, R, E, G, K> {
    ghost use Rattle.rp_bench.specs.Standings.{standing_of};

    ghost stands = { standing_of };

    fn pull(&mut self, from: NodeId, to: NodeId) -> Result<(), NoMemory> {
        let copied = self.seat.copy(from, to);
        let nodes = self.seat.switch.nodes();
        let next = pulls_from(nodes, to.get(), from.get() + 1);
        let due = due_after(&copied, next);
        self.due = due;
        copied
    }

    fn round(&mut self, node: NodeId) -> Result<(), NoMemory> {
        self.gate.round(self.worker);
        let played = self.seat.serve(node);
        let due = due_after(&played, Call::Post(node.get()));
        self.due = due;
        played
    }

    fn post(&mut self, node: NodeId) -> Result<(), NoMemory> {
        let posted = self.seat.post(node);
        let nodes = self.seat.switch.nodes();
        let next = round_from(self.worker, nodes, node.get() + self.workers);
        let due = due_after(&posted, next);
        self.due = due;
        posted
    }

    /// All clients have ended, or the race is to stop.
    fn over(&mut self) -> bool {
        let is_over = self.seat.board.is_over() || self.seat.board.is_stopped();
        self.is_over = self.is_over || is_over;
        is_over
    }
}
