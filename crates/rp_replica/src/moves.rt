//! What becomes of proposals before payloads go to Raft.
ghost use Rattle.std.specs.Prelude.{◌≡◌, ◌≤◌, ◌+◌};
ghost use Rattle.rp_events.specs.Moves.{moved, moved_all};
ghost use Rattle.rp_events.specs.Replicas.{untold};
ghost use Rattle.rp_replica.specs.Handing.{items_by, items_of};

use crate::replicas::Replica;
use rp_base::{Item, Tick};
use rp_events::Move;

impl Replica {
    /// Makes a move of one proposal, which stays as it is where it stands otherwise. It takes no
    /// memory.
    #[inline(never)]
    fn make_move(&mut self, one: Move, ticks: Tick, round: u64)
        requires { items_by one ≤ self.old.room.inbox }
        ensures replica { self.new.replica
            ≡ (moved ticks round (untold self.old.replica) one).replica }
        ensures room { self.old.room.inbox ≤ self.new.room.inbox + items_by one }
    {
        match one {
            Move::HandsOut { id, max } => {
                self.pending.hand_out(id, max, ticks, round);
            }
            Move::GivesUp(id) => {
                if self.pending.give_up(id) {
                    self.latches.free(id);
                }
            }
            Move::TakesBack(id) => {
                if self.pending.take_back(id, self.source.state.lai()) {
                    self.inbox.push(Item::Write(id));
                }
            }
            Move::Repeats(id) => {
                self.pending.repeat(id, ticks, round);
            }
        }
    }

    /// Makes moves one after another. It takes no memory.
    pub(crate) fn make_moves(&mut self, moves: &[Move], ticks: Tick, round: u64)
        requires { items_of moves.now ≤ self.old.room.inbox }
        ensures { self.new.replica
            ≡ (moved_all ticks round (untold self.old.replica) moves.now).replica }
    {
        for one in moves {
            self.make_move(*one, ticks, round);
        }
    }
}
