//! Ticks that are only counted, and answers of peers behind which nothing is sent. They need no plan.
ghost use Rattle.std.specs.Prelude.{◌≡◌, ℕ, ◌<◌, ◌≤◌, false, length, IfOk, IsTrue, OnErr};
ghost use Rattle.rp_raftstep.specs.declared.messages.Message.TheVariants.{AppendReply};
ghost use Rattle.rp_events.specs.MaySteps.{MayCome, SeatAllows};
ghost use Rattle.rp_events.specs.NodeEvents.{all_turns, delivered, done, live_turn};
ghost use Rattle.rp_events.specs.Nodes.{range_numbers, seat, written};
ghost use Rattle.rp_events.specs.declared.journals.PastEvent.TheVariants as past;
ghost use Rattle.rp_events.specs.declared.replica_events.ReplicaEvent.TheVariants as at_replica;
ghost use Rattle.rp_node.specs.Cores.{is_absent, node_of, seat_in, status_of};
ghost use Rattle.rp_node.specs.Plans.{answered};
ghost use Rattle.rp_node.specs.Quiet.{TurnsQuietly, only_counts_in};
ghost use Rattle.rp_node.specs.Ticks.{with_ticks};

use crate::cores::Core;
use crate::seats::Seat;
use rp_base::{NoMemory, NodeId, RangeId, Tick};
use rp_events::{EventAnswer, PastEvent};
use rp_raftstep::Message;
use rp_snapshot::Snapshot;

impl Seat {
    /// Whether a tick is counted here and no more; so it is without a replica.
    fn only_counts(&self, ticks: Tick) -> Result<bool, NoMemory>
        ensures { IfOk result (λ only. only ≡ only_counts_in ticks (status_of self.now)) }
    {
        match self {
            Seat::Live { replica } => replica.only_counts(ticks),
            Seat::Absent | Seat::Removed { .. } => Ok(true),
        }
    }

    /// The tick is counted. It takes no memory.
    fn count_tick(&mut self, ticks: Tick)
        requires { IsTrue (only_counts_in ticks (status_of self.old)) }
        ensures { TurnsQuietly at_replica.Tick ticks (status_of self.old) (status_of self.new) }
    {
        match self {
            Seat::Live { replica } => replica.count_tick(ticks),
            Seat::Absent | Seat::Removed { .. } => {}
        }
    }

    /// The answer of a peer comes. Where something is left to be sent, or there is no replica, the
    /// answer is `false`, and nothing has happened. It takes no memory.
    fn hear(&mut self, from: NodeId, term: u64, ok: bool, index: u64) -> bool
        requires { SeatAllows (status_of self.old)
            (at_replica.Deliver from (AppendReply term ok index)) 0 }
        ensures heard { IsTrue result → (ticks : ℕ) → TurnsQuietly
            (at_replica.Deliver from (AppendReply term ok index)) ticks
            (status_of self.old) (status_of self.new) }
        ensures there { IsTrue result → is_absent self.old ≡ false }
        ensures stays { result ≡ false → status_of self.new ≡ status_of self.old }
    {
        match self {
            Seat::Live { replica } => replica.hear(from, term, ok, index),
            Seat::Absent | Seat::Removed { .. } => false,
        }
    }
}

/// Whether a tick is counted in all of the seats and no more.
fn all_only_count(seats: &[Seat], ticks: Tick) -> Result<bool, NoMemory>
    ensures { IfOk result (λ only. IsTrue only → (range : ℕ) → range < length seats.now
        → IsTrue (only_counts_in ticks (status_of (seat_in seats.now range)))) }
{
    for seat in seats {
        if !seat.only_counts(ticks)? {
            return Ok(false);
        }
    }
    Ok(true)
}

impl Core {
    /// The answer of a peer comes at the seat of its range. Where it is no answer, or something is left
    /// to be sent, `false`, and nothing has happened. Nor has it at want of memory.
    pub(crate) fn hears(
        &mut self,
        from: NodeId,
        range: RangeId,
        message: &Message<Snapshot>,
    ) -> Result<bool, NoMemory>
        requires { MayCome (node_of self.old) from range message.now }
        ensures heard { IfOk result (λ heard. IsTrue heard → node_of self.new
            ≡ delivered (node_of self.old) from range message.now
            (seat (node_of self.old) range)) }
        ensures room { IfOk result (λ heard. IsTrue heard → 1 ≤ self.new.logs.journal.spare) }
        ensures stays { IfOk result (λ heard. heard ≡ false → node_of self.new ≡ node_of self.old) }
        ensures err { OnErr result (node_of self.new ≡ node_of self.old) }
        ensures nodes { self.new.nodes ≡ self.old.nodes }
    {
        let Message::AppendReply { term, ok, index } = *message else {
            return Ok(false);
        };
        self.logs.make_room(0, 0)?;
        let heard = self.seats[usize::from(range.get())].hear(from, term, ok, index);
        Ok(heard)
    }

    /// The tick is counted at the seat of this range. It takes no memory.
    fn count_at(&mut self, range: usize)
        requires within { range < 8 }
        requires only { IsTrue (only_counts_in self.old.ticks
            (status_of (seat_in self.old.seats range))) }
        ensures turn { node_of self.new ≡ live_turn at_replica.Tick (node_of self.old) range
            (seat (node_of self.old) range) }
        ensures others { (k : ℕ) → ¬ (k ≡ range)
            → seat_in self.new.seats k ≡ seat_in self.old.seats k }
        ensures ticks { self.new.ticks ≡ self.old.ticks }
        ensures logs { self.new.logs ≡ self.old.logs }
    {
        let ticks = self.ticks;
        self.seats[range].count_tick(ticks);
    }

    /// The tick is counted at all seats. It takes no memory.
    fn count_all(&mut self)
        requires { (range : ℕ) → range < 8 → IsTrue (only_counts_in self.old.ticks
            (status_of (seat_in self.old.seats range))) }
        ensures node { node_of self.new
            ≡ all_turns at_replica.Tick (node_of self.old) range_numbers }
        ensures logs { self.new.logs ≡ self.old.logs }
    {
        for range in 0..8 {
            self.count_at(range);
        }
    }

    /// Whether this tick is counted in all ranges and no more.
    pub(crate) fn only_counts(&self, ticks: Tick) -> Result<bool, NoMemory>
        ensures { IfOk result (λ only. IsTrue only → (range : ℕ) → range < 8
            → IsTrue (only_counts_in ticks (status_of (seat_in self.now.seats range)))) }
    {
        all_only_count(&self.seats, ticks)
    }

    /// Time goes on to this tick, which is counted in all ranges and no more. At want of memory
    /// nothing happens.
    pub(crate) fn count_tick(&mut self, ticks: Tick) -> Result<EventAnswer, NoMemory>
        requires { (range : ℕ) → range < 8 → IsTrue (only_counts_in ticks
            (status_of (seat_in self.old.seats range))) }
        ensures ok { IfOk result (λ answer. answered (node_of self.new) answer
            ≡ written past.Tick (done (all_turns at_replica.Tick
            (with_ticks (node_of self.old) ticks) range_numbers))) }
        ensures err { OnErr result (node_of self.new ≡ node_of self.old) }
    {
        self.logs.make_room(0, 0)?;
        self.ticks = ticks;
        self.count_all();
        let answer = EventAnswer::Done;
        self.logs.write(PastEvent::Tick, &answer);
        Ok(answer)
    }
}
