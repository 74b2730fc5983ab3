//! What a node has of a range.
ghost use Rattle.std.specs.Prelude.{◌≡◌, IfOk};
ghost use Rattle.rp_events.specs.Nodes.{first_round_in};
ghost use Rattle.rp_node.specs.Cores.{is_absent, status_of};
ghost use Rattle.rp_events.specs.MaySteps.{SeatAllows};
ghost use Rattle.rp_node.specs.Seen.{Shows};
ghost use Rattle.rp_node.specs.Plans.{SeatFits, SeatReady, effects_by, status_by, taken_down};

use rp_apply::ApplyState;
use rp_base::{NoMemory, Tick};
use rp_events::{Effects, ReplicaEvent};
use rp_replica::{Replica, ReplicaPlan};
use rp_snapshot::Snapshot;

/// Nothing yet, a replica, or a tombstone, which keeps what was applied.
#[derive(Drop)]
pub enum Seat {
    Absent,
    Live { replica: Replica },
    Removed { kept: ApplyState },
}

/// What a node shows of a range.
pub enum Seen<'a> {
    Live(&'a Replica),
    /// A tombstone.
    Removed(&'a ApplyState),
    /// Neither a replica nor a tombstone.
    Absent,
}

impl Seat {
    /// What an event will do at the replica in this seat, with room made for it; `None` without a
    /// replica. It leaves the seat as it was, room aside.
    pub(crate) fn plan(
        &mut self,
        happens: ReplicaEvent<Snapshot>,
        ticks: Tick,
        round: u64,
    ) -> Result<Option<ReplicaPlan>, NoMemory>
        requires { SeatAllows (status_of self.old) happens ticks }
        ensures status { status_of self.new ≡ status_of self.old }
        ensures plan { IfOk result (λ p. SeatReady self.new happens ticks round p) }
    {
        let Seat::Live { replica } = self else {
            return Ok(None);
        };
        let plan = replica.plan(happens, ticks, round)?;
        replica.make_room(&plan)?;
        Ok(Some(plan))
    }

    /// Does what was planned at the replica in this seat; `None` without a replica. It takes no
    /// memory.
    pub(crate) fn commit(&mut self, plan: ReplicaPlan) -> Option<Effects<Snapshot>>
        requires { SeatFits self.old plan }
        ensures status { status_of self.new ≡ status_by self.old plan }
        ensures effects { result ≡ effects_by self.old plan }
    {
        let Seat::Live { replica } = self else {
            return None;
        };
        Some(replica.commit(plan))
    }

    /// A replica becomes a tombstone. It takes no memory.
    pub(crate) fn take_down(&mut self)
        ensures { status_of self.new ≡ taken_down (status_of self.old) }
    {
        let seat = std::mem::replace(self, Seat::Absent);
        *self = match seat {
            Seat::Live { replica } => Seat::Removed {
                kept: replica.into_applied(),
            },
            other => other,
        };
    }

    /// The node has nothing of the range.
    pub(crate) fn is_absent(&self) -> bool
        ensures { result ≡ is_absent self.now }
    {
        matches!(self, Seat::Absent)
    }

    /// What the node shows of the range.
    pub(crate) fn seen(&self) -> Seen<'_>
        ensures { Shows (status_of self.now) result }
    {
        match self {
            Seat::Absent => Seen::Absent,
            Seat::Live { replica } => Seen::Live(replica),
            Seat::Removed { kept } => Seen::Removed(kept),
        }
    }

    /// The round at which an attempt that is pending here was flushed first.
    pub(crate) fn first_round(&self) -> Option<u64>
        ensures { result ≡ first_round_in (status_of self.now) }
    {
        match self {
            Seat::Live { replica } => replica.first_round(),
            Seat::Absent | Seat::Removed { .. } => None,
        }
    }
}
