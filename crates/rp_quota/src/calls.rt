//! Taking and giving units.
ghost use Rattle.std.specs.Prelude.{◌≡◌, ◌+◌, ◌≤◌, IfOk};
ghost use Rattle.rp_quota.specs.Units.{most_units, all_parts, first, left, right, both, holding};
ghost use Rattle.rp_quota.specs.Shares.{capacity_of, known_by, IsShareOf, IsSame, Takes};

use crate::faults::QuotaFault;
use crate::plays::{Give, Load, Part, Take};
use crate::quota::{Closed, Quota, Share};
use atomic_table::Table;
use rp_base::NoMemory;
use std::alloc::Global;

/// The word that has the free units.
const FREE: usize = 0;

impl Quota {
    /// A quota whose units are all free, and its first share, which has all parts and no units.
    pub fn new(alloc: Global, capacity: u64) -> Result<(Quota, Share), NoMemory>
        requires some { 1 ≤ capacity }
        requires most { capacity ≤ most_units }
        ensures quota { IfOk result (λ q. capacity_of q.0 ≡ capacity) }
        ensures share { IfOk result (λ q. IsShareOf q.0 q.1 × (known_by q.1 ≡ first capacity)) }
    {
        let (table, seat) = Table::of_words(alloc, &[capacity], &capacity)?;
        Ok((Quota { table, capacity }, Share { seat }))
    }

    /// A new share with one of the parts and no units. It takes no memory.
    pub fn split(&self, share: &mut Share) -> Share
        requires of { IsShareOf self.now share.old }
        requires parts { 2 ≤ (known_by share.old).parts }
        ensures same { IsSame share.old share.new }
        ensures of { IsShareOf self.now result }
        ensures old { known_by share.new ≡ left (known_by share.old) }
        ensures new { known_by result ≡ right (known_by share.old) }
    {
        let seat = self.table.shared.split_seat::<Part>(&mut share.seat);
        Share { seat }
    }

    /// Adds another share's parts and units to this one. It takes no memory.
    pub fn join(&self, share: &mut Share, other: Share)
        requires of { IsShareOf self.now share.old }
        requires other { IsShareOf self.now other }
        ensures same { IsSame share.old share.new }
        ensures both { known_by share.new ≡ both (known_by share.old) (known_by other) }
    {
        let Share { seat } = other;
        self.table.shared.join_seat::<Part>(&mut share.seat, seat);
    }

    /// Takes units from the free ones, by one load and one exchange. It takes no memory, and does
    /// not wait: `Low` where too few were free when it looked, `Raced` where another share changed
    /// the free units in between. Both change nothing.
    pub fn try_take(&self, share: &mut Share, units: u64) -> Result<(), QuotaFault>
        requires of { IsShareOf self.now share.old }
        requires most { units ≤ capacity_of self.now }
        ensures same { IsSame share.old share.new }
        ensures parts { (known_by share.new).parts ≡ (known_by share.old).parts }
        ensures takes { Takes (known_by share.old) units result (known_by share.new) }
    {
        let shared = &self.table.shared;
        let loaded = shared.load::<Load>(&mut share.seat, FREE);
        let low = loaded < units;
        if low {
            return Err(QuotaFault::Low { free: loaded });
        }
        let rest = loaded - units;
        let seen = shared.compare_exchange::<Take>(&mut share.seat, FREE, loaded, rest);
        if seen == loaded {
            Ok(())
        } else {
            Err(QuotaFault::Raced { loaded, seen })
        }
    }

    /// Gives units that the share holds back to the free ones, by one addition. It takes no memory.
    pub fn give(&self, share: &mut Share, units: u64)
        requires of { IsShareOf self.now share.old }
        requires held { units ≤ (known_by share.old).units }
        ensures same { IsSame share.old share.new }
        ensures parts { (known_by share.new).parts ≡ (known_by share.old).parts }
        ensures fewer { (known_by share.new).units + units ≡ (known_by share.old).units }
        ensures kept { known_by share.new
            ≡ holding (known_by share.old).parts (known_by share.new).units (known_by share.old).looks }
    {
        self.table
            .shared
            .fetch_add::<Give>(&mut share.seat, FREE, units);
    }

    /// What was free and what the last share holds, which are the capacity together.
    pub fn close(self, share: Share) -> Result<Closed, NoMemory>
        requires of { IsShareOf self share }
        requires all { (known_by share).parts ≡ all_parts }
        ensures whole { IfOk result (λ c. c.free + c.held ≡ capacity_of self) }
        ensures held { IfOk result (λ c. c.held ≡ (known_by share).units) }
    {
        let Quota { table, capacity } = self;
        let Share { seat } = share;
        let closed = table.close_with(seat);
        let free = closed.word(FREE);
        closed.free();
        Ok(Closed {
            free,
            held: capacity - free,
        })
    }
}
