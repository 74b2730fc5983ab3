//! A snapshot that Raft takes in, and what it overtakes.
ghost use Rattle.std.specs.Prelude.{◌≡◌, ◌≤◌, filter_map};
ghost use Rattle.rp_events.specs.Ends.{end_of, held_by_others, overtaken_by, snapshot_taken};
ghost use Rattle.rp_events.specs.Refreshes.{with_taken};
ghost use Rattle.rp_replica.specs.Plans.{EndsOvertaken, pieces_of};

use crate::replicas::Replica;
use rp_events::Ended;
use rp_latch::Latches;
use rp_snapshot::Snapshot;

/// Frees what these attempts hold.
pub(crate) fn free_all(latches: &mut Latches, ended: &[Ended])
    ensures { latches.new.list ≡ held_by_others ended.now latches.old.list }
{
    for end in ended {
        latches.free(end.id);
    }
}

impl Replica {
    /// The snapshot's state becomes the applied one, and what it overtook ends. It takes no memory.
    #[cold]
    pub(crate) fn take_in(&mut self, index: u64, snapshot: Snapshot, ended: &[Ended])
        requires room { 1 ≤ self.old.room.applied.pieces }
        requires ended { ended.now
            ≡ filter_map (end_of (overtaken_by snapshot.lai)) self.old.replica.pending }
        ensures replica { self.new.replica
            ≡ (snapshot_taken self.old.replica index snapshot).replica }
        ensures inbox { self.new.room.inbox ≡ self.old.room.inbox }
    {
        let (desc, lease, lai, table) = snapshot.into_parts();
        self.source.state.reset(desc, lease, lai, table, index);
        free_all(&mut self.latches, ended);
        self.pending.drop_back(lai);
    }

    /// The same, where there is a snapshot.
    pub(crate) fn take_in_where(&mut self, taken: Option<(u64, Snapshot)>, ended: &[Ended])
        requires room { pieces_of taken ≤ self.old.room.applied.pieces }
        requires ended { EndsOvertaken self.old.replica.pending taken ended.now }
        ensures replica { self.new.replica ≡ (with_taken self.old.replica taken).replica }
        ensures inbox { self.new.room.inbox ≡ self.old.room.inbox }
    {
        match taken {
            None => {}
            Some((index, snapshot)) => self.take_in(index, snapshot, ended),
        }
    }
}
