//! Attempts that may still be put into a buffer, in queues.
ghost use Rattle.std.specs.Prelude.{◌≡◌, ◌+◌, ◌<◌, ℕ, true, not, length, [], ◌&&◌, ◌||◌, ◌==◌, replicate, IfOk, OnOk, OnErr};
ghost use Rattle.rp_base.specs.Ids.{same_id};
ghost use Rattle.rp_base.specs.declared.ids.CmdId.{CmdId};
ghost use Rattle.rp_book.specs.Queueing.{earlier_of, has, holds, queue_count, size, IsFirst, IsHead};

use rp_base::{CmdId, NoMemory};
use std::alloc::Global;
use std::collections::BTreeSet;
use std::marker::Model;

/// How many queues there are: one for each node and range, and one for what has drawn a place.
pub const QUEUES: usize = 41;

/// The attempts of one queue.
#[derive(Drop)]
struct Queue {
    ids: BTreeSet<CmdId>,
}

impl Model for Queue {
    ghost use Rattle.std.specs.Prelude.{List};
    ghost use Rattle.rp_base.specs.declared.ids.CmdId.{CmdId};

    ghost Value = { List CmdId };

    ghost view = { λ q. q.ids.keys };
}

impl Queue {
    fn new(alloc: Global) -> Queue
        ensures { result ≡ [] }
    {
        Queue {
            ids: BTreeSet::new(alloc),
        }
    }

    fn insert(&mut self, id: CmdId) -> Result<(), NoMemory>
        ensures ok { OnOk result ((other : CmdId) → has other self.new ≡ (same_id other id || has other self.old)) }
        ensures err { OnErr result (self.new ≡ self.old) }
    {
        self.ids.insert(id)?;
        Ok(())
    }

    fn remove(&mut self, id: CmdId)
        ensures has { (other : CmdId) → has other self.new ≡ (not (same_id other id) && has other self.old) }
        ensures fewer { has id self.old ≡ true → length self.new + 1 ≡ length self.old }
    {
        self.ids.remove(&id);
    }

    /// The first attempt.
    fn head(&self) -> Option<CmdId>
        ensures { IsHead self.now result }
    {
        match self.ids.first() {
            None => None,
            Some(id) => Some(*id),
        }
    }
}

/// Attempts that may still be put into a buffer: in a queue for each node and range those that had no
/// place, and in one more those that have drawn one. Contracts see the attempts of each queue.
#[derive(Drop)]
pub struct Queues {
    queues: Vec<Queue>,
}

impl Model for Queues {
    ghost use Rattle.std.specs.Prelude.{◌≡◌, length};
    ghost use Rattle.rp_book.specs.Queueing.{queue_count, Queued};

    ghost Value = { Queued };

    ghost view = { λ q. q.queues.items };

    ghost invariant = { λ q. length q.queues.items ≡ queue_count };
}

impl Queues {
    /// Empty queues.
    pub fn new(alloc: Global) -> Result<Queues, NoMemory>
        ensures { IfOk result (λ q. q ≡ replicate queue_count []) }
    {
        let mut queues = Vec::new(alloc);
        for _ in 0..QUEUES {
            queues.push(Queue::new(alloc))?;
        }
        Ok(Queues { queues })
    }

    /// Puts an attempt into a queue.
    pub fn insert(&mut self, queue: usize, id: CmdId) -> Result<(), NoMemory>
        requires { queue < queue_count }
        ensures ok { OnOk result ((k : ℕ) (other : CmdId) → holds self.new k other
            ≡ ((k == queue && same_id other id) || holds self.old k other)) }
        ensures err { OnErr result (self.new ≡ self.old) }
    {
        self.queues[queue].insert(id)
    }

    /// Takes an attempt out of a queue, where it is there.
    pub fn remove(&mut self, queue: usize, id: CmdId)
        requires { queue < queue_count }
        ensures holds { (k : ℕ) (other : CmdId) → holds self.new k other
            ≡ (not (k == queue && same_id other id) && holds self.old k other) }
        ensures fewer { holds self.old queue id ≡ true → size self.new + 1 ≡ size self.old }
    {
        self.queues[queue].remove(id);
    }

    /// The earlier one of what was found and the head of a queue that is not passed over.
    fn looked(
        &self,
        passed: &[bool; QUEUES],
        queue: usize,
        found: Option<(usize, CmdId)>,
    ) -> Option<(usize, CmdId)>
        requires { queue < queue_count }
        ensures { IsFirst self.now passed.now queue found → IsFirst self.now passed.now (queue + 1) result }
    {
        if passed[queue] {
            return found;
        }
        earlier(found, queue, self.queues[queue].head())
    }

    /// The first attempt, by client, command and number, of those in queues that are not passed over,
    /// and its queue.
    pub fn first(&self, passed: &[bool; QUEUES]) -> Option<(usize, CmdId)>
        ensures first { IsFirst self.now passed.now queue_count result }
        ensures many { length self.now ≡ queue_count }
    {
        let _queues = &self.queues;
        let mut first = None;
        for queue in 0..QUEUES {
            first = self.looked(passed, queue, first);
        }
        first
    }
}

/// The earlier one of what was found and the head of a queue.
fn earlier(
    found: Option<(usize, CmdId)>,
    queue: usize,
    head: Option<CmdId>,
) -> Option<(usize, CmdId)>
    ensures { result ≡ earlier_of found queue head }
{
    match (found, head) {
        (found, None) => found,
        (None, Some(id)) => Some((queue, id)),
        (Some((at, least)), Some(id)) => {
            if id < least {
                Some((queue, id))
            } else {
                Some((at, least))
            }
        }
    }
}
