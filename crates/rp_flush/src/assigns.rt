//! What becomes of an inbox at a flush.
ghost use Rattle.std.specs.Prelude.{◌≡◌, ◌+◌, ◌<◌, ◌^◌, [], length, max, cond, None, IfOk, OnOk};
ghost use Rattle.std.specs.BTreeMap.{get};
ghost use Rattle.rp_base.specs.Ids.{cmd_cmp};
ghost use Rattle.rp_base.specs.declared.ids.CmdId.{CmdId};
ghost use Rattle.rp_flush.specs.Assigns.{assigned_of};
ghost use Rattle.rp_flush.specs.Steps.{is_write_of, settled, with_item};

use crate::waits::seqs_by_id;
use rp_base::{CmdId, Item, Items, Lease, LeaseAsk, LeaseIndex, LeaseSeq, NoMemory, Seq};
use rp_request::WaitList;
use std::alloc::Global;
use std::collections::BTreeMap;

/// What a flush gives to Raft, the lease asks first, and what it refuses.
#[derive(Drop)]
pub struct Assigned {
    /// The lease asks, in the order of the inbox.
    pub leases: Seq<LeaseAsk>,
    /// The commands that are proposed, in the order of the inbox, each with its lease index.
    pub writes: Seq<(CmdId, LeaseIndex)>,
    /// The commands of another lease sequence, in the order of the inbox.
    pub refused: Seq<CmdId>,
    /// The last index that was assigned: where none is given, the one before.
    pub last: LeaseIndex,
}

impl Assigned {
    /// Gives a command that waits under the sequence the next index. One that waits under another
    /// is refused, and one that does not wait is ignored.
    fn settle(
        &mut self,
        id: CmdId,
        seq: LeaseSeq,
        lai: LeaseIndex,
        waits: Option<LeaseSeq>,
    ) -> Result<(), NoMemory>
        requires { max self.old.last lai + 1 < 2 ^ 64 }
        ensures { OnOk result (self.new ≡ settled self.old id seq lai waits) }
    {
        match waits {
            None => Ok(()),
            Some(own) => {
                if own != seq {
                    return self.refused.push(id);
                }
                self.last = LeaseIndex::new(self.last.get().max(lai.get()) + 1);
                self.writes.push((id, self.last))
            }
        }
    }

    /// Takes an item of the inbox; a command that it names waits no longer.
    fn take(
        &mut self,
        item: &Item,
        seq: LeaseSeq,
        lai: LeaseIndex,
        waiting: &mut BTreeMap<CmdId, LeaseSeq>,
    ) -> Result<(), NoMemory>
        requires { max self.old.last lai + 1 < 2 ^ 64 }
        ensures given { OnOk result
            (self.new ≡ with_item self.old (get cmd_cmp waiting.old) seq lai item.now) }
        ensures waiting { OnOk result ((id : CmdId)
            → get cmd_cmp waiting.new id
            ≡ cond (is_write_of id item.now) None (get cmd_cmp waiting.old id)) }
    {
        match *item {
            Item::Lease(ask) => self.leases.push(ask),
            Item::Write(id) => {
                let waits = waiting.remove(&id);
                self.settle(id, seq, lai, waits)
            }
        }
    }
}

/// What becomes of an inbox at a flush. The lease asks go first, in the inbox's order, then the
/// commands in its order. A command that does not wait is ignored, also where it stands a second
/// time; one that waits under another sequence than the present lease's is refused; each other gets
/// the greater of the last index that was assigned and the lease applied index, plus one, which is
/// then the last assigned. Where none gets an index, the last assigned stays.
pub fn assign(
    alloc: Global,
    inbox: &Items,
    waiting: &WaitList,
    lease: Lease,
    lai: LeaseIndex,
    assigned: LeaseIndex,
) -> Result<Assigned, NoMemory>
    requires { max assigned lai + length inbox.now.list < 2 ^ 64 }
    ensures { IfOk result
        (λ all. all ≡ assigned_of inbox.now.list waiting.now lease.seq lai assigned) }
{
    let mut seqs = seqs_by_id(alloc, waiting.as_slice())?;
    let mut all = Assigned {
        leases: Seq::new(alloc),
        writes: Seq::new(alloc),
        refused: Seq::new(alloc),
        last: assigned,
    };
    let seq = lease.seq;
    let items = inbox.as_slice();
    for item in items {
        all.take(item, seq, lai, &mut seqs)?;
    }
    Ok(all)
}
