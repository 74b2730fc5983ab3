//! The lease sequences of the commands that wait.
ghost use Rattle.std.specs.Prelude.{◌≡◌, IfOk};
ghost use Rattle.std.specs.BTreeMap.{get};
ghost use Rattle.rp_base.specs.Ids.{cmd_cmp};
ghost use Rattle.rp_base.specs.declared.ids.CmdId.{CmdId};
ghost use Rattle.rp_flush.specs.Assigns.{seq_of};

use rp_base::{CmdId, LeaseSeq, NoMemory};
use rp_request::Waiting;
use std::alloc::Global;
use std::collections::BTreeMap;

/// The sequence of each command that waits; the first counts where an id stands twice.
pub(crate) fn seqs_by_id(
    alloc: Global,
    waiting: &[Waiting],
) -> Result<BTreeMap<CmdId, LeaseSeq>, NoMemory>
    ensures { IfOk result (λ seqs. (id : CmdId) → get cmd_cmp seqs id ≡ seq_of waiting.now id) }
{
    let mut seqs = BTreeMap::new(alloc);
    for proposal in waiting {
        if !seqs.contains_key(&proposal.id) {
            seqs.insert(proposal.id, proposal.seq)?;
        }
    }
    Ok(seqs)
}
