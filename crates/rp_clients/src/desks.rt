//! Where a client asks the nodes.
ghost use Rattle.std.specs.Prelude.{◌≡◌, ℕ, ◌≤◌, IfOk, IfErr};
ghost use Rattle.rp_clients.specs.Desks.{Standing, Tells, CameBy, GoesOn, MayAdmit, MayPut, after_admit, after_fetch, after_reserve, after_release, Shows, TellsEnd, RefusesBy};

use crate::answers::{AdmitFault, Answer, Empty};
use rp_base::{CmdId, NodeId, RangeId};
use rp_quota::QuotaFault;
use rp_request::Request;

/// A client's desk: it tries its commands there one after another, and learns how they end. What
/// may be tried next hangs on the tries so far and on their ends, so a client cannot skip a try,
/// try again after an end that nobody can tell, or admit a command without its units.
pub trait Desk {
    // The tries with their ends, the numbers of rounds that were told, whose desk it is, whether
    // all is over or memory was refused, and the quota.
    ghost stands: { Self → Standing };

    /// How many rounds a node had: at least as many as at the tries there so far, and at most as
    /// many as at any later one. It may wait for the node.
    fn rounds(&mut self, node: NodeId) -> u64
        requires { node ≤ (stands self.old).nodes }
        ensures tells { Tells node result (stands self.old) (stands self.new) }
        ensures least { CameBy node result (stands self.old).tries };

    /// Tries a command at a node: `Ok` where it was admitted there. It may wait for the node.
    fn admit(
        &mut self,
        node: NodeId,
        range: RangeId,
        id: CmdId,
        request: Request,
    ) -> Result<(), AdmitFault>
        requires { MayAdmit node range id request (stands self.old) }
        ensures after { (rounds : ℕ) × ((stands self.old).told node ≤ rounds)
            × (stands self.new ≡ after_admit node range rounds id result (stands self.old)) }
        ensures names { IfErr result (RefusesBy (stands self.old).nodes) };

    /// Puts the command that was admitted last into the buffer of its range. False where there was
    /// no room, or another was faster: then nothing was put.
    fn put(&mut self, node: NodeId, range: RangeId, id: CmdId) -> bool
        requires { MayPut node range id (stands self.old) }
        ensures { stands self.new ≡ record (stands self.old) { is_put = result } };

    /// Takes what is posted, if anything is.
    fn fetch(&mut self) -> Result<Answer, Empty>
        ensures after { stands self.new ≡ after_fetch result (stands self.old) }
        ensures ends { IfOk result (TellsEnd (stands self.old).nodes) };

    /// Takes units of the quota, or tells why not.
    fn reserve(&mut self, units: u64) -> Result<(), QuotaFault>
        requires goes_on { GoesOn (stands self.old) }
        requires most { units ≤ (stands self.old).capacity }
        ensures after { stands self.new ≡ after_reserve units result (stands self.old) }
        ensures shows { IfErr result (Shows units) };

    /// Gives units back.
    fn release(&mut self, units: u64)
        requires { units ≤ (stands self.old).held }
        ensures { stands self.new ≡ after_release units (stands self.old) };
}
