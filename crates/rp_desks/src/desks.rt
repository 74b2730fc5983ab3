//! A client's desk.
ghost use Rattle.std.specs.Prelude.{◌≡◌, true};
ghost use Rattle.rp_buffer.specs.Passes as passes;
ghost use Rattle.rp_switch.specs.Seats.{known_by};
ghost use Rattle.rp_desks.specs.Desks.{IsTold, Puts};
ghost use Rattle.rp_desks.specs.Onward.{heard_over};
ghost use Rattle.rp_desks.specs.Whence.{IsPassing, IsSharing};

use crate::origins::Origin;
use crate::seats::ClientSeat;
use rp_base::{CmdId, Item, NodeId, RangeId};
use rp_bufcore::BufferEnd;
use rp_buffer::{Pass, SlotTable};
use rp_clients::{AdmitFault, Answer, Desk, Empty};
use rp_quota::{Quota, QuotaFault, Share};
use rp_request::Request;
use std::sync::Wait;

/// The desk of one client: its seat at a switch, its pass of the buffers and its share of a quota.
#[derive(Drop)]
pub struct SwitchDesk<'a, R: Wait, E: BufferEnd + Drop, K: Origin> {
    pub(crate) rt: &'a R,
    pub(crate) seat: ClientSeat<'a, E, K>,
    pub(crate) buffers: &'a SlotTable,
    pub(crate) pass: Pass,
    pub(crate) quota: &'a Quota,
    pub(crate) share: Share,
    /// The greatest number of rounds that was told of each node, by its number.
    pub(crate) told: [u64; 6],
    pub(crate) is_over: bool,
    pub(crate) is_short: bool,
    pub(crate) is_put: bool,
    pub ghost passing: { IsPassing K.from buffers.now pass },
    pub ghost sharing: { IsSharing K.from quota.now share },
    pub ghost told_is: { IsTold told (known_by seat.seat).seen },
    pub ghost over: { is_over ≡ true → heard_over (known_by seat.seat) ≡ true },
}

impl<'a, R: Wait, E: BufferEnd + Drop, K: Origin> Desk for SwitchDesk<'a, R, E, K> {
    ghost use Rattle.rp_desks.specs.Standings.{standing_of};

    ghost stands = { standing_of };

    /// Takes the node, tried until it is had, reads its rounds, and gives it back as it is.
    fn rounds(&mut self, node: NodeId) -> u64 {
        let rounds = self.seat.rounds(self.rt, node);
        self.told[usize::from(node.get())] = rounds;
        rounds
    }

    /// Takes the node, tried until it is had and not full, admits the command there, and gives it back.
    fn admit(
        &mut self,
        node: NodeId,
        range: RangeId,
        id: CmdId,
        request: Request,
    ) -> Result<(), AdmitFault> {
        let answer = self.seat.admit(self.rt, node, range, id, &request);
        match &answer {
            Ok(()) | Err(AdmitFault::Refused(_)) => self.is_put = false,
            Err(AdmitFault::NoMemory) => self.is_short = true,
        }
        answer
    }

    /// Inserts the command's item into the buffer of the node's range: false exactly where there was no
    /// room or another was faster.
    fn put(&mut self, node: NodeId, range: RangeId, id: CmdId) -> bool
        ensures stands { standing_of self.new ≡ record (standing_of self.old) { is_put = result } }
        ensures puts { Puts (passes.known_by self.old.pass) node range id result
            (passes.known_by self.new.pass) }
    {
        let buffer = 8 * (node.get() - 1) + range.get();
        let inserted = self.buffers.insert(&mut self.pass, buffer, Item::Write(id));
        self.is_put = inserted.is_ok();
        self.is_put
    }

    fn fetch(&mut self) -> Result<Answer, Empty> {
        let fetched = self.seat.fetch();
        match &fetched {
            Ok(Answer::Over) => self.is_over = true,
            Ok(Answer::NoMemory) => self.is_short = true,
            Ok(Answer::Ended { .. }) | Err(_) => (),
        }
        fetched
    }

    fn reserve(&mut self, units: u64) -> Result<(), QuotaFault> {
        self.quota.try_take(&mut self.share, units)
    }

    fn release(&mut self, units: u64) {
        self.quota.give(&mut self.share, units);
    }
}
