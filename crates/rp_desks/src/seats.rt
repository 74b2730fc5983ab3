//! A client's seat at a switch.
ghost use Rattle.std.specs.Prelude.{◌≡◌, ◌≤◌, true};
ghost use Rattle.rp_switch.specs.Gifts.{tries_known};
ghost use Rattle.rp_switch.specs.Rules.{clients_of};
ghost use Rattle.rp_switch.specs.Seats.{terms_of, known_by};
ghost use Rattle.rp_desks.specs.Onward.{all_named, Looks, MayLook, MayAsk, Admits, MayAdmit, Hears, answer_of};
ghost use Rattle.rp_desks.specs.Whence.{IsSeated};

use crate::origins::Origin;
use crate::widths::{id_fits, node_fits, request_fits};
use rp_base::{CmdId, NoMemory, NodeId, RangeId};
use rp_bufcore::BufferEnd;
use rp_clients::{AdmitFault, Answer, Empty};
use rp_events::{Event, EventAnswer};
use rp_request::Request;
use rp_snapshot::Snapshot;
use rp_switch::{Seat, Switch};
use std::marker::PhantomData;
use std::sync::Wait;
use std::thread::yield_now;

/// A client's seat at a switch, with the client's right to be admitted. It has no node between two calls.
#[derive(Drop)]
pub(crate) struct ClientSeat<'a, E: BufferEnd + Drop, K: Origin> {
    pub(crate) switch: &'a Switch<E>,
    pub(crate) seat: Seat<E>,
    pub(crate) client: u16,
    pub(crate) from: PhantomData<K>,
    pub ghost seated: { IsSeated K.from switch.now seat },
    pub ghost client_is: { client ≡ K.from.client },
    pub ghost named: { all_named (known_by seat).terms.nodes (tries_known (known_by seat) client) ≡ true },
    pub ghost served: { (1 ≤ client) × (client ≤ clients_of (terms_of switch.now)) },
}

/// What a client is told of its admission.
fn answered(answer: Result<EventAnswer, NoMemory>) -> Result<(), AdmitFault>
    ensures { result ≡ answer_of answer }
{
    match answer {
        Ok(EventAnswer::Refused(refusal)) => Err(AdmitFault::Refused(refusal)),
        Ok(_) => Ok(()),
        Err(NoMemory) => Err(AdmitFault::NoMemory),
    }
}

impl<'a, E: BufferEnd + Drop, K: Origin> ClientSeat<'a, E, K> {
    /// How many rounds a node had, where it is not taken.
    fn try_rounds(&mut self, node: NodeId) -> Option<u64>
        requires { node ≤ (known_by self.old.seat).terms.nodes }
        ensures client { self.new.client ≡ self.old.client }
        ensures told { MayLook self.old.client (known_by self.old.seat) node result (known_by self.new.seat) }
    {
        node_fits(node);
        let Ok(taken) = self.switch.try_take(&mut self.seat, node) else {
            return None;
        };
        let rounds = taken.node.rounds();
        self.switch.give(&mut self.seat, taken);
        Some(rounds)
    }

    /// How many rounds a node had, tried until it is not taken.
    pub(crate) fn rounds<R: Wait>(&mut self, rt: &R, node: NodeId) -> u64
        requires { node ≤ (known_by self.old.seat).terms.nodes }
        ensures client { self.new.client ≡ self.old.client }
        ensures told { Looks self.old.client (known_by self.old.seat) node result (known_by self.new.seat) }
    {
        for _ in rt.forever() {
            if let Some(had) = self.try_rounds(node) {
                return had;
            }
            yield_now();
        }
        unreachable!()
    }

    /// Admits a command at a node, where it is not taken and not full.
    fn try_admit(
        &mut self,
        node: NodeId,
        range: RangeId,
        id: CmdId,
        request: &Request,
    ) -> Option<Result<(), AdmitFault>>
        requires { MayAsk self.old.client (known_by self.old.seat) node range id request.now }
        ensures client { self.new.client ≡ self.old.client }
        ensures told { MayAdmit self.old.client (known_by self.old.seat) node range id result (known_by self.new.seat) }
    {
        node_fits(node);
        id_fits(id);
        request_fits(*request);
        let Ok(mut taken) = self.switch.try_take(&mut self.seat, node) else {
            return None;
        };
        if taken.node.is_full() {
            self.switch.give(&mut self.seat, taken);
            return None;
        }
        let event: Event<Snapshot> = Event::Admit {
            range,
            id,
            request: *request,
        };
        let answer = taken.node.step(event);
        self.switch.give(&mut self.seat, taken);
        Some(answered(answer))
    }

    /// Admits a command at a node, tried until it is not taken and not full.
    pub(crate) fn admit<R: Wait>(
        &mut self,
        rt: &R,
        node: NodeId,
        range: RangeId,
        id: CmdId,
        request: &Request,
    ) -> Result<(), AdmitFault>
        requires { MayAsk self.old.client (known_by self.old.seat) node range id request.now }
        ensures client { self.new.client ≡ self.old.client }
        ensures told { Admits self.old.client (known_by self.old.seat) node range id result (known_by self.new.seat) }
    {
        for _ in rt.forever() {
            if let Some(answer) = self.try_admit(node, range, id, request) {
                return answer;
            }
            yield_now();
        }
        unreachable!()
    }

    /// Fetches what is posted for the client, if anything is.
    pub(crate) fn fetch(&mut self) -> Result<Answer, Empty>
        ensures client { self.new.client ≡ self.old.client }
        ensures told { Hears self.old.client (known_by self.old.seat) result (known_by self.new.seat) }
    {
        self.switch.try_fetch(&mut self.seat, self.client)
    }
}
