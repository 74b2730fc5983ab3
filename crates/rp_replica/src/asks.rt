//! Asks for the lease, and what a collect lets through of them.
ghost use Rattle.std.specs.Prelude.{◌≡◌, ◌≤◌, ◌+◌, ◌-◌, ◌<◌, ◌^◌, ◌∷◌, ◌++◌, [], length, None, vec_len, vec_capacity};
ghost use Rattle.std.specs.List.{list_any, position};
ghost use Rattle.rp_events.specs.LeaseAsks.{ask_for, asked, expiry_of, is_held, joined, joined_all, lease_ticks, same_ask, transferred, without_first};
ghost use Rattle.rp_events.specs.Replicas.{holds_lease};
ghost use Rattle.rp_replica.specs.Plans.{IsPlan};

use crate::plans::ReplicaPlan;
use crate::replicas::Replica;
use rp_base::{Item, LeaseAsk, NodeId, Tick};
use rp_events::EventAnswer;
use rp_request::Refusal;

/// For how many ticks a lease is asked.
const LEASE_TICKS: u64 = 40;

/// Whether two asks are one.
fn same_ask(a: &LeaseAsk, b: &LeaseAsk) -> bool
    ensures { result ≡ same_ask a.now b.now }
{
    a.holder == b.holder && a.prev == b.prev && a.expires == b.expires
}

/// The place of the first ask that is equal.
fn place_of(asks: &[LeaseAsk], ask: &LeaseAsk) -> Option<usize>
    ensures { result ≡ position (λ x. same_ask x ask.now) asks.now }
{
    asks.iter().position(|x| same_ask(x, ask))
}

/// Takes the first ask that is equal out, where there is one. Whether there was.
fn take_ask(asks: &mut Vec<LeaseAsk>, ask: &LeaseAsk) -> bool
    ensures there { result ≡ list_any (λ x. same_ask x ask.now) asks.old.items }
    ensures rest { asks.new.items ≡ without_first ask.now asks.old.items }
    ensures room { vec_capacity asks.old - vec_len asks.old
        ≤ vec_capacity asks.new - vec_len asks.new }
{
    match place_of(asks, ask) {
        None => false,
        Some(at) => {
            asks.remove(at);
            true
        }
    }
}

impl Replica {
    /// Whether the node holds the applied lease.
    pub(crate) fn holds_lease(&self) -> bool
        ensures { result ≡ holds_lease self.now.replica }
    {
        self.source.state.lease().holder == self.raft.node()
    }

    /// Whether another node's lease has not run out.
    fn is_held(&self, ticks: Tick) -> bool
        ensures { result ≡ is_held self.now.replica ticks }
    {
        ticks < self.source.state.lease().expires && !self.holds_lease()
    }

    /// Until which tick the node asks for the lease: a holder that restarted under it asks for tick
    /// 0, by which the sequence rises.
    fn expiry(&self, ticks: Tick) -> Tick
        requires { ticks + lease_ticks < 2 ^ 64 }
        ensures { result ≡ expiry_of self.now.replica ticks }
    {
        if self.holds_lease() && self.source.state.lease().seq <= self.barrier {
            return Tick::new(0);
        }
        Tick::new(ticks.get() + LEASE_TICKS)
    }

    /// An ask of the present sequence.
    fn ask_for(&self, holder: NodeId, expires: Tick) -> LeaseAsk
        ensures { result ≡ ask_for self.now.replica holder expires }
    {
        LeaseAsk {
            holder,
            prev: self.source.state.lease().seq,
            expires,
        }
    }

    /// The node asks for the lease.
    #[cold]
    pub(crate) fn plan_ask(&self, ticks: Tick) -> ReplicaPlan
        requires { ticks + lease_ticks < 2 ^ 64 }
        ensures { IsPlan self.now.replica None result (asked self.now.replica ticks) }
    {
        if self.is_held(ticks) {
            let lease = self.source.state.lease();
            return ReplicaPlan::Answers {
                answer: EventAnswer::LeaseHeld { lease, ticks },
            };
        }
        let ask = self.ask_for(self.raft.node(), self.expiry(ticks));
        ReplicaPlan::Asks { ask }
    }

    /// The holder asks for the lease to go to another node.
    #[cold]
    pub(crate) fn plan_transfer(&self, to: NodeId, ticks: Tick) -> ReplicaPlan
        requires { ticks + lease_ticks < 2 ^ 64 }
        ensures { IsPlan self.now.replica None result (transferred self.now.replica to ticks) }
    {
        if !self.holds_lease() {
            let lease = self.source.state.lease();
            return ReplicaPlan::Answers {
                answer: EventAnswer::Refused(Refusal::NotLeaseHolder { lease }),
            };
        }
        let ask = self.ask_for(to, Tick::new(ticks.get() + LEASE_TICKS));
        ReplicaPlan::Asks { ask }
    }

    /// One item joins the inbox; a lease ask only where it was answered here and not given yet.
    fn join(&mut self, item: Item)
        requires { 1 ≤ self.old.room.inbox }
        ensures replica { self.new.replica ≡ joined self.old.replica item }
        ensures room { self.old.room.inbox ≤ self.new.room.inbox + 1 }
    {
        match item {
            Item::Write(id) => self.inbox.push(Item::Write(id)),
            Item::Lease(ask) => {
                if take_ask(&mut self.asks, &ask) {
                    self.inbox.push(Item::Lease(ask));
                }
            }
        }
    }

    /// What the buffer gave joins the inbox. It takes no memory.
    #[inline(never)]
    pub(crate) fn join_all(&mut self, taken: &[Item])
        requires { length taken.now ≤ self.old.room.inbox }
        ensures { self.new.replica ≡ joined_all self.old.replica taken.now }
    {
        for item in taken {
            self.join(*item);
        }
    }
}
