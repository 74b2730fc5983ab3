//! A desk in memory.
ghost use Rattle.std.specs.Prelude.{◌≡◌, ◌≤◌, true, false, [], slice_index_or, IfOk, OnOk, OnErr};
ghost use Rattle.rp_base.specs.Ids.{same_id};
ghost use Rattle.rp_router.specs.Hints.{NamesNode};
ghost use Rattle.rp_clients.specs.Desks.{IsEnd, TellsEnd, tried};
ghost use Rattle.rp_clients.specs.Tries.{ended_so, learns};
ghost use Rattle.rp_client_calls.specs.Desks.{standing_of, named};

use crate::fakes::{Admission, FakeDesk, FakeTry, Posted, Script};
use rp_base::{CmdId, NoMemory, NodeId, RangeId};
use rp_clients::{AdmitFault, Answer, Desk, Empty};
use rp_quota::QuotaFault;
use rp_request::{Outcome, Refusal, Request, RequestList};
use std::alloc::Global;

/// The refusal where it names a node, else another one.
fn named(nodes: u8, refusal: &Refusal) -> Refusal
    ensures same { result ≡ named nodes refusal.now }
    ensures names { NamesNode nodes result }
{
    match *refusal {
        Refusal::NotLeaseHolder { lease } if nodes < lease.holder.get() => Refusal::NoReplica,
        _ => *refusal,
    }
}

/// The outcome where it is an end, else another one.
fn ended(nodes: u8, outcome: &Outcome) -> Outcome
    ensures { IsEnd nodes result }
{
    match *outcome {
        Outcome::Success(reply) => Outcome::Success(reply),
        Outcome::Refused(refusal) => Outcome::Refused(named(nodes, &refusal)),
        Outcome::Ambiguous(why) => Outcome::Ambiguous(why),
        Outcome::Pending => Outcome::Refused(Refusal::NoReplica),
    }
}

impl FakeTry {
    /// The try of this id ended so, where its end is not known.
    fn learn(&mut self, id: CmdId, outcome: &Outcome)
        ensures { self.new ≡ ended_so id outcome.now self.old self.old.end }
    {
        if self.end.is_none() && is_same(self.id, id) {
            self.end = Some(*outcome);
        }
    }
}

fn is_same(one: CmdId, other: CmdId) -> bool
    ensures { result ≡ same_id one other }
{
    one == other
}

/// An end is learnt, where it is the end of one of the tries.
fn learn(tries: &mut [FakeTry], id: CmdId, outcome: &Outcome)
    ensures { tries.new ≡ learns id outcome.now tries.old }
{
    for place in 0..tries.len() {
        tries[place].learn(id, outcome);
    }
}

impl FakeDesk {
    /// A desk at which nothing was tried.
    pub fn new(
        alloc: Global,
        client: u16,
        nodes: u8,
        requests: RequestList,
        capacity: u64,
        script: Script,
    ) -> FakeDesk
        ensures client { (standing_of result).client ≡ client }
        ensures nodes { (standing_of result).nodes ≡ nodes }
        ensures requests { (standing_of result).requests ≡ requests }
        ensures capacity { (standing_of result).capacity ≡ capacity }
        ensures tries { (standing_of result).tries ≡ [] }
        ensures over { (standing_of result).is_over ≡ false }
        ensures short { (standing_of result).is_short ≡ false }
    {
        FakeDesk {
            script,
            client,
            nodes,
            requests,
            tries: Vec::new(alloc),
            told: [0; 6],
            clock: 0,
            is_over: false,
            is_short: false,
            is_put: false,
            capacity,
            held: 0,
            puts: 0,
            fetches: 0,
        }
    }

    /// A try was made, in front of the others.
    fn add(
        &mut self,
        node: NodeId,
        range: RangeId,
        id: CmdId,
        end: Option<Outcome>,
    ) -> Result<(), NoMemory>
        ensures ok { OnOk result (standing_of self.new
            ≡ tried node range self.old.clock id end (standing_of self.old)) }
        ensures err { OnErr result (standing_of self.new
            ≡ record (standing_of self.old) { is_short = true }) }
        ensures nodes { self.new.nodes ≡ self.old.nodes }
        ensures told { slice_index_or self.old.told node 0 ≤ self.old.clock }
    {
        let one = FakeTry {
            id,
            node,
            range,
            rounds: self.clock,
            end,
        };
        if self.tries.insert(0, one).is_err() {
            self.is_short = true;
            return Err(NoMemory);
        }
        self.is_put = false;
        Ok(())
    }

    /// Posts what the script says.
    fn post(&self, posted: &Posted) -> Result<Answer, Empty>
        ensures { IfOk result (TellsEnd self.now.nodes) }
    {
        match *posted {
            Posted::Ended(outcome) => {
                let Some(latest) = self.tries.first() else {
                    return Err(Empty);
                };
                Ok(Answer::Ended {
                    id: latest.id,
                    outcome: ended(self.nodes, &outcome),
                })
            }
            Posted::Stray(id, outcome) => Ok(Answer::Ended {
                id,
                outcome: ended(self.nodes, &outcome),
            }),
            Posted::Over => Ok(Answer::Over),
            Posted::NoMemory => Ok(Answer::NoMemory),
            Posted::Nothing => Err(Empty),
        }
    }
}

impl Desk for FakeDesk {
    ghost use Rattle.rp_client_calls.specs.Desks.{standing_of};

    ghost stands = { standing_of };

    fn rounds(&mut self, node: NodeId) -> u64 {
        if self.script.stalls == 0 {
            self.clock = self.clock.saturating_add(1);
        } else {
            self.script.stalls -= 1;
        }
        self.told[usize::from(node.get())] = self.clock;
        self.clock
    }

    fn admit(
        &mut self,
        node: NodeId,
        range: RangeId,
        id: CmdId,
        _request: Request,
    ) -> Result<(), AdmitFault> {
        match self
            .script
            .admissions
            .pop_front()
            .unwrap_or(self.script.rest)
        {
            Admission::Taken => match self.add(node, range, id, None) {
                Ok(()) => Ok(()),
                Err(NoMemory) => Err(AdmitFault::NoMemory),
            },
            Admission::Refused(refusal) => {
                let nodes = self.nodes;
                let end = Outcome::Refused(named(nodes, &refusal));
                match self.add(node, range, id, Some(end)) {
                    Ok(()) => Err(AdmitFault::Refused(named(nodes, &refusal))),
                    Err(NoMemory) => Err(AdmitFault::NoMemory),
                }
            }
            Admission::NoMemory => {
                self.is_short = true;
                Err(AdmitFault::NoMemory)
            }
        }
    }

    fn put(&mut self, _node: NodeId, _range: RangeId, _id: CmdId) -> bool {
        self.puts = self.puts.wrapping_add(1);
        self.is_put = self.script.full == 0;
        self.script.full = self.script.full.saturating_sub(1);
        self.is_put
    }

    fn fetch(&mut self) -> Result<Answer, Empty> {
        self.fetches = self.fetches.wrapping_add(1);
        let posted = self.script.posted.pop_front().unwrap_or(Posted::Over);
        let answer = self.post(&posted)?;
        match &answer {
            Answer::Ended { id, outcome } => learn(&mut self.tries, *id, outcome),
            Answer::Over => self.is_over = true,
            Answer::NoMemory => self.is_short = true,
        }
        Ok(answer)
    }

    fn reserve(&mut self, units: u64) -> Result<(), QuotaFault> {
        if units == 0 {
            return Ok(());
        }
        if self.script.low > 0 {
            self.script.low -= 1;
            return Err(QuotaFault::Low { free: 0 });
        }
        let Some(held) = self.held.checked_add(units) else {
            return Err(QuotaFault::Low { free: 0 });
        };
        self.held = held;
        Ok(())
    }

    fn release(&mut self, units: u64) {
        self.held -= units;
    }
}
