//! A collect at a node: its buffer end is asked once all room is made. One that finds nothing takes
//! no memory where there is room, and leaves the replica alone.
ghost use Rattle.std.specs.Prelude.{◌≡◌, ◌≤◌, [], IfOk, MatchOption, OnErr, length};
ghost use Rattle.rp_base.specs.Limits.{buffer_capacity};
ghost use Rattle.rp_events.specs.NodeEvents.{by_replica};
ghost use Rattle.rp_events.specs.Nodes.{written};
ghost use Rattle.rp_events.specs.declared.journals.PastEvent.TheVariants as past;
ghost use Rattle.rp_events.specs.declared.node_events.Event.TheVariants as events;
ghost use Rattle.rp_events.specs.declared.replica_events.ReplicaEvent.TheVariants as at_replica;
ghost use Rattle.rp_replica.specs.Plans.{IsCollect};
ghost use Rattle.rp_node.specs.Asked.{Asked, filled, held};
ghost use Rattle.rp_node.specs.Cores.{node_of, seat_in};
ghost use Rattle.rp_node.specs.Plans.{IsPrepared, SeatReady, answered, idle_answer};
ghost use Rattle.rp_node.specs.Reserves.{AreFilled};
ghost use Rattle.rp_node.specs.Steps.{Steps};

use crate::cores::Core;
use crate::reserves::Reserves;
use rp_base::{Item, Items, NoMemory, RangeId, Seq};
use rp_bufcore::BufferEnd;
use rp_events::{EventAnswer, PastEvent, ReplicaEvent};
use rp_replica::ReplicaPlan;
use rp_request::Refusal;

/// The buffer end is asked for what a collect takes, where there is a plan. It takes no memory.
fn ask<B: BufferEnd>(plan: &Option<ReplicaPlan>, end: &mut B, range: RangeId, taken: &mut Items)
    requires empty { taken.old.list ≡ [] }
    requires room { buffer_capacity ≤ taken.old.spare }
    ensures asked { Asked B.gives plan.now end.old range taken.new.list end.new }
    ensures few { length taken.new.list ≤ buffer_capacity }
{
    if plan.is_some() {
        end.collect(range, taken);
    }
}

/// What was taken goes into the plan, and a copy is handed out for the journal. It takes no memory.
fn fill(plan: &mut Option<ReplicaPlan>, reserves: Reserves) -> Seq<Item>
    requires collect { MatchOption plan.old (Unit {0}) (λ p. IsCollect p) }
    requires filled { AreFilled reserves.taken reserves.kept }
    ensures plan { plan.new ≡ filled plan.old reserves.taken }
    ensures copy { result ≡ reserves.taken.list }
{
    let Reserves { taken, mut kept } = reserves;
    kept.append_slice(taken.as_slice());
    if let Some(plan) = plan {
        plan.put_taken(taken);
    }
    Seq::from_vec(kept.into_vec())
}

/// What a collect answers that was given nothing.
fn idle_answer(plan: &Option<ReplicaPlan>) -> EventAnswer
    ensures { result ≡ idle_answer plan.now }
{
    match plan {
        None => EventAnswer::Refused(Refusal::NoReplica),
        Some(_) => EventAnswer::Done,
    }
}

impl Core {
    /// A collect that was given nothing stands in the journal; the replica stays as it is. It takes
    /// no memory.
    fn take_nothing(&mut self, range: RangeId, plan: Option<ReplicaPlan>) -> EventAnswer
        requires ready { SeatReady (seat_in self.old.seats range) at_replica.Collect self.old.ticks
            self.old.rounds plan }
        requires journal { 1 ≤ self.old.logs.journal.spare }
        ensures { answered (node_of self.new) result ≡ written (past.Collect range [])
            (by_replica (node_of self.old) range at_replica.Collect []) }
    {
        let answer = idle_answer(&plan);
        let taken = Seq::new(self.alloc);
        self.logs
            .write(PastEvent::Collect { range, taken }, &answer);
        answer
    }

    /// What a collect was given joins the replica's inbox, and stands in the journal. It takes no
    /// memory.
    fn take_in(&mut self, range: RangeId, mut plan: Option<ReplicaPlan>) -> EventAnswer
        requires nodes { self.old.nodes ≤ 5 }
        requires prepared { IsPrepared (seat_in self.old.seats range) self.old.logs
            at_replica.Collect self.old.ticks self.old.rounds plan }
        requires filled { AreFilled self.old.reserves.taken self.old.reserves.kept }
        ensures { answered (node_of self.new) result
            ≡ written (past.Collect range self.old.reserves.taken.list)
            (by_replica (node_of self.old) range at_replica.Collect self.old.reserves.taken.list) }
    {
        let empty = Reserves::new(self.alloc);
        let reserves = std::mem::replace(&mut self.reserves, empty);
        let taken = fill(&mut plan, reserves);
        let answer = self.turn(range, plan);
        self.logs
            .write(PastEvent::Collect { range, taken }, &answer);
        answer
    }

    /// What a collect was given is taken, whether it is something or nothing. It takes no memory.
    fn take(&mut self, range: RangeId, plan: Option<ReplicaPlan>) -> EventAnswer
        requires nodes { self.old.nodes ≤ 5 }
        requires prepared { IsPrepared (seat_in self.old.seats range) self.old.logs
            at_replica.Collect self.old.ticks self.old.rounds plan }
        requires filled { AreFilled self.old.reserves.taken self.old.reserves.kept }
        ensures { answered (node_of self.new) result
            ≡ written (past.Collect range self.old.reserves.taken.list)
            (by_replica (node_of self.old) range at_replica.Collect self.old.reserves.taken.list) }
    {
        if self.reserves.taken.len() == 0 {
            return self.take_nothing(range, plan);
        }
        self.take_in(range, plan)
    }

    /// What the range's buffer gives joins its replica's inbox; without a live replica nothing is
    /// asked of it. At want of memory nothing happens, and nothing was asked.
    #[inline(never)]
    pub(crate) fn collect<B: BufferEnd>(
        &mut self,
        end: &mut B,
        range: RangeId,
    ) -> Result<EventAnswer, NoMemory>
        requires { self.old.nodes ≤ 5 }
        ensures ok { IfOk result (λ answer. Steps B.gives (held self.old end.old)
            (events.Collect range) (held self.new end.new) answer) }
        ensures err { OnErr result (held self.new end.new ≡ held self.old end.old) }
    {
        self.reserves.make_ready()?;
        let plan = self.prepare(range, ReplicaEvent::Collect)?;
        ask(&plan, end, range, &mut self.reserves.taken);
        Ok(self.take(range, plan))
    }
}
