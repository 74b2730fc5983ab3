//! The calls of a replica: an event is planned, given room and committed.
ghost use Rattle.std.specs.Prelude.{◌≡◌, ◌≤◌, [], IfOk, OnOk, None};
ghost use Rattle.rp_events.specs.Ends.{cut, peeked};
ghost use Rattle.rp_events.specs.LeaseAsks.{answers_ask};
ghost use Rattle.rp_events.specs.ReplicaEvents.{event};
ghost use Rattle.rp_events.specs.Replicas.{Done};
ghost use Rattle.rp_events.specs.declared.replica_events.ReplicaEvent.TheVariants.{Collect};
ghost use Rattle.rp_events.specs.Allows.{Allows, MayCut, draft_at};
ghost use Rattle.rp_replica.specs.Handing.{EachReads};
ghost use Rattle.rp_replica.specs.Plans.{HandOverFits, HandOverRoom, HasRoom, IsCollect, IsPlan, Makes, PlanFits, entries_of, left_by, left_of, opened, planned};
ghost use Rattle.rp_raft.specs.Plans.{IsMadeIn};
ghost use Rattle.rp_replica.specs.declared.plans.ReplicaPlan.TheVariants.{Cuts, HandsOver};
ghost use Rattle.rp_replica.specs.Rooms.{IsRoomWithin};

use crate::boxed::Boxed;
use crate::plans::{HandOver, ReplicaPlan};
use crate::rafts;
use crate::replicas::Replica;
use rp_base::{Items, Key, LeaseAsk, LeaseIndex, NoMemory, Seq, Tick};
use rp_events::{Effects, EventAnswer, Outcomes, ReplicaEvent};
use rp_raft::RaftPlan;
use rp_raftstep::{RaftEvent, RaftOut};
use rp_snapshot::Snapshot;

impl Replica {
    /// The applied value of a key, and the applied index.
    #[cold]
    fn plan_peek(&self, key: Key) -> ReplicaPlan
        ensures { IsPlan self.now.replica None result (peeked self.now.replica key) }
    {
        let state = &self.source.state;
        ReplicaPlan::Answers {
            answer: EventAnswer::Value {
                value: state.table().get(key),
                applied: state.index(),
            },
        }
    }

    /// The log is cut up to the applied index.
    #[cold]
    fn plan_cut(&mut self) -> Result<ReplicaPlan, NoMemory>
        requires { MayCut self.old.replica }
        ensures replica { self.new.replica ≡ self.old.replica }
        ensures room { IsRoomWithin self.old.room self.new.room }
        ensures plan { IfOk result (λ p. IsPlan self.old.replica None p (cut self.old.replica)) }
    {
        let to = self.source.state.index();
        let raft = rafts::plan(&mut self.raft, RaftEvent::Cut { to }, &self.source)?;
        Ok(ReplicaPlan::Cuts { raft })
    }

    /// What an event will do at a tick and in a round of the node. It leaves all that contracts
    /// see, room aside, also where memory ends; a collect is planned without its items. The plan
    /// makes what the event does, opens the right range with its start, and hands to Raft what the
    /// event hands to it.
    pub fn plan(
        &mut self,
        happens: ReplicaEvent<Snapshot>,
        ticks: Tick,
        round: u64,
    ) -> Result<ReplicaPlan, NoMemory>
        requires { Allows self.old.replica happens ticks }
        ensures replica { self.new.replica ≡ self.old.replica }
        ensures room { IsRoomWithin self.old.room self.new.room }
        ensures plan { IfOk result (λ p. IsPlan self.old.replica
            (draft_at self.old.replica happens) p
            (event self.old.replica happens ticks round [])) }
        ensures read { OnOk result
            (EachReads (event self.old.replica happens ticks round []).proposed) }
        ensures collect { happens ≡ Collect → IfOk result (λ p. IsCollect p) }
    {
        match happens {
            ReplicaEvent::Admit { id, request } => self.plan_admission(id, request),
            ReplicaEvent::Ask => Ok(self.plan_ask(ticks)),
            ReplicaEvent::Transfer { to } => Ok(self.plan_transfer(to, ticks)),
            ReplicaEvent::Collect => Ok(ReplicaPlan::Collects {
                taken: Items::new(self.source.alloc),
            }),
            ReplicaEvent::Flush => self.plan_flush(ticks, round),
            ReplicaEvent::Tick => self.plan_tick(ticks, round),
            ReplicaEvent::Deliver { from, message } => {
                self.plan_delivery(from, message, ticks, round)
            }
            ReplicaEvent::Apply => self.plan_application(),
            ReplicaEvent::Cut => self.plan_cut(),
            ReplicaEvent::Remove => self.plan_removal(),
            ReplicaEvent::Peek { key } => Ok(self.plan_peek(key)),
            ReplicaEvent::Restart => self.plan_restart(),
        }
    }

    /// Makes the room of a plan for Raft.
    #[inline(never)]
    fn make_hand_over_room(&mut self, hand: &HandOver) -> Result<(), NoMemory>
        requires { HandOverFits self.old.replica hand.now }
        ensures replica { self.new.replica ≡ self.old.replica }
        ensures kept { IsRoomWithin self.old.room self.new.room }
        ensures room { OnOk result (HandOverRoom self.new.room hand.now) }
    {
        self.raft.make_room(hand.raft.get())?;
        self.inbox.make_room(hand.back)?;
        if hand.raft.get().taken().is_some() {
            self.source.state.plan_reset()?;
        }
        Ok(())
    }

    /// Makes the room that a plan of this state needs: at a collect, for 16 items. It leaves all
    /// that contracts see, room aside, also where memory ends.
    pub fn make_room(&mut self, plan: &ReplicaPlan) -> Result<(), NoMemory>
        requires { PlanFits self.old.replica plan.now }
        ensures replica { self.new.replica ≡ self.old.replica }
        ensures kept { IsRoomWithin self.old.room self.new.room }
        ensures room { OnOk result (HasRoom self.new.room plan.now) }
    {
        match plan {
            ReplicaPlan::Answers { .. }
            | ReplicaPlan::Removes { .. }
            | ReplicaPlan::Restarts { .. } => Ok(()),
            ReplicaPlan::Admits { .. } => {
                self.latches.make_room(1)?;
                self.pending.make_room(1)
            }
            ReplicaPlan::Asks { .. } => {
                self.asks.reserve(1)?;
                Ok(())
            }
            ReplicaPlan::Collects { .. } => self.inbox.make_room(16),
            ReplicaPlan::Applies { application } => {
                self.source.state.plan_one(application.payload.get())?;
                self.inbox.make_room(1)
            }
            ReplicaPlan::HandsOver { hand } => self.make_hand_over_room(hand),
            ReplicaPlan::Cuts { raft } => self.raft.make_room(raft.get()),
        }
    }

    /// Where a flush has given lease indexes, the inbox is empty and the last one is kept.
    fn open(&mut self, last: Option<LeaseIndex>)
        ensures replica { self.new.replica ≡ opened self.old.replica last }
        ensures room { IsRoomWithin self.old.room self.new.room }
    {
        match last {
            None => {}
            Some(last) => {
                self.assigned = last;
                self.inbox.keep_front(0);
            }
        }
    }

    /// The ask is to be put in the buffer, and stands among those that a collect lets through.
    fn answer_ask(&mut self, ask: &LeaseAsk) -> EventAnswer
        requires { 1 ≤ self.old.room.asks }
        ensures replica { self.new.replica ≡ (answers_ask self.old.replica ask.now).replica }
        ensures answer { result ≡ (answers_ask self.old.replica ask.now).answer }
    {
        self.asks.push_reserved(*ask);
        EventAnswer::Asked(*ask)
    }

    /// The event of Raft is done, a snapshot is taken in, and the moves are made. It takes no
    /// memory.
    #[inline(never)]
    fn hand_over(&mut self, hand: HandOver) -> Effects<Snapshot>
        requires fits { HandOverFits self.old.replica hand }
        requires room { HandOverRoom self.old.room hand }
        ensures { left_by self.new.replica result ≡ planned self.old.replica (HandsOver hand) }
    {
        let HandOver {
            raft,
            moves,
            ticks,
            round,
            last,
            outcomes,
            ..
        } = hand;
        let RaftOut { messages, taken } = rafts::commit(&mut self.raft, raft);
        self.open(last);
        self.take_in_where(taken, outcomes.as_slice());
        self.make_moves(moves.as_slice(), ticks, round);
        Effects {
            answer: EventAnswer::Done,
            messages,
            outcomes,
        }
    }

    /// The log is cut. It takes no memory.
    #[cold]
    fn cut(&mut self, raft: Boxed<RaftPlan<Snapshot>>) -> Effects<Snapshot>
        requires made { IsMadeIn self.old.replica.raft raft }
        requires room { entries_of raft ≤ self.old.room.log }
        ensures { left_by self.new.replica result ≡ planned self.old.replica (Cuts raft) }
    {
        let out = rafts::commit(&mut self.raft, raft);
        Effects {
            answer: EventAnswer::Done,
            messages: out.messages,
            outcomes: Outcomes::new(self.source.alloc),
        }
    }

    /// What an event hands out that sends nothing.
    fn quiet(&self, answer: EventAnswer, outcomes: Outcomes) -> Effects<Snapshot>
        ensures { result ≡ record { answer = answer; messages = []; outcomes = outcomes } }
    {
        Effects {
            answer,
            messages: Seq::new(self.source.alloc),
            outcomes,
        }
    }

    /// Does what was planned in this state, once `make_room` has answered Ok for it. It takes no
    /// memory.
    pub fn commit(&mut self, plan: ReplicaPlan) -> Effects<Snapshot>
        requires fits { PlanFits self.old.replica plan }
        requires room { HasRoom self.old.room plan }
        ensures done { left_by self.new.replica result ≡ planned self.old.replica plan }
        ensures made { (d : Done) → Makes self.old.replica plan d
            → left_by self.new.replica result ≡ left_of d }
    {
        let none = Outcomes::new(self.source.alloc);
        match plan {
            ReplicaPlan::Answers { answer } => self.quiet(answer, none),
            ReplicaPlan::Admits { proposal } => {
                self.admit(proposal);
                self.quiet(EventAnswer::Admitted, none)
            }
            ReplicaPlan::Asks { ask } => {
                let answer = self.answer_ask(&ask);
                self.quiet(answer, none)
            }
            ReplicaPlan::Collects { taken } => {
                self.join_all(taken.as_slice());
                self.quiet(EventAnswer::Done, none)
            }
            ReplicaPlan::Applies { application } => {
                self.apply(&application);
                self.quiet(EventAnswer::Done, application.outcomes)
            }
            ReplicaPlan::HandsOver { hand } => self.hand_over(hand),
            ReplicaPlan::Cuts { raft } => self.cut(raft),
            ReplicaPlan::Removes { outcomes } => {
                self.remove(outcomes.as_slice());
                self.quiet(EventAnswer::Done, outcomes)
            }
            ReplicaPlan::Restarts { outcomes } => {
                self.restart();
                self.quiet(EventAnswer::Done, outcomes)
            }
        }
    }
}
