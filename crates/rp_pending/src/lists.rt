//! The pending proposals of a replica.
ghost use Rattle.std.specs.Prelude.{◌≡◌, ◌≤◌, ◌+◌, [], ◌∷◌, ◌++◌, map, OnOk, IfOk, IsSome};
ghost use Rattle.std.specs.List.{IsDistinct};
ghost use Rattle.std.specs.Option.{option_copied};
ghost use Rattle.rp_pending.specs.Refreshes.{first_round, to_refresh, waiting_of};
ghost use Rattle.rp_base.specs.Ids.{same_id};
ghost use Rattle.rp_pending.specs.Dues.{standing};
ghost use Rattle.rp_pending.specs.Proposals.{proposal_of, without, with_changed, proposed, waiting_again};
ghost use Rattle.rp_pending.specs.Turns.{dropped_back, given_up, goes_back_at, handed_out, is_made_at, is_proposed_at, repeated, taken_back, turned_at, waits_at};

use crate::proposals::{Change, Proposal};
use crate::refreshes::{self, Ids, Refresh, Standings};
use crate::shelf::Shelf;
use rp_base::{CmdId, LeaseIndex, NoMemory, Tick};
use rp_request::WaitList;
use std::alloc::Global;
use std::marker::Model;

/// The pending proposals of a replica. Contracts see the list in order of admission, whose ids are
/// distinct, and apart from it the spare room: how many can be added without memory.
#[derive(Drop)]
pub struct Pending {
    slots: Shelf,
    count: usize,
}

impl Model for Pending {
    ghost use Rattle.rp_base.specs.Kept.{Kept};
    ghost use Rattle.rp_pending.specs.declared.proposals.Proposal.{Proposal};
    ghost use Rattle.rp_pending.specs.Slots.{proposals_in, AreSound};

    ghost Value = { Kept Proposal };

    ghost view = { λ p. record { list = proposals_in p.slots.entries; spare = p.slots.spare } };

    ghost invariant = { λ p. AreSound p.slots.entries p.count };
}

impl Pending {
    /// Nothing is pending. It takes no memory.
    pub fn new(alloc: Global) -> Pending
        ensures { result.list ≡ [] }
    {
        Pending {
            slots: Shelf::new(alloc),
            count: 0,
        }
    }

    /// Makes room for n proposals more.
    pub fn make_room(&mut self, n: usize) -> Result<(), NoMemory>
        ensures list { self.new.list ≡ self.old.list }
        ensures room { OnOk result (n ≤ self.new.spare) }
        ensures kept { self.old.spare ≤ self.new.spare }
    {
        self.slots.reserve(n)
    }

    /// Puts a proposal at the end, without memory.
    pub fn add(&mut self, proposal: Proposal)
        requires room { 1 ≤ self.old.spare }
        requires new_id { proposal_of proposal.id self.old.list ≡ None }
        ensures list { self.new.list ≡ self.old.list ++ proposal ∷ [] }
        ensures spare { self.old.spare ≤ self.new.spare + 1 }
    {
        let id = proposal.id;
        // An empty slot of this id would keep its place.
        self.slots.clear(id, self.count);
        self.slots.put(id, proposal);
        self.count += 1;
    }

    /// The proposal with this id.
    pub fn find(&self, id: CmdId) -> Option<&Proposal>
        ensures { option_copied result ≡ proposal_of id self.now.list }
    {
        match self.slots.get(id) {
            None => None,
            Some(slot) => slot.as_ref(),
        }
    }

    /// Takes the proposal with this id out, where there is one.
    pub fn finish(&mut self, id: CmdId) -> Option<Proposal>
        ensures taken { result ≡ proposal_of id self.old.list }
        ensures list { self.new.list ≡ without id self.old.list }
        ensures spare { self.old.spare ≤ self.new.spare }
    {
        match self.slots.take(id) {
            None => None,
            Some(taken) => {
                self.count -= 1;
                self.slots.tidy(self.count);
                Some(taken)
            }
        }
    }

    /// The proposal with this id is proposed under a lease index. The round is kept where it has
    /// one.
    pub fn propose(&mut self, id: CmdId, max: LeaseIndex, now: Tick, round: u64)
        requires { IsSome (proposal_of id self.old.list) }
        ensures list { self.new.list ≡ with_changed id (proposed max now round) self.old.list }
        ensures spare { self.old.spare ≤ self.new.spare }
    {
        let _ = self.slots.change(id, Change::Propose { max, now, round });
    }

    /// The proposal with this id waits for a lease index again.
    pub fn back_to_waiting(&mut self, id: CmdId)
        requires { IsSome (proposal_of id self.old.list) }
        ensures list { self.new.list ≡ with_changed id waiting_again self.old.list }
        ensures spare { self.old.spare ≤ self.new.spare }
    {
        let _ = self.slots.change(id, Change::WaitAgain);
    }

    /// Makes a change of the proposal with this id where it stands as the change wants it, and says
    /// whether it did.
    fn turn(&mut self, id: CmdId, change: Change) -> bool
        ensures made { result ≡ is_made_at change (proposal_of id self.old.list) }
        ensures list { self.new.list ≡ turned_at change id self.old.list }
        ensures spare { self.old.spare ≤ self.new.spare }
    {
        self.slots.change(id, change)
    }

    /// The proposal with this id is proposed under a lease index, where it waits. It says whether
    /// it did; else nothing is done.
    pub fn hand_out(&mut self, id: CmdId, max: LeaseIndex, now: Tick, round: u64) -> bool
        ensures done { result ≡ waits_at id self.old.list }
        ensures list { self.new.list ≡ handed_out id max now round self.old.list }
        ensures spare { self.old.spare ≤ self.new.spare }
    {
        self.turn(id, Change::HandOut { max, now, round })
    }

    /// The proposal with this id is pending no more, where it waits. It says whether it waited; else
    /// nothing is done.
    pub fn give_up(&mut self, id: CmdId) -> bool
        ensures done { result ≡ waits_at id self.old.list }
        ensures list { self.new.list ≡ given_up id self.old.list }
        ensures spare { self.old.spare ≤ self.new.spare }
    {
        match self.find(id) {
            Some(proposal) if !proposal.stage.is_proposed() => {
                let _ = self.finish(id);
                true
            }
            _ => false,
        }
    }

    /// The proposal with this id waits for a lease index again, where it is proposed under an index
    /// at or below the lease applied index. It says whether it does; else nothing is done.
    pub fn take_back(&mut self, id: CmdId, lai: LeaseIndex) -> bool
        ensures done { result ≡ goes_back_at lai id self.old.list }
        ensures list { self.new.list ≡ taken_back id lai self.old.list }
        ensures spare { self.old.spare ≤ self.new.spare }
    {
        self.turn(id, Change::TakeBack { lai })
    }

    /// The proposal with this id is proposed once more under its index, where it is proposed. It
    /// says whether it was; else nothing is done.
    pub fn repeat(&mut self, id: CmdId, now: Tick, round: u64) -> bool
        ensures done { result ≡ is_proposed_at id self.old.list }
        ensures list { self.new.list ≡ repeated id now round self.old.list }
        ensures spare { self.old.spare ≤ self.new.spare }
    {
        self.turn(id, Change::Repeat { now, round })
    }

    /// Those that are proposed under an index at or below this one are pending no more. It goes
    /// through all that is pending.
    pub fn drop_back(&mut self, lai: LeaseIndex)
        ensures list { self.new.list ≡ dropped_back lai self.old.list }
        ensures spare { self.old.spare ≤ self.new.spare }
    {
        self.slots.keep_staying(lai);
        self.count = self.slots.len();
    }

    /// The least round at which a pending proposal was flushed first, `None` where none was
    /// flushed.
    pub fn first_round(&self) -> Option<u64>
        ensures { result ≡ first_round self.now.list }
    {
        refreshes::first_round(self.slots.slots())
    }

    /// The ids of all pending proposals, in order of admission.
    pub fn ids(&self) -> Result<Ids, NoMemory>
        ensures { IfOk result (λ ids. ids ≡ map (λ p. p.id) self.now.list) }
    {
        refreshes::ids(self.slots.slots())
    }

    /// How far all pending proposals have come, in order of admission.
    pub fn standings(&self) -> Result<Standings, NoMemory>
        ensures { IfOk result (λ all. all ≡ map standing self.now.list) }
    {
        refreshes::standings(self.slots.slots())
    }

    /// The proposals that wait for a lease index, in order of admission.
    pub fn waiting(&self) -> Result<WaitList, NoMemory>
        ensures { IfOk result (λ w. w ≡ waiting_of self.now.list) }
    {
        refreshes::waiting(self.slots.slots())
    }

    /// What a refresh is to do at a tick, under this lease applied index (CockroachDB's refresh of
    /// pending commands). Of the Proposed ones, those whose maximum is at or below the index go
    /// back to wait. Of the others all, or else those that were proposed five ticks ago or more,
    /// are proposed again. Both lists are by ascending maximum, equal ones in order of admission.
    pub fn to_refresh(&self, lai: LeaseIndex, now: Tick, all: bool) -> Result<Refresh, NoMemory>
        ensures { IfOk result (λ r. r ≡ to_refresh lai now all self.now.list) }
    {
        refreshes::to_refresh(&self.slots, lai, now, all)
    }

    /// No two pending proposals have one id. A law: there is nothing to do.
    pub fn ids_are_distinct(&self)
        ensures { IsDistinct same_id (map (λ p. p.id) self.now.list) }
    {
        let _ = &self.slots;
    }
}
