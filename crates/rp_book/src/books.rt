//! The book of the attempts that clients made.
ghost use Rattle.std.specs.Prelude.{◌≡◌, ◌+◌, ◌≤◌, [], None, Some, Option, IfOk, OnOk, if◌then◌else◌, map, IfOk};
ghost use Rattle.std.specs.Option.{option_copied, option_map};
ghost use Rattle.rp_base.specs.Ids.{same_id};
ghost use Rattle.rp_base.specs.declared.ids.CmdId.{CmdId};
ghost use Rattle.rp_request.specs.declared.outcomes.Outcome.TheVariants.{Pending};
ghost use Rattle.rp_book.specs.declared.bookings.Booked.{Booked};
ghost use Rattle.rp_book.specs.Books.{booked, booking_of, by_attempt, latest_of, reply_of, told_of};
ghost use Rattle.rp_book.specs.Queueing.{AllQueued};

use crate::bookings::{Booked, Draw};
use crate::keeps::{Command, Kept};
use crate::queues::Queues;
use crate::stores;
use crate::waits::{Waits, gathered, is_pending, is_unpublished};
use indexmap::IndexMap;
use rp_base::{CmdId, NoMemory, Seq};
use rp_request::{Outcome, Replies};
use std::alloc::Global;
use std::marker::Model;

/// The attempts that clients made, in the order in which they came. Contracts see them, what was told
/// of the outcome of each, and how many more take no memory. It also keeps where those stand that may
/// still be put into a buffer.
#[derive(Drop)]
pub struct Book {
    kept: IndexMap<CmdId, Kept>,
    latest: IndexMap<Command, u16>,
    waits: Waits,
}

impl Model for Book {
    ghost use Rattle.std.specs.Prelude.{min};
    ghost use Rattle.indexmap.specs.IndexMap.{spare};
    ghost use Rattle.rp_book.specs.Books.{BookState};
    ghost use Rattle.rp_book.specs.Keeping.{bookings, outcomes};
    ghost use Rattle.rp_book.specs.Queueing.{IsWellKept};

    ghost Value = { BookState };

    ghost view = { λ b. record {
      entries = bookings b.kept.entries;
      told = outcomes b.kept.entries;
      spare = min (spare b.kept) (spare b.latest);
    } };

    ghost invariant = { λ b.
        IsWellKept b.kept.entries b.latest.entries b.waits.queues b.waits.noted.items };
}

impl Book {
    /// A book without attempts. It takes no memory.
    pub fn new(alloc: Global) -> Book
        ensures entries { result.entries ≡ [] }
        ensures told { (id : CmdId) → told_of id result.told ≡ None }
    {
        Book {
            kept: IndexMap::new(alloc),
            latest: IndexMap::new(alloc),
            waits: Waits::new(alloc),
        }
    }

    /// Makes room for n attempts more.
    pub fn make_room(&mut self, n: usize) -> Result<(), NoMemory>
        ensures entries { self.new.entries ≡ self.old.entries }
        ensures told { (id : CmdId) → told_of id self.new.told ≡ told_of id self.old.told }
        ensures room { OnOk result (n ≤ self.new.spare) }
        ensures kept { self.old.spare ≤ self.new.spare }
    {
        self.kept.reserve(n)?;
        self.latest.reserve(n)?;
        Ok(())
    }

    /// Puts a new attempt behind the others, without memory. Its outcome is pending.
    pub fn put(&mut self, id: CmdId, booking: Booked)
        requires room { 1 ≤ self.old.spare }
        requires new_id { booking_of id self.old.entries ≡ None }
        ensures entries { self.new.entries ≡ booked id booking self.old.entries }
        ensures told { (other : CmdId) → told_of other self.new.told
            ≡ (if same_id other id then Some Pending else told_of other self.old.told) }
        ensures spare { self.old.spare ≤ self.new.spare + 1 }
    {
        stores::put(&mut self.kept, id, booking);
        stores::note_latest(&mut self.latest, id);
        self.waits.note_if(true, id);
    }

    /// What the book has of an attempt.
    pub fn get(&self, id: CmdId) -> Option<&Booked>
        ensures { option_copied result ≡ booking_of id self.now.entries }
    {
        stores::booking(&self.kept, id)
    }

    /// The attempt has come so far in its buffer. Where the book lacks it, nothing changes.
    pub fn set_draw(&mut self, id: CmdId, draw: Draw)
        ensures none { booking_of id self.old.entries ≡ None → self.new.entries ≡ self.old.entries }
        ensures entries { (b : Booked) → booking_of id self.old.entries ≡ Some b
            → self.new.entries ≡ booked id (record b { draw = draw }) self.old.entries }
        ensures told { (other : CmdId) → told_of other self.new.told ≡ told_of other self.old.told }
        ensures spare { self.old.spare ≤ self.new.spare }
    {
        stores::set_draw(&mut self.kept, id, draw);
        self.waits.note_if(is_unpublished(draw), id);
    }

    /// The last attempt that the book got of a command.
    pub fn latest(&self, client: u16, seq: u32) -> Option<(CmdId, Booked)>
        ensures { result ≡ latest_of client seq self.now.entries }
    {
        match stores::last_attempt(&self.latest, client, seq) {
            None => None,
            Some(attempt) => {
                let id = CmdId {
                    client,
                    seq,
                    attempt,
                };
                stores::with_booking(&self.kept, id)
            }
        }
    }

    /// What was told of an attempt's outcome: none where the book lacks it.
    pub fn outcome(&self, id: CmdId) -> Option<Outcome>
        ensures { result ≡ told_of id self.now.told }
    {
        stores::outcome(&self.kept, id)
    }

    /// This is told of an attempt's outcome. Where the book lacks it, nothing changes.
    pub fn tell(&mut self, id: CmdId, outcome: Outcome)
        ensures entries { self.new.entries ≡ self.old.entries }
        ensures told { (other : CmdId) → told_of other self.new.told
            ≡ (if same_id other id then option_map (λ _. outcome) (told_of other self.old.told) else told_of other self.old.told) }
        ensures spare { self.old.spare ≤ self.new.spare }
    {
        stores::tell(&mut self.kept, id, outcome);
        self.waits.note_if(is_pending(&outcome), id);
    }

    /// Takes the queues of the attempts that may still be put: of those that had no place and are
    /// pending, and of those that have drawn one. They may hold others too. At want of memory, and
    /// where they are not given back, the next ones are made of all attempts.
    pub fn take_queues(&mut self) -> Result<Queues, NoMemory>
        ensures entries { self.new.entries ≡ self.old.entries }
        ensures told { (id : CmdId) → told_of id self.new.told ≡ told_of id self.old.told }
        ensures queued { IfOk result (λ queues. AllQueued self.new.entries self.new.told queues) }
        ensures spare { self.old.spare ≤ self.new.spare }
    {
        let queues = self.waits.queues.take();
        let all = gathered(queues, self.waits.noted.as_slice(), &self.kept);
        self.waits.noted.clear();
        all
    }

    /// Gives the queues back.
    pub fn keep_queues(&mut self, queues: Queues)
        requires { AllQueued self.old.entries self.old.told queues }
        ensures entries { self.new.entries ≡ self.old.entries }
        ensures told { (id : CmdId) → told_of id self.new.told ≡ told_of id self.old.told }
        ensures spare { self.old.spare ≤ self.new.spare }
    {
        self.waits.queues = Some(queues);
    }

    /// All attempts, by client, command and attempt.
    pub fn by_attempt(&self) -> Result<Seq<(CmdId, Booked)>, NoMemory>
        ensures { IfOk result (λ list. list ≡ by_attempt self.now.entries) }
    {
        let list = stores::by_attempt(&self.kept)?;
        Ok(Seq::from_vec(list))
    }

    /// The reply lines of all attempts, by client, command and attempt, as was told.
    pub fn replies(&self) -> Result<Replies, NoMemory>
        ensures { IfOk result (λ r. r ≡ map (reply_of self.now.told) (by_attempt self.now.entries)) }
    {
        let lines = stores::lines(&self.kept)?;
        Ok(Seq::from_vec(lines))
    }
}
