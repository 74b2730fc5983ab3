//! Which attempts may still be put into a buffer.
ghost use Rattle.std.specs.Prelude.{◌≡◌, ◌+◌, ◌-◌, ◌*◌, [], ◌∷◌, ◌++◌, ◌<◌, ◌||◌, ◌&&◌, ℕ, true, IfOk, IfSome, OnOk, None, Some, length, slice_get, take};
ghost use Rattle.std.specs.Map.{keys_of};
ghost use Rattle.rp_base.specs.Ids.{same_id};
ghost use Rattle.rp_base.specs.declared.ids.CmdId.{CmdId};
ghost use Rattle.rp_request.specs.declared.outcomes.Outcome.TheVariants.{Pending};
ghost use Rattle.rp_book.specs.declared.bookings.Booked.{Booked};
ghost use Rattle.rp_book.specs.declared.bookings.Draw.TheVariants as draws;
ghost use Rattle.rp_book.specs.declared.keeps.Kept.{Kept};
ghost use Rattle.rp_book.specs.Books.{booking_of, told_of};
ghost use Rattle.rp_book.specs.Keeping.{booking_in, bookings, outcome_in, outcomes};
ghost use Rattle.rp_book.specs.Queueing.{AllQueued, AllStand, MayGo, holds, is_among, is_pending, is_unpublished, Stands, drawn_queue, queue_count, queue_of, stands_in};

use crate::bookings::{Booked, Draw};
use crate::keeps::Kept;
use crate::queues::Queues;
use crate::stores::{Store, find};
use rp_base::{CmdId, NoMemory, NodeId, RangeId};
use rp_request::Outcome;
use std::alloc::Global;

/// The queue of attempts that have drawn a place.
const DRAWN_QUEUE: usize = 40;

/// Queues as they were when they were last looked at, and the attempts that were noted since. Where no
/// queues are kept, all attempts are to be looked for.
#[derive(Drop)]
pub(crate) struct Waits {
    pub(crate) queues: Option<Queues>,
    pub(crate) noted: Vec<CmdId>,
}

impl Waits {
    /// No queues are kept. It takes no memory.
    pub(crate) fn new(alloc: Global) -> Waits
        ensures { result.queues ≡ None }
    {
        Waits {
            queues: None,
            noted: Vec::new(alloc),
        }
    }

    /// An attempt is looked for from now on. At want of memory all are.
    fn note(&mut self, id: CmdId)
        ensures { (queue : ℕ) (other : CmdId)
            → (same_id other id || stands_in self.old.queues self.old.noted.items queue other) ≡ true
            → stands_in self.new.queues self.new.noted.items queue other ≡ true }
    {
        if self.noted.push(id).is_err() {
            self.queues = None;
        }
    }

    /// The same, where it is asked for.
    pub(crate) fn note_if(&mut self, asked: bool, id: CmdId)
        ensures { (queue : ℕ) (other : CmdId)
            → ((asked && same_id other id) || stands_in self.old.queues self.old.noted.items queue other) ≡ true
            → stands_in self.new.queues self.new.noted.items queue other ≡ true }
    {
        if asked {
            self.note(id);
        }
    }
}

/// Nothing of an attempt was published yet.
pub(crate) fn is_unpublished(draw: Draw) -> bool
    ensures { result ≡ is_unpublished draw }
{
    match draw {
        Draw::Undrawn | Draw::Drawn { .. } => true,
        Draw::Published => false,
    }
}

/// Nothing is told of how an attempt ended.
pub(crate) fn is_pending(outcome: &Outcome) -> bool
    ensures { result ≡ is_pending outcome.now }
{
    match outcome {
        Outcome::Pending => true,
        Outcome::Success(_) | Outcome::Refused(_) | Outcome::Ambiguous(_) => false,
    }
}

/// The queue of a node and a range.
fn queue_at(node: NodeId, range: RangeId) -> usize
    ensures queue { result ≡ (node - 1) * 8 + range }
    ensures within { result < 40 }
{
    (usize::from(node.get()) - 1) * 8 + usize::from(range.get())
}

/// The queue of an attempt; none where it was published.
pub fn queue_of(booked: &Booked) -> Option<usize>
    ensures queue { result ≡ queue_of booked.now }
    ensures undrawn { booked.now.draw ≡ draws.Undrawn → IfSome result (λ queue. queue < drawn_queue) }
    ensures within { IfSome result (λ queue. queue < queue_count) }
{
    match booked.draw {
        Draw::Undrawn => Some(queue_at(booked.node, booked.range)),
        Draw::Drawn { .. } => Some(DRAWN_QUEUE),
        Draw::Published => None,
    }
}

/// The attempt is pending, or has drawn a place.
fn may_go(booked: &Booked, outcome: Outcome) -> bool
    ensures { (booked.now.draw ≡ draws.Undrawn → outcome ≡ Pending) → result ≡ true }
{
    match booked.draw {
        Draw::Undrawn => matches!(outcome, Outcome::Pending),
        Draw::Drawn { .. } | Draw::Published => true,
    }
}

/// The queue where a kept attempt is to stand; none where it cannot be put any more.
fn queue_for(kept: &Kept) -> Option<usize>
    ensures queue { (queue : ℕ) → queue_of (booking_in kept.now) ≡ Some queue
        → ((booking_in kept.now).draw ≡ draws.Undrawn → outcome_in kept.now ≡ Pending)
        → result ≡ Some queue }
    ensures within { IfSome result (λ queue. queue < queue_count) }
{
    if may_go(kept.booked(), kept.outcome()) {
        return queue_of(kept.booked());
    }
    None
}

/// The queue where an attempt is to stand; none where it cannot be put any more.
fn place_of(store: &Store, id: CmdId) -> Option<usize>
    ensures queue { (b : Booked) (queue : ℕ) → booking_of id (bookings store.now.entries) ≡ Some b
        → queue_of b ≡ Some queue → MayGo (outcomes store.now.entries) id b → result ≡ Some queue }
    ensures within { IfSome result (λ queue. queue < queue_count) }
{
    match find(store, id) {
        None => None,
        Some(kept) => queue_for(kept),
    }
}

/// Puts an attempt into its queue, where it may still be put.
fn stand(queues: &mut Queues, store: &Store, id: CmdId) -> Result<(), NoMemory>
    ensures { OnOk result (Stands (bookings store.now.entries) (outcomes store.now.entries) id
        queues.old queues.new) }
{
    match place_of(store, id) {
        Some(queue) => queues.insert(queue, id),
        None => Ok(()),
    }
}

/// Puts each of these attempts into its queue.
fn stand_all(queues: &mut Queues, store: &Store, ids: &[CmdId]) -> Result<(), NoMemory>
    requires { AllStand (bookings store.now.entries) (outcomes store.now.entries)
        (is_among ids.now queues.old) }
    ensures { OnOk result (AllQueued (bookings store.now.entries) (outcomes store.now.entries) queues.new) }
{
    for id in ids {
        stand(queues, store, *id)?;
    }
    Ok(())
}

/// The ids of all attempts.
fn all_ids(store: &Store) -> Result<Vec<CmdId>, NoMemory>
    ensures { IfOk result (λ ids. ids.items ≡ keys_of store.now.entries) }
{
    let mut ids = Vec::new(*store.allocator());
    for at in 0..store.len() {
        push_next(&mut ids, store, at)?;
    }
    Ok(ids)
}

/// Puts the id of the attempt at this place behind the others.
fn push_id(ids: &mut Vec<CmdId>, store: &Store, at: usize) -> Result<(), NoMemory>
    ensures { OnOk result ((e : CmdId × Kept) → slice_get store.now.entries at ≡ Some e
        → ids.new.items ≡ ids.old.items ++ e.0 ∷ []) }
{
    if let Some((id, _)) = store.get_index(at) {
        ids.push(*id)?;
    }
    Ok(())
}

/// The same, as those before it stand there.
fn push_next(ids: &mut Vec<CmdId>, store: &Store, at: usize) -> Result<(), NoMemory>
    requires { at < length store.now.entries }
    ensures { OnOk result (ids.old.items ≡ keys_of (take at store.now.entries)
        → ids.new.items ≡ keys_of (take (at + 1) store.now.entries)) }
{
    push_id(ids, store, at)
}

/// Queues of all attempts that may still be put.
fn queue_all(store: &Store) -> Result<Queues, NoMemory>
    ensures { IfOk result (λ queues.
        AllQueued (bookings store.now.entries) (outcomes store.now.entries) queues) }
{
    let ids = all_ids(store)?;
    let mut queues = Queues::new(*store.allocator())?;
    stand_all(&mut queues, store, ids.as_slice())?;
    Ok(queues)
}

/// These queues with what was noted; where there are none, queues of all attempts that may still be put.
pub(crate) fn gathered(
    queues: Option<Queues>,
    noted: &[CmdId],
    store: &Store,
) -> Result<Queues, NoMemory>
    requires { AllStand (bookings store.now.entries) (outcomes store.now.entries)
        (stands_in queues noted.now) }
    ensures { IfOk result (λ queues.
        AllQueued (bookings store.now.entries) (outcomes store.now.entries) queues) }
{
    match queues {
        None => queue_all(store),
        Some(queues) => with_noted(queues, noted, store),
    }
}

/// These queues with what was noted.
fn with_noted(mut queues: Queues, noted: &[CmdId], store: &Store) -> Result<Queues, NoMemory>
    requires { AllStand (bookings store.now.entries) (outcomes store.now.entries)
        (is_among noted.now queues) }
    ensures { IfOk result (λ queues.
        AllQueued (bookings store.now.entries) (outcomes store.now.entries) queues) }
{
    stand_all(&mut queues, store, noted)?;
    Ok(queues)
}
