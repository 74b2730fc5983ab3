//! All events of a node with their answers.
ghost use Rattle.std.specs.Prelude.{◌≡◌, ◌+◌, ◌≤◌, ◌<◌, ◌++◌, ◌∷◌, [], length, map, nat_eq, None, OnOk, slice_index_or};
ghost use Rattle.std.specs.Map.{lookup};
ghost use Rattle.indexmap.specs.IndexMap.{spare};
ghost use Rattle.rp_events.specs.declared.journals.JournalEntry.{JournalEntry};
ghost use Rattle.rp_node.specs.declared.journals.Noted.TheVariants.{Answer};
ghost use Rattle.rp_node.specs.Journals.{answer_at, is_done, told_more};

use indexmap::IndexMap;
use rp_base::{Grown, NoMemory};
use rp_events::{EventAnswer, JournalEntry, PastEvent};
use std::alloc::Global;
use std::marker::Model;

/// An answer that is kept. An enum of one form: the prover takes it into a map, and not the bare
/// answer.
#[derive(Clone, Copy)]
enum Noted {
    Answer { answer: EventAnswer },
}

/// Answers by the places of their events.
type Told = IndexMap<usize, Noted>;

/// All events of a node with their answers, in order. An answer that is `Done` takes no room.
/// Contracts see the list of entries, and how many more of them take no memory.
#[derive(Drop)]
pub struct Journal {
    events: Grown<PastEvent>,
    /// The answers that are not `Done`.
    told: IndexMap<usize, Noted>,
}

impl Model for Journal {
    ghost use Rattle.std.specs.Coded.{codes};
    ghost use Rattle.std.specs.Prelude.{length, min};
    ghost use Rattle.indexmap.specs.IndexMap.{spare};
    ghost use Rattle.rp_base.specs.Kept.{Kept, kept_code};
    ghost use Rattle.rp_events.specs.declared.journals.JournalEntry.{JournalEntry};
    ghost use Rattle.rp_node.specs.Journals.{AreOf, entries_from};

    ghost Value = { Kept JournalEntry };

    ghost coded = { Prim.hlevel (codes, kept_code) };

    ghost view = { λ j. record {
      list = entries_from j.told.entries 0 j.events.list;
      spare = min j.events.spare (spare j.told);
    } };

    ghost invariant = { λ j. AreOf (length j.events.list) j.told.entries };
}

/// Whether an event was done.
fn is_done(answer: &EventAnswer) -> bool
    ensures { result ≡ is_done answer.now }
{
    match answer {
        EventAnswer::Done => true,
        _ => false,
    }
}

/// The answer of the event at a place.
fn answer_at(told: &Told, place: usize) -> EventAnswer
    ensures { result ≡ answer_at told.now.entries place }
{
    match told.get(&place) {
        None => EventAnswer::Done,
        Some(Noted::Answer { answer }) => *answer,
    }
}

/// An answer is kept for a further place. It takes no memory.
fn put(told: &mut Told, place: usize, answer: &EventAnswer)
    requires room { 1 ≤ spare told.old }
    requires new_place { lookup (nat_eq place) told.old.entries ≡ None }
    ensures entries { told.new.entries ≡ told.old.entries ++ (place, Answer answer.now) ∷ [] }
    ensures spare { spare told.old ≤ spare told.new + 1 }
{
    told.insert(place, Noted::Answer { answer: *answer })
        .unwrap();
}

/// An answer is kept for a further place, unless it is `Done`. It takes no memory.
fn tell(told: &mut Told, place: usize, answer: &EventAnswer)
    requires room { 1 ≤ spare told.old }
    requires new_place { lookup (nat_eq place) told.old.entries ≡ None }
    ensures entries { told.new.entries ≡ told_more told.old.entries place answer.now }
    ensures spare { spare told.old ≤ spare told.new + 1 }
{
    if !is_done(answer) {
        put(told, place, answer);
    }
}

impl Journal {
    /// A journal without events. It takes no memory.
    pub fn new(alloc: Global) -> Journal
        ensures { result.list ≡ [] }
    {
        Journal {
            events: Grown::new(alloc),
            told: IndexMap::new(alloc),
        }
    }

    /// Makes room for n events more.
    pub fn make_room(&mut self, n: usize) -> Result<(), NoMemory>
        ensures list { self.new.list ≡ self.old.list }
        ensures room { OnOk result (n ≤ self.new.spare) }
        ensures kept { self.old.spare ≤ self.new.spare }
    {
        self.events.make_room(n)?;
        self.told.reserve(n)?;
        Ok(())
    }

    /// Puts an event with its answer at the end, without memory.
    pub fn push(&mut self, event: PastEvent, answer: &EventAnswer)
        requires { 1 ≤ self.old.spare }
        ensures list { self.new.list
            ≡ self.old.list ++ record { event = event; answer = answer.now } ∷ [] }
        ensures spare { self.old.spare ≤ self.new.spare + 1 }
    {
        tell(&mut self.told, self.events.len(), answer);
        self.events.push(event);
    }

    /// How many events there are.
    pub fn len(&self) -> usize
        ensures { result ≡ length self.now.list }
    {
        self.events.len()
    }

    /// The events without their answers.
    pub fn events(&self) -> &[PastEvent]
        ensures { result.now ≡ map (λ e. e.event) self.now.list }
    {
        self.events.as_slice()
    }

    /// The answer of the event at a place.
    pub fn answer(&self, place: usize) -> EventAnswer
        requires { place < length self.now.list }
        ensures { (e : JournalEntry) → result ≡ (slice_index_or self.now.list place e).answer }
    {
        answer_at(&self.told, place)
    }
}
