//! The latest attempt of each command that the journals name, and its outcome.
ghost use Rattle.std.specs.Prelude.{◌≡◌, ℕ, ◌<◌, ◌≤◌, ◌==◌, ◌&&◌, if◌then◌else◌, ◌++◌, ◌∷◌, [], length, map, slice_index_or, None, Some, IfOk, OnOk};
ghost use Rattle.std.specs.Map.{lookup};
ghost use Rattle.indexmap.specs.IndexMap.{spare};
ghost use Rattle.rp_base.specs.Ids.{same_id};
ghost use Rattle.rp_base.specs.declared.ids.CmdId.{CmdId};
ghost use Rattle.rp_events.specs.declared.journals.JournalEntry.{JournalEntry};
ghost use Rattle.rp_events.specs.Worlds.{World, ended_of};
ghost use Rattle.rp_racelines.specs.declared.attempts.Latest.TheVariants.{Attempt};
ghost use Rattle.rp_racelines.specs.declared.attempts.Told.TheVariants.{End};
ghost use Rattle.rp_racelines.specs.Latest.{is_command, is_later, noted, ended_by, told_first, told_in, AreLatest, noted_event};

use indexmap::IndexMap;
use rp_base::{CmdId, NoMemory};
use rp_bufcore::BufferEnd;
use rp_events::{Ended, EventAnswer, PastEvent};
use rp_node::{Journal, Node};
use rp_request::Outcome;
use std::alloc::Global;

/// A client's command, by its number.
#[derive(Clone, Copy, PartialEq, Eq, Hash, Drop)]
pub(crate) struct Command {
    pub(crate) client: u16,
    pub(crate) seq: u32,
}

/// The latest attempt of a command, and its outcome. An enum of one form: the prover takes it into a
/// map, and not a struct of these fields.
#[derive(Clone, Copy)]
pub(crate) enum Latest {
    Attempt { number: u16, outcome: Outcome },
}

/// How an attempt ended, as its node tells.
#[derive(Clone, Copy)]
enum Told {
    End { outcome: Outcome },
}

/// The latest attempt of each command that was tried.
pub(crate) type Attempts = IndexMap<Command, Latest>;

/// How a node's attempts ended.
type Ends = IndexMap<CmdId, Told>;

/// The end of an attempt is noted behind the others, without memory.
fn put_end(ends: &mut Ends, id: CmdId, outcome: Outcome)
    requires room { 1 ≤ spare ends.old }
    requires new_id { lookup (same_id id) ends.old.entries ≡ None }
    ensures { ends.new.entries ≡ ends.old.entries ++ (id, End outcome) ∷ [] }
{
    ends.insert(id, Told::End { outcome }).unwrap();
}

/// How an attempt ended, by the ends that its node tells.
fn told_of(ends: &Ends, id: CmdId) -> Option<Outcome>
    ensures told { result ≡ told_in ends.now.entries id }
    ensures none { result ≡ None → lookup (same_id id) ends.now.entries ≡ None }
{
    match ends.get(&id) {
        None => None,
        Some(Told::End { outcome }) => Some(*outcome),
    }
}

/// An end is noted, where none was for this attempt.
fn note_end(ends: &mut Ends, ended: &Ended) -> Result<(), NoMemory>
    ensures { OnOk result ((id : CmdId) → told_in ends.new.entries id
        ≡ told_first (told_in ends.old.entries id) (same_id ended.now.id id) ended.now.outcome) }
{
    ends.reserve(1)?;
    if told_of(ends, ended.id).is_none() {
        put_end(ends, ended.id, ended.outcome);
    }
    Ok(())
}

/// The ends that a node tells, by attempt.
fn ends_of(alloc: Global, outcomes: &[Ended]) -> Result<Ends, NoMemory>
    ensures { IfOk result (λ ends. (id : CmdId) → told_in ends.entries id ≡ ended_of id outcomes.now) }
{
    let mut ends = IndexMap::new(alloc);
    for ended in outcomes {
        note_end(&mut ends, ended)?;
    }
    Ok(ends)
}

/// How an attempt ended, by its admission's answer, or as its node tells.
fn ended_by(answer: &EventAnswer, told: Option<Outcome>) -> Outcome
    ensures { result ≡ ended_by answer.now told }
{
    match (answer, told) {
        (EventAnswer::Refused(refusal), _) => Outcome::Refused(*refusal),
        (_, Some(outcome)) => outcome,
        (_, None) => Outcome::Pending,
    }
}

/// Whether an attempt is later than what is known of its command.
fn is_later(attempts: &Attempts, command: Command, number: u16) -> bool
    ensures { result ≡ is_later number (lookup (is_command command.client command.seq) attempts.now.entries) }
{
    match attempts.get(&command) {
        None => true,
        Some(Latest::Attempt { number: known, .. }) => *known < number,
    }
}

/// This is the latest attempt of a command, without memory.
fn put_attempt(attempts: &mut Attempts, command: Command, number: u16, outcome: Outcome)
    requires { 1 ≤ spare attempts.old }
    ensures { (client seq : ℕ) → lookup (is_command client seq) attempts.new.entries
        ≡ (if command.client == client && command.seq == seq then Some (Attempt number outcome)
        else lookup (is_command client seq) attempts.old.entries) }
{
    attempts
        .insert(command, Latest::Attempt { number, outcome })
        .unwrap();
}

/// An attempt is noted, where no later one of its command was.
fn note_attempt(attempts: &mut Attempts, id: CmdId, outcome: Outcome) -> Result<(), NoMemory>
    ensures { OnOk result ((client seq : ℕ) → lookup (is_command client seq) attempts.new.entries
        ≡ noted id outcome client seq (lookup (is_command client seq) attempts.old.entries)) }
{
    let command = Command {
        client: id.client,
        seq: id.seq,
    };
    attempts.reserve(1)?;
    if is_later(attempts, command, id.attempt) {
        put_attempt(attempts, command, id.attempt, outcome);
    }
    Ok(())
}

/// The attempt that an event names is noted, with its outcome by its answer in the journal, or by the
/// ends that its node tells.
fn note_event(
    attempts: &mut Attempts,
    ends: &Ends,
    journal: &Journal,
    place: usize,
    event: &PastEvent,
) -> Result<(), NoMemory>
    requires { place < length journal.now.list }
    ensures { OnOk result ((client seq : ℕ) (e : JournalEntry)
        → lookup (is_command client seq) attempts.new.entries
        ≡ noted_event (slice_index_or journal.now.list place e).answer (told_in ends.now.entries)
        client seq (lookup (is_command client seq) attempts.old.entries) event.now) }
{
    match event {
        PastEvent::Admit { id, .. } => {
            let outcome = ended_by(&journal.answer(place), told_of(ends, *id));
            note_attempt(attempts, *id, outcome)
        }
        _ => Ok(()),
    }
}

/// The attempts that the journal of a further node names are noted.
fn note_node<B: BufferEnd + Drop>(
    alloc: Global,
    attempts: &mut Attempts,
    node: &Node<B>,
) -> Result<(), NoMemory>
    ensures { OnOk result ((w : World) → AreLatest w attempts.old.entries
        → AreLatest (w ++ node.now.node ∷ []) attempts.new.entries) }
{
    let ends = ends_of(alloc, node.outcomes().as_slice())?;
    let journal = node.journal();
    for (place, event) in journal.events().iter().enumerate() {
        note_event(attempts, &ends, journal, place, event)?;
    }
    Ok(())
}

/// The latest attempts of the commands that the journals of these nodes name.
pub(crate) fn latest_of<B: BufferEnd + Drop>(
    alloc: Global,
    nodes: &[Node<B>],
) -> Result<Attempts, NoMemory>
    ensures { IfOk result (λ attempts. AreLatest (map (λ h. h.node) nodes.now) attempts.entries) }
{
    let mut attempts = IndexMap::new(alloc);
    for node in nodes {
        note_node(alloc, &mut attempts, node)?;
    }
    Ok(attempts)
}
