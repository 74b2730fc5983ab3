//! The attempts of the book by id, in order of insertion.
ghost use Rattle.std.specs.Prelude.{◌≡◌, ◌+◌, ◌≤◌, [], ◌∷◌, ◌++◌, ◌<◌, length, map, slice_get, take, IfOk, OnOk, None, Some, Option, if◌then◌else◌, ℕ, ◌==◌, ◌&&◌};
ghost use Rattle.std.specs.BTreeSet.{insert_key};
ghost use Rattle.std.specs.List.{IsDistinct};
ghost use Rattle.std.specs.Map.{keys_of, lookup, set_value};
ghost use Rattle.std.specs.Option.{option_copied, option_map};
ghost use Rattle.indexmap.specs.IndexMap.{spare};
ghost use Rattle.rp_base.specs.Ids.{cmd_cmp, same_id};
ghost use Rattle.rp_base.specs.declared.ids.CmdId.{CmdId};
ghost use Rattle.rp_request.specs.declared.outcomes.Outcome.TheVariants.{Pending};
ghost use Rattle.rp_book.specs.declared.bookings.Booked.{Booked};
ghost use Rattle.rp_book.specs.declared.keeps.Kept.{Kept};
ghost use Rattle.rp_book.specs.declared.keeps.Kept.TheVariants.{Attempt};
ghost use Rattle.rp_book.specs.Books.{booked, booking_of, by_attempt, told_of};
ghost use Rattle.rp_book.specs.Keeping.{bookings, entries_of, entry_of, in_order, is_command, line_of, outcomes, with_draw, with_outcome};

use crate::bookings::{Booked, Draw};
use crate::keeps::{Command, Kept};
use indexmap::IndexMap;
use rp_base::{CmdId, NoMemory};
use rp_request::{End, Outcome, ReplyLine};
use std::collections::BTreeSet;

/// Attempts by id.
pub(crate) type Store = IndexMap<CmdId, Kept>;

/// The number of each command's last attempt.
pub(crate) type Latest = IndexMap<Command, u16>;

/// Puts a new attempt behind the others, without memory.
fn push_new(store: &mut Store, id: CmdId, booking: Booked)
    requires room { 1 ≤ spare store.old }
    requires new_id { lookup (same_id id) store.old.entries ≡ None }
    ensures entries { store.new.entries ≡ store.old.entries ++ (id, Attempt booking Pending) ∷ [] }
    ensures distinct { IsDistinct same_id (keys_of store.new.entries) }
    ensures spare { spare store.old ≤ spare store.new + 1 }
{
    let kept = Kept::Attempt {
        booked: booking,
        outcome: Outcome::Pending,
    };
    store.insert(id, kept).unwrap();
}

/// Puts a new attempt behind the others, without memory. Its outcome is pending.
pub(crate) fn put(store: &mut Store, id: CmdId, booking: Booked)
    requires room { 1 ≤ spare store.old }
    requires new_id { booking_of id (bookings store.old.entries) ≡ None }
    ensures entries { bookings store.new.entries ≡ booked id booking (bookings store.old.entries) }
    ensures told { (other : CmdId) → told_of other (outcomes store.new.entries)
        ≡ (if same_id other id then Some Pending else told_of other (outcomes store.old.entries)) }
    ensures keys { keys_of store.new.entries ≡ keys_of store.old.entries ++ id ∷ [] }
    ensures distinct { IsDistinct same_id (keys_of store.new.entries) }
    ensures spare { spare store.old ≤ spare store.new + 1 }
{
    push_new(store, id, booking);
}

/// What is kept of an attempt.
pub(crate) fn find(store: &Store, id: CmdId) -> Option<&Kept>
    ensures { option_copied result ≡ lookup (same_id id) store.now.entries }
{
    store.get(&id)
}

/// The attempt is its command's last one from now on. It takes no memory.
pub(crate) fn note_latest(latest: &mut Latest, id: CmdId)
    requires room { 1 ≤ spare latest.old }
    ensures entries { (client seq : ℕ) → lookup (is_command client seq) latest.new.entries
        ≡ (if id.client == client && id.seq == seq then Some id.attempt
        else lookup (is_command client seq) latest.old.entries) }
    ensures spare { spare latest.old ≤ spare latest.new + 1 }
{
    let command = Command {
        client: id.client,
        seq: id.seq,
    };
    latest.insert(command, id.attempt).unwrap();
}

/// The number of a command's last attempt.
pub(crate) fn last_attempt(latest: &Latest, client: u16, seq: u32) -> Option<u16>
    ensures { result ≡ lookup (is_command client seq) latest.now.entries }
{
    latest.get(&Command { client, seq }).copied()
}

/// What is kept of an attempt.
pub(crate) fn booking(store: &Store, id: CmdId) -> Option<&Booked>
    ensures { option_copied result ≡ booking_of id (bookings store.now.entries) }
{
    match find(store, id) {
        None => None,
        Some(kept) => Some(kept.booked()),
    }
}

/// The id with what is kept of its attempt.
pub(crate) fn with_booking(store: &Store, id: CmdId) -> Option<(CmdId, Booked)>
    ensures { result ≡ option_map (λ b. (id, b)) (booking_of id (bookings store.now.entries)) }
{
    match booking(store, id) {
        None => None,
        Some(booked) => Some((id, *booked)),
    }
}

/// The attempt has come so far in its buffer, where it is kept.
fn change_draw(store: &mut Store, id: CmdId, draw: Draw)
    ensures none { lookup (same_id id) store.old.entries ≡ None → store.new.entries ≡ store.old.entries }
    ensures some { (k : Kept) → lookup (same_id id) store.old.entries ≡ Some k
        → store.new.entries ≡ set_value (same_id id) store.old.entries (with_draw draw k) }
    ensures spare { spare store.old ≤ spare store.new }
{
    let Some(kept) = store.get_mut(&id) else {
        return;
    };
    kept.set_draw(draw);
}

/// The attempt has come so far in its buffer.
pub(crate) fn set_draw(store: &mut Store, id: CmdId, draw: Draw)
    ensures none { booking_of id (bookings store.old.entries) ≡ None
        → bookings store.new.entries ≡ bookings store.old.entries }
    ensures entries { (b : Booked) → booking_of id (bookings store.old.entries) ≡ Some b
        → bookings store.new.entries ≡ booked id (record b { draw = draw }) (bookings store.old.entries) }
    ensures told { (other : CmdId) → told_of other (outcomes store.new.entries) ≡ told_of other (outcomes store.old.entries) }
    ensures keys { keys_of store.new.entries ≡ keys_of store.old.entries }
    ensures spare { spare store.old ≤ spare store.new }
{
    change_draw(store, id, draw);
}

/// What was told of an attempt's outcome.
pub(crate) fn outcome(store: &Store, id: CmdId) -> Option<Outcome>
    ensures { result ≡ told_of id (outcomes store.now.entries) }
{
    match find(store, id) {
        None => None,
        Some(kept) => Some(kept.outcome()),
    }
}

/// This is told of an attempt's outcome, where it is kept.
fn change_outcome(store: &mut Store, id: CmdId, outcome: Outcome)
    ensures none { lookup (same_id id) store.old.entries ≡ None → store.new.entries ≡ store.old.entries }
    ensures some { (k : Kept) → lookup (same_id id) store.old.entries ≡ Some k
        → store.new.entries ≡ set_value (same_id id) store.old.entries (with_outcome outcome k) }
    ensures spare { spare store.old ≤ spare store.new }
{
    let Some(kept) = store.get_mut(&id) else {
        return;
    };
    kept.tell(outcome);
}

/// This is told of an attempt's outcome.
pub(crate) fn tell(store: &mut Store, id: CmdId, outcome: Outcome)
    ensures entries { bookings store.new.entries ≡ bookings store.old.entries }
    ensures told { (other : CmdId) → told_of other (outcomes store.new.entries)
        ≡ (if same_id other id then option_map (λ _. outcome) (told_of other (outcomes store.old.entries))
        else told_of other (outcomes store.old.entries)) }
    ensures keys { keys_of store.new.entries ≡ keys_of store.old.entries }
    ensures spare { spare store.old ≤ spare store.new }
{
    change_outcome(store, id, outcome);
}

/// Puts the id of the attempt at this place into its place in the order.
fn sort_in(ids: &mut BTreeSet<CmdId>, store: &Store, at: usize) -> Result<(), NoMemory>
    ensures { OnOk result ((e : CmdId × Kept) → slice_get store.now.entries at ≡ Some e
        → ids.new.keys ≡ insert_key cmd_cmp ids.old.keys e.0) }
{
    if let Some((id, _)) = store.get_index(at) {
        ids.insert(*id)?;
    }
    Ok(())
}

/// The same, as those before it stand in order.
fn sort_next(ids: &mut BTreeSet<CmdId>, store: &Store, at: usize) -> Result<(), NoMemory>
    requires { at < length store.now.entries }
    ensures { OnOk result (ids.old.keys ≡ in_order (keys_of (take at store.now.entries))
        → ids.new.keys ≡ in_order (keys_of (take (at + 1) store.now.entries))) }
{
    sort_in(ids, store, at)
}

/// The ids of all attempts, by client, command and attempt.
fn sorted_ids(store: &Store) -> Result<BTreeSet<CmdId>, NoMemory>
    ensures { IfOk result (λ ids. ids.keys ≡ in_order (keys_of store.now.entries)) }
{
    let mut ids = BTreeSet::new(*store.allocator());
    for at in 0..store.len() {
        sort_next(&mut ids, store, at)?;
    }
    Ok(ids)
}

/// The reply line of an attempt, by what was told of it.
fn line(id: CmdId, told: Option<Outcome>) -> ReplyLine
    ensures { result ≡ line_of id told }
{
    let outcome = match told {
        None => Outcome::Pending,
        Some(outcome) => outcome,
    };
    ReplyLine {
        client: id.client,
        seq: id.seq,
        attempt: id.attempt,
        end: End::Outcome(outcome),
    }
}

/// Puts the reply line of an attempt behind the others.
fn push_line(lines: &mut Vec<ReplyLine>, store: &Store, id: CmdId) -> Result<(), NoMemory>
    ensures { OnOk result (lines.new.items
        ≡ lines.old.items ++ line_of id (told_of id (outcomes store.now.entries)) ∷ []) }
{
    let line = line(id, outcome(store, id));
    lines.extend_from_slice(std::slice::from_ref(&line))?;
    Ok(())
}

/// The reply lines of these attempts, behind the others.
fn push_lines(
    lines: &mut Vec<ReplyLine>,
    store: &Store,
    ids: &mut BTreeSet<CmdId>,
) -> Result<(), NoMemory>
    ensures { OnOk result (lines.new.items ≡ lines.old.items
        ++ map (λ id. line_of id (told_of id (outcomes store.now.entries))) ids.old.keys) }
{
    while let Some(id) = ids.pop_first() {
        push_line(lines, store, id)?;
    }
    Ok(())
}

/// The reply lines of all attempts, by client, command and attempt.
pub(crate) fn lines(store: &Store) -> Result<Vec<ReplyLine>, NoMemory>
    ensures { IfOk result (λ lines. lines.items
        ≡ map (λ id. line_of id (told_of id (outcomes store.now.entries))) (in_order (keys_of store.now.entries))) }
{
    let mut ids = sorted_ids(store)?;
    let mut lines = Vec::new(*store.allocator());
    push_lines(&mut lines, store, &mut ids)?;
    Ok(lines)
}

/// Puts an attempt that is kept behind the others.
fn push_entry(list: &mut Vec<(CmdId, Booked)>, store: &Store, id: CmdId) -> Result<(), NoMemory>
    ensures { OnOk result (list.new.items ≡ list.old.items ++ entry_of id (bookings store.now.entries)) }
{
    match with_booking(store, id) {
        None => Ok(()),
        Some(entry) => {
            list.extend_from_slice(std::slice::from_ref(&entry))?;
            Ok(())
        }
    }
}

/// Puts these attempts behind the others.
fn push_entries(
    list: &mut Vec<(CmdId, Booked)>,
    store: &Store,
    ids: &mut BTreeSet<CmdId>,
) -> Result<(), NoMemory>
    ensures { OnOk result (list.new.items
        ≡ list.old.items ++ entries_of (bookings store.now.entries) ids.old.keys) }
{
    while let Some(id) = ids.pop_first() {
        push_entry(list, store, id)?;
    }
    Ok(())
}

/// All attempts, by client, command and attempt.
pub(crate) fn by_attempt(store: &Store) -> Result<Vec<(CmdId, Booked)>, NoMemory>
    requires { IsDistinct same_id (keys_of store.now.entries) }
    ensures { IfOk result (λ list. list.items ≡ by_attempt (bookings store.now.entries)) }
{
    let mut ids = sorted_ids(store)?;
    let mut list = Vec::new(*store.allocator());
    push_entries(&mut list, store, &mut ids)?;
    Ok(list)
}
