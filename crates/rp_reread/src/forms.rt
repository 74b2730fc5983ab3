//! The parts of a report, read from values of JSON.
ghost use Rattle.std.specs.Prelude.{◌≡◌, [], ◌∷◌, ◌++◌, map, nat_lt, OnOk, IfErr};
ghost use Rattle.std.specs.List.{list_all, zip};
ghost use Rattle.serde_json.specs.View.{view};
ghost use Rattle.rp_reread.specs.Faults.{no_memory};
ghost use Rattle.rp_reread.specs.Readers.{Tells};
ghost use Rattle.rp_reread.specs.Forms.{Forms, Puts, each, note_of, is_note, notes_in, answer_of, answers_in, lease_of_three, lease_in, entry_of, entries_in, row_of_two, row_of, keys_rise, in_order, rows_in};

use crate::ends::read_end;
use crate::faults::{FormFault, NotRead};
use crate::records::read_record;
use crate::reports::{Answer, Entry};
use crate::values::{elements, held, key, list_in, node, sized, text_in, whole, whole_in};
use rp_base::{Lease, LeaseSeq, Seq, Tick};
use rp_report::Row;
use serde_json::Value;
use std::alloc::Global;

#[tactic(auto, unfolding(crate::specs::Forms::note_of))]
fn note(value: &Value) -> Result<(), NotRead>
    ensures { Tells result (note_of (view value.now)) }
{
    sized(value, 2)?;
    whole_in(value, "line", 4_294_967_295)?;
    text_in(value, "text")?;
    Ok(())
}

fn is_note(value: &Value) -> bool
    ensures { result ≡ is_note (view value.now) }
{
    note(value).is_ok()
}

fn all_notes(values: &[Value]) -> bool
    ensures { result ≡ list_all (λ v. is_note (view v)) values.now }
{
    values.iter().all(|value| is_note(value))
}

fn are_notes(values: &[Value]) -> bool
    ensures { result ≡ list_all is_note (map view values.now) }
{
    all_notes(values)
}

/// Whether the notes are of their form.
#[tactic(auto, unfolding(crate::specs::Forms::notes_in))]
pub(crate) fn notes(value: &Value) -> Result<(), NotRead>
    ensures { Tells result (notes_in (view value.now)) }
{
    let list = list_in(value, "notes")?;
    if are_notes(list) {
        Ok(())
    } else {
        Err(NotRead)
    }
}

/// What is told of an attempt.
#[tactic(auto, unfolding(crate::specs::Forms::answer_of))]
fn answer(value: &Value) -> Result<Answer, NotRead>
    ensures { Tells result (answer_of (view value.now)) }
{
    sized(value, 4)?;
    let attempt = whole_in(value, "attempt", 65_535)? as u16;
    let client = whole_in(value, "client", 65_535)? as u16;
    let text = text_in(value, "outcome")?;
    let end = read_end(text.as_bytes())?;
    let seq = whole_in(value, "seq", 4_294_967_295)? as u32;
    Ok(Answer {
        client,
        seq,
        attempt,
        end,
    })
}

fn add_answer(found: &mut Vec<Answer>, part: &Answer) -> Result<(), FormFault>
    ensures ok { OnOk result (found.new.items ≡ found.old.items ++ part.now ∷ []) }
    ensures err { IfErr result (λ e. e ≡ no_memory) }
{
    if found.extend_from_slice(std::slice::from_ref(part)).is_err() {
        return Err(FormFault::NoMemory);
    }
    Ok(())
}

/// Reads one of them, and puts it behind the others.
fn put_answer(found: &mut Vec<Answer>, value: &Value) -> Result<(), FormFault>
    ensures { Puts (answer_of (view value.now)) found.old.items found.new.items result }
{
    match answer(value) {
        Ok(part) => add_answer(found, &part),
        Err(_) => Err(FormFault::NotReport),
    }
}

fn each_answer(alloc: Global, values: &[Value]) -> Result<Seq<Answer>, FormFault>
    ensures { Forms result (each answer_of (map view values.now)) }
{
    let mut found = Vec::new(alloc);
    for value in values {
        put_answer(&mut found, value)?;
    }
    Ok(Seq::from_vec(found))
}

/// What is told of the attempts.
pub(crate) fn answers(alloc: Global, value: &Value) -> Result<Seq<Answer>, FormFault>
    ensures { Forms result (answers_in (view value.now)) }
{
    let list = list_in(value, "replies")?;
    each_answer(alloc, list)
}

fn lease_of(values: &[Value]) -> Result<Lease, NotRead>
    ensures { Tells result (lease_of_three (map view values.now)) }
{
    let [holder, seq, expires] = values else {
        return Err(NotRead);
    };
    let holder = node(holder)?;
    let seq = whole(seq, u64::MAX)?;
    let expires = whole(expires, u64::MAX)?;
    Ok(Lease {
        holder,
        seq: LeaseSeq::new(seq),
        expires: Tick::new(expires),
    })
}

/// The lease of a range.
pub(crate) fn lease(value: &Value) -> Result<Lease, NotRead>
    ensures { Tells result (lease_in (view value.now)) }
{
    let list = list_in(value, "lease")?;
    lease_of(list)
}

#[tactic(auto, unfolding(crate::specs::Forms::entry_of))]
fn entry(value: &Value) -> Result<Entry, NotRead>
    ensures { Tells result (entry_of (view value.now)) }
{
    sized(value, 2)?;
    let index = whole_in(value, "index", u64::MAX)?;
    let text = text_in(value, "text")?;
    let kept = read_record(text.as_bytes())?;
    Ok(Entry { index, kept })
}

fn add_entry(found: &mut Vec<Entry>, part: &Entry) -> Result<(), FormFault>
    ensures ok { OnOk result (found.new.items ≡ found.old.items ++ part.now ∷ []) }
    ensures err { IfErr result (λ e. e ≡ no_memory) }
{
    if found.extend_from_slice(std::slice::from_ref(part)).is_err() {
        return Err(FormFault::NoMemory);
    }
    Ok(())
}

/// Reads one of them, and puts it behind the others.
fn put_entry(found: &mut Vec<Entry>, value: &Value) -> Result<(), FormFault>
    ensures { Puts (entry_of (view value.now)) found.old.items found.new.items result }
{
    match entry(value) {
        Ok(part) => add_entry(found, &part),
        Err(_) => Err(FormFault::NotReport),
    }
}

fn each_entry(alloc: Global, values: &[Value]) -> Result<Seq<Entry>, FormFault>
    ensures { Forms result (each entry_of (map view values.now)) }
{
    let mut found = Vec::new(alloc);
    for value in values {
        put_entry(&mut found, value)?;
    }
    Ok(Seq::from_vec(found))
}

/// The entries of a range.
pub(crate) fn entries(alloc: Global, value: &Value) -> Result<Seq<Entry>, FormFault>
    ensures { Forms result (entries_in (view value.now)) }
{
    let list = list_in(value, "list")?;
    each_entry(alloc, list)
}

fn row_of(values: &[Value]) -> Result<Row, NotRead>
    ensures { Tells result (row_of_two (map view values.now)) }
{
    let [first, second] = values else {
        return Err(NotRead);
    };
    let key = key(first)?;
    let value = held(second)?;
    Ok(Row { key, value })
}

#[tactic(auto, unfolding(crate::specs::Forms::row_of))]
fn row(value: &Value) -> Result<Row, NotRead>
    ensures { Tells result (row_of (view value.now)) }
{
    let list = elements(value)?;
    row_of(list)
}

fn add_row(found: &mut Vec<Row>, part: &Row) -> Result<(), FormFault>
    ensures ok { OnOk result (found.new.items ≡ found.old.items ++ part.now ∷ []) }
    ensures err { IfErr result (λ e. e ≡ no_memory) }
{
    if found.extend_from_slice(std::slice::from_ref(part)).is_err() {
        return Err(FormFault::NoMemory);
    }
    Ok(())
}

/// Reads one of them, and puts it behind the others.
fn put_row(found: &mut Vec<Row>, value: &Value) -> Result<(), FormFault>
    ensures { Puts (row_of (view value.now)) found.old.items found.new.items result }
{
    match row(value) {
        Ok(part) => add_row(found, &part),
        Err(_) => Err(FormFault::NotReport),
    }
}

fn each_row(alloc: Global, values: &[Value]) -> Result<Seq<Row>, FormFault>
    ensures { Forms result (each row_of (map view values.now)) }
{
    let mut found = Vec::new(alloc);
    for value in values {
        put_row(&mut found, value)?;
    }
    Ok(Seq::from_vec(found))
}

fn rise(rows: &[Row], later: &[Row]) -> bool
    ensures { result ≡ list_all (λ p. nat_lt p.0.key p.1.key) (zip rows.now later.now) }
{
    rows.iter().zip(later).all(|(row, next)| row.key < next.key)
}

fn keys_rise(rows: &[Row]) -> bool
    ensures { result ≡ keys_rise rows.now }
{
    match rows {
        [] => true,
        [_, later @ ..] => rise(rows, later),
    }
}

/// The rows of a live replica, by key.
#[tactic(auto, unfolding(crate::specs::Forms::rows_in))]
pub(crate) fn rows(alloc: Global, value: &Value) -> Result<Seq<Row>, FormFault>
    ensures { Forms result (rows_in (view value.now)) }
{
    let list = list_in(value, "rows")?;
    let rows = each_row(alloc, list)?;
    if keys_rise(rows.as_slice()) {
        Ok(rows)
    } else {
        Err(FormFault::NotReport)
    }
}
