//! The ranges of a report, read from values of JSON, and the whole.
ghost use Rattle.std.specs.Prelude.{◌≡◌, map, nat_lt, codes, option_and_then};
ghost use Rattle.std.specs.List.{list_all, zip};
ghost use Rattle.serde_json.specs.Find.{get};
ghost use Rattle.serde_json.specs.View.{view};
ghost use Rattle.rp_reread.specs.Readers.{Tells};
ghost use Rattle.rp_reread.specs.Forms.{Forms, Puts, each, node_of, for_node, live_of, removed_of, absent_of, replica_by, replica_of, replicas_from, replicas_in, head_of, range_of, ranges_rise, ranges_in, report_of};
ghost use Rattle.rp_reread.specs.Reading.{IsReadAs, Rereads};

use crate::faults::{FormFault, NotRead, ReadFault};
use crate::forms::{answers, entries, lease, notes, rows};
use crate::reports::{RangeRead, Report};
use crate::values::{bound, list_in, node, sized, text_in, whole_in};
use rp_base::{LeaseIndex, RangeId, Seq};
use rp_report::ReplicaView;
use serde_json::Value;
use std::alloc::Global;

fn for_node(value: &Value, turn: u64) -> Result<u64, NotRead>
    ensures { Tells result (for_node turn (view value.now)) }
{
    let node = whole_in(value, "node", 5)?;
    if node == turn { Ok(node) } else { Err(NotRead) }
}

#[tactic(auto, unfolding(crate::specs::Forms::live_of))]
fn live(alloc: Global, value: &Value, turn: u64) -> Result<ReplicaView, FormFault>
    ensures { Forms result (live_of turn (view value.now)) }
{
    sized(value, 6)?;
    let applied = whole_in(value, "applied", u64::MAX)?;
    let lai = whole_in(value, "lai", u64::MAX)?;
    for_node(value, turn)?;
    let rows = rows(alloc, value)?;
    let term = whole_in(value, "term", u64::MAX)?;
    Ok(ReplicaView::Live {
        term,
        applied,
        lai: LeaseIndex::new(lai),
        rows,
    })
}

#[tactic(auto, unfolding(crate::specs::Forms::removed_of))]
fn removed(value: &Value, turn: u64) -> Result<ReplicaView, NotRead>
    ensures { Tells result (removed_of turn (view value.now)) }
{
    sized(value, 3)?;
    let applied = whole_in(value, "applied", u64::MAX)?;
    for_node(value, turn)?;
    Ok(ReplicaView::Removed { applied })
}

#[tactic(auto, unfolding(crate::specs::Forms::absent_of))]
fn absent(value: &Value, turn: u64) -> Result<ReplicaView, NotRead>
    ensures { Tells result (absent_of turn (view value.now)) }
{
    sized(value, 2)?;
    for_node(value, turn)?;
    Ok(ReplicaView::Absent)
}

#[tactic(auto, unfolding(crate::specs::Forms::replica_by))]
fn replica_by(
    alloc: Global,
    state: &[u8],
    value: &Value,
    turn: u64,
) -> Result<ReplicaView, FormFault>
    ensures { Forms result (replica_by state.now turn (view value.now)) }
{
    if state == b"live".as_slice() {
        live(alloc, value, turn)
    } else if state == b"removed".as_slice() {
        Ok(removed(value, turn)?)
    } else if state == b"none".as_slice() {
        Ok(absent(value, turn)?)
    } else {
        Err(FormFault::NotReport)
    }
}

/// What this node has of a range.
#[tactic(auto, unfolding(crate::specs::Forms::replica_of))]
fn replica(alloc: Global, value: &Value, turn: u64) -> Result<ReplicaView, FormFault>
    ensures { Forms result (replica_of turn (view value.now)) }
{
    let state = text_in(value, "state")?;
    replica_by(alloc, state.as_bytes(), value, turn)
}

/// Reads what one node has, and puts it behind the others.
fn put_replica(
    alloc: Global,
    found: &mut Seq<ReplicaView>,
    value: &Value,
    turn: u64,
) -> Result<(), FormFault>
    ensures { Puts (replica_of turn (view value.now)) found.old found.new result }
{
    match replica(alloc, value, turn) {
        Ok(part) => {
            found.push(part)?;
            Ok(())
        }
        Err(fault) => Err(fault),
    }
}

fn each_replica(alloc: Global, values: &[Value]) -> Result<Seq<ReplicaView>, FormFault>
    ensures { Forms result (replicas_from 1 (map view values.now)) }
{
    let mut found = Seq::new(alloc);
    let mut turn = 1u64;
    for value in values {
        put_replica(alloc, &mut found, value, turn)?;
        turn += 1;
    }
    Ok(found)
}

/// What each node has of a range.
#[tactic(auto, unfolding(crate::specs::Forms::replicas_in))]
fn replicas(alloc: Global, value: &Value, nodes: u8) -> Result<Seq<ReplicaView>, FormFault>
    ensures { Forms result (replicas_in nodes (view value.now)) }
{
    let list = list_in(value, "replicas")?;
    if list.len() == usize::from(nodes) {
        each_replica(alloc, list)
    } else {
        Err(FormFault::NotReport)
    }
}

/// Number, level and bounds of a range.
#[derive(Clone, Copy)]
pub(crate) struct Head {
    pub(crate) id: RangeId,
    pub(crate) level: u8,
    pub(crate) start: u128,
    pub(crate) end: u128,
}

#[tactic(auto, unfolding(crate::specs::Forms::head_of))]
fn range_head(value: &Value) -> Result<Head, NotRead>
    ensures { Tells result (head_of (view value.now)) }
{
    let end = bound(value, "end")?;
    let id = whole_in(value, "id", 7)?;
    let level = whole_in(value, "level", 3)?;
    let start = bound(value, "start")?;
    Ok(Head {
        id: RangeId::new(id as u8).unwrap(),
        level: level as u8,
        start,
        end,
    })
}

/// A range, in a report of so many nodes.
#[tactic(auto, unfolding(crate::specs::Forms::range_of))]
fn range(alloc: Global, value: &Value, nodes: u8) -> Result<RangeRead, FormFault>
    ensures { Forms result (range_of nodes (view value.now)) }
{
    sized(value, 7)?;
    let head = range_head(value)?;
    let lease = lease(value)?;
    let entries = entries(alloc, value)?;
    let replicas = replicas(alloc, value, nodes)?;
    Ok(RangeRead {
        id: head.id,
        level: head.level,
        start: head.start,
        end: head.end,
        lease,
        entries,
        replicas,
    })
}

/// Reads a range, and puts it behind the others.
fn put_range(
    alloc: Global,
    found: &mut Seq<RangeRead>,
    value: &Value,
    nodes: u8,
) -> Result<(), FormFault>
    ensures { Puts (range_of nodes (view value.now)) found.old found.new result }
{
    match range(alloc, value, nodes) {
        Ok(part) => {
            found.push(part)?;
            Ok(())
        }
        Err(fault) => Err(fault),
    }
}

fn each_range(alloc: Global, values: &[Value], nodes: u8) -> Result<Seq<RangeRead>, FormFault>
    ensures { Forms result (each (range_of nodes) (map view values.now)) }
{
    let mut found = Seq::new(alloc);
    for value in values {
        put_range(alloc, &mut found, value, nodes)?;
    }
    Ok(found)
}

fn rise(ranges: &[RangeRead], later: &[RangeRead]) -> bool
    ensures { result ≡ list_all (λ p. nat_lt p.0.id p.1.id) (zip ranges.now later.now) }
{
    ranges
        .iter()
        .zip(later)
        .all(|(range, next)| range.id < next.id)
}

fn ranges_rise(ranges: &[RangeRead]) -> bool
    ensures { result ≡ ranges_rise ranges.now }
{
    match ranges {
        [] => true,
        [_, later @ ..] => rise(ranges, later),
    }
}

/// The ranges of a report, by their numbers.
#[tactic(auto, unfolding(crate::specs::Forms::ranges_in))]
fn ranges(alloc: Global, value: &Value, nodes: u8) -> Result<Seq<RangeRead>, FormFault>
    ensures { Forms result (ranges_in nodes (view value.now)) }
{
    let list = list_in(value, "ranges")?;
    let ranges = each_range(alloc, list, nodes)?;
    if ranges_rise(ranges.as_slice()) {
        Ok(ranges)
    } else {
        Err(FormFault::NotReport)
    }
}

fn nodes(value: &Value) -> Result<u8, NotRead>
    ensures { Tells result (option_and_then node_of (get (codes "nodes") (view value.now))) }
{
    match value.get("nodes") {
        Some(member) => Ok(node(member)?.get()),
        None => Err(NotRead),
    }
}

/// The report that a value is.
#[tactic(auto, unfolding(crate::specs::Forms::report_of))]
fn report(alloc: Global, value: &Value) -> Result<Report, FormFault>
    ensures { Forms result (report_of (view value.now)) }
{
    sized(value, 4)?;
    let nodes = nodes(value)?;
    notes(value)?;
    let ranges = ranges(alloc, value, nodes)?;
    let answers = answers(alloc, value)?;
    Ok(Report {
        nodes,
        answers,
        ranges,
    })
}

/// The value that bytes are.
fn json(alloc: Global, bytes: &[u8]) -> Result<Value, ReadFault>
    ensures { IsReadAs bytes.now result }
{
    match Value::from_slice(alloc, bytes) {
        Ok(value) => Ok(value),
        Err(fault) => if fault.is_memory() {
            Err(ReadFault::NoMemory)
        } else {
            Err(ReadFault::NotJson)
        },
    }
}

/// Reads a report back from the bytes of its JSON.
pub fn read_report(alloc: Global, bytes: &[u8]) -> Result<Report, ReadFault>
    ensures { Rereads bytes.now result }
{
    let value = json(alloc, bytes)?;
    Ok(report(alloc, &value)?)
}
