//! The objects of a report as JSON, each sent part by part. An error is want of memory.
ghost use Rattle.std.specs.Prelude.{◌≡◌, OnOk, All};
ghost use Rattle.serde_json.specs.Data.{array, object};
ghost use Rattle.serde_json.specs.Events.{SendsValue, SendsMembers};
ghost use Rattle.rp_report.specs.Shown.{IsShownAnswer, IsShownRange, IsShownDesc, IsShownEnd, IsShownView};
ghost use Rattle.rp_report.specs.Json.{items_by, items_from, note_value, reply_value, record_value, row_value, live_tail, replica_value, range_tail, range_body, range_value, view_value};

use crate::json_parts::{
    bound_word, end_words, key_word, record_words, send_count, send_lease, send_text, send_value,
    send_wide,
};
use crate::views::{RangeView, ReplicaView, Row, View};
use rp_request::{Note, Record, ReplyLine};
use serde::Serializer;
use std::alloc::Global;

fn send_note<S: Serializer>(out: &mut S, note: &Note) -> Result<(), S::Error>
    ensures { OnOk result
        (SendsValue (note_value note.now) (S.written out.old) (S.written out.new)) }
{
    out.begin_map(Some(2))?;
    send_count(out, "line", u64::from(note.line))?;
    send_text(out, "text", note.text.as_str())?;
    out.end_map()
}

fn send_notes<S: Serializer>(out: &mut S, notes: &[Note]) -> Result<(), S::Error>
    ensures { OnOk result (SendsValue (array (items_by note_value notes.now))
        (S.written out.old) (S.written out.new)) }
{
    out.begin_seq(Some(notes.len()))?;
    for note in notes {
        send_note(out, note)?;
    }
    out.end_seq()
}

fn send_reply<S: Serializer>(alloc: Global, out: &mut S, reply: &ReplyLine) -> Result<(), S::Error>
    requires { IsShownEnd reply.now.end }
    ensures { OnOk result
        (SendsValue (reply_value reply.now) (S.written out.old) (S.written out.new)) }
{
    let Ok(outcome) = end_words(alloc, &reply.end) else {
        return Err(out.custom("no memory"));
    };
    out.begin_map(Some(4))?;
    send_count(out, "attempt", u64::from(reply.attempt))?;
    send_count(out, "client", u64::from(reply.client))?;
    send_text(out, "outcome", outcome.as_str())?;
    send_count(out, "seq", u64::from(reply.seq))?;
    out.end_map()
}

fn send_replies<S: Serializer>(
    alloc: Global,
    out: &mut S,
    replies: &[ReplyLine],
) -> Result<(), S::Error>
    requires { All IsShownAnswer replies.now }
    ensures { OnOk result (SendsValue (array (items_by reply_value replies.now))
        (S.written out.old) (S.written out.new)) }
{
    out.begin_seq(Some(replies.len()))?;
    for reply in replies {
        send_reply(alloc, out, reply)?;
    }
    out.end_seq()
}

fn send_record<S: Serializer>(
    alloc: Global,
    out: &mut S,
    index: u128,
    kept: &Record,
) -> Result<(), S::Error>
    ensures { OnOk result
        (SendsValue (record_value index kept.now) (S.written out.old) (S.written out.new)) }
{
    let Ok(text) = record_words(alloc, kept) else {
        return Err(out.custom("no memory"));
    };
    out.begin_map(Some(2))?;
    send_wide(out, "index", index)?;
    send_text(out, "text", text.as_str())?;
    out.end_map()
}

fn send_records<S: Serializer>(
    alloc: Global,
    out: &mut S,
    first: u64,
    records: &[Record],
) -> Result<(), S::Error>
    ensures { OnOk result (SendsValue (array (items_from record_value first records.now))
        (S.written out.old) (S.written out.new)) }
{
    out.begin_seq(Some(records.len()))?;
    let mut index = u128::from(first);
    for kept in records {
        send_record(alloc, out, index, kept)?;
        index += 1;
    }
    out.end_seq()
}

fn send_row<S: Serializer>(alloc: Global, out: &mut S, row: &Row) -> Result<(), S::Error>
    ensures { OnOk result
        (SendsValue (row_value row.now) (S.written out.old) (S.written out.new)) }
{
    let Ok(key) = key_word(alloc, row.key) else {
        return Err(out.custom("no memory"));
    };
    out.begin_seq(Some(2))?;
    out.str(key.as_str())?;
    send_value(out, &row.value)?;
    out.end_seq()
}

fn send_rows<S: Serializer>(alloc: Global, out: &mut S, rows: &[Row]) -> Result<(), S::Error>
    ensures { OnOk result (SendsValue (array (items_by row_value rows.now))
        (S.written out.old) (S.written out.new)) }
{
    out.begin_seq(Some(rows.len()))?;
    for row in rows {
        send_row(alloc, out, row)?;
    }
    out.end_seq()
}

/// The last members of a live replica, and the object's end.
fn send_live_tail<S: Serializer>(
    alloc: Global,
    out: &mut S,
    node: u64,
    term: u64,
    rows: &[Row],
) -> Result<(), S::Error>
    ensures { OnOk result
        (SendsMembers (live_tail node term rows.now) (S.written out.old) (S.written out.new)) }
{
    send_count(out, "node", node)?;
    out.key("rows")?;
    send_rows(alloc, out, rows)?;
    send_text(out, "state", "live")?;
    send_count(out, "term", term)?;
    out.end_map()
}

/// What a node has of a range.
fn send_replica<S: Serializer>(
    alloc: Global,
    out: &mut S,
    node: u64,
    replica: &ReplicaView,
) -> Result<(), S::Error>
    ensures { OnOk result
        (SendsValue (replica_value node replica.now) (S.written out.old) (S.written out.new)) }
{
    match replica {
        ReplicaView::Live {
            term,
            applied,
            lai,
            rows,
        } => {
            out.begin_map(Some(6))?;
            send_count(out, "applied", *applied)?;
            send_count(out, "lai", lai.get())?;
            send_live_tail(alloc, out, node, *term, rows.as_slice())
        }
        ReplicaView::Removed { applied } => {
            out.begin_map(Some(3))?;
            send_count(out, "applied", *applied)?;
            send_count(out, "node", node)?;
            send_text(out, "state", "removed")?;
            out.end_map()
        }
        ReplicaView::Absent => {
            out.begin_map(Some(2))?;
            send_count(out, "node", node)?;
            send_text(out, "state", "none")?;
            out.end_map()
        }
    }
}

fn send_replicas<S: Serializer>(
    alloc: Global,
    out: &mut S,
    replicas: &[ReplicaView],
) -> Result<(), S::Error>
    ensures { OnOk result (SendsValue (array (items_from replica_value 1 replicas.now))
        (S.written out.old) (S.written out.new)) }
{
    out.begin_seq(Some(replicas.len()))?;
    let mut node = 1;
    for replica in replicas {
        send_replica(alloc, out, node, replica)?;
        node += 1;
    }
    out.end_seq()
}

/// The last members of a range, and the object's end.
fn send_range_tail<S: Serializer>(
    alloc: Global,
    out: &mut S,
    range: &RangeView,
) -> Result<(), S::Error>
    requires { IsShownDesc range.now.desc }
    ensures { OnOk result
        (SendsMembers (range_tail range.now) (S.written out.old) (S.written out.new)) }
{
    let Ok(start) = bound_word(alloc, range.desc.start) else {
        return Err(out.custom("no memory"));
    };
    out.key("list")?;
    send_records(alloc, out, range.first, range.records.as_slice())?;
    out.key("replicas")?;
    send_replicas(alloc, out, range.replicas.as_slice())?;
    send_text(out, "start", start.as_str())?;
    out.end_map()
}

/// The members of a range from its lease on, and the object's end.
fn send_range_body<S: Serializer>(
    alloc: Global,
    out: &mut S,
    range: &RangeView,
) -> Result<(), S::Error>
    requires { IsShownDesc range.now.desc }
    ensures { OnOk result
        (SendsMembers (range_body range.now) (S.written out.old) (S.written out.new)) }
{
    out.key("lease")?;
    send_lease(out, range.lease)?;
    send_count(out, "level", u64::from(range.desc.level))?;
    send_range_tail(alloc, out, range)
}

fn send_range<S: Serializer>(alloc: Global, out: &mut S, range: &RangeView) -> Result<(), S::Error>
    requires { IsShownDesc range.now.desc }
    ensures { OnOk result
        (SendsValue (range_value range.now) (S.written out.old) (S.written out.new)) }
{
    let Ok(end) = bound_word(alloc, range.desc.end) else {
        return Err(out.custom("no memory"));
    };
    out.begin_map(Some(7))?;
    send_text(out, "end", end.as_str())?;
    send_count(out, "id", u64::from(range.desc.id.get()))?;
    send_range_body(alloc, out, range)
}

fn send_ranges<S: Serializer>(
    alloc: Global,
    out: &mut S,
    ranges: &[RangeView],
) -> Result<(), S::Error>
    requires { All IsShownRange ranges.now }
    ensures { OnOk result (SendsValue (array (items_by range_value ranges.now))
        (S.written out.old) (S.written out.new)) }
{
    out.begin_seq(Some(ranges.len()))?;
    for range in ranges {
        send_range(alloc, out, range)?;
    }
    out.end_seq()
}

/// The whole report.
pub fn send_view<S: Serializer>(alloc: Global, out: &mut S, view: &View) -> Result<(), S::Error>
    requires { IsShownView view.now }
    ensures { OnOk result
        (SendsValue (view_value view.now) (S.written out.old) (S.written out.new)) }
{
    out.begin_map(Some(4))?;
    send_count(out, "nodes", u64::from(view.nodes))?;
    out.key("notes")?;
    send_notes(out, view.notes.as_slice())?;
    out.key("ranges")?;
    send_ranges(alloc, out, view.ranges.as_slice())?;
    out.key("replies")?;
    send_replies(alloc, out, view.replies.as_slice())?;
    out.end_map()
}
