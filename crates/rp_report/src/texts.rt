//! The lines of a report, and the whole report.
ghost use Rattle.std.specs.Prelude.{◌≡◌, ◌≤◌, ◌++◌, OnOk, OnErr, flat_map, All};
ghost use Rattle.rp_report.specs.Items.{record_line};
ghost use Rattle.rp_report.specs.Report.{note_line, answer_line, bounds_text, range_line, record_lines, row_line, live_text, state_text, replica_lines_of, replica_lines, range_lines, report};
ghost use Rattle.rp_report.specs.Shown.{IsShownDesc, IsShownEnd, IsShownAnswer, IsShownRange, IsShownView};

use crate::items::push_record;
use crate::outcomes::spell_end;
use crate::views::{RangeView, ReplicaView, Row, View};
use crate::words::{
    push_attempt, push_lease, push_number_line, push_number_word, push_spaced, push_spaced_bound,
    push_spaced_value,
};
use rp_base::{CmdId, Desc, Lease, LeaseIndex, NoMemory, Text, push_key, push_word};
use rp_request::{Note, Record, ReplyLine};

fn push_note(out: &mut Text, note: &Note) -> Result<(), NoMemory>
    ensures { OnOk result (out.new ≡ out.old ++ note_line note.now) }
{
    push_word(out, "note")?;
    push_spaced(out, u64::from(note.line))?;
    push_word(out, " ")?;
    push_word(out, note.text.as_str())?;
    push_word(out, "\n")
}

fn push_notes(out: &mut Text, notes: &[Note]) -> Result<(), NoMemory>
    ensures { OnOk result (out.new ≡ out.old ++ flat_map note_line notes.now) }
{
    for note in notes {
        push_note(out, note)?;
    }
    Ok(())
}

fn push_answer(out: &mut Text, reply: &ReplyLine) -> Result<(), NoMemory>
    requires { IsShownEnd reply.now.end }
    ensures { OnOk result (out.new ≡ out.old ++ answer_line reply.now) }
{
    push_word(out, "reply ")?;
    let id = CmdId {
        client: reply.client,
        seq: reply.seq,
        attempt: reply.attempt,
    };
    push_attempt(out, id)?;
    push_word(out, " ")?;
    spell_end(out, &reply.end)?;
    push_word(out, "\n")
}

fn push_replies(out: &mut Text, replies: &[ReplyLine]) -> Result<(), NoMemory>
    requires { All IsShownAnswer replies.now }
    ensures { OnOk result (out.new ≡ out.old ++ flat_map answer_line replies.now) }
{
    for reply in replies {
        push_answer(out, reply)?;
    }
    Ok(())
}

/// The range's number and bounds.
fn push_bounds(out: &mut Text, desc: &Desc) -> Result<(), NoMemory>
    requires { IsShownDesc desc.now }
    ensures { OnOk result (out.new ≡ out.old ++ bounds_text desc.now) }
{
    push_word(out, "range")?;
    push_spaced(out, u64::from(desc.id.get()))?;
    push_spaced_bound(out, desc.start)?;
    push_spaced_bound(out, desc.end)
}

fn spell_range_line(out: &mut Text, desc: &Desc, lease: &Lease) -> Result<(), NoMemory>
    requires { IsShownDesc desc.now }
    ensures { OnOk result (out.new ≡ out.old ++ range_line desc.now lease.now) }
{
    push_bounds(out, desc)?;
    push_word(out, " level")?;
    push_spaced(out, u64::from(desc.level))?;
    push_word(out, " lease ")?;
    push_lease(out, *lease)?;
    push_word(out, "\n")
}

fn push_records(out: &mut Text, first: u64, records: &[Record]) -> Result<(), NoMemory>
    ensures { OnOk result (out.new ≡ out.old ++ record_lines first records.now) }
{
    let mut index = u128::from(first);
    for record in records {
        push_record(out, index, record)?;
        index += 1;
    }
    Ok(())
}

fn push_row(out: &mut Text, row: &Row) -> Result<(), NoMemory>
    ensures { OnOk result (out.new ≡ out.old ++ row_line row.now) }
{
    push_word(out, "row ")?;
    push_key(out, row.key)?;
    push_spaced_value(out, &row.value)?;
    push_word(out, "\n")
}

fn push_rows(out: &mut Text, rows: &[Row]) -> Result<(), NoMemory>
    ensures { OnOk result (out.new ≡ out.old ++ flat_map row_line rows.now) }
{
    for row in rows {
        push_row(out, row)?;
    }
    Ok(())
}

/// How far a live replica has come.
fn push_live(out: &mut Text, term: u64, applied: u64, lai: LeaseIndex) -> Result<(), NoMemory>
    ensures { OnOk result (out.new ≡ out.old ++ live_text term applied lai) }
{
    push_number_word(out, " live term", term)?;
    push_number_word(out, " applied", applied)?;
    push_number_word(out, " lai", lai.get())
}

/// What a node has of a range, behind the node's number.
fn push_state(out: &mut Text, replica: &ReplicaView) -> Result<(), NoMemory>
    ensures { OnOk result (out.new ≡ out.old ++ state_text replica.now) }
{
    match replica {
        ReplicaView::Live {
            term,
            applied,
            lai,
            rows,
        } => {
            push_live(out, *term, *applied, *lai)?;
            push_word(out, "\n")?;
            push_rows(out, rows.as_slice())
        }
        ReplicaView::Removed { applied } => push_number_line(out, " removed applied", *applied),
        ReplicaView::Absent => push_word(out, " none\n"),
    }
}

fn push_replica(out: &mut Text, node: u64, replica: &ReplicaView) -> Result<(), NoMemory>
    ensures { OnOk result (out.new ≡ out.old ++ replica_lines_of node replica.now) }
{
    push_number_word(out, "node", node)?;
    push_state(out, replica)
}

fn spell_replicas(out: &mut Text, replicas: &[ReplicaView]) -> Result<(), NoMemory>
    ensures { OnOk result (out.new ≡ out.old ++ replica_lines 1 replicas.now) }
{
    let mut node = 1;
    for replica in replicas {
        push_replica(out, node, replica)?;
        node += 1;
    }
    Ok(())
}

/// Appends the line of a range, or nothing: its number, its bounds, its level and its lease. Each
/// bound is the least, the greatest, or a key.
pub fn push_range_line(out: &mut Text, desc: &Desc, lease: &Lease) -> Result<(), NoMemory>
    requires { IsShownDesc desc.now }
    ensures ok { OnOk result (out.new ≡ out.old ++ range_line desc.now lease.now) }
    ensures err { OnErr result (out.new ≡ out.old) }
{
    let mut text = Text::new(out.alloc());
    spell_range_line(&mut text, desc, lease)?;
    out.append(text)
}

/// Appends the lines of what the nodes have of a range, from node 1 on, or nothing.
pub fn push_replica_lines(out: &mut Text, replicas: &[ReplicaView]) -> Result<(), NoMemory>
    ensures ok { OnOk result (out.new ≡ out.old ++ replica_lines 1 replicas.now) }
    ensures err { OnErr result (out.new ≡ out.old) }
{
    let mut text = Text::new(out.alloc());
    spell_replicas(&mut text, replicas)?;
    out.append(text)
}

fn push_range(out: &mut Text, range: &RangeView) -> Result<(), NoMemory>
    requires shown { IsShownDesc range.now.desc }
    ensures { OnOk result (out.new ≡ out.old ++ range_lines range.now) }
{
    spell_range_line(out, &range.desc, &range.lease)?;
    push_records(out, range.first, range.records.as_slice())?;
    spell_replicas(out, range.replicas.as_slice())
}

fn push_ranges(out: &mut Text, ranges: &[RangeView]) -> Result<(), NoMemory>
    requires shown { All IsShownRange ranges.now }
    ensures { OnOk result (out.new ≡ out.old ++ flat_map range_lines ranges.now) }
{
    for range in ranges {
        push_range(out, range)?;
    }
    Ok(())
}

/// The lines of the report.
fn push_lines(out: &mut Text, view: &View) -> Result<(), NoMemory>
    requires { IsShownView view.now }
    ensures { OnOk result (out.new ≡ out.old ++ report view.now) }
{
    push_number_line(out, "nodes", u64::from(view.nodes))?;
    push_notes(out, view.notes.as_slice())?;
    push_replies(out, view.replies.as_slice())?;
    push_ranges(out, view.ranges.as_slice())?;
    push_word(out, "end\n")
}

/// Appends the report as text. Each bound of the view is the least, the greatest, or a key.
pub fn write_text(view: &View, out: &mut Text) -> Result<(), NoMemory>
    requires { IsShownView view.now }
    ensures ok { OnOk result (out.new ≡ out.old ++ report view.now) }
    ensures err { OnErr result (out.new ≡ out.old) }
{
    let mut text = Text::new(out.alloc());
    push_lines(&mut text, view)?;
    out.append(text)
}
