//! The summary: ten counts of what a report shows.
ghost use Rattle.std.specs.Prelude.{◌≡◌, ◌++◌, count_by, IfOk, OnOk, OnErr};
ghost use Rattle.rp_report.specs.Summary.{commands_among, is_success, is_refused, is_ambiguous, is_pending, ending, is_place, is_pass, records_in, count_line, ending_lines, answer_counts, range_counts, summary};

use crate::views::{RangeView, View};
use crate::words::{push_number_line, push_wide};
use rp_base::{NoMemory, Text, push_word};
use rp_request::{End, Outcome, Record, ReplyLine};
use std::alloc::Global;
use std::collections::BTreeSet;

/// How many different commands the replies name.
fn commands_among(alloc: Global, replies: &[ReplyLine]) -> Result<usize, NoMemory>
    ensures { IfOk result (λ n. n ≡ commands_among replies.now) }
{
    let mut commands = BTreeSet::new(alloc);
    for reply in replies {
        commands.insert((reply.client, reply.seq))?;
    }
    Ok(commands.len())
}

fn is_success(end: &End) -> bool
    ensures { result ≡ is_success end.now }
{
    matches!(end, End::Outcome(Outcome::Success(_)))
}

fn is_refused(end: &End) -> bool
    ensures { result ≡ is_refused end.now }
{
    matches!(end, End::Outcome(Outcome::Refused(_)) | End::Tries(_))
}

fn is_ambiguous(end: &End) -> bool
    ensures { result ≡ is_ambiguous end.now }
{
    matches!(end, End::Outcome(Outcome::Ambiguous(_)))
}

fn is_pending(end: &End) -> bool
    ensures { result ≡ is_pending end.now }
{
    matches!(end, End::Outcome(Outcome::Pending) | End::Unsent)
}

fn successes(replies: &[ReplyLine]) -> usize
    ensures { result ≡ ending is_success replies.now }
{
    replies
        .iter()
        .filter(|reply| is_success(&reply.end))
        .count()
}

fn refusals(replies: &[ReplyLine]) -> usize
    ensures { result ≡ ending is_refused replies.now }
{
    replies
        .iter()
        .filter(|reply| is_refused(&reply.end))
        .count()
}

fn ambiguities(replies: &[ReplyLine]) -> usize
    ensures { result ≡ ending is_ambiguous replies.now }
{
    replies
        .iter()
        .filter(|reply| is_ambiguous(&reply.end))
        .count()
}

fn pendings(replies: &[ReplyLine]) -> usize
    ensures { result ≡ ending is_pending replies.now }
{
    replies
        .iter()
        .filter(|reply| is_pending(&reply.end))
        .count()
}

fn is_place(kept: &Record) -> bool
    ensures { result ≡ is_place kept.now }
{
    matches!(kept, Record::Took(_))
}

fn is_pass(kept: &Record) -> bool
    ensures { result ≡ is_pass kept.now }
{
    matches!(kept, Record::Passed(_))
}

fn places_in(records: &[Record]) -> usize
    ensures { result ≡ count_by is_place records.now }
{
    records.iter().filter(|kept| is_place(*kept)).count()
}

fn passes_in(records: &[Record]) -> usize
    ensures { result ≡ count_by is_pass records.now }
{
    records.iter().filter(|kept| is_pass(*kept)).count()
}

/// The lines of taken items of all ranges.
fn places(ranges: &[RangeView]) -> u128
    ensures { result ≡ records_in is_place ranges.now }
{
    let mut total = 0u128;
    for range in ranges {
        total += places_in(range.records.as_slice()) as u128;
    }
    total
}

/// The lines of entries passed over, of all ranges.
fn passes(ranges: &[RangeView]) -> u128
    ensures { result ≡ records_in is_pass ranges.now }
{
    let mut total = 0u128;
    for range in ranges {
        total += passes_in(range.records.as_slice()) as u128;
    }
    total
}

/// A word, a wide number behind a space, and the end of the line.
fn push_wide_line(out: &mut Text, word: &str, n: u128) -> Result<(), NoMemory>
    ensures { OnOk result (out.new ≡ out.old ++ count_line word.now n) }
{
    push_word(out, word)?;
    push_word(out, " ")?;
    push_wide(out, n)?;
    push_word(out, "\n")
}

/// How the attempts ended.
fn push_endings(out: &mut Text, replies: &[ReplyLine]) -> Result<(), NoMemory>
    ensures { OnOk result (out.new ≡ out.old ++ ending_lines replies.now) }
{
    push_number_line(out, "ok", successes(replies) as u64)?;
    push_number_line(out, "refused", refusals(replies) as u64)?;
    push_number_line(out, "ambiguous", ambiguities(replies) as u64)?;
    push_number_line(out, "pending", pendings(replies) as u64)
}

/// The commands and their attempts.
fn push_answer_counts(out: &mut Text, replies: &[ReplyLine]) -> Result<(), NoMemory>
    ensures { OnOk result (out.new ≡ out.old ++ answer_counts replies.now) }
{
    let commands = commands_among(out.alloc(), replies)?;
    push_number_line(out, "commands", commands as u64)?;
    push_number_line(out, "attempts", replies.len() as u64)?;
    push_endings(out, replies)
}

/// The ranges and the records in them.
fn push_range_counts(out: &mut Text, ranges: &[RangeView]) -> Result<(), NoMemory>
    ensures { OnOk result (out.new ≡ out.old ++ range_counts ranges.now) }
{
    push_number_line(out, "ranges", ranges.len() as u64)?;
    push_wide_line(out, "places", places(ranges))?;
    push_wide_line(out, "passed", passes(ranges))
}

/// The ten lines.
fn push_counts(out: &mut Text, view: &View) -> Result<(), NoMemory>
    ensures { OnOk result (out.new ≡ out.old ++ summary view.now) }
{
    push_answer_counts(out, view.replies.as_slice())?;
    push_range_counts(out, view.ranges.as_slice())?;
    push_number_line(out, "messages", view.messages)
}

/// Appends the summary, ten lines of a word and a number: how many different commands the replies
/// name, how many attempts there are, a reply being one, and how many of them are ok, refused,
/// ambiguous and pending (a command whose tries ended counts as refused, one that was never sent as
/// pending); how many ranges there are, and how many entries in them took effect and were passed
/// over; and how many messages were sent.
pub fn write_summary(view: &View, out: &mut Text) -> Result<(), NoMemory>
    ensures ok { OnOk result (out.new ≡ out.old ++ summary view.now) }
    ensures err { OnErr result (out.new ≡ out.old) }
{
    let mut text = Text::new(out.alloc());
    push_counts(&mut text, view)?;
    out.append(text)
}
