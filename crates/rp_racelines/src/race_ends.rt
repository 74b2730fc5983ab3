//! How a race ended, by its nodes at the close.
ghost use Rattle.std.specs.Prelude.{◌≡◌, ◌↔◌, ℕ, ◌*◌, ◌+◌, ◌<◌, ◌≤◌, ◌^◌, IsTrue, nat_le, length, map, count_by};
ghost use Rattle.std.specs.List.{list_all, list_any};
ghost use Rattle.rp_events.specs.Buffered.{is_live};
ghost use Rattle.rp_events.specs.Lawful.{IsReached};
ghost use Rattle.rp_events.specs.Nodes.{is_full, seat};
ghost use Rattle.rp_race.specs.Ends.{has_live, patience, IsWaitedOut};
ghost use Rattle.rp_racelines.specs.Judging.{is_open_line, has_rounds, whole_after, whole_behind, ends_whole};
ghost use Rattle.rp_racelines.specs.Replies.{race_replies};
ghost use Rattle.rp_racelines.specs.Verdicts.{command_count, AreWhole, EndsBy};

use crate::reply_lines::MOST_TRIES;
use crate::verdicts::Verdict;
use rp_base::RangeId;
use rp_bufcore::BufferEnd;
use rp_clients::tries_again;
use rp_events::PastEvent;
use rp_node::{Journal, Node, Nodes, Seen};
use rp_race::RaceRules;
use rp_request::{End, Outcome, Replies, ReplyLine};

/// Whether the command of a reply line is open.
fn is_open(line: &ReplyLine) -> bool
    ensures { result ≡ is_open_line line.now }
{
    match &line.end {
        End::Unsent | End::Outcome(Outcome::Pending) => true,
        End::Outcome(Outcome::Refused(refusal)) => {
            line.attempt < MOST_TRIES && tries_again(refusal)
        }
        End::Outcome(Outcome::Success(_) | Outcome::Ambiguous(_)) | End::Tries(_) => false,
    }
}

/// How many commands are open.
fn count_open(lines: &[ReplyLine]) -> u32
    requires { length lines.now < 2 ^ 32 }
    ensures { result ≡ count_by is_open_line lines.now }
{
    let mut count = 0;
    for line in lines {
        if is_open(line) {
            count += 1;
        }
    }
    count
}

/// How many rounds are waited for an end.
fn patience(rules: &RaceRules) -> u64
    requires { command_count rules.now < 2 ^ 32 }
    ensures { result ≡ patience rules.now }
{
    let mut commands = 0;
    for sent in rules.requests.as_slice() {
        commands += sent.requests.len() as u64;
    }
    20_000 + 40 * commands
}

/// Whether a node has a live replica of a range.
fn is_live<B: BufferEnd + Drop>(node: &Node<B>, range: RangeId) -> bool
    ensures { result ≡ is_live (seat node.now.node range) }
{
    match node.seen(range) {
        Seen::Live(_) => true,
        Seen::Removed(_) | Seen::Absent => false,
    }
}

/// Whether a node has a live replica.
fn has_live<B: BufferEnd + Drop>(node: &Node<B>) -> bool
    requires { length node.now.node.seats ≡ 8 }
    ensures { result ≡ has_live node.now.node }
{
    for number in 0..8 {
        if is_live(node, RangeId::new(number).unwrap()) {
            return true;
        }
    }
    false
}

/// Whether some node is full.
fn some_full<B: BufferEnd + Drop>(nodes: &[Node<B>]) -> bool
    ensures { result ≡ list_any (λ h. is_full h.node) nodes.now }
{
    nodes.iter().any(|node| node.is_full())
}

/// Whether each node with a live replica has had so many rounds.
fn have_rounds<B: BufferEnd + Drop>(nodes: &[Node<B>], rounds: u64) -> bool
    requires { IsReached (length nodes.now) (map (λ h. h.node) nodes.now) }
    ensures { result ≡ list_all (has_rounds rounds) (map (λ h. h.node) nodes.now) }
{
    for node in nodes {
        if has_live(node) && node.rounds() < rounds {
            return false;
        }
    }
    true
}

/// Whether an attempt of some node was pending through so many of its rounds.
fn some_waited<B: BufferEnd + Drop>(nodes: &[Node<B>], rounds: u64) -> bool
    ensures { result ≡ list_any (λ h. nat_le rounds h.node.waited) nodes.now }
{
    nodes.iter().any(|node| rounds <= node.waited())
}

/// Whether no more is waited for.
fn is_waited_out<B: BufferEnd + Drop>(nodes: &[Node<B>], rounds: u64) -> bool
    requires { IsReached (length nodes.now) (map (λ h. h.node) nodes.now) }
    ensures { IsTrue result ↔ IsWaitedOut rounds (map (λ h. h.node) nodes.now) }
{
    have_rounds(nodes, rounds) && some_waited(nodes, rounds)
}

/// How a race ended, by its nodes and its reply lines.
fn verdict_of<B: BufferEnd + Drop>(
    rules: &RaceRules,
    nodes: &[Node<B>],
    lines: &[ReplyLine],
) -> Verdict
    requires reached { IsReached (length nodes.now) (map (λ h. h.node) nodes.now) }
    requires commands { command_count rules.now < 2 ^ 32 }
    requires lines { lines.now ≡ race_replies rules.now (map (λ h. h.node) nodes.now) }
    ensures { EndsBy rules.now (map (λ h. h.node) nodes.now) result }
{
    if some_full(nodes) {
        return Verdict::GoesOn;
    }
    let unended = count_open(lines);
    if unended == 0 {
        return Verdict::Ok;
    }
    if is_waited_out(nodes, patience(rules)) {
        return Verdict::Unfinished { unended };
    }
    Verdict::GoesOn
}

/// How a race ended, by its nodes at the close and its reply lines. It takes no memory.
pub fn judge<B: BufferEnd + Drop>(rules: &RaceRules, nodes: &Nodes<B>, replies: &Replies) -> Verdict
    requires reached { IsReached (length nodes.now) (map (λ h. h.node) nodes.now) }
    requires commands { command_count rules.now < 2 ^ 32 }
    requires replies { replies.now ≡ race_replies rules.now (map (λ h. h.node) nodes.now) }
    ensures { EndsBy rules.now (map (λ h. h.node) nodes.now) result }
{
    verdict_of(rules, nodes.as_slice(), replies.as_slice())
}

/// Whether a node is between two rounds behind an event, where this says whether it was before.
fn whole_after(whole: bool, event: &PastEvent) -> bool
    ensures { result ≡ whole_after whole event.now }
{
    match event {
        PastEvent::Admit { .. } => whole,
        PastEvent::Round { .. } => true,
        _ => false,
    }
}

/// Whether the last round of these events has ended.
fn whole_behind(events: &[PastEvent]) -> bool
    ensures { result ≡ whole_behind events.now }
{
    let mut whole = true;
    for event in events {
        whole = whole_after(whole, event);
    }
    whole
}

/// Whether the last round of a journal has ended.
fn ends_whole(journal: &Journal) -> bool
    ensures { result ≡ ends_whole journal.now.list }
{
    whole_behind(journal.events())
}

/// Whether no round of these nodes was broken off.
fn are_whole<B: BufferEnd + Drop>(nodes: &[Node<B>]) -> bool
    ensures { result ≡ list_all (λ n. ends_whole n.journal) (map (λ h. h.node) nodes.now) }
{
    for node in nodes {
        if !ends_whole(node.journal()) {
            return false;
        }
    }
    true
}

/// Whether no round of a node was broken off.
pub fn is_whole<B: BufferEnd + Drop>(nodes: &Nodes<B>) -> bool
    ensures { IsTrue result ↔ AreWhole (map (λ h. h.node) nodes.now) }
{
    are_whole(nodes.as_slice())
}
