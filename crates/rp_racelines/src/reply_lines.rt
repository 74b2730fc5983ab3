//! The reply lines of a race.
ghost use Rattle.std.specs.Prelude.{◌≡◌, ◌+◌, ◌<◌, ◌≤◌, ◌++◌, ◌∷◌, ◌^◌, [], length, map, Option, IfOk, OnOk};
ghost use Rattle.std.specs.Map.{lookup};
ghost use Rattle.rp_raftstep.specs.RaftState.{nodes_to};
ghost use Rattle.rp_request.specs.declared.outcomes.Outcome.{Outcome};
ghost use Rattle.rp_clients.specs.Finals.{end_by};
ghost use Rattle.rp_events.specs.Worlds.{World};
ghost use Rattle.rp_racelines.specs.Latest.{is_command, AreLatest};
ghost use Rattle.rp_racelines.specs.Replies.{line_of, race_replies, reply_line};
ghost use Rattle.rp_racelines.specs.Verdicts.{command_count};

use crate::attempts::{Attempts, Command, Latest, latest_of};
use rp_base::{NoMemory, Seq};
use rp_bufcore::BufferEnd;
use rp_node::Nodes;
use rp_race::{ClientRequests, RaceRules};
use rp_request::{End, Outcome, Replies, ReplyLine};
use std::alloc::Global;

/// How often a command may be tried.
pub(crate) const MOST_TRIES: u16 = 4096;

/// How a command is left by its latest attempt.
fn end_by(number: u16, outcome: &Outcome) -> End
    ensures { result ≡ end_by number (Some outcome.now) }
{
    match *outcome {
        Outcome::Refused(last) if number == MOST_TRIES => End::Tries(last),
        _ => End::Outcome(*outcome),
    }
}

/// The reply line of a command by what is known of its latest attempt.
fn line_of(client: u16, seq: u32, latest: Option<Latest>) -> ReplyLine
    ensures { result ≡ line_of client seq latest }
{
    match latest {
        None => ReplyLine {
            client,
            seq,
            attempt: 0,
            end: End::Unsent,
        },
        Some(Latest::Attempt { number, outcome }) => ReplyLine {
            client,
            seq,
            attempt: number,
            end: end_by(number, &outcome),
        },
    }
}

/// What is known of a command's latest attempt.
fn known_of(attempts: &Attempts, client: u16, seq: u32) -> Option<Latest>
    ensures { result ≡ lookup (is_command client seq) attempts.now.entries }
{
    attempts.get(&Command { client, seq }).copied()
}

/// Puts the reply line of a command behind the others.
fn push_line(
    lines: &mut Vec<ReplyLine>,
    attempts: &Attempts,
    client: u16,
    seq: u32,
) -> Result<(), NoMemory>
    ensures { OnOk result (lines.new.items ≡ lines.old.items
        ++ line_of client seq (lookup (is_command client seq) attempts.now.entries) ∷ []) }
{
    let line = line_of(client, seq, known_of(attempts, client, seq));
    lines.extend_from_slice(std::slice::from_ref(&line))?;
    Ok(())
}

/// Puts the reply lines of a client's commands, of which there are so many, behind the others.
fn push_client(
    lines: &mut Vec<ReplyLine>,
    attempts: &Attempts,
    client: u16,
    commands: u32,
) -> Result<(), NoMemory>
    ensures { OnOk result ((w : World) → AreLatest w attempts.now.entries
        → lines.new.items ≡ lines.old.items ++ map (reply_line w client) (nodes_to commands)) }
{
    for before in 0..commands {
        push_line(lines, attempts, client, before + 1)?;
    }
    Ok(())
}

/// The reply lines of all clients, by what is known of the latest attempts.
fn lines_of(
    alloc: Global,
    rules: &RaceRules,
    attempts: &Attempts,
) -> Result<Vec<ReplyLine>, NoMemory>
    requires clients { length rules.now.requests < 2 ^ 16 }
    requires commands { command_count rules.now < 2 ^ 32 }
    ensures { IfOk result (λ lines. (w : World) → AreLatest w attempts.now.entries
        → lines.items ≡ race_replies rules.now w) }
{
    let mut lines = Vec::new(alloc);
    let mut client = 0;
    for sent in rules.requests.as_slice() {
        client += 1;
        push_client(&mut lines, attempts, client, sent.requests.len() as u32)?;
    }
    Ok(lines)
}

/// The reply lines of a race, one for each command of its script, by client and number: its latest
/// attempt with its outcome, that the tries have ended, or that it is unsent.
pub fn replies<B: BufferEnd + Drop>(
    alloc: Global,
    rules: &RaceRules,
    nodes: &Nodes<B>,
) -> Result<Replies, NoMemory>
    requires clients { length rules.now.requests < 2 ^ 16 }
    requires commands { command_count rules.now < 2 ^ 32 }
    ensures { IfOk result (λ replies. replies ≡ race_replies rules.now (map (λ h. h.node) nodes.now)) }
{
    let attempts = latest_of(alloc, nodes.as_slice())?;
    let lines = lines_of(alloc, rules, &attempts)?;
    Ok(Seq::from_vec(lines))
}
