//! The rules of a race, from the lines of its script.
ghost use Rattle.std.specs.Prelude.{◌≡◌, ◌≤◌, ◌<◌, ◌++◌, ◌^◌, [], length, replicate, filter_map, option_to_list, IfOk, OnOk};
ghost use Rattle.rp_racelines.specs.Rules.{client_in, clients_in, handover_in, requests_in, rules_of, sent_after, with_request};

use rp_base::{NoMemory, Seq};
use rp_race::{ClientRequests, Handover, RaceRules};
use rp_request::Request;
use rp_script::{NumberedLine, ScriptLine};
use std::alloc::Global;

/// The client of a line that sends a request, 0 for any other line.
fn client_in(line: &ScriptLine) -> u16
    ensures { result ≡ client_in line.now }
{
    match *line {
        ScriptLine::Send { client, .. } => client,
        _ => 0,
    }
}

/// The greatest number of a client that sends a request.
fn clients_in(lines: &[NumberedLine]) -> u16
    ensures greatest { result ≡ clients_in lines.now }
    ensures few { result < 2 ^ 16 }
{
    let mut greatest = 0;
    for line in lines {
        greatest = greatest.max(client_in(&line.line));
    }
    greatest
}

/// So many clients that send nothing.
fn nothing_sent(alloc: Global, clients: u16) -> Result<Vec<ClientRequests>, NoMemory>
    ensures { IfOk result (λ sent. sent.items ≡ replicate clients (record { requests = [] })) }
{
    let mut sent = Vec::with_capacity(alloc, usize::from(clients))?;
    for _client in 0..clients {
        sent.push(ClientRequests {
            requests: Seq::new(alloc),
        })?;
    }
    Ok(sent)
}

/// A further request of a client.
fn push_request(alloc: Global, sent: &mut ClientRequests, request: Request) -> Result<(), NoMemory>
    ensures { OnOk result (sent.new ≡ with_request request sent.old) }
{
    let mut requests = std::mem::replace(&mut sent.requests, Seq::new(alloc)).into_vec();
    requests.extend_from_slice(std::slice::from_ref(&request))?;
    sent.requests = Seq::from_vec(requests);
    Ok(())
}

/// Puts the request of a line behind those of its client.
fn take_line(alloc: Global, sent: &mut [ClientRequests], line: &ScriptLine) -> Result<(), NoMemory>
    requires { client_in line.now ≤ length sent.old }
    ensures { OnOk result (sent.new ≡ sent_after line.now sent.old) }
{
    match *line {
        ScriptLine::Send {
            client,
            request,
            ..
        } if client > 0 => push_request(alloc, &mut sent[usize::from(client) - 1], request),
        _ => Ok(()),
    }
}

/// Puts the requests of the lines behind those of their clients.
fn take_lines(
    alloc: Global,
    sent: &mut [ClientRequests],
    lines: &[NumberedLine],
) -> Result<(), NoMemory>
    requires { sent.old ≡ replicate (clients_in lines.now) (record { requests = [] }) }
    ensures { OnOk result (sent.new ≡ requests_in lines.now) }
{
    for line in lines {
        take_line(alloc, sent, &line.line)?;
    }
    Ok(())
}

/// What each client sends.
fn requests_in(alloc: Global, lines: &[NumberedLine]) -> Result<Seq<ClientRequests>, NoMemory>
    ensures sent { IfOk result (λ sent. sent ≡ requests_in lines.now) }
    ensures few { IfOk result (λ sent. length sent < 2 ^ 16) }
{
    let mut sent = nothing_sent(alloc, clients_in(lines))?;
    take_lines(alloc, &mut sent, lines)?;
    Ok(Seq::from_vec(sent))
}

/// The handover of a line.
fn handover_in(line: &ScriptLine) -> Option<Handover>
    ensures { result ≡ handover_in line.now }
{
    match *line {
        ScriptLine::Transfer { node, range, to } => Some(Handover { node, range, to }),
        _ => None,
    }
}

/// Puts a handover behind the others, if there is one.
fn push_handover(handovers: &mut Vec<Handover>, next: Option<Handover>) -> Result<(), NoMemory>
    ensures { OnOk result (handovers.new.items ≡ handovers.old.items ++ option_to_list next) }
{
    if let Some(handover) = next {
        handovers.push(handover)?;
    }
    Ok(())
}

/// The handovers of the lines, in their order.
fn handovers_in(alloc: Global, lines: &[NumberedLine]) -> Result<Seq<Handover>, NoMemory>
    ensures { IfOk result (λ hs. hs ≡ filter_map (λ l. handover_in l.line) lines.now) }
{
    let mut handovers = Vec::new(alloc);
    for line in lines {
        push_handover(&mut handovers, handover_in(&line.line))?;
    }
    Ok(Seq::from_vec(handovers))
}

/// The rules of the race that these lines describe, with this loss and salt: what each client sends, by
/// number from 1 up to the greatest that has a `send` line, and which leases are to move. A client
/// between them that no line names sends nothing.
pub fn rules_of(
    alloc: Global,
    lines: &[NumberedLine],
    loss: u8,
    salt: u64,
) -> Result<RaceRules, NoMemory>
    ensures rules { IfOk result (λ rules. rules ≡ rules_of loss salt lines.now) }
    ensures clients { IfOk result (λ rules. length rules.requests < 2 ^ 16) }
{
    Ok(RaceRules {
        loss,
        salt,
        requests: requests_in(alloc, lines)?,
        transfers: handovers_in(alloc, lines)?,
    })
}
