//! The rules of a race once more: one copy is for the switch, which keeps it to its close.
ghost use Rattle.std.specs.Prelude.{◌≡◌, IfOk};

use rp_base::{NoMemory, Seq};
use rp_race::{ClientRequests, Handover, RaceRules};
use rp_request::Request;
use std::alloc::Global;

/// A copy of requests.
fn copied_requests(alloc: Global, requests: &[Request]) -> Result<Seq<Request>, NoMemory>
    ensures { IfOk result (λ copy. copy ≡ requests.now) }
{
    let mut copy = Vec::new(alloc);
    copy.extend_from_slice(requests)?;
    Ok(Seq::from_vec(copy))
}

/// A copy of what each client sends.
fn copied_clients(
    alloc: Global,
    clients: &[ClientRequests],
) -> Result<Seq<ClientRequests>, NoMemory>
    ensures { IfOk result (λ copy. copy ≡ clients.now) }
{
    let mut copy = Vec::with_capacity(alloc, clients.len())?;
    for sent in clients {
        let requests = copied_requests(alloc, sent.requests.as_slice())?;
        copy.push(ClientRequests { requests })?;
    }
    Ok(Seq::from_vec(copy))
}

/// A copy of handovers.
fn copied_handovers(alloc: Global, handovers: &[Handover]) -> Result<Seq<Handover>, NoMemory>
    ensures { IfOk result (λ copy. copy ≡ handovers.now) }
{
    let mut copy = Vec::new(alloc);
    copy.extend_from_slice(handovers)?;
    Ok(Seq::from_vec(copy))
}

/// A copy of the rules of a race.
pub(crate) fn copied_rules(alloc: Global, rules: &RaceRules) -> Result<RaceRules, NoMemory>
    ensures { IfOk result (λ copy. copy ≡ rules.now) }
{
    Ok(RaceRules {
        loss: rules.loss,
        salt: rules.salt,
        requests: copied_clients(alloc, rules.requests.as_slice())?,
        transfers: copied_handovers(alloc, rules.transfers.as_slice())?,
    })
}
