//! A switch of five nodes and four clients.
ghost use Rattle.std.specs.Prelude.{◌≡◌, ◌≤◌, ◌∷◌, [], IfOk, length};
ghost use Rattle.rp_base.specs.Keys.{IsKey};
ghost use Rattle.rp_request.specs.declared.requests.Request.TheVariants.{Del};
ghost use Rattle.rp_switch.specs.Openings.{AreFirst};
ghost use Rattle.rp_switch.specs.Rules.{clients_of, first};
ghost use Rattle.rp_switch.specs.Seats.{terms_of, known_by, IsSeatOf};
ghost use Rattle.rp_switch_calls.specs.Firsts.{four_removals};

use rp_base::{Key, NoMemory, NodeId, Seq};
use rp_bufcore::PlainEnd;
use rp_node::Node;
use rp_race::{ClientRequests, RaceRules};
use rp_request::Request;
use rp_switch::{Seat, Switch};
use std::alloc::Global;
use std::test::Fail;

pub(crate) fn key(text: &str) -> Result<Key, Fail> {
    Ok(Key::read(text.as_bytes()).ok().ok_or("a key")?)
}

/// A key is one.
pub(crate) fn is_key(key: Key)
    ensures { IsKey key }
{}

/// The node that serves all at the start.
pub(crate) fn one() -> NodeId
    ensures { result ≡ 1 }
{
    NodeId::new(1).unwrap()
}

/// Five nodes as they start.
fn five_nodes(alloc: Global) -> Result<Vec<Node<PlainEnd>>, NoMemory>
    ensures { IfOk result (λ v. (length v.items ≡ 5) × AreFirst v.items) }
{
    let start = |number: u8| -> Node<PlainEnd> {
        Node::start(alloc, NodeId::new(number).unwrap(), 5, PlainEnd::new())
    };
    Ok(Vec::from_array(alloc, [start(1), start(2), start(3), start(4), start(5)])?)
}

/// A client that is to remove the key.
fn removal(alloc: Global, key: Key) -> Result<ClientRequests, NoMemory>
    ensures { IfOk result (λ c. c.requests ≡ Del key ∷ []) }
{
    let requests = Seq::from_vec(Vec::from_array(alloc, [Request::Del { key }])?);
    Ok(ClientRequests { requests })
}

/// The rules of a race in which each of four clients is to remove the key.
fn rules(alloc: Global, key: Key) -> Result<RaceRules, NoMemory>
    ensures { IfOk result (λ r. r.requests ≡ four_removals key) }
{
    let (one, two) = (removal(alloc, key)?, removal(alloc, key)?);
    let (three, four) = (removal(alloc, key)?, removal(alloc, key)?);
    let clients = Vec::from_array(alloc, [one, two, three, four])?;
    Ok(RaceRules {
        loss: 0,
        salt: 0,
        requests: Seq::from_vec(clients),
        transfers: Seq::new(alloc),
    })
}

/// The switch, and its first seat.
pub(crate) fn opened(
    alloc: Global,
    key: Key,
) -> Result<(Switch<PlainEnd>, Seat<PlainEnd>), NoMemory>
    ensures seat { IfOk result (λ r. IsSeatOf r.0 r.1) }
    ensures known { IfOk result (λ r. known_by r.1 ≡ first (terms_of r.0)) }
    ensures nodes { IfOk result (λ r. (terms_of r.0).nodes ≡ 5) }
    ensures requests { IfOk result (λ r. (terms_of r.0).rules.requests ≡ four_removals key) }
    ensures clients { IfOk result (λ r. clients_of (terms_of r.0) ≡ 4) }
{
    let rules = rules(alloc, key)?;
    let nodes = five_nodes(alloc)?;
    Switch::new(alloc, nodes, rules)
}
