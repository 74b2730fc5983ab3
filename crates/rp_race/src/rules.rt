//! What a race is played by.

use rp_base::{NodeId, RangeId, Seq};
use rp_request::Request;

/// What one client sends, in order: its commands are numbered from 1.
#[derive(Drop)]
pub struct ClientRequests {
    pub requests: Seq<Request>,
}

/// A node is to ask that a range's lease goes to another node.
#[derive(Clone, Copy, PartialEq, Eq)]
pub struct Handover {
    pub node: NodeId,
    pub range: RangeId,
    pub to: NodeId,
}

/// What a race is played by: which messages are lost, what the clients send, and which leases are
/// to move.
#[derive(Drop)]
pub struct RaceRules {
    /// Of a hundred messages so many are lost.
    pub loss: u8,
    pub salt: u64,
    /// Those of client 1 stand first.
    pub requests: Seq<ClientRequests>,
    /// In the order of the script.
    pub transfers: Seq<Handover>,
}
