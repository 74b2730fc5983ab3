//! How a race is run, and what it leaves.
use rp_buffer::SlotEnd;
use rp_node::Nodes;
use rp_racelines::Verdict;
use rp_request::Replies;

/// On how many nodes a race is run, by how many workers, and how many units its clients share.
#[derive(Clone, Copy, PartialEq, Eq)]
pub struct Setting {
    pub nodes: u8,
    pub workers: u8,
    pub quota: u64,
}

/// The nodes of a race at its close, the reply lines of its commands, and how it ended.
#[derive(Drop)]
pub struct Raced<'a> {
    pub nodes: Nodes<SlotEnd<'a>>,
    pub replies: Replies,
    pub verdict: Verdict,
}
