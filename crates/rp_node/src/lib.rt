//! A node: its replicas, what it keeps of all that happened to it, and its events, each of which is
//! planned for as much memory as it may want, and then done.
//!
//! ```text
//! let mut node = Node::start(id, nodes, end)?;          // end: where its buffers are collected
//! match node.step(Event::Admit { range, id, request })? { // at want of memory nothing happened
//!     EventAnswer::Admitted => insert(item_of(id)),       // by any producer, into the buffer
//!     EventAnswer::Refused(refusal) => try_elsewhere(refusal),
//!     ..
//! }
//! for message in messages_to(id) {
//!     node.step(Event::Deliver { from, range, number, message })?;
//! }
//! node.step(Event::Tick)?;
//! for range in live {
//!     node.step(Event::Collect { range })?;              // what was inserted comes in
//!     node.step(Event::Flush { range })?;                // lease indexes, and on to Raft
//! }
//! for range in live {
//!     while has_entry(node.seen(range)) {
//!         node.step(Event::Apply { range })?;
//!     }
//! }
//! node.step(Event::Round)?;
//! // node.sent(): what it sent, numbered from 1; node.outcomes(): the attempts that ended
//! ```
//!
//! Sent list, journal and outcomes only grow. A node that is full (`is_full`) takes no event more.
#![tactic(auto)]

mod briefs;
mod collects;
mod cores;
mod deliveries;
mod events;
mod flushes;
mod journals;
mod logs;
mod nodes;
mod producers;
mod quiet;
mod reserves;
mod rounds;
mod seats;
mod steps;
mod ticks;
mod worlds;

pub use journals::Journal;
pub use logs::{Outcomes, Requests, Sent};
pub use nodes::Node;
pub use seats::Seen;
pub use worlds::Nodes;
