//! A worker's part in a race: what it copies of other nodes for one of its own, and one round of that
//! node, over a switch.
//!
//! ```text
//! let mut mail = Mail::new(alloc, two);                    // nothing has happened to node 2 yet
//! let mut inserts = SlotInserts::new(rt, &table, pass);    // where the asks of its handovers go
//! // each other node is taken for as long as it is copied from
//! let taken = switch.try_take(&mut seat, one)?;
//! let copied = mail.copy_from(&rules, one, &taken.node);
//! switch.give(&mut seat, taken);
//! // then a round, unless another node is more than two rounds behind
//! let mut taken = switch.try_take(&mut seat, two)?;
//! if !mail.is_behind(nodes, taken.node.rounds()) {
//!     let played = play(&seat, &rules, nodes, two, &mut taken.node, &mut mail, &mut inserts);
//! }
//! switch.give(&mut seat, taken);                           // whole, or broken off
//! ```
//!
//! A round: what was copied of the other nodes is delivered, by sender and number; a tick; a collect
//! and a flush for each live range; in every sixteenth round the node's next handover; what waits is
//! applied; and the round ends. It is linear in what it delivers and applies.
#![tactic(auto)]

mod applies;
mod deliveries;
mod events;
mod faults;
mod flushes;
mod handovers;
mod inserts;
mod lanes;
pub mod laws;
mod letters;
mod mails;
mod plays;
mod ranges;
mod turns;

pub use faults::BrokenOff;
pub use inserts::{Inserts, SlotInserts};
pub use lanes::Lane;
pub use letters::Letter;
pub use mails::Mail;
pub use plays::play;
