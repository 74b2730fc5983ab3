//! Proposal buffers that threads share: many producers and one flush for each node, with single
//! atomic steps on the words of one table.
//!
//! ```text
//! let (table, mut first) = SlotTable::new(alloc)?;   // forty buffers: eight ranges of five nodes
//! let flush = table.flusher(table.split(&mut first), node); // the least right: node 1's
//! let mut mine = table.split(&mut first);            // one pass for each thread
//! // a producer
//! while table.insert(&mut mine, buffer, item).is_err() { // Full, or Raced with another
//!     wait_a_little();
//! }
//! // the flush of the node: at most 16 items come, in the order of their places
//! table.collect(&mut flush, buffer, &mut items);
//! // the end: each item that was put was taken or is left, as often as it was put
//! table.join(&mut first, mine);
//! table.join(&mut first, table.retire(flush));
//! let left = table.close(first, alloc)?;
//! ```
//!
//! Buffer `8 * (node - 1) + range` is that of a node and a range. No call but `new` and `close`
//! takes memory, and none waits or takes a lock.
#![tactic(auto)]

mod closes;
mod collects;
mod faults;
mod flush;
mod inserts;
mod keeps;
mod lefts;
mod passes;
mod plays;
mod rights;
mod rule;
mod slot_ends;
mod table;

pub use faults::InsertFault;
pub use flush::FlushPass;
pub use lefts::{Left, LeftItem};
pub use rights::{Keep, Right};
pub use rule::{Hand, Look, Stage};
pub use slot_ends::SlotEnd;
pub use table::{Pass, SlotTable};
