//! One replica of a range: what an event makes of it is planned, which may want memory and changes
//! nothing, and then committed, which takes none.
//!
//! ```text
//! let mut plan = replica.plan(event, ticks, round)?; // nothing has changed
//! let right = plan.take_right();                     // a split opens a range: its first state
//! replica.make_room(&plan)?;                         // all room that commit takes
//! let (messages, outcomes) = plan.sizes();           // the caller makes its own room for these
//! if collects {
//!     end.collect(&mut items);                       // at most 16, once all room is made
//!     plan.put_taken(items);
//! }
//! let effects = replica.commit(plan);                // takes no memory: the event has happened
//! ```
//!
//! Ticks that are only counted (`only_counts`, `count_tick`) and answers of peers behind which nothing
//! is sent (`hear`) happen at once, without a plan.
//!
//! The caller (rp_node) keeps what `effects` hands out: the answer, messages with their receivers,
//! and the attempts that ended with their outcomes. Between `plan` and `commit` no other event
//! comes. An `Ask` or `Transfer` answers with an ask, which the caller puts into the buffer, as it
//! does an attempt that was admitted. What a collect took waits until a `Flush` gives it lease
//! indexes and hands it to Raft; `Apply` takes one committed entry.
#![tactic(auto)]

mod admissions;
mod applications;
mod asks;
mod boxed;
mod ends;
mod flushes;
mod messages;
mod moves;
mod payloads;
mod plans;
mod quiet;
mod rafts;
mod refreshes;
mod replicas;
mod snapshots;
mod sources;
mod steps;
mod waits;

pub use boxed::Boxed;
pub use messages::copy_message;
pub use plans::{Application, HandOver, ReplicaPlan, Turn};
pub use replicas::Replica;
