//! The threads of a race: one for each client that has requests and one for each worker, over one
//! switch, its buffers and a quota. All that was handed out to them is joined again at the end.
//!
//! ```text
//! let (switch, seat) = Switch::new(alloc, nodes, rules)?;
//! let (quota, share) = Quota::new(alloc, capacity)?;
//! let shared = Shared { switch: &switch, buffers: &buffers, quota: &quota, capacity };
//! let back = run(rt, alloc, &shared, Rights { seat, pass, share }, gate, workers);
//! if back.is_short { .. }                     // memory was refused to some thread
//! let nodes = switch.close(alloc, back.rights.seat)?;
//! ```
//!
//! The workers are started first, then the clients. Where no thread can be made for a client, it runs
//! in the caller's thread once the others have ended; no answer tells of that. Where none can be made
//! for a worker, the clients wait for the rounds of its nodes.
#![tactic(auto)]

mod backs;
mod clients;
mod runs;
mod workers;

pub use backs::Back;
pub use runs::run;
