//! A client of a race at the nodes: its desk stands at a switch with a seat, puts what was admitted into
//! the buffers with a pass, and takes units of a quota with a share.
//!
//! ```text
//! let rights = Rights {
//!     seat: switch.split(&mut first_seat, client),
//!     pass: buffers.split(&mut first_pass),
//!     share: quota.split(&mut first_share),
//! };
//! // on the client's thread: all its requests, one after another
//! let left = send_all(rt, alloc, shared, rights, gate, client);
//! // at the end
//! switch.join(&mut first_seat, left.rights.seat);
//! let finals = left.finals?;          // how it leaves each command
//! ```
//!
//! What a client leaves is told by its seat: the tries that its right keeps, with their ends, and
//! whether it heard that no more is to be waited for.
#![tactic(auto)]

mod clients;
mod desks;
pub mod laws;
mod origins;
mod rights;
mod seats;
mod widths;

pub use clients::send_all;
pub use desks::SwitchDesk;
pub use origins::Origin;
pub use rights::{Left, Rights, Shared};
