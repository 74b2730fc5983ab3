//! Nodes and reply cells, each behind a word, so that threads take turns at them without a lock: a
//! node is taken by one exchange, changed by lawful events, and given back; an answer is posted for
//! a client and fetched, each by one exchange and one swap.
//!
//! ```text
//! let (switch, mut first) = Switch::new(alloc, nodes, rules)?;     // nodes as they start
//! let mut client = switch.split(&mut first, 1);                    // a seat with client 1's right
//! let mut worker = switch.split_worker(&mut first, 0, 2);          // with worker 0's nodes' rounds
//! // on the client's thread
//! if let Ok(mut taken) = switch.try_take(&mut client, node) {      // Busy: another seat has it
//!     taken.node.step(Event::Admit { range, id, request })?;       // its next try
//!     switch.give(&mut client, taken);
//! }
//! if let Ok(answer) = switch.try_fetch(&mut client, 1) { .. }      // Empty: none was posted
//! // on the worker's thread
//! let taken = switch.try_take(&mut worker, node)?;                 // deliveries, a tick, a round ..
//! switch.give(&mut worker, taken);
//! switch.try_post(&mut worker, 1, answer)?;                        // CellBusy: not yet fetched
//! // at the end
//! switch.join(&mut first, client);
//! switch.join(&mut first, worker);
//! let nodes = switch.close(alloc, first)?;
//! ```
//!
//! What a seat knows is a part of what is proved: the nodes as it last took them, its clients'
//! tries, its rights. After every step there is one lawful schedule, which keeps to the rules of the
//! race, of which the nodes at home are the nodes, with those that are out as they were taken.
#![tactic(auto)]

mod cells;
mod closes;
mod faults;
mod known;
mod openings;
mod plays;
mod rule;
mod seats;
mod shows;
mod slots;
mod switch;
mod takes;
mod terms;

pub use faults::{Busy, CellBusy};
pub use known::Known;
pub use rule::Law;
pub use slots::Slot;
pub use switch::{Seat, Switch, Taken};
pub use terms::Terms;
