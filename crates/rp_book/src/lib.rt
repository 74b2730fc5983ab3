//! What a play keeps beside its nodes: the book of attempts that clients made, and which messages were
//! handled.
#![tactic(auto)]

mod bookings;
mod books;
mod handling;
mod keeps;
mod queues;
mod stores;
mod waits;

pub use bookings::{Booked, Draw};
pub use books::Book;
pub use handling::Handled;
pub use queues::{QUEUES, Queues};
pub use waits::queue_of;
