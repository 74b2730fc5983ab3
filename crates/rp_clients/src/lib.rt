//! What a client asks of the nodes, and in which order: a desk at which it tries one command after
//! another, what each of its calls there means, and the client itself.
#![tactic(auto)]

mod answers;
mod clients;
mod courses;
mod desks;
mod finals;
mod gates;
mod requests;
mod tries;
mod waits;

pub use answers::{AdmitFault, Answer, Empty};
pub use clients::drive;
pub use desks::Desk;
pub use finals::{CommandEnd, Final, Finals};
pub use gates::{Gate, PlainGate};
pub use requests::tries_again;
