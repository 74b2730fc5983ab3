//! A worker of a race: the bench at which it serves its nodes, over a switch, and its whole run.
//!
//! ```text
//! let board = Board::new(clients);
//! let shared = WorkerShared { switch: &switch, buffers: &buffers, board: &board };
//! let rights = WorkerRights {
//!     seat: switch.split_worker(&mut first_seat, worker, workers),
//!     pass: buffers.split(&mut first_pass),
//! };
//! // on the worker's thread: round after round of its nodes, until the clients have ended
//! let back = run_worker(rt, alloc, &shared, rights, gate, worker, workers);
//! // at the end
//! switch.join(&mut first_seat, back.rights.seat);
//! if back.is_short { .. }             // memory was refused to it
//! // on a client's thread
//! board.end(client);                  // it has ended
//! board.stop();                       // memory was refused to it: the others are not to go on
//! ```
//!
//! Nothing that is claimed of a race rests on the board: by it a worker only knows when to leave off.
#![tactic(auto)]

mod asks;
mod benches;
mod boards;
mod calls;
mod origins;
mod patience;
mod rights;
mod rows;
mod seats;
mod stations;
mod visits;
mod workers;

pub use asks::Asks;
pub use benches::SwitchBench;
pub use boards::Board;
pub use calls::Call;
pub use origins::Origin;
pub use rights::{WorkerBack, WorkerRights, WorkerShared};
pub use seats::WorkerSeat;
pub use stations::Station;
pub use workers::run_worker;
