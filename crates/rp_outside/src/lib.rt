//! Devices: where bytes come from and where they go, with what each tells of its bytes and how many
//! faults it had.
#![tactic(auto)]

mod devices;
mod schedules;
mod sinks;
mod sources;
mod tapes;

pub use devices::{Failed, Sink, Source, put_all};
pub use schedules::Schedule;
pub use sinks::{MemorySink, SoundSink, StdSink};
pub use sources::{MemorySource, SoundSource, StdSource};
