//! Messages that were copied.

use rp_events::Parcel;
use rp_snapshot::Snapshot;

/// A copy of a message, with its number among all that its sender has sent, from 1.
#[derive(Drop)]
pub struct Letter {
    pub number: u64,
    pub parcel: Parcel<Snapshot>,
}
