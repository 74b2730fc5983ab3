//! Where the snapshots that a leader sends come from.

use rp_apply::ApplyState;
use rp_base::NoMemory;
use rp_raftstep::MakeSnap;
use rp_snapshot::{Snapshot, make};
use std::alloc::Global;

/// What a replica has applied, with the allocator of the snapshots that are made of it.
#[derive(Drop)]
pub struct Source {
    pub(crate) state: ApplyState,
    pub(crate) alloc: Global,
}

impl MakeSnap<Snapshot> for Source {
    ghost index = { λ s. s.state.history.index };

    ghost snapshot = { λ s. s.state.history.state };

    fn applied(&self) -> u64 {
        self.state.index()
    }

    fn make_snap(&self) -> Result<Snapshot, NoMemory> {
        let state = &self.state;
        make(
            self.alloc,
            state.desc(),
            state.lease(),
            state.lai(),
            state.table(),
        )
    }
}
