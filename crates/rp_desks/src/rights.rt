//! What clients share, and what each has of its own.
ghost use Rattle.std.specs.Prelude.{◌≡◌};
ghost use Rattle.rp_quota.specs.Shares.{capacity_of};

use rp_base::NoMemory;
use rp_bufcore::BufferEnd;
use rp_buffer::{Pass, SlotTable};
use rp_clients::Finals;
use rp_quota::{Quota, Share};
use rp_switch::{Seat, Switch};

/// What all clients of a race share: the nodes, their buffers, and a quota of so many units.
pub struct Shared<'a, E: BufferEnd + Drop> {
    pub switch: &'a Switch<E>,
    pub buffers: &'a SlotTable,
    pub quota: &'a Quota,
    pub capacity: u64,
    pub ghost capacity_is: { capacity ≡ capacity_of quota.now },
}

/// What one client has of its own at each of these.
#[derive(Drop)]
pub struct Rights<E: BufferEnd + Drop> {
    pub seat: Seat<E>,
    pub pass: Pass,
    pub share: Share,
}

/// How a client leaves its commands, or that memory was refused; and its rights.
#[derive(Drop)]
pub struct Left<E: BufferEnd + Drop> {
    pub finals: Result<Finals, NoMemory>,
    pub rights: Rights<E>,
}
