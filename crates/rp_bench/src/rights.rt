//! What workers share, and what each has of its own.
use crate::boards::Board;
use rp_bufcore::BufferEnd;
use rp_buffer::{Pass, SlotTable};
use rp_switch::{Seat, Switch};

/// What all workers of a race share: the nodes, their buffers, and the board.
#[derive(Drop)]
pub struct WorkerShared<'a, E: BufferEnd + Drop> {
    pub switch: &'a Switch<E>,
    pub buffers: &'a SlotTable,
    pub board: &'a Board,
}

/// What one worker has of its own at these.
#[derive(Drop)]
pub struct WorkerRights<E: BufferEnd + Drop> {
    pub seat: Seat<E>,
    pub pass: Pass,
}

/// What a worker leaves: its rights, and whether memory was refused to it.
#[derive(Drop)]
pub struct WorkerBack<E: BufferEnd + Drop> {
    pub rights: WorkerRights<E>,
    pub is_short: bool,
}
