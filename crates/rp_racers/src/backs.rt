//! What the threads of a race leave.
use rp_bufcore::BufferEnd;
use rp_desks::Rights;

/// The rights of all threads, joined again, and whether memory was refused to any of them.
#[derive(Drop)]
pub struct Back<E: BufferEnd + Drop> {
    pub rights: Rights<E>,
    pub is_short: bool,
}
