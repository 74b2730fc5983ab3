//! What waits in a proposal buffer.
use crate::ids::CmdId;
use crate::leases::LeaseAsk;
use crate::lists::Grown;

/// What waits in a proposal buffer: a command's attempt, or a lease ask.
#[derive(Clone, Copy, Debug, PartialEq, Eq, Hash)]
pub enum Item {
    Write(CmdId),
    Lease(LeaseAsk),
}

/// Items in order, with spare room.
pub type Items = Grown<Item>;
