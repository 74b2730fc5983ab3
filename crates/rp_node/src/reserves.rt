//! Two lists that a collect fills. Between collects they keep their room, so that a collect that
//! finds nothing takes no memory.
ghost use Rattle.std.specs.Prelude.{◌≡◌, OnOk, []};
ghost use Rattle.rp_node.specs.Reserves.{AreReady};

use rp_base::{BUFFER_CAPACITY, Items, NoMemory};
use std::alloc::Global;

/// What the buffer end gives, and a copy of it for the journal.
#[derive(Drop)]
pub struct Reserves {
    pub(crate) taken: Items,
    pub(crate) kept: Items,
}

impl Reserves {
    /// Empty lists without room. It takes no memory.
    pub(crate) fn new(alloc: Global) -> Reserves
        ensures { result.taken.list ≡ [] }
    {
        Reserves {
            taken: Items::new(alloc),
            kept: Items::new(alloc),
        }
    }

    /// Makes both empty, with room for all that a buffer gives at once. Where they have it they take
    /// no memory.
    pub(crate) fn make_ready(&mut self) -> Result<(), NoMemory>
        ensures { OnOk result (AreReady self.new.taken self.new.kept) }
    {
        self.taken.keep_front(0);
        self.kept.keep_front(0);
        self.taken.make_room(BUFFER_CAPACITY)?;
        self.kept.make_room(BUFFER_CAPACITY)
    }
}
