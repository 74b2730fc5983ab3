//! Where the lease asks of a worker's handovers go.
ghost use Rattle.std.specs.Prelude.{◌≡◌, ◌<◌};
ghost use Rattle.rp_bench.specs.Whence.{IsPassing};

use crate::origins::Origin;
use rp_base::{Item, NodeId, RangeId};
use rp_buffer::{InsertFault, Pass, SlotTable};
use rp_serving::Inserts;
use std::marker::PhantomData;
use std::sync::Wait;
use std::thread::yield_now;

/// The buffers, with the worker's pass.
#[derive(Drop)]
pub struct Asks<'a, R: Wait, K: Origin> {
    pub(crate) rt: &'a R,
    pub(crate) buffers: &'a SlotTable,
    pub(crate) pass: Pass,
    pub(crate) from: PhantomData<K>,
    pub ghost passing: { IsPassing K.from buffers.now pass },
}

impl<'a, R: Wait, K: Origin> Asks<'a, R, K> {
    /// Tries once: whether the item is put, or there is no room for it.
    fn is_settled(&mut self, buffer: u8, item: &Item) -> bool
        requires { buffer < 40 }
    {
        match self.buffers.insert(&mut self.pass, buffer, *item) {
            Ok(()) | Err(InsertFault::Full { .. }) => true,
            Err(InsertFault::Raced { .. }) => false,
        }
    }
}

impl<'a, R: Wait, K: Origin> Inserts for Asks<'a, R, K> {
    /// Tries again where another thread came between.
    fn insert(&mut self, node: NodeId, range: RangeId, item: Item) {
        let buffer = 8 * (node.get() - 1) + range.get();
        for _ in self.rt.forever() {
            if self.is_settled(buffer, &item) {
                return;
            }
            yield_now();
        }
    }
}
