//! Where a race can be held from outside.

/// Calls between the steps of clients and workers, by which a test holds one of them while others
/// go on. Nothing that is claimed rests on a gate.
pub trait Gate {
    /// Before each admission of a client's command.
    fn before(&self, client: u16, seq: u32);

    /// At the end of a client's command.
    fn after(&self, client: u16, seq: u32);

    /// In each round of a worker, while it holds no node.
    fn round(&self, worker: u8);
}

/// A gate that does nothing.
#[derive(Clone, Copy)]
pub struct PlainGate;

impl Gate for PlainGate {
    fn before(&self, _client: u16, _seq: u32) {}

    fn after(&self, _client: u16, _seq: u32) {}

    fn round(&self, _worker: u8) {}
}
