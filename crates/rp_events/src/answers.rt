//! What an event answers, and what it hands out.

use rp_base::{CmdId, Lease, LeaseAsk, NodeId, Seq, Tick, Value};
use rp_raftstep::Message;
use rp_request::{Outcome, Refusal};

/// What an event answers.
#[derive(Clone, Copy, PartialEq, Eq)]
pub enum EventAnswer {
    /// It was done.
    Done,
    /// There was nothing to do.
    Nothing,
    /// The attempt holds its latches and waits for a lease index.
    Admitted,
    /// This lease ask is to be put in the proposal buffer.
    Asked(LeaseAsk),
    /// It was refused; an attempt that is refused so never takes effect.
    Refused(Refusal),
    /// Another node's lease has not run out at the node's tick.
    LeaseHeld { lease: Lease, ticks: Tick },
    /// The applied value, `None` for no value, and the applied index.
    Value { value: Option<Value>, applied: u64 },
}

/// How an attempt ended that had been admitted.
#[derive(Clone, Copy, PartialEq, Eq)]
pub struct Ended {
    pub id: CmdId,
    pub outcome: Outcome,
}

/// Ends of attempts, in the order in which they came.
pub type Outcomes = Seq<Ended>;

/// What an event of a replica hands out. `S` is the type of snapshots.
#[derive(Drop)]
pub struct Effects<S> {
    pub answer: EventAnswer,
    /// Receiver and message, in the order in which they are sent.
    pub messages: Seq<(NodeId, Message<S>)>,
    /// The attempts that the event ended: at a flush in the order of the inbox, else in order of
    /// admission.
    pub outcomes: Outcomes,
}
