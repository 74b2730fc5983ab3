//! What a desk answers.
use rp_base::CmdId;
use rp_request::{Outcome, Refusal};

/// Why a try was not admitted.
#[derive(Clone, Copy, PartialEq, Eq)]
pub enum AdmitFault {
    /// The node refused it. The try has ended so.
    Refused(Refusal),
    /// Memory was refused. There was no try.
    NoMemory,
}

/// What is posted for a client.
#[derive(Clone, Copy, PartialEq, Eq)]
pub enum Answer {
    /// The attempt ended so.
    Ended { id: CmdId, outcome: Outcome },
    /// No more is to come.
    Over,
    /// Memory was refused somewhere.
    NoMemory,
}

/// Nothing is posted.
#[derive(Clone, Copy, Debug, PartialEq, Eq)]
pub struct Empty;
