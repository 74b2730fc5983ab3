//! What an audit says.
use rp_base::NoMemory;
use rp_reread::ReadFault;

/// What is checked of a report, in this order of each range.
#[derive(Clone, Copy, Debug, PartialEq, Eq)]
pub enum Check {
    /// Range 0 is there first; each other range was split off in the list of another.
    Start,
    /// The indexes run by one, and no node has applied past them.
    Indexes,
    /// No earlier item names the command.
    Once,
    /// The item's lease sequence is that of the state, and a lease follows that of the state.
    Lease,
    /// The item's keys lie in the bounds of the state.
    Bounds,
    /// The effect of the request on the state gives the reply.
    Reply,
    /// Level, bounds and lease of the range are those that its list leaves.
    State,
    /// A live replica's rows are those that its part of the list leaves.
    Rows,
    /// What is told of the attempts is what the lists show.
    Replies,
}

/// The verdict on a report: the first check that does not hold, by its range and its index.
#[derive(Clone, Copy, Debug, PartialEq, Eq)]
pub enum Verdict {
    Yes,
    No { range: u8, index: u64, check: Check },
}

/// Why there is no verdict.
#[derive(Clone, Copy, Debug, PartialEq, Eq)]
pub enum AuditFault {
    /// The bytes are no JSON.
    NotJson,
    /// They are JSON, and no report.
    NotReport,
    /// The system refused memory.
    NoMemory,
}

impl From<ReadFault> for AuditFault {
    ghost use Rattle.std.specs.Prelude.{◌≡◌};
    ghost use Rattle.rp_auditor.specs.Faults.{audit_fault};

    ghost from_gives = { λ fault e. e ≡ audit_fault fault };

    fn from(fault: ReadFault) -> AuditFault {
        match fault {
            ReadFault::NotJson => AuditFault::NotJson,
            ReadFault::NotReport => AuditFault::NotReport,
            ReadFault::NoMemory => AuditFault::NoMemory,
        }
    }
}

impl From<NoMemory> for AuditFault {
    ghost use Rattle.std.specs.Prelude.{◌≡◌};
    ghost use Rattle.rp_auditor.specs.Faults.{no_memory};

    ghost from_gives = { λ _ e. e ≡ no_memory };

    fn from(_refused: NoMemory) -> AuditFault {
        AuditFault::NoMemory
    }
}
