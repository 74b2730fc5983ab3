//! Why a report is not read back.
use rp_base::NoMemory;

/// The words of a text are not of the form.
#[derive(Clone, Copy, Debug, PartialEq, Eq)]
pub struct NotRead;

/// Why a value of JSON is not read as a part of a report.
#[derive(Clone, Copy, Debug, PartialEq, Eq)]
pub enum FormFault {
    /// It is not of the form of a report.
    NotReport,
    /// The system refused memory.
    NoMemory,
}

impl From<NoMemory> for FormFault {
    ghost use Rattle.std.specs.Prelude.{◌≡◌};
    ghost use Rattle.rp_reread.specs.declared.faults.FormFault.TheVariants as faults;

    ghost from_gives = { λ _ e. e ≡ faults.NoMemory };

    fn from(_refused: NoMemory) -> FormFault {
        FormFault::NoMemory
    }
}

impl From<NotRead> for FormFault {
    ghost use Rattle.std.specs.Prelude.{◌≡◌};
    ghost use Rattle.rp_reread.specs.declared.faults.FormFault.TheVariants as faults;

    ghost from_gives = { λ _ e. e ≡ faults.NotReport };

    fn from(_refused: NotRead) -> FormFault {
        FormFault::NotReport
    }
}

/// Why bytes are not read as a report.
#[derive(Clone, Copy, Debug, PartialEq, Eq)]
pub enum ReadFault {
    /// They are no JSON.
    NotJson,
    /// They are JSON, and no report.
    NotReport,
    /// The system refused memory.
    NoMemory,
}

impl From<FormFault> for ReadFault {
    ghost use Rattle.std.specs.Prelude.{◌≡◌};
    ghost use Rattle.rp_reread.specs.Faults.{read_fault};

    ghost from_gives = { λ fault e. e ≡ read_fault fault };

    fn from(fault: FormFault) -> ReadFault {
        match fault {
            FormFault::NotReport => ReadFault::NotReport,
            FormFault::NoMemory => ReadFault::NoMemory,
        }
    }
}
