//! Why an opening stops.
ghost use Rattle.std.specs.Prelude.{◌≡◌};
ghost use Rattle.rp_store.specs.declared.troubles.Trouble.TheVariants.{NoMemory, Disk};

use rp_outside::Failed;
use std::alloc::{AllocError, AllocFailed};

/// Why an opening stops.
#[derive(Clone, Copy, Debug, PartialEq, Eq)]
pub(crate) enum Trouble {
    /// Memory ran out.
    NoMemory,
    /// The disk failed.
    Disk,
    /// The open record at this place is cut short or has no byte behind it.
    Damaged { place: u64 },
}

impl From<Failed> for Trouble {
    ghost from_gives = { λ _ t. t ≡ Disk };

    fn from(_failed: Failed) -> Trouble {
        Trouble::Disk
    }
}

impl From<AllocError> for Trouble {
    ghost from_gives = { λ _ t. t ≡ NoMemory };

    fn from(_refused: AllocError) -> Trouble {
        Trouble::NoMemory
    }
}

impl<T: Drop> From<AllocFailed<T>> for Trouble {
    ghost from_gives = { λ _ t. t ≡ NoMemory };

    fn from(_refused: AllocFailed<T>) -> Trouble {
        Trouble::NoMemory
    }
}
