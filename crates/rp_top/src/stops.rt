//! What ends the reading before its end.
ghost use Rattle.std.specs.Prelude.{◌≡◌};
ghost use Rattle.rp_top.specs.Gives.{stop_of};
ghost use Rattle.rp_top.specs.declared.stops.Stop.TheVariants.{NoMemory as no_memory};

use rp_base::NoMemory;
use rp_script::{ScriptFault, ScriptStop};
use std::alloc::AllocFailed;

/// What ends the reading of a script.
#[derive(Clone, Copy, PartialEq, Eq)]
pub enum Stop {
    /// The bytes end it.
    Judged { fault: ScriptFault },
    /// The source failed.
    ReadFault,
    /// Memory was refused.
    NoMemory,
}

impl<T: Drop> From<AllocFailed<T>> for Stop {
    ghost from_gives = { λ _ e. e ≡ no_memory };

    fn from(_refused: AllocFailed<T>) -> Stop {
        Stop::NoMemory
    }
}

impl From<NoMemory> for Stop {
    ghost from_gives = { λ _ e. e ≡ no_memory };

    fn from(_refused: NoMemory) -> Stop {
        Stop::NoMemory
    }
}

/// The same stop, of a source that had no fault.
pub fn stop_of(stop: ScriptStop) -> Stop
    ensures { result ≡ stop_of stop }
{
    match stop {
        ScriptStop::Judged { fault } => Stop::Judged { fault },
        ScriptStop::NoMemory => Stop::NoMemory,
    }
}
