//! Why bytes are no payload.
ghost use Rattle.std.specs.Prelude.{◌≡◌};
ghost use Rattle.rp_codec.specs.declared.faults.DecodeFault.TheVariants as faults;

use rp_base::NoMemory;
use thiserror::Error;

/// Why bytes are no payload's spelling (this project).
#[derive(Clone, Copy, Debug, PartialEq, Eq, Drop, Error)]
pub enum DecodeFault {
    /// The place at which the first field begins that is cut short or outside its form. For a whole
    /// payload with bytes behind it, the payload's length.
    #[error("bad field at byte {place}")]
    Bad { place: usize },
    /// Memory was refused.
    #[error("out of memory")]
    NoMemory,
}

/// The place at which a field begins that is cut short or outside its form.
#[derive(Clone, Copy, Debug, PartialEq, Eq)]
pub struct BadField {
    pub place: usize,
}

impl From<BadField> for DecodeFault {
    ghost from_gives = { λ field e. e ≡ faults.Bad field.place };

    fn from(field: BadField) -> DecodeFault {
        DecodeFault::Bad { place: field.place }
    }
}

impl From<NoMemory> for DecodeFault {
    ghost from_gives = { λ _ e. e ≡ faults.NoMemory };

    fn from(_refused: NoMemory) -> DecodeFault {
        DecodeFault::NoMemory
    }
}
