//! The payload of an entry.
ghost use Rattle.std.specs.Prelude.{◌≡◌, length, IfOk};

use rp_base::{Bytes, NoMemory};
use std::marker::Model;
use std::sync::ArcSlice;

/// Bytes that are made once, and that copies of an entry share. Contracts see them as a list.
#[derive(Drop)]
pub struct SharedBytes {
    bytes: ArcSlice<u8>,
}

impl Model for SharedBytes {
    ghost use Rattle.std.specs.Prelude.{ℕ, List};
    ghost use Rattle.std.specs.Arc.{arc_slice_items};

    ghost Value = { List ℕ };

    ghost view = { λ s. arc_slice_items s.bytes };
}

impl SharedBytes {
    /// The same bytes, to be shared from here on.
    pub fn new(bytes: Bytes) -> Result<SharedBytes, NoMemory>
        ensures { IfOk result (λ shared. shared ≡ bytes) }
    {
        let bytes = ArcSlice::from_vec(bytes.into_vec())?;
        Ok(SharedBytes { bytes })
    }

    /// The same bytes once more, without a copy of them.
    pub fn share(&self) -> Result<SharedBytes, NoMemory>
        ensures { IfOk result (λ shared. shared ≡ self.now) }
    {
        let bytes = self.bytes.clone()?;
        Ok(SharedBytes { bytes })
    }

    /// The bytes as a slice.
    pub fn as_slice(&self) -> &[u8]
        ensures { result.now ≡ self.now }
    {
        self.bytes.as_slice()
    }

    /// How many bytes there are.
    pub fn len(&self) -> usize
        ensures { result ≡ length self.now }
    {
        self.bytes.len()
    }
}
