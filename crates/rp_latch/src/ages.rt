//! Holds in the order in which they came.
ghost use Rattle.std.specs.Prelude.{◌≤◌, ◌<◌, length};
ghost use Rattle.std.specs.List.{AllPairs, AllWithin};
ghost use Rattle.rp_latch.specs.Indexes.{IsOlder};

use crate::holds::Hold;
use std::alloc::Global;
use std::collections::VecDeque;

/// A hold with its number. The numbers rise with each hold, so the oldest hold has the least.
#[derive(Clone, Copy, PartialEq, Eq)]
pub struct Numbered {
    pub number: u64,
    pub hold: Hold,
}

/// How many holds have a number below this one, by binary search.
pub fn place_of(holds: &VecDeque<Numbered, Global>, number: u64) -> usize
    requires { AllPairs IsOlder holds.now.items }
    ensures within { result ≤ length holds.now.items }
    ensures before { AllWithin (λ h. h.number < number) holds.now.items 0 result }
    ensures after { AllWithin
        (λ h. number ≤ h.number) holds.now.items result (length holds.now.items) }
{
    holds.partition_point(|numbered| numbered.number < number)
}
