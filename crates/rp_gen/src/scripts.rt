//! The script of a number.
ghost use Rattle.std.specs.Prelude.{◌≡◌, ◌≤◌, IfOk};
ghost use Rattle.rp_gen.specs.Scripts.{script_of};

use crate::drafts::Draft;
use rp_base::{NoMemory, Text};
use std::alloc::Global;

/// Makes the script with this number of so many commands, splits apart. Five nodes play it with a
/// tenth of their messages lost; sixteen clients send commands on keys `k000` to `k999`, at the node
/// that holds the lease of the key's range. On the way three splits make four ranges, and twelve
/// times a lease moves, where the commands are enough for that. `size` is 1 to 20,000.
pub fn make(alloc: Global, number: u64, size: u64) -> Result<Text, NoMemory>
    requires some { 1 ≤ size }
    requires most { size ≤ 20000 }
    ensures { IfOk result (λ text. text ≡ script_of number size) }
{
    let mut draft = Draft::begin(alloc, number)?;
    for before in 0..size {
        draft.next(size, before)?;
    }
    draft.end()
}
