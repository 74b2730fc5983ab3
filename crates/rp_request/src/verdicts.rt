//! What the check at application says.
use rp_base::{LeaseIndex, LeaseSeq};

/// What the check at application says of a committed payload.
#[derive(Clone, Copy, PartialEq, Eq)]
pub enum Verdict {
    /// It takes effect.
    Took,
    /// Its command was proposed under another lease sequence than the present one, `now`.
    OldLease { now: LeaseSeq },
    /// Its command's maximum is at or below the lease applied index, `lai`.
    OldIndex { lai: LeaseIndex },
    /// Its lease ask follows another lease than the present one.
    LeaseMoved,
    /// It carries nothing.
    Nothing,
}
