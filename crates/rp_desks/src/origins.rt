//! Whence a desk has its seat, its pass and its share.
use std::marker::Brand;

/// Names the tables of a desk, which are known at run time alone, in its type: so a call that takes any
/// desk gives back one of the same tables.
pub trait Origin {
    ghost use Rattle.rp_desks.specs.Whence.{Whence};

    ghost from: { Whence };
}

impl Origin for Brand {
    ghost use Rattle.rp_desks.specs.Whence.{nowhere};

    ghost from = { nowhere };
}
