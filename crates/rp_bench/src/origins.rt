//! Whence a worker has its seat and its pass.
use std::marker::Brand;

/// Names the tables of a worker, which are known at run time alone, in its type: so a call that takes
/// any bench gives back one of the same tables.
pub trait Origin {
    ghost use Rattle.rp_bench.specs.Whence.{Whence};

    ghost from: { Whence };
}

impl Origin for Brand {
    ghost use Rattle.rp_bench.specs.Whence.{nowhere};

    ghost from = { nowhere };
}
