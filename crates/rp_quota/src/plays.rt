//! What each step on the free units tells.
use crate::rule::Holding;
use atomic_table::{Join, Play, Split};

/// A load.
pub(crate) struct Load;

impl Play<(), Holding> for Load {
    ghost use Rattle.rp_quota.specs.Units.{loaded};

    ghost then = { loaded };
}

/// The exchange that takes units.
pub(crate) struct Take;

impl Play<(), Holding> for Take {
    ghost use Rattle.rp_quota.specs.Units.{took};

    ghost then = { took };
}

/// The addition that gives units back.
pub(crate) struct Give;

impl Play<(), Holding> for Give {
    ghost use Rattle.rp_quota.specs.Units.{gave};

    ghost then = { gave };
}

/// One part for another share, and the parts of two shares in one.
pub(crate) struct Part;

impl Split<Holding> for Part {
    ghost use Rattle.rp_quota.specs.Units.{left, right};

    ghost left = { left };

    ghost right = { right };
}

impl Join<Holding> for Part {
    ghost use Rattle.rp_quota.specs.Units.{both, spent};

    ghost both = { both };

    ghost spent = { spent };
}
