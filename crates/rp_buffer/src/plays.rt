//! What each step on the words of a slot table tells.
use crate::rule::Hand;
use atomic_table::{Join, Play, Split};
use rp_base::Item;

/// A load of a counter.
pub(crate) struct Load;

impl Play<Option<Item>, Hand> for Load {
    ghost use Rattle.rp_buffer.specs.Plays.{loaded};

    ghost then = { loaded };
}

/// The exchange of a counter that draws a place.
pub(crate) struct Draw;

impl Play<Option<Item>, Hand> for Draw {
    ghost use Rattle.rp_buffer.specs.Plays.{drew};

    ghost then = { drew };
}

/// The swap of a place word that publishes what lies in the slot.
pub(crate) struct Publish;

impl Play<Option<Item>, Hand> for Publish {
    ghost use Rattle.rp_buffer.specs.Plays.{published};

    ghost then = { published };
}

/// The swap that closes a counter.
pub(crate) struct Shut;

impl Play<Option<Item>, Hand> for Shut {
    ghost use Rattle.rp_buffer.specs.Plays.{shut};

    ghost then = { shut };
}

/// The exchange of a place word that takes what is published there.
pub(crate) struct Take;

impl Play<Option<Item>, Hand> for Take {
    ghost use Rattle.rp_buffer.specs.Plays.{took};

    ghost then = { took };
}

/// The load of a place word that brings the emptied slot home.
pub(crate) struct Return;

impl Play<Option<Item>, Hand> for Return {
    ghost use Rattle.rp_buffer.specs.Plays.{returned};

    ghost then = { returned };
}

/// The swap that opens a counter again.
pub(crate) struct Open;

impl Play<Option<Item>, Hand> for Open {
    ghost use Rattle.rp_buffer.specs.Plays.{opened};

    ghost then = { opened };
}

/// One part for another pass, with the least right, and the parts of two passes in one.
pub(crate) struct Part;

impl Split<Hand> for Part {
    ghost use Rattle.rp_buffer.specs.Plays.{left, right};

    ghost left = { left };

    ghost right = { right };
}

impl Join<Hand> for Part {
    ghost use Rattle.rp_buffer.specs.Plays.{both, spent};

    ghost both = { both };

    ghost spent = { spent };
}
