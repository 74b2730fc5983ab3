//! What each step on the words of a switch tells.
use crate::known::Known;
use crate::slots::Slot;
use atomic_table::{Join, Play, Split};
use rp_bufcore::BufferEnd;

/// The exchange of a node's word that takes the node.
pub(crate) struct Take;

impl<E: BufferEnd + Drop> Play<Slot<E>, Known> for Take {
    ghost use Rattle.rp_switch.specs.Plays.{took};

    ghost then = { took };
}

/// The swap of a node's word that gives it.
pub(crate) struct Give;

impl<E: BufferEnd + Drop> Play<Slot<E>, Known> for Give {
    ghost use Rattle.rp_switch.specs.Plays.{gave};

    ghost then = { gave };
}

/// The exchange of a cell's word that takes the cell empty.
pub(crate) struct Reach;

impl<E: BufferEnd + Drop> Play<Slot<E>, Known> for Reach {
    ghost use Rattle.rp_switch.specs.Plays.{reached};

    ghost then = { reached };
}

/// The exchange of a cell's word that takes the cell full.
pub(crate) struct Fetch;

impl<E: BufferEnd + Drop> Play<Slot<E>, Known> for Fetch {
    ghost use Rattle.rp_switch.specs.Plays.{fetched};

    ghost then = { fetched };
}

/// The swap of a cell's word after which the cell is full.
pub(crate) struct Post;

impl<E: BufferEnd + Drop> Play<Slot<E>, Known> for Post {
    ghost use Rattle.rp_switch.specs.Plays.{posted};

    ghost then = { posted };
}

/// The swap of a cell's word after which the cell is empty.
pub(crate) struct Leave;

impl<E: BufferEnd + Drop> Play<Slot<E>, Known> for Leave {
    ghost use Rattle.rp_switch.specs.Plays.{left_cell};

    ghost then = { left_cell };
}

/// The exchange that names a client.
pub(crate) struct ChooseClient;

impl<E: BufferEnd + Drop> Play<Slot<E>, Known> for ChooseClient {
    ghost use Rattle.rp_switch.specs.Plays.{chose_client};

    ghost then = { chose_client };
}

/// The exchange that names a worker.
pub(crate) struct ChooseWorker;

impl<E: BufferEnd + Drop> Play<Slot<E>, Known> for ChooseWorker {
    ghost use Rattle.rp_switch.specs.Plays.{chose_worker};

    ghost then = { chose_worker };
}

/// One part for another seat, with the rights that were chosen, and the parts and rights of two in one.
pub(crate) struct Part;

impl Split<Known> for Part {
    ghost use Rattle.rp_switch.specs.Views.{left, right};

    ghost left = { left };

    ghost right = { right };
}

impl Join<Known> for Part {
    ghost use Rattle.rp_switch.specs.Views.{both, nothing_known};

    ghost both = { both };

    ghost spent = { nothing_known };
}
