//! A pass that collects from one node's buffers.
ghost use Rattle.std.specs.Prelude.{◌≡◌, ◌-◌, true};
ghost use Rattle.rp_buffer.specs.Hands.{right_at, is_carried};
ghost use Rattle.rp_buffer.specs.Passes.{known_by};

use crate::table::Pass;
use rp_base::NodeId;

/// A pass with a node's right to collect, for that node's flushes. Contracts see the node and the
/// pass.
#[derive(Drop)]
pub struct FlushPass {
    pub(crate) pass: Pass,
    pub(crate) node: NodeId,
    ghost carries: { is_carried (right_at (known_by pass).rights (node - 1)) ≡ true },
}
