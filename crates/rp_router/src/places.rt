//! What is known of one range.
use rp_base::{Desc, NodeId};

/// The range's description, where one was told, and the node that is asked for it.
#[derive(Clone, Copy)]
pub struct Hint {
    pub desc: Option<Desc>,
    pub holder: NodeId,
}
