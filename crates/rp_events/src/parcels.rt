//! What a node has sent.

use rp_base::{NodeId, RangeId, Seq};
use rp_raftstep::Message;

/// A message that a node has sent, with the range that it belongs to.
#[derive(Drop)]
pub struct Parcel<S> {
    pub to: NodeId,
    pub range: RangeId,
    pub message: Message<S>,
}

/// All that a node has sent, in order; the first one has the number 1.
pub type Sent<S> = Seq<Parcel<S>>;
