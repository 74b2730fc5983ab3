//! An attempt as the book has it.

use rp_base::{NodeId, RangeId};
use rp_request::Request;

/// How far an attempt has come in its proposal buffer.
#[derive(Clone, Copy, PartialEq, Eq)]
pub enum Draw {
    /// It had no place.
    Undrawn,
    /// It has drawn this place, and nothing is published there.
    Drawn { place: u8 },
    /// Its item stands, or stood, at a place.
    Published,
}

/// An attempt: its request, the node and the range where it asked to be admitted, and its place in the
/// buffer there.
#[derive(Clone, Copy, PartialEq, Eq)]
pub struct Booked {
    pub request: Request,
    pub node: NodeId,
    pub range: RangeId,
    pub draw: Draw,
}
