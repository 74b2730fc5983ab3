//! What a closed table leaves.
use rp_base::{Grown, Item};

/// An item that was put and not taken, with its buffer.
#[derive(Clone, Copy, Debug, PartialEq, Eq)]
pub struct LeftItem {
    pub buffer: u8,
    pub item: Item,
}

/// What is left, by buffer and place.
pub type Left = Grown<LeftItem>;
