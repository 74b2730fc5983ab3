//! What lies in a slot.
use rp_bufcore::BufferEnd;
use rp_clients::Answer;
use rp_node::Node;

/// What a slot holds.
#[derive(Drop)]
pub enum Slot<E: BufferEnd + Drop> {
    Nothing,
    Body(Node<E>),
    Reply(Answer),
}
