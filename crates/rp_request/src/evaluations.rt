//! What an evaluation of a request gives.
use crate::commands::Batch;
use crate::outcomes::Reply;

/// What a request writes, and its reply.
#[derive(Drop)]
pub struct Evaluated {
    pub batch: Batch,
    pub reply: Reply,
}
