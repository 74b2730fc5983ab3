//! The rights to collect from the nodes' buffers, with what is kept between two collects.

/// What the flush keeps of a buffer.
#[derive(Clone, Copy, Debug, PartialEq, Eq)]
pub enum Keep {
    /// The buffer is open.
    Open,
    /// It was closed when `count` places were drawn, and these were taken since.
    Closed { count: u64, gone: [bool; 16] },
}

/// The right to collect from the eight buffers of a node.
#[derive(Clone, Copy, Debug, PartialEq, Eq)]
pub enum Right {
    Lacks,
    Carries([Keep; 8]),
}
