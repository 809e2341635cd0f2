//! What C is told of nodes.

/// How many bytes of a chunk were used, and what waits in a reader or a writer, or was taken from it.
#[repr(C)]
#[derive(Clone, Copy)]
pub struct NodeCounts {
    /// How many bytes of a chunk, or how many nodes that were put, were used.
    pub used: u64,
    pub messages: u64,
    pub nodes: u64,
    pub bytes: u64,
}
