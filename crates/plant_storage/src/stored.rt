//! How much buffers keep.

/// What the buffer of an output keeps.
#[derive(Clone, Copy, Debug, PartialEq, Eq)]
pub struct Stored {
    /// The last items that were given.
    pub items: usize,
    /// The tags on items that were given and that a reader may still take.
    pub tags: usize,
}
