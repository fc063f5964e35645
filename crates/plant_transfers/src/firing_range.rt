//! Firings of a block in a row.
ghost use Rattle.std.specs.Prelude.{◌≡◌, ◌+◌, ◌<◌, ◌^◌};

use flowgraph::BlockId;

/// Firings of a block: from `first` up to, but not including, `next`.
#[derive(Clone, Copy)]
pub(crate) struct FiringRange {
    pub block: BlockId,
    pub first: u64,
    pub next: u64,
}

impl FiringRange {
    /// So many firings of a block, from the first on.
    pub fn new(block: BlockId, first: u64, count: u32) -> FiringRange
        requires { first + count < 2 ^ 64 }
        ensures { result ≡ record { block = block; first = first; next = first + count } }
    {
        FiringRange {
            block,
            first,
            next: first + u64::from(count),
        }
    }
}
