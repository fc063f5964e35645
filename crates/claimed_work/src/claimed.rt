//! Firings that were claimed.

use crate::lent::Lent;
use block_trait::Block;
use flowgraph::{BlockId, Valid};
use std::alloc::Global;
use std::sync::Arc;

/// Firings of a block that were claimed, with all that their work needs.
#[derive(Drop)]
pub struct Claimed<B: Block> {
    pub graph: Arc<Valid<B>, Global>,
    pub block: BlockId,
    /// The number of the first firing.
    pub first: u64,
    pub count: u32,
    /// The state word before the firings.
    pub word: u64,
    pub lent: Lent,
}
