//! What a plant is made of.
//!
//! A `Plant` is its `Parts` with an invariant, and each of its calls is one of the parts. So each contract stands
//! twice. Here it is about the parts, and the invariant is a condition: in the middle of a call it does not hold (a
//! claim that has no windows yet). There it is about what a plant shows.

use claimed_work::Lent;
use firing_rules::Firings;
use flowgraph::{Block, Valid};
use plant_storage::Stores;
use rates::{BufferCapacities, Rates};
use std::alloc::Global;
use std::sync::Arc;

/// The parts of a plant. Contracts speak of them by `plant_of` and `Keeps`.
#[derive(Drop)]
pub struct Parts<B: Block> {
    pub graph: Arc<Valid<B>, Global>,
    pub rates: Rates,
    pub capacities: BufferCapacities,
    pub firings: Firings,
    pub stores: Stores,
    /// For each block the memory of its windows and outputs, while no job has it.
    pub lent: Vec<Lent>,
}
