//! An order of the blocks for steps.
ghost use Rattle.std.specs.Prelude.{◌≡◌, ◌<◌, ◌≤◌, ℕ, true, false, length, slice_index_or, IfOk, OnOk};
ghost use Rattle.flowgraph.specs.Ports.{AreWithin};
ghost use Rattle.flowgraph.specs.StepOrder.{IsMade, IsOrderOf};

use crate::parts::{BlockId, Connection};
use crate::ports::cleared;
use crate::ranks::writers_first;
use std::alloc::{AllocError, Global};

/// An order that is being made.
#[derive(Drop)]
struct Order {
    blocks: Vec<BlockId>,
    // For each block whether it has its place.
    placed: Vec<bool>,
}

/// All blocks, each behind its writers; where there is no loop, what comes in goes through in one turn over them. Where
/// the order of their numbers is such an order, it is that one. The contract says only that all are there.
pub fn step_order(
    alloc: Global,
    blocks: usize,
    connections: &[Connection],
) -> Result<Vec<BlockId>, AllocError>
    requires few { blocks ≤ 256 }
    requires within { AreWithin blocks connections.now }
    ensures { IfOk result (λ order. IsOrderOf blocks order.items) }
{
    let found = writers_first(alloc, blocks, connections)?;
    let mut order = Order {
        blocks: Vec::with_capacity(alloc, blocks)?,
        placed: cleared(alloc, blocks)?,
    };
    'found: for block in &found {
        place(&mut order, *block)?;
    }
    // (each has its place by now, which the contract of a search does not say)
    'all: for block in 0..blocks {
        place(&mut order, block)?;
    }
    Ok(order.blocks)
}

// Places a block behind the others, unless it has its place.
fn place(order: &mut Order, block: usize) -> Result<(), AllocError>
    requires few { length order.old.placed.items ≤ 256 }
    requires block { block < length order.old.placed.items }
    requires made { IsMade order.old }
    ensures made { OnOk result (IsMade order.new) }
    ensures len { OnOk result (length order.new.placed.items ≡ length order.old.placed.items) }
    ensures placed { OnOk result (slice_index_or order.new.placed.items block false ≡ true) }
    ensures kept { OnOk result ((b : ℕ) → slice_index_or order.old.placed.items b false ≡ true
        → slice_index_or order.new.placed.items b false ≡ true) }
{
    if order.placed[block] {
        return Ok(());
    }
    order.blocks.push(BlockId(block as u32))?;
    order.placed[block] = true;
    Ok(())
}
