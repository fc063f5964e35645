//! What claims and commits ask of blocks, kept so that they need not make a shape.
ghost use Rattle.std.specs.Prelude.{◌≡◌, ℕ, length, Some, slice_get, IfOk};
ghost use Rattle.block_trait.specs.Shape.{HasPace};
ghost use Rattle.flowgraph.specs.Flowgraph.{node_of};
ghost use Rattle.flowgraph.specs.Asked.{IsAsked, AreAsked};

use crate::parts::Entry;
use crate::ports::MOST_PORTS;
use block_trait::{Block, Pace, Role};
use std::alloc::{AllocError, Global};
use stream_model::ItemType;

/// What is kept of a block.
#[derive(Drop)]
pub struct Asked {
    pub role: Role,
    pub limit: Option<u64>,
    /// The types of the items that it takes and that it gives.
    pub taken: ItemType,
    pub given: ItemType,
    /// How many base firings one firing is.
    pub multiple: u32,
    /// The paces of its inputs; of a source, that of its tape.
    pub paces: Vec<Pace>,
}

/// What is kept of all blocks.
pub fn all_asked<B: Block>(alloc: Global, blocks: &[Entry<B>]) -> Result<Vec<Asked>, AllocError>
    ensures { IfOk result (λ all. AreAsked B.meaning blocks.now all.items) }
{
    let mut all = Vec::with_capacity(alloc, blocks.len())?;
    for entry in blocks {
        all.push(keep_of(alloc, entry)?)?;
    }
    Ok(all)
}

fn keep_of<B: Block>(alloc: Global, entry: &Entry<B>) -> Result<Asked, AllocError>
    ensures { IfOk result (IsAsked (node_of B.meaning entry.now)) }
{
    let shape = entry.block.shape(0);
    let paces = paces(
        alloc,
        &entry.block,
        (shape.inputs.most as usize).clamp(1, MOST_PORTS),
    )?;
    Ok(Asked {
        role: shape.role,
        limit: shape.limit,
        taken: shape.inputs.item,
        given: shape.outputs.item,
        multiple: entry.options.multiple,
        paces,
    })
}

// The paces of so many inputs.
fn paces<B: Block>(alloc: Global, block: &B, inputs: usize) -> Result<Vec<Pace>, AllocError>
    ensures { IfOk result (λ paces. (p : ℕ) (pace : Pace) → slice_get paces.items p ≡ Some pace
        → HasPace (B.meaning block.now) p pace) }
{
    let mut paces = Vec::with_capacity(alloc, inputs)?;
    for input in 0..inputs {
        paces.push(block.shape(input).pace)?;
    }
    Ok(paces)
}
