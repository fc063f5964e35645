//! The answer to a call about slices of time.

ghost use Rattle.std.specs.Prelude.{◌≡◌};
ghost use Rattle.magbelu_c.specs.Slicing.{no_block, not_cut, number_of, refused, told};

use crate::reply::not_open;
use flowgraph::BlockId;
use plant::PlantFault;
use refusal_codes::Refusal;

// The refusal number for a graph that is not cut.
const NO_SLICES: u32 = 63;
// The refusal number for a slice that would begin where none can.
const NO_CUT: u32 = 64;
// Stands for no block.
const NO_BLOCK: u32 = u32::MAX;

/// The result of a call about slices.
#[repr(C)]
#[derive(Clone, Copy, Debug, PartialEq, Eq)]
pub struct Slicing {
    /// 0; 1 for a refusal; 4 if memory ran out.
    pub status: u32,
    /// The number of the refusal, or 0.
    pub number: u32,
    /// The number of the block that a refusal is about. Without a refusal, the number of the first block whose items
    /// depend on how many came before. Else the greatest number.
    pub block: u32,
    /// For a plan, how many iterations before its own a slice reads; for a slice, how many iterations of each tape it
    /// leaves out.
    pub iterations: u64,
    /// How many sources a plan has.
    pub source_count: usize,
    /// How many sinks that keep their items a plan or a slice has.
    pub sink_count: usize,
}

/// Why there is no slice.
#[derive(Clone, Copy, Drop)]
pub(crate) enum Uncut {
    /// The output of this block depends on all that it ever took.
    Remembers(BlockId),
    /// The rates have no balance, or slices would overlap too far.
    Rates,
    /// No slice begins there.
    Begin,
    /// Memory ran out.
    Memory,
}

/// A call was done. `counting` is the first block of the graph that counts.
pub(crate) fn told(
    iterations: u64,
    counting: Option<BlockId>,
    source_count: usize,
    sink_count: usize,
) -> Slicing
    ensures { result ≡ told iterations counting source_count sink_count }
{
    Slicing {
        status: 0,
        number: 0,
        block: number_of(counting),
        iterations,
        source_count,
        sink_count,
    }
}

/// There is no slice.
pub(crate) fn not_cut(uncut: Uncut) -> Slicing
    ensures { result ≡ not_cut uncut }
{
    match uncut {
        Uncut::Remembers(block) => refused(1, NO_SLICES, block.0),
        Uncut::Rates => refused(1, NO_SLICES, NO_BLOCK),
        Uncut::Begin => refused(1, NO_CUT, NO_BLOCK),
        Uncut::Memory => refused(4, PlantFault::Memory.number(), NO_BLOCK),
    }
}

/// No plant is held.
pub(crate) fn not_held() -> Slicing
    ensures { result ≡ refused 1 55 no_block }
{
    let reply = not_open();
    refused(reply.status, reply.number, NO_BLOCK)
}

// The number of a block, or the one that stands for none.
fn number_of(block: Option<BlockId>) -> u32
    ensures { result ≡ number_of block }
{
    match block {
        Some(block) => block.0,
        None => NO_BLOCK,
    }
}

fn refused(status: u32, number: u32, block: u32) -> Slicing
    ensures { result ≡ refused status number block }
{
    Slicing {
        status,
        number,
        block,
        iterations: 0,
        source_count: 0,
        sink_count: 0,
    }
}
