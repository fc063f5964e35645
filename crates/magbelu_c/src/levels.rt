//! How far a block of a streaming plant is.

ghost use Rattle.std.specs.Prelude.{◌≡◌};
ghost use Rattle.magbelu_c.specs.Levels.{level_named, level_or, levels_in, untold};

use crate::any_plant::AnyPlant;
use crate::block_calls::block_in;
use crate::reply::{Reply, not_open, refusal};
use kinds::Kind;
use plant::PlantFault;
use streaming::{Levels, StreamingPlant};

/// How far a block is, in items counted from the beginnings of the streams.
#[repr(C)]
#[derive(Clone, Copy, Debug, PartialEq, Eq)]
pub struct BlockLevels {
    /// 0; 1 for a refusal.
    pub status: u32,
    /// The number of the refusal, or 0.
    pub number: u32,
    /// How many items it has taken of its first input; a source, of its tape.
    pub taken: u64,
    /// How many items it has given on each output; a sink, how many it has taken.
    pub given: u64,
    /// How many items have come to its first input, or to its tape, that it has not taken.
    pub waiting: u64,
}

/// How far the block of a name is. A plant that keeps what it took has no such call.
pub(crate) fn levels(plant: &AnyPlant, block: &[u8]) -> BlockLevels
    ensures { result ≡ levels_in plant.now block.now }
{
    match plant {
        AnyPlant::Whole(_) => untold(not_open()),
        AnyPlant::Streaming(stream) => levels_of(stream, block),
    }
}

fn levels_of(stream: &StreamingPlant<Kind>, block: &[u8]) -> BlockLevels
    ensures { result ≡ level_named stream.now.plant block.now }
{
    let Some(block) = block_in(stream.graph(), block) else {
        return untold(refusal(PlantFault::NoSuchBlock));
    };
    told(stream.levels(block))
}

fn told(levels: Result<Levels, PlantFault>) -> BlockLevels
    ensures { result ≡ level_or levels }
{
    match levels {
        Ok(levels) => BlockLevels {
            status: 0,
            number: 0,
            taken: levels.taken,
            given: levels.given,
            waiting: levels.waiting,
        },
        Err(fault) => untold(refusal(fault)),
    }
}

/// Tells nothing, only this reply.
pub(crate) fn untold(reply: Reply) -> BlockLevels
    ensures { result ≡ untold reply }
{
    BlockLevels {
        status: reply.status,
        number: reply.number,
        taken: 0,
        given: 0,
        waiting: 0,
    }
}
