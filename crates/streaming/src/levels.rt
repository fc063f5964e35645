//! How far a block is, in items.

ghost use Rattle.std.specs.Prelude.{◌≡◌, ◌<◌, length, None, Some};
ghost use Rattle.std.specs.Arc.{arc_value};
ghost use Rattle.std.specs.Option.{option_map};
ghost use Rattle.stream_model.specs.Network.{given_by, node_at, writers_of};
ghost use Rattle.machine_laws.specs.Sound.{fired};
ghost use Rattle.flowgraph.specs.Flowgraph.{net_of};
ghost use Rattle.plant.specs.Plant.{IsRight, plant_of};
ghost use Rattle.streaming.specs.Levels.{first_writer, levels_at, levels_by};

use flowgraph::{Block, BlockId};
use plant::{Parts, PlantFault};

/// How far a block is, in items from the beginnings of the streams on.
#[derive(Clone, Copy, Debug, PartialEq, Eq)]
pub struct Levels {
    /// How many items it has taken of its first input; a source, of its tape.
    pub taken: u64,
    /// How many items it has given on each output; a sink, how many it has taken.
    pub given: u64,
    /// How many items have come to its first input, or to its tape, that it has not taken.
    pub waiting: u64,
}

/// How far a block is.
pub(crate) fn read_levels<B: Block>(parts: &Parts<B>, block: BlockId) -> Result<Levels, PlantFault>
    requires { IsRight B.meaning parts.now }
    ensures { let plant = plant_of parts.now in result ≡ levels_at (net_of B.meaning plant.graph) plant.state block.0 }
{
    parts.graph.recall();
    if parts.graph.len() <= block.0 as usize {
        return Err(PlantFault::NoSuchBlock);
    }
    Ok(match writer_of_first(parts, block) {
        Some(writer) => of_reader(parts, block, writer),
        None => of_source(parts, block),
    })
}

// The block that writes a block's first input, if one does.
fn writer_of_first<B: Block>(parts: &Parts<B>, block: BlockId) -> Option<BlockId>
    requires right { IsRight B.meaning parts.now }
    requires block { block.0 < length (arc_value parts.now.graph).blocks }
    ensures { option_map (λ writer. writer.0) result ≡ first_writer (writers_of
        (net_of B.meaning (plant_of parts.now).graph) block.0) }
{
    parts.graph.recall();
    match parts.graph.inputs(block).first() {
        Some(input) => Some(input.connection.from),
        None => None,
    }
}

// How far a source is; each of its firings gives one item.
fn of_source<B: Block>(parts: &Parts<B>, block: BlockId) -> Levels
    requires right { IsRight B.meaning parts.now }
    requires block { block.0 < length (arc_value parts.now.graph).blocks }
    ensures { let plant = plant_of parts.now in result ≡ levels_by (net_of B.meaning plant.graph) plant.state block.0
        None }
{
    parts.graph.recall();
    let given = parts.firings.progress(block).firings;
    let fed = parts.stores.handed[block.0 as usize].tape.len();
    Levels {
        taken: given,
        given,
        waiting: fed.saturating_sub(given),
    }
}

// How far a block is, whose first input another block writes.
fn of_reader<B: Block>(parts: &Parts<B>, block: BlockId, writer: BlockId) -> Levels
    requires right { IsRight B.meaning parts.now }
    requires block { block.0 < length (arc_value parts.now.graph).blocks }
    requires writes { first_writer (writers_of (net_of B.meaning (plant_of parts.now).graph) block.0) ≡ Some writer.0 }
    ensures { let plant = plant_of parts.now in result ≡ levels_by (net_of B.meaning plant.graph) plant.state block.0
        (Some writer.0) }
{
    parts.graph.recall();
    let fired = parts.firings.progress(block).firings;
    let taken = parts.graph.taken(block, 0, fired);
    Levels {
        taken,
        given: given_by(parts, block),
        waiting: given_by(parts, writer).saturating_sub(taken),
    }
}

// How many items a block has given on each output.
fn given_by<B: Block>(parts: &Parts<B>, block: BlockId) -> u64
    requires right { IsRight B.meaning parts.now }
    requires block { block.0 < length (arc_value parts.now.graph).blocks }
    ensures { let plant = plant_of parts.now in result ≡ given_by (node_at (net_of B.meaning plant.graph) block.0)
        (fired plant.state block.0) }
{
    parts.graph.recall();
    let fired = parts.firings.progress(block).firings;
    parts.graph.given(block, fired)
}
