//! Opens a graph file: its valid graph, its plant, and its plant that streams.

ghost use Rattle.std.specs.Prelude.{◌≡◌, Ok, true, IfOk, IfErr};
ghost use Rattle.stream_model.specs.Machine.{is_idle};
ghost use Rattle.graph_file.specs.Blocks.{drafted};
ghost use Rattle.file_plants.specs.Opening.{opened_of};
ghost use Rattle.graph_file.specs.Refusals.{IsRefused};
ghost use Rattle.plant.specs.Plant.{ForgetsNone};
ghost use Rattle.flow_core.specs.Serve.{graph_in, plant_in, streamed_in};

use file_plants::OpensPlants;
use flowgraph::Valid;
use graph_file::{FileFault, read_graph};
use kinds::Kind;
use plant::Plant;
use std::alloc::Global;
use streaming::StreamingPlant;

/// The valid graph of a graph file, or why the file is refused.
pub(crate) fn valid_graph(alloc: Global, file: &[u8]) -> Result<Valid<Kind>, FileFault>
    ensures ok { IfOk result (λ graph. graph_in file.now ≡ Ok (drafted graph)) }
    ensures refused { IfErr result (IsRefused (graph_in file.now)) }
{
    match read_graph(alloc, file) {
        Ok(content) => match content.validate(alloc) {
            Ok((graph, _)) => Ok(graph),
            Err(fault) => Err(fault),
        },
        Err(fault) => Err(fault),
    }
}

/// The plant of a graph file with its feeds on the tapes, or why the file is refused.
pub fn open_plant(alloc: Global, file: &[u8]) -> Result<Plant<Kind>, FileFault>
    ensures ok { IfOk result (λ plant. plant_in file.now ≡ Ok (opened_of plant)) }
    ensures idle { IfOk result (λ plant. is_idle plant.state ≡ true) }
    ensures refused { IfErr result (IsRefused (plant_in file.now)) }
{
    match read_graph(alloc, file) {
        Ok(content) => content.open(alloc),
        Err(fault) => Err(fault),
    }
}

/// The streaming plant of a graph file, with its feeds on the tapes, or why the file is refused.
pub fn open_stream(alloc: Global, file: &[u8]) -> Result<StreamingPlant<Kind>, FileFault>
    ensures ok { IfOk result (λ plant. streamed_in file.now ≡ Ok (opened_of plant.plant)) }
    ensures none { IfOk result (λ plant. ForgetsNone plant.kept) }
    ensures refused { IfErr result (IsRefused (streamed_in file.now)) }
{
    match read_graph(alloc, file) {
        Ok(content) => content.stream(alloc),
        Err(fault) => Err(fault),
    }
}
