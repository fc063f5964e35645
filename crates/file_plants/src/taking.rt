//! Takes the feeds of a file: a plant, or a plant that streams.

ghost use Rattle.std.specs.Prelude.{◌≡◌, ℕ, ⊤, map, IfOk, IfErr};
ghost use Rattle.stream_model.specs.Machine as machine;
ghost use Rattle.stream_model.specs.Network.{Network, longest_tape};
ghost use Rattle.graph_model.specs.Gains.{longest_within_gain};
ghost use Rattle.flowgraph.specs.Flowgraph.{net_of};
ghost use Rattle.plant_storage.specs.Stores.{mark_of};
ghost use Rattle.kinds.specs.declared.kind.Kind.{Kind};
ghost use Rattle.kinds.specs.Kind.{meaning_of};
ghost use Rattle.plant.specs.Answers.{Answered, reply_of, source_type_of};
ghost use Rattle.plant.specs.Feeding.{feed_numbers};
ghost use Rattle.plant.specs.Opening.{opening_plant_within};
ghost use Rattle.plant.specs.Plant.{ForgetsNone, PlantState};

use flowgraph::{BlockId, Valid};
use graph_file::FileFault;
use items::{ItemType, Mark};
use kinds::Kind;
use plant::{Fed, Plant};
use plant_faults::PlantFault;
use std::alloc::Global;
use streaming::StreamingPlant;

/// Opens on the graph of a file and takes its feeds.
pub(crate) trait TakesFeeds: Drop + Sized {
    /// How many items a tape may come to hold.
    ghost longest: { Network → ℕ };

    /// The plant as it would be if it forgot nothing.
    ghost plant: { Self → PlantState Kind };

    /// It has forgotten nothing.
    ghost whole: { Self → Type 0 };

    /// The plant of a graph, with nothing fed and nothing fired.
    fn open(alloc: Global, graph: Valid<Kind>) -> Result<Self, FileFault>
        ensures opens { IfOk result (λ p. plant p ≡ opening_plant_within (longest (net_of meaning_of graph)) meaning_of
            graph) }
        ensures whole { IfOk result whole }
        ensures memory { IfErr result (λ fault. fault ≡ FileFault.Memory) };

    /// The graph.
    fn graph(&self) -> &Valid<Kind>
        ensures { result.now ≡ (plant self.now).graph };

    /// The type of the items that a source takes, as `Plant::source_type` tells it.
    fn source_type(&self, block: BlockId) -> Result<ItemType, PlantFault>
        ensures { result ≡ source_type_of (net_of meaning_of (plant self.now).graph) block.0 };

    /// Appends whole numbers to a source's tape, as `Plant::feed_numbers` does.
    fn feed_numbers(
        &mut self,
        alloc: Global,
        source: BlockId,
        numbers: &[i64],
        marks: &[Mark],
    ) -> Result<Fed, PlantFault>
        ensures answered { Answered (feed_numbers (net_of meaning_of (plant self.old).graph) (plant self.old).state
            source.0 numbers.now (map mark_of marks.now)) (plant self.old) (plant self.new)
            (reply_of (λ f. machine.Fed f.0) result) }
        ensures whole { whole self.old → whole self.new };
}

impl TakesFeeds for Plant<Kind> {
    ghost longest = { λ _. longest_tape };

    ghost plant = { λ p. p };

    ghost whole = { λ _. ⊤ };

    fn open(alloc: Global, graph: Valid<Kind>) -> Result<Plant<Kind>, FileFault> {
        match Plant::open(alloc, graph) {
            Ok(plant) => Ok(plant),
            Err(_) => Err(FileFault::Memory),
        }
    }

    fn graph(&self) -> &Valid<Kind> {
        self.graph()
    }

    fn source_type(&self, block: BlockId) -> Result<ItemType, PlantFault> {
        self.source_type(block)
    }

    fn feed_numbers(
        &mut self,
        alloc: Global,
        source: BlockId,
        numbers: &[i64],
        marks: &[Mark],
    ) -> Result<Fed, PlantFault> {
        self.feed_numbers(alloc, source, numbers, marks)
    }
}

impl TakesFeeds for StreamingPlant<Kind> {
    ghost longest = { longest_within_gain };

    ghost plant = { λ p. p.plant };

    ghost whole = { λ p. ForgetsNone p.kept };

    fn open(alloc: Global, graph: Valid<Kind>) -> Result<StreamingPlant<Kind>, FileFault> {
        match StreamingPlant::open(alloc, graph) {
            Ok(plant) => Ok(plant),
            Err(_) => Err(FileFault::Memory),
        }
    }

    fn graph(&self) -> &Valid<Kind> {
        self.graph()
    }

    fn source_type(&self, block: BlockId) -> Result<ItemType, PlantFault> {
        self.source_type(block)
    }

    fn feed_numbers(
        &mut self,
        alloc: Global,
        source: BlockId,
        numbers: &[i64],
        marks: &[Mark],
    ) -> Result<Fed, PlantFault> {
        self.feed_numbers(alloc, source, numbers, marks)
    }
}
