//! Plants that can explain why they stalled.

ghost use Rattle.std.specs.Prelude.{◌≡◌, ◌<◌, length, IfSome, Ok};
ghost use Rattle.std.specs.Option.{option_map};
ghost use Rattle.machine_laws.specs.Waits.{ring_of, wait_of, waited_for};
ghost use Rattle.flowgraph.specs.Flowgraph.{net_of};
ghost use Rattle.kinds.specs.declared.kind.Kind.{Kind};
ghost use Rattle.kinds.specs.Kind.{meaning_of};
ghost use Rattle.plant.specs.Plant.{PlantState};
ghost use Rattle.plant.specs.Waits.{wait_in};
ghost use Rattle.flow_core.specs.Session.{wait_told};

use crate::session::waits;
use flowgraph::Valid;
use kinds::Kind;
use plant::{BlockId, BlockNeed, Plant};
use streaming::StreamingPlant;

/// A plant that tells what its blocks wait for, whether it forgets or not.
pub trait StalledPlant {
    // The plant as it would be if it forgot nothing.
    ghost seen: { Self → PlantState Kind };

    /// The graph.
    fn graph(&self) -> &Valid<Kind>
        ensures { result.now ≡ (seen self.now).graph };

    /// What a block of the graph waits for. If it waits for a block, that is one of the graph.
    fn need(&self, block: BlockId) -> BlockNeed
        requires { block.0 < length (seen self.now).graph.blocks }
        ensures value { wait_told (wait_in (Ok result)) ≡ wait_of (net_of meaning_of (seen self.now).graph)
            (seen self.now).capacities (seen self.now).state block.0 }
        ensures inside { waited_for block.0 (wait_told (wait_in (Ok result))) < length (seen self.now).graph.blocks };

    /// A block that waits lead to from the lowest block that is not done.
    fn ring(&self) -> Option<BlockId>
        ensures value { option_map (λ block. block.0) result ≡ ring_of (net_of meaning_of (seen self.now).graph)
            (seen self.now).capacities (seen self.now).state }
        ensures inside { IfSome result (λ block. block.0 < length (seen self.now).graph.blocks) };
}

impl StalledPlant for Plant<Kind> {
    ghost seen = { λ plant. plant };

    fn graph(&self) -> &Valid<Kind> {
        self.graph()
    }

    fn need(&self, block: BlockId) -> BlockNeed {
        waits::need(self, block)
    }

    fn ring(&self) -> Option<BlockId> {
        self.recall();
        self.ring()
    }
}

impl StalledPlant for StreamingPlant<Kind> {
    ghost seen = { λ plant. plant.plant };

    fn graph(&self) -> &Valid<Kind> {
        self.graph()
    }

    fn need(&self, block: BlockId) -> BlockNeed {
        self.recall();
        match self.need(block) {
            Ok(need) => need,
            Err(_) => unreachable!(),
        }
    }

    fn ring(&self) -> Option<BlockId> {
        self.recall();
        self.ring()
    }
}
