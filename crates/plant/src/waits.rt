//! What blocks wait for, and where the waits lead.

ghost use Rattle.std.specs.Prelude.{◌≡◌, ◌<◌, length, true, IfSome};
ghost use Rattle.std.specs.Arc.{arc_value};
ghost use Rattle.std.specs.Option.{option_map};
ghost use Rattle.stream_model.specs.Machine.{is_quiet};
ghost use Rattle.machine_laws.specs.Stalls.{AreClosed};
ghost use Rattle.machine_laws.specs.Waits.{IsOnRing, lowest_live, next_of, ring_of, wait_of};
ghost use Rattle.flowgraph.specs.Flowgraph.{net_of};
ghost use Rattle.firing_rules.specs.Waits.{wait_seen};
ghost use Rattle.plant.specs.Plant.{IsRight, plant_of};
ghost use Rattle.plant.specs.Waits.{need_of, wait_in};

use crate::parts::Parts;
use crate::source_tapes::SourceTapes;
use firing_rules::BlockNeed;
use flowgraph::{Block, BlockId};
use plant_faults::PlantFault;

impl<B: Block> Parts<B> {
    /// What a claim of a block would come to, or what it waits for.
    pub fn need(&self, block: BlockId) -> Result<BlockNeed, PlantFault>
        requires { IsRight B.meaning self.now }
        ensures { let plant = plant_of self.now in wait_in result ≡ need_of (net_of B.meaning plant.graph)
            plant.capacities plant.state block.0 }
    {
        self.graph.recall();
        if self.graph.len() <= block.0 as usize {
            return Err(PlantFault::NoSuchBlock);
        }
        Ok(self.own_need(block))
    }

    /// The block reached after as many waits as there are blocks, from the lowest block that is not done.
    pub fn ring(&self) -> Option<BlockId>
        requires { IsRight B.meaning self.now }
        ensures value { let plant = plant_of self.now in option_map (λ block. block.0) result
            ≡ ring_of (net_of B.meaning plant.graph) plant.capacities plant.state }
        ensures comes_back { let plant = plant_of self.now in AreClosed (net_of B.meaning plant.graph) plant.state
            → is_quiet (net_of B.meaning plant.graph) plant.capacities plant.state ≡ true →
            IfSome result (λ block. IsOnRing (net_of B.meaning plant.graph) plant.capacities plant.state block.0) }
    {
        self.graph.recall();
        let mut block = self.lowest_live()?;
        for _turn in 0..self.graph.len() {
            block = self.next_of(block);
        }
        Some(block)
    }

    // The lowest block that is not done.
    fn lowest_live(&self) -> Option<BlockId>
        requires { IsRight B.meaning self.now }
        ensures value { option_map (λ block. block.0) result ≡ lowest_live (plant_of self.now).state }
        ensures inside { IfSome result (λ block. block.0 < length (arc_value self.now.graph).blocks) }
    {
        self.graph.recall();
        for block in 0..self.graph.len() {
            if !self.firings.progress(BlockId(block as u32)).done {
                return Some(BlockId(block as u32));
            }
        }
        None
    }

    // The block that a block waits for, or the block itself if it waits for none.
    fn next_of(&self, block: BlockId) -> BlockId
        requires right { IsRight B.meaning self.now }
        requires block { block.0 < length (arc_value self.now.graph).blocks }
        ensures value { let plant = plant_of self.now in result.0 ≡ next_of (net_of B.meaning plant.graph)
            plant.capacities plant.state block.0 }
        ensures inside { result.0 < length (arc_value self.now.graph).blocks }
    {
        self.graph.recall();
        match self.own_need(block) {
            BlockNeed::Items { writer, .. } => writer,
            BlockNeed::Room { reader, .. } => reader,
            BlockNeed::Done | BlockNeed::Busy | BlockNeed::Ready | BlockNeed::Feed => block,
        }
    }

    // What a block of the graph waits for.
    fn own_need(&self, block: BlockId) -> BlockNeed
        requires right { IsRight B.meaning self.now }
        requires block { block.0 < length (arc_value self.now.graph).blocks }
        ensures { let plant = plant_of self.now in wait_seen result ≡ wait_of (net_of B.meaning plant.graph)
            plant.capacities plant.state block.0 }
    {
        self.graph.recall();
        self.firings.need(
            &self.graph,
            self.capacities.rows(),
            &SourceTapes::of(&self.stores),
            block,
        )
    }
}
