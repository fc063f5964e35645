//! What a plant shows.

ghost use Rattle.std.specs.Prelude.{◌≡◌, ◌≤◌, true, IfOk, Some};
ghost use Rattle.stream_model.specs.Machine.{capacity_at, read_of, HoldsAll};
ghost use Rattle.stream_model.specs.Network.{node_at};
ghost use Rattle.items.specs.Items.{type_of};
ghost use Rattle.flowgraph.specs.Flowgraph.{net_of};
ghost use Rattle.plant_laws.specs.Stored.{sink_at};
ghost use Rattle.plant_storage.specs.Stores.{stored_in};
ghost use Rattle.plant.specs.Plant.{IsRight, plant_of};
ghost use Rattle.plant.specs.Answers.{AnsweredBy, reply_of, piece_reply, view_of, view_reply};
ghost use Rattle.plant.specs.Keeping.{IsKeptOf, port_fault};
ghost use Rattle.plant.specs.Setting.{fault_in};

use crate::answers::{Piece, SinkView};
use crate::parts::Parts;
use flowgraph::{Block, BlockId};
use plant_faults::PlantFault;
use plant_storage::Stored;
use std::alloc::Global;

impl<B: Block> Parts<B> {
    /// What a sink holds from item `from` on, at most `max` items, with the tags on them. Item `from` is kept.
    pub fn read(
        &self,
        alloc: Global,
        sink: BlockId,
        from: u64,
        max: u64,
    ) -> Result<Piece, PlantFault>
        requires right { IsRight B.meaning self.now }
        requires kept { (sink_at (stored_in self.now.stores) sink.0).from ≤ from }
        ensures answered { let plant = plant_of self.now in AnsweredBy
            (read_of (net_of B.meaning plant.graph) plant.state sink.0 from max) (reply_of piece_reply result) }
        ensures typed { let plant = plant_of self.now in IfOk result (λ piece. type_of piece.items
            ≡ (node_at (net_of B.meaning plant.graph) sink.0).meaning.inputs.item) }
        ensures whole { let plant = plant_of self.now in IfOk result (λ piece. piece.done ≡ true
            → HoldsAll (net_of B.meaning plant.graph) plant.state sink.0) }
    {
        self.graph.recall();
        if self.graph.len() <= sink.0 as usize {
            return Err(PlantFault::NoSuchBlock);
        }
        if !self.graph.is_keeper(sink) {
            return Err(PlantFault::NotSink);
        }
        let own = self.firings.progress(sink);
        if own.firings < from {
            return Err(PlantFault::BeyondEnd);
        }
        let to = from + max.min(own.firings - from);
        let collected = &self.stores.sinks[sink.0 as usize];
        Ok(Piece {
            from,
            held: own.firings,
            items: collected.slice(alloc, from, to)?,
            tags: Vec::from_slice(alloc, collected.tags(from, to))?,
            done: own.done,
        })
    }

    /// All that a sink holds, in its place.
    pub fn view(&self, sink: BlockId) -> Result<SinkView<'_>, PlantFault>
        requires right { IsRight B.meaning self.now }
        requires kept { (sink_at (stored_in self.now.stores) sink.0).from ≡ 0 }
        ensures answered { let plant = plant_of self.now in reply_of view_reply result
            ≡ Some (view_of (net_of B.meaning plant.graph) plant.state sink.0) }
        ensures typed { let plant = plant_of self.now in IfOk result (λ view. type_of view.items.now
            ≡ (node_at (net_of B.meaning plant.graph) sink.0).meaning.inputs.item) }
        ensures whole { let plant = plant_of self.now in IfOk result (λ view. view.done ≡ true
            → HoldsAll (net_of B.meaning plant.graph) plant.state sink.0) }
    {
        self.graph.recall();
        if self.graph.len() <= sink.0 as usize {
            return Err(PlantFault::NoSuchBlock);
        }
        if !self.graph.is_keeper(sink) {
            return Err(PlantFault::NotSink);
        }
        let own = self.firings.progress(sink);
        let collected = &self.stores.sinks[sink.0 as usize];
        Ok(SinkView {
            items: collected.kept().items,
            tags: collected.tags(0, own.firings),
            done: own.done,
        })
    }

    /// How many unread items the buffer of an output holds at most.
    pub fn capacity(&self, block: BlockId, port: usize) -> Result<u32, PlantFault>
        requires { IsRight B.meaning self.now }
        ensures refused { let plant = plant_of self.now in fault_in result
            ≡ port_fault (net_of B.meaning plant.graph) block.0 port }
        ensures value { IfOk result (λ items. items ≡ capacity_at (plant_of self.now).capacities block.0 port) }
    {
        // An output that keeps something is one that is used.
        if let Err(fault) = self.stored(block, port) {
            return Err(fault);
        }
        let rows = self.capacities.rows();
        match rows.get(block.0 as usize) {
            Some(row) => Ok(row.get(port).copied().unwrap_or(0)),
            None => Ok(0),
        }
    }

    /// How much the buffer of an output keeps.
    pub fn stored(&self, block: BlockId, port: usize) -> Result<Stored, PlantFault>
        requires { IsRight B.meaning self.now }
        ensures refused { let plant = plant_of self.now in fault_in result
            ≡ port_fault (net_of B.meaning plant.graph) block.0 port }
        ensures kept { let plant = plant_of self.now in IfOk result (IsKeptOf (net_of B.meaning plant.graph)
            plant.capacities plant.state block.0 port) }
    {
        self.graph.recall();
        if self.graph.len() <= block.0 as usize {
            return Err(PlantFault::NoSuchBlock);
        }
        if self.graph.outputs(block) <= port {
            return Err(PlantFault::NoSuchPort);
        }
        Ok(self.stores.kept(block, port))
    }
}
