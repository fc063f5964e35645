//! A held plant: one that keeps all that it took, or one that streams.

ghost use Rattle.std.specs.Prelude.{◌≡◌, ◌≤◌, Ok, IfOk, IfErr, map};
ghost use Rattle.stream_model.specs.Machine as machine;
ghost use Rattle.stream_model.specs.Machine.{close_of, feed_of, set_of, step_of};
ghost use Rattle.flowgraph.specs.Flowgraph.{net_of};
ghost use Rattle.items.specs.Items.{type_of, numbers_of};
ghost use Rattle.kinds.specs.Kind.{meaning_of};
ghost use Rattle.plant.specs.Answers.{Answered, AnsweredAlways, reply_of, source_type_of, step_reply};
ghost use Rattle.plant.specs.Feeding.{feed_numbers};
ghost use Rattle.plant.specs.Waits.{need_of, wait_in};
ghost use Rattle.settings.specs.Values.{value_of};
ghost use Rattle.plant_storage.specs.Stores.{mark_of};
ghost use Rattle.graph_file.specs.Refusals.{IsRefused};
ghost use Rattle.magbelu_c.specs.AnyPlants.{IsOpened, opening_in, plant_of, with_plant};
ghost use Rattle.magbelu_c.specs.Settling.{SettlesOn, SettlesStream};

use crate::idle::Idle;
use crate::reply::{Reply, at_rest, done, no_memory};
use flow_core::opening::open_stream;
use flow_core::turn::TURN;
use flowgraph::{BlockId, Valid};
use graph_file::FileFault;
use items::{ItemType, Items, Mark};
use kinds::Kind;
use plant::{BlockNeed, Closed, Fed, PlantFault, Settled, Step, Taken};
use settings::Value;
use std::alloc::Global;
use streaming::StreamingPlant;

/// A held plant. No claim of it is in flight.
#[derive(Drop)]
pub(crate) enum AnyPlant {
    /// It keeps all that its sources and its sinks took.
    Whole(Idle),
    /// It forgets what its sources have taken, and what was drained.
    Streaming(StreamingPlant<Kind>),
}

impl AnyPlant {
    /// The plant of a graph file with its feeds on the tapes, or why the file is refused.
    pub(crate) fn open(alloc: Global, file: &[u8], streams: bool) -> Result<AnyPlant, FileFault>
        ensures opens { IfOk result (IsOpened streams file.now) }
        ensures refused { IfErr result (IsRefused (opening_in streams file.now)) }
    {
        if streams {
            match open_stream(alloc, file) {
                Ok(stream) => Ok(AnyPlant::Streaming(stream)),
                Err(fault) => Err(fault),
            }
        } else {
            match Idle::open(alloc, file) {
                Ok(idle) => Ok(AnyPlant::Whole(idle)),
                Err(fault) => Err(fault),
            }
        }
    }

    /// The graph.
    pub(crate) fn graph(&self) -> &Valid<Kind>
        ensures { result.now ≡ (plant_of self.now).graph }
    {
        match self {
            AnyPlant::Whole(idle) => idle.graph(),
            AnyPlant::Streaming(stream) => stream.graph(),
        }
    }

    /// The type of the items that a source takes.
    pub(crate) fn source_type(&self, block: BlockId) -> Result<ItemType, PlantFault>
        ensures { result ≡ source_type_of (net_of meaning_of (plant_of self.now).graph) block.0 }
    {
        match self {
            AnyPlant::Whole(idle) => idle.source_type(block),
            AnyPlant::Streaming(stream) => stream.source_type(block),
        }
    }

    /// Feeds items to a source, with marks on them.
    #[tactic(auto, using(crate::proofs::Variants::kept_same))]
    pub(crate) fn feed(
        &mut self,
        source: BlockId,
        items: &Items,
        marks: &[Mark],
    ) -> Result<Fed, PlantFault>
        ensures answered { let old = plant_of self.old in
            Answered (feed_of (net_of meaning_of old.graph) old.state source.0 (type_of items.now)
            (numbers_of items.now) (map mark_of marks.now)) old (plant_of self.new)
            (reply_of (λ f. machine.Fed f.0) result) }
        ensures keeps { self.new ≡ with_plant self.old (plant_of self.new) }
    {
        match self {
            AnyPlant::Whole(idle) => idle.feed(source, items, marks),
            AnyPlant::Streaming(stream) => stream.feed(source, items, marks),
        }
    }

    /// Feeds whole numbers to a source, with marks on them.
    #[tactic(auto, using(crate::proofs::Variants::kept_same))]
    pub(crate) fn feed_numbers(
        &mut self,
        alloc: Global,
        source: BlockId,
        numbers: &[i64],
        marks: &[Mark],
    ) -> Result<Fed, PlantFault>
        ensures answered { let old = plant_of self.old in
            Answered (feed_numbers (net_of meaning_of old.graph) old.state source.0 numbers.now (map mark_of marks.now))
            old (plant_of self.new) (reply_of (λ f. machine.Fed f.0) result) }
        ensures keeps { self.new ≡ with_plant self.old (plant_of self.new) }
    {
        match self {
            AnyPlant::Whole(idle) => idle.feed_numbers(alloc, source, numbers, marks),
            AnyPlant::Streaming(stream) => stream.feed_numbers(alloc, source, numbers, marks),
        }
    }

    /// Closes a source: nothing more comes.
    #[tactic(auto, using(crate::proofs::Variants::kept_same))]
    pub(crate) fn close(&mut self, source: BlockId) -> Result<Closed, PlantFault>
        ensures answered { let old = plant_of self.old in
            AnsweredAlways (close_of (net_of meaning_of old.graph) old.state source.0) old (plant_of self.new)
            (reply_of (λ c. machine.Closed c.0) result) }
        ensures keeps { self.new ≡ with_plant self.old (plant_of self.new) }
    {
        match self {
            AnyPlant::Whole(idle) => idle.close(source),
            AnyPlant::Streaming(stream) => stream.close(source),
        }
    }

    /// Sets the value of a block's setting.
    #[tactic(auto, using(crate::proofs::Variants::kept_same))]
    pub(crate) fn set(
        &mut self,
        block: BlockId,
        at: Option<u64>,
        value: Value,
    ) -> Result<Taken, PlantFault>
        ensures answered { let old = plant_of self.old in
            Answered (set_of (net_of meaning_of old.graph) old.state block.0 at (value_of value)) old
            (plant_of self.new) (reply_of (λ t. machine.Taken t.0) result) }
        ensures keeps { self.new ≡ with_plant self.old (plant_of self.new) }
    {
        match self {
            AnyPlant::Whole(idle) => idle.set(block, at, value),
            AnyPlant::Streaming(stream) => stream.set(block, at, value),
        }
    }

    /// Does at most `max` firings of a block.
    #[tactic(auto, using(crate::proofs::Variants::kept_same))]
    pub(crate) fn step(
        &mut self,
        alloc: Global,
        block: BlockId,
        max: u32,
    ) -> Result<Step, PlantFault>
        requires { 1 ≤ max }
        ensures answered { let old = plant_of self.old in
            Answered (step_of (net_of meaning_of old.graph) old.capacities old.state block.0 max) old
            (plant_of self.new) (reply_of step_reply result) }
        ensures keeps { self.new ≡ with_plant self.old (plant_of self.new) }
    {
        match self {
            AnyPlant::Whole(idle) => idle.step(alloc, block, max),
            AnyPlant::Streaming(stream) => stream.step(alloc, block, max),
        }
    }

    /// Steps all blocks until none can act.
    pub(crate) fn settle(&mut self, alloc: Global) -> Reply
        ensures { SettlesOn self.old self.new result }
    {
        match self {
            AnyPlant::Whole(idle) => idle.settle(alloc),
            AnyPlant::Streaming(stream) => settle_stream(stream, alloc),
        }
    }

    /// What a step of a block would come to, or what it waits for.
    pub(crate) fn need(&self, block: BlockId) -> Result<BlockNeed, PlantFault>
        ensures { let plant = plant_of self.now in wait_in result ≡ need_of (net_of meaning_of plant.graph)
            plant.capacities plant.state block.0 }
    {
        match self {
            AnyPlant::Whole(idle) => idle.need(block),
            AnyPlant::Streaming(stream) => stream.need(block),
        }
    }
}

// Steps all blocks until none can act, and forgets what sources have taken.
fn settle_stream(stream: &mut StreamingPlant<Kind>, alloc: Global) -> Reply
    ensures { SettlesStream stream.old stream.new result }
{
    match stream.settle(alloc, TURN) {
        Ok(Settled::Done) => done(0, 0),
        Ok(Settled::Quiet) => at_rest(),
        Err(_) => no_memory(),
    }
}
