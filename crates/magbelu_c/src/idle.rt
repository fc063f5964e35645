//! A plant whose calls are made one by one, so no claim is ever in flight.

ghost use Rattle.std.specs.Prelude.{◌≡◌, ◌≤◌, ◌<◌, ◌-◌, ◌^◌, Ok, IfOk, IfErr, OnOk, map};
ghost use Rattle.stream_model.specs.Machine as machine;
ghost use Rattle.stream_model.specs.Machine.{close_of, feed_of, is_idle, set_of, step_of};
ghost use Rattle.flowgraph.specs.Flowgraph.{net_of};
ghost use Rattle.items.specs.Items.{type_of, numbers_of};
ghost use Rattle.kinds.specs.Kind.{meaning_of};
ghost use Rattle.plant.specs.Answers.{Answered, AnsweredAlways, reply_of, source_type_of, step_reply};
ghost use Rattle.plant.specs.Feeding.{feed_numbers};
ghost use Rattle.plant.specs.Waits.{need_of, wait_in};
ghost use Rattle.settings.specs.Values.{value_of};
ghost use Rattle.plant_storage.specs.Stores.{mark_of};
ghost use Rattle.file_plants.specs.Opening.{opened_of};
ghost use Rattle.graph_file.specs.Refusals.{IsRefused};
ghost use Rattle.flow_core.specs.RawEnds.{StepsToRest};
ghost use Rattle.flow_core.specs.RawFeeds.{IsFedBy, StopsFeeding};
ghost use Rattle.flow_core.specs.Serve.{plant_in};
ghost use Rattle.flow_core.specs.Session.{in_state};
ghost use Rattle.magbelu_c.specs.Settling.{Settles};

use crate::reply::{Reply, at_rest, done, no_memory};
use byte_io::ByteIn;
use flow_core::opening::open_plant;
use flow_core::raw_fault::RawFault;
use flow_core::raw_input;
use flow_core::run::settle_plant;
use flow_core::turn::TURN;
use flowgraph::{BlockId, Valid};
use graph_file::FileFault;
use items::{ItemType, Items, Mark};
use kinds::Kind;
use plant::{BlockNeed, Closed, Fed, Plant, PlantFault, Settled, Step, Taken, Unwatched};
use raw_items::ByteOrder;
use settings::Value;
use std::alloc::{AllocError, Global};
use std::marker::Model;

/// A plant with no claim in flight. Contracts see the plant.
#[derive(Drop)]
pub(crate) struct Idle {
    pub(crate) plant: Plant<Kind>,
}

impl Model for Idle {
    ghost use Rattle.std.specs.Prelude.{◌≡◌, true};
    ghost use Rattle.stream_model.specs.Machine.{is_idle};
    ghost use Rattle.kinds.specs.declared.kind.Kind.{Kind};
    ghost use Rattle.plant.specs.Plant.{PlantState};

    ghost Value = { PlantState Kind };

    ghost view = { λ idle. idle.plant };

    ghost invariant = { λ idle. is_idle idle.plant.state ≡ true };
}

impl Idle {
    /// The plant of a graph file with its feeds on the tapes, or why the file is refused.
    pub(crate) fn open(alloc: Global, file: &[u8]) -> Result<Idle, FileFault>
        ensures opens { IfOk result (λ plant. plant_in file.now ≡ Ok (opened_of plant)) }
        ensures refused { IfErr result (IsRefused (plant_in file.now)) }
    {
        match open_plant(alloc, file) {
            Ok(plant) => Ok(Idle { plant }),
            Err(fault) => Err(fault),
        }
    }

    /// The graph.
    pub(crate) fn graph(&self) -> &Valid<Kind>
        ensures { result.now ≡ self.now.graph }
    {
        self.plant.graph()
    }

    /// The type of the items that a source takes.
    pub(crate) fn source_type(&self, block: BlockId) -> Result<ItemType, PlantFault>
        ensures { result ≡ source_type_of (net_of meaning_of self.now.graph) block.0 }
    {
        self.plant.source_type(block)
    }

    /// Appends items to a source's tape, with marks on them.
    pub(crate) fn feed(
        &mut self,
        source: BlockId,
        items: &Items,
        marks: &[Mark],
    ) -> Result<Fed, PlantFault>
        ensures { Answered (feed_of (net_of meaning_of self.old.graph) self.old.state source.0 (type_of items.now)
            (numbers_of items.now) (map mark_of marks.now)) self.old self.new (reply_of (λ f. machine.Fed f.0) result) }
    {
        self.plant.feed_from(source, items, marks)
    }

    /// Appends whole numbers to a source's tape, with marks on them.
    pub(crate) fn feed_numbers(
        &mut self,
        alloc: Global,
        source: BlockId,
        numbers: &[i64],
        marks: &[Mark],
    ) -> Result<Fed, PlantFault>
        ensures { Answered (feed_numbers (net_of meaning_of self.old.graph) self.old.state source.0 numbers.now
            (map mark_of marks.now)) self.old self.new (reply_of (λ f. machine.Fed f.0) result) }
    {
        self.plant.feed_numbers(alloc, source, numbers, marks)
    }

    /// Reads an input to its end, piece by piece, and appends its bytes as items to a source's tape. If it stops by a
    /// fault, some of them may be there.
    pub(crate) fn feed_from<I: ByteIn>(
        &mut self,
        alloc: Global,
        number: usize,
        source: BlockId,
        order: ByteOrder,
        input: &mut I,
    ) -> Result<(), RawFault>
        requires reads { I.failed input.old < 2 ^ 64 - 1 }
        ensures same { self.new ≡ in_state self.old self.new.state }
        ensures fed { OnOk result (IsFedBy (net_of meaning_of self.old.graph) self.old.state self.new.state source.0
            order (I.remaining input.old) (I.remaining input.new)) }
        ensures stops { IfErr result (StopsFeeding (net_of meaning_of self.old.graph) self.old.state source.0 order
            number (I.remaining input.old) (I.remaining input.new)) }
    {
        raw_input::feed_from(alloc, &mut self.plant, number, source, order, input)
    }

    /// Closes a source's tape.
    pub(crate) fn close(&mut self, source: BlockId) -> Result<Closed, PlantFault>
        ensures { AnsweredAlways (close_of (net_of meaning_of self.old.graph) self.old.state source.0) self.old self.new
            (reply_of (λ c. machine.Closed c.0) result) }
    {
        self.plant.close(source)
    }

    /// Sets the value of a block's setting.
    pub(crate) fn set(
        &mut self,
        block: BlockId,
        at: Option<u64>,
        value: Value,
    ) -> Result<Taken, PlantFault>
        ensures { Answered (set_of (net_of meaning_of self.old.graph) self.old.state block.0 at (value_of value))
            self.old self.new (reply_of (λ t. machine.Taken t.0) result) }
    {
        self.plant.set(block, at, value)
    }

    /// Does at most `max` firings of a block.
    pub(crate) fn step(
        &mut self,
        alloc: Global,
        block: BlockId,
        max: u32,
    ) -> Result<Step, PlantFault>
        requires { 1 ≤ max }
        ensures { Answered (step_of (net_of meaning_of self.old.graph) self.old.capacities self.old.state block.0 max)
            self.old self.new (reply_of step_reply result) }
    {
        self.plant.recall();
        self.plant.step(alloc, block, max)
    }

    /// What a step of a block would come to, or what it waits for.
    pub(crate) fn need(&self, block: BlockId) -> Result<BlockNeed, PlantFault>
        ensures { wait_in result ≡ need_of (net_of meaning_of self.now.graph) self.now.capacities self.now.state
            block.0 }
    {
        self.plant.need(block)
    }

    /// Closes each source, and runs the plant until it comes to rest, block by block.
    pub(crate) fn run_to_rest(self, alloc: Global) -> Result<Plant<Kind>, AllocError>
        ensures { IfOk result (λ plant. StepsToRest (opened_of self) (opened_of plant)) }
    {
        let Idle { plant } = self;
        match settle_plant(alloc, plant, &mut Unwatched) {
            Ok((plant, _)) => Ok(plant),
            Err(refusal) => Err(refusal),
        }
    }

    /// Steps all blocks until none can act.
    pub(crate) fn settle(&mut self, alloc: Global) -> Reply
        ensures { Settles self.old self.new result }
    {
        match self.plant.settle(alloc, TURN) {
            Ok(Settled::Done) => done(0, 0),
            Ok(Settled::Quiet) => at_rest(),
            Err(_) => no_memory(),
        }
    }
}
