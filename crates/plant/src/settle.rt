//! Steps of all blocks in turn, to their end, and who looks on.

ghost use Rattle.std.specs.Prelude.{◌≡◌, ◌<◌, ◌≤◌, ◌^◌, length, true, IfOk, OnErr};
ghost use Rattle.std.specs.Arc.{arc_value};
ghost use Rattle.stream_model.specs.Machine as machine;
ghost use Rattle.stream_model.specs.Machine.{is_idle, step_of};
ghost use Rattle.machine_laws.specs.Steps.{moves_on};
ghost use Rattle.flowgraph.specs.Flowgraph.{net_of};
ghost use Rattle.plant.specs.Plant.{IsRight, KeepsAll, plant_of, spans_in};
ghost use Rattle.plant.specs.Settling.{StepsLead, HasMoved, HasSettled, HoldsSettled};
ghost use Rattle.plant.specs.Headway.{fed_to, given_by_source, headway_of, headway_shown};

use crate::answers::{Headway, Settled, Step};
use crate::parts::Parts;
use crate::source_tapes::counts_of;
use flowgraph::{Block, BlockId};
use std::alloc::{AllocError, Global};
use std::sync::Arc;
use std::time::Duration;

/// Is shown the progress of a run. It promises nothing.
pub trait Watch {
    /// How long a run in threads goes on between two calls of `show`. With `None` it makes none. `settle` does not ask.
    fn pause(&self) -> Option<Duration>;

    /// The plant is so far: after each round of all blocks on one thread, and after each pause in threads.
    fn show(&mut self, headway: Headway);

    /// `settle` begins a step of this block. A run in threads tells its gate of turns instead.
    fn begins(&mut self, _block: BlockId) {}

    /// The result of the step that `settle` began. There is no such call if memory ran out.
    fn stepped(&mut self, _block: BlockId, _step: Step) {}

    /// The run is over, however it ended.
    fn end(&mut self);
}

/// A watch that does nothing.
#[derive(Debug, Drop)]
pub struct Unwatched;

impl Watch for Unwatched {
    fn pause(&self) -> Option<Duration> {
        None
    }

    fn show(&mut self, _headway: Headway) {}

    fn end(&mut self) {}
}

impl<B: Block> Parts<B> {
    /// Steps all blocks in turn, writers before readers, at most `max` firings each, until all are done or none moved
    /// on.
    pub fn settle<W: Watch>(
        &mut self,
        alloc: Global,
        max: u32,
        watch: &mut W,
    ) -> Result<Settled, AllocError>
        requires right { IsRight B.meaning self.old }
        requires idle { is_idle (plant_of self.old).state ≡ true }
        requires some { 1 ≤ max }
        ensures right { IsRight B.meaning self.new }
        ensures spans { spans_in self.new ≡ spans_in self.old }
        ensures same { plant_of self.new ≡ record (plant_of self.old) { state = (plant_of self.new).state } }
        ensures steps { let old = plant_of self.old in StepsLead (net_of B.meaning old.graph) old.capacities max
            old.state (plant_of self.new).state }
        ensures idle { is_idle (plant_of self.new).state ≡ true }
        ensures settled { let new = plant_of self.new in IfOk result (HasSettled (net_of B.meaning new.graph)
            new.capacities new.state) }
        ensures whole { let new = plant_of self.new in IfOk result (HoldsSettled (net_of B.meaning new.graph)
            new.state) }
    {
        'rounds: loop {
            let moved = self.round(alloc, max, watch)?;
            watch.show(self.headway());
            self.graph.recall();
            if self.firings.all_done() {
                return Ok(Settled::Done);
            }
            if !moved {
                return Ok(Settled::Quiet);
            }
        }
    }

    /// Steps each block once, writers before readers, and returns whether one moved on.
    pub fn round<W: Watch>(
        &mut self,
        alloc: Global,
        max: u32,
        watch: &mut W,
    ) -> Result<bool, AllocError>
        requires right { IsRight B.meaning self.old }
        requires idle { is_idle (plant_of self.old).state ≡ true }
        requires some { 1 ≤ max }
        ensures right { IsRight B.meaning self.new }
        ensures spans { spans_in self.new ≡ spans_in self.old }
        ensures same { plant_of self.new ≡ record (plant_of self.old) { state = (plant_of self.new).state } }
        ensures steps { let old = plant_of self.old in StepsLead (net_of B.meaning old.graph) old.capacities max
            old.state (plant_of self.new).state }
        ensures idle { is_idle (plant_of self.new).state ≡ true }
        ensures moved { let old = plant_of self.old in IfOk result (HasMoved (net_of B.meaning old.graph) old.capacities
            old.state (plant_of self.new).state) }
    {
        self.graph.recall();
        // (a share of it, since a step has the plant to itself)
        let graph = Arc::try_clone(&self.graph)?;
        let order = graph.writers_first();
        let mut moved = false;
        for block in order {
            if self.moves(alloc, *block, max, watch)? {
                moved = true;
            }
        }
        Ok(moved)
    }

    // Steps a block, and returns whether it fired or became done.
    fn moves<W: Watch>(
        &mut self,
        alloc: Global,
        block: BlockId,
        max: u32,
        watch: &mut W,
    ) -> Result<bool, AllocError>
        requires right { IsRight B.meaning self.old }
        requires block { block.0 < length (arc_value self.old.graph).blocks }
        requires some { 1 ≤ max }
        ensures right { IsRight B.meaning self.new }
        ensures spans { spans_in self.new ≡ spans_in self.old }
        ensures step { let old = plant_of self.old in
            IfOk result (λ moved. plant_of self.new ≡ record old {
              state = (step_of (net_of B.meaning old.graph)
                  old.capacities old.state block.0 max).1;
            }) }
        ensures moved { let old = plant_of self.old in
            IfOk result (λ moved. moved ≡ moves_on old.state (machine.Claim block.0 max)
            (step_of (net_of B.meaning old.graph) old.capacities old.state block.0 max).0) }
        ensures err { OnErr result (plant_of self.new ≡ plant_of self.old) }
    {
        self.graph.recall();
        let was_done = self.firings.progress(block).done;
        watch.begins(block);
        match self.step(alloc, block, max) {
            Ok(step) => {
                watch.stepped(block, step);
                match step {
                    Step::Did(_) => Ok(true),
                    Step::Done => Ok(!was_done),
                    Step::Busy | Step::Waiting(_) => Ok(false),
                }
            }
            Err(_) => Err(AllocError),
        }
    }

    /// How many items all sources were fed, and how many of these they have given. A number that grows beyond a word
    /// stays at the greatest.
    pub fn headway(&self) -> Headway
        requires { IsRight B.meaning self.now }
        ensures value { let plant = plant_of self.now in KeepsAll (spans_in self.now) → result
            ≡ headway_of (net_of B.meaning plant.graph) plant.state }
        ensures shown { let plant = plant_of self.now in result ≡ headway_shown (net_of B.meaning plant.graph)
            plant.state }
        ensures within { result.given ≤ result.fed }
    {
        let mut headway = Headway { given: 0, fed: 0 };
        for block in 0..self.graph.len() {
            let own = self.own_headway(BlockId(block as u32));
            headway.given = headway.given.saturating_add(own.given);
            headway.fed = headway.fed.saturating_add(own.fed);
        }
        headway
    }

    // The headway of one block. A firing of a source gives one item, and no other block is fed.
    fn own_headway(&self, block: BlockId) -> Headway
        requires right { IsRight B.meaning self.now }
        requires block { block.0 < length (arc_value self.now.graph).blocks }
        ensures given { let plant = plant_of self.now in result.given ≡ given_by_source (net_of B.meaning plant.graph)
            plant.state block.0 }
        ensures fed { let plant = plant_of self.now in result.fed ≡ fed_to (net_of B.meaning plant.graph) plant.state
            block.0 }
        ensures within { result.given ≤ result.fed }
        ensures short { KeepsAll (spans_in self.now) → result.fed ≤ 2 ^ 32 }
    {
        self.graph.recall();
        if !self.graph.is_source(block) {
            return Headway { given: 0, fed: 0 };
        }
        let tape = counts_of(&self.stores.handed[block.0 as usize]);
        let own = self.firings.progress(block);
        Headway {
            given: own.firings,
            fed: tape.length,
        }
    }
}
