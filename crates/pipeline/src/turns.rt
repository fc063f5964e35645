//! The turns of a pipeline.

ghost use Rattle.std.specs.Prelude.{◌≡◌, Ok, Some, IfErr, IfOk, IfSome, OnErr, OnOk};
ghost use Rattle.flowgraph.specs.Flowgraph.{net_of};
ghost use Rattle.plant.specs.declared.answers.Settled.TheVariants.{Done, Quiet};
ghost use Rattle.plant.specs.Settling.{HasMoved};
ghost use Rattle.streaming.specs.Beside.{HasMovedBeside};
ghost use Rattle.pipeline.specs.declared.fault.PipelineFault.TheVariants.{Memory};
ghost use Rattle.pipeline.specs.Faults.{IsFaultOf};
ghost use Rattle.pipeline.specs.Runs.{AllDelivered, BeginsFrom, GoesFrom, HoldsWhole, IsNextOf, IsSettled, NothingLacks};

use crate::asking::Called;
use crate::end::End;
use crate::fault::PipelineFault;
use crate::hearing::Hearing;
use crate::pipeline::Pipeline;
use crate::readiness::Readiness;
use crate::requests::Requests;
use flowgraph::{Block, BlockId};
use std::alloc::Global;
use std::io::{Read, Write};
use streaming::{Helpers, Job, Settled, Worked};

// How often a block fires in a round, at most.
const TURN: u32 = 65_536;

// How many items of a sink are worth a write before the plant comes to rest.
const WORTH_A_WRITE: usize = 65_536;

impl<B: Block, R: Read, W: Write> Pipeline<B, R, W> {
    /// Like `turn`, cut short if a request waits. A sink whose writers take nothing holds up only what leads to it.
    pub(crate) fn advance<H: Helpers<Job<B>, Worked<B>>, Q: Readiness, C: Requests>(
        &mut self,
        alloc: Global,
        helpers: &mut H,
        readiness: &mut Q,
        requests: &C,
    ) -> Result<Option<Settled>, PipelineFault>
        ensures goes { OnOk result (GoesFrom R.remaining W.contents B.meaning self.old self.new) }
        ensures begins { OnErr result (BeginsFrom R.remaining W.contents B.meaning self.old self.new) }
        ensures fault { IfErr result (IsFaultOf R.remaining self.new.ends.items) }
        ensures settled { IfOk result (λ end. IfSome end (IsSettled B.meaning self.new)) }
        ensures whole { result ≡ Ok (Some Done) → HoldsWhole B.meaning self.new }
        ensures written { IfOk result (λ end. IfSome end (λ _. AllDelivered B.meaning self.new)) }
        ensures asked { result ≡ Ok (Some Quiet) → NothingLacks B.meaning self.new }
    {
        let blocks = self.plant.graph().len() as u32;
        let mut hearing = Hearing {
            helpers,
            requests,
            blocks,
        };
        if self.look(readiness) {
            self.advance_beside(alloc, &mut hearing, readiness, requests)?;
            return Ok(None);
        }
        self.advance_all(alloc, &mut hearing, readiness, requests)
    }

    // A turn of all blocks, and of all readers and writers.
    fn advance_all<H: Helpers<Job<B>, Worked<B>>, Q: Readiness, C: Requests>(
        &mut self,
        alloc: Global,
        helpers: &mut H,
        readiness: &mut Q,
        requests: &C,
    ) -> Result<Option<Settled>, PipelineFault>
        ensures goes { OnOk result (GoesFrom R.remaining W.contents B.meaning self.old self.new) }
        ensures begins { OnErr result (BeginsFrom R.remaining W.contents B.meaning self.old self.new) }
        ensures fault { IfErr result (IsFaultOf R.remaining self.new.ends.items) }
        ensures settled { IfOk result (λ end. IfSome end (IsSettled B.meaning self.new)) }
        ensures whole { result ≡ Ok (Some Done) → HoldsWhole B.meaning self.new }
        ensures written { IfOk result (λ end. IfSome end (λ _. AllDelivered B.meaning self.new)) }
        ensures asked { result ≡ Ok (Some Quiet) → NothingLacks B.meaning self.new }
    {
        let has_moved = self.round(alloc, helpers)?;
        if has_moved {
            self.write(WORTH_A_WRITE)?;
            return Ok(None);
        }
        self.write_all()?;
        if self.plant.all_done() {
            return Ok(Some(Settled::Done));
        }
        match self.next_source(readiness, requests) {
            Ok(Some(source)) => {
                self.take_in(source)?;
                Ok(None)
            }
            Ok(None) => Ok(Some(Settled::Quiet)),
            Err(Called) => Ok(None),
        }
    }

    // A turn while some writers take nothing: their sinks rest, and nothing is written to them. If no block moved on,
    // it reads for a source that is ready, or waits if none is.
    fn advance_beside<H: Helpers<Job<B>, Worked<B>>, Q: Readiness, C: Requests>(
        &mut self,
        alloc: Global,
        helpers: &mut H,
        readiness: &mut Q,
        requests: &C,
    ) -> Result<(), PipelineFault>
        ensures goes { OnOk result (GoesFrom R.remaining W.contents B.meaning self.old self.new) }
        ensures begins { OnErr result (BeginsFrom R.remaining W.contents B.meaning self.old self.new) }
        ensures fault { IfErr result (IsFaultOf R.remaining self.new.ends.items) }
    {
        let has_moved = self.round_beside(alloc, helpers)?;
        if has_moved {
            return self.write_beside(WORTH_A_WRITE);
        }
        self.write_beside(0)?;
        self.read_ready(readiness, requests)
    }

    // Reads for a source that is ready. If none is, and no request waits, it waits until one may be.
    fn read_ready<Q: Readiness, C: Requests>(
        &mut self,
        readiness: &mut Q,
        requests: &C,
    ) -> Result<(), PipelineFault>
        ensures goes { OnOk result (GoesFrom R.remaining W.contents B.meaning self.old self.new) }
        ensures begins { OnErr result (BeginsFrom R.remaining W.contents B.meaning self.old self.new) }
        ensures fault { IfErr result (IsFaultOf R.remaining self.new.ends.items) }
    {
        if let Some(source) = self.next_ready(readiness) {
            return self.take_in(source);
        }
        if !requests.are_waiting() {
            readiness.wait();
        }
        Ok(())
    }

    // One round of the plant's blocks.
    fn round<H: Helpers<Job<B>, Worked<B>>>(
        &mut self,
        alloc: Global,
        helpers: &mut H,
    ) -> Result<bool, PipelineFault>
        ensures goes { GoesFrom R.remaining W.contents B.meaning self.old self.new }
        ensures fault { IfErr result (λ fault. fault ≡ Memory) }
        ensures moved { IfOk result (HasMoved (net_of B.meaning self.new.plant.plant.graph)
            self.new.plant.plant.capacities self.old.plant.plant.state self.new.plant.plant.state) }
    {
        Ok(self.plant.round_with(alloc, TURN, helpers)?)
    }

    // One round in which the sinks rest whose writers took nothing at the last look.
    fn round_beside<H: Helpers<Job<B>, Worked<B>>>(
        &mut self,
        alloc: Global,
        helpers: &mut H,
    ) -> Result<bool, PipelineFault>
        ensures goes { GoesFrom R.remaining W.contents B.meaning self.old self.new }
        ensures fault { IfErr result (λ fault. fault ≡ Memory) }
        ensures moved { IfOk result (HasMovedBeside self.old.full.items (net_of B.meaning self.new.plant.plant.graph)
            self.new.plant.plant.capacities 65536 self.old.plant.plant.state self.new.plant.plant.state) }
    {
        Ok(self.plant.round_beside(alloc, TURN, &self.full, helpers)?)
    }

    // Takes in a piece from the reader of the source that is fed next.
    fn take_in(&mut self, block: BlockId) -> Result<(), PipelineFault>
        requires { IsNextOf B.meaning self.old block.0 }
        ensures goes { OnOk result (GoesFrom R.remaining W.contents B.meaning self.old self.new) }
        ensures begins { OnErr result (BeginsFrom R.remaining W.contents B.meaning self.old self.new) }
        ensures fault { IfErr result (IsFaultOf R.remaining self.new.ends.items) }
    {
        let at = block.0 as usize;
        if self.ends.len() <= at {
            return Ok(());
        }
        match &mut self.ends[at] {
            End::Input(input) => input.take_in(&mut self.plant, block, &mut self.piece),
            End::Open | End::Output(_) => Ok(()),
        }
    }
}
