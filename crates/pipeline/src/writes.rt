//! Writing what the sinks of a pipeline have taken.

ghost use Rattle.std.specs.Prelude.{◌≡◌, ℕ, false, IfErr, OnErr, OnOk};
ghost use Rattle.streaming.specs.Beside.{is_held};
ghost use Rattle.pipeline.specs.Faults.{IsFaultOf};
ghost use Rattle.pipeline.specs.Runs.{AllDelivered, BeginsFrom, DeliveredAt, GoesFrom, OthersDelivered};

use crate::delivery::{deliver, flush};
use crate::end::End;
use crate::fault::PipelineFault;
use crate::pipeline::Pipeline;
use crate::readiness::Readiness;
use flowgraph::{Block, BlockId};
use std::io::{Read, Write};
use streaming::BlockNeed;

impl<B: Block, R: Read, W: Write> Pipeline<B, R, W> {
    /// Notes which sinks' writers do not take what they are given, and returns whether there are any.
    pub(crate) fn look<Q: Readiness>(&mut self, readiness: &mut Q) -> bool
        ensures same { (self.new.plant ≡ self.old.plant) × (self.new.ends.items ≡ self.old.ends.items) }
    {
        let mut is_any_full = false;
        for block in 0..self.plant.graph().len() {
            let is_full = self.has_output(block) && !self.takes(BlockId(block as u32), readiness);
            if block < self.full.len() {
                self.full[block] = is_full;
                is_any_full = is_any_full || is_full;
            }
        }
        is_any_full
    }

    // Whether the writers of a sink take what they are given. If they were given all, it tells so.
    fn takes<Q: Readiness>(&self, sink: BlockId, readiness: &mut Q) -> bool {
        if self.is_given(sink) {
            readiness.ends(sink);
            return true;
        }
        readiness.takes(sink)
    }

    // Whether a sink takes no more, and its writers were given all.
    fn is_given(&self, sink: BlockId) -> bool {
        self.plant.items_in_memory(sink) == 0
            && matches!(self.plant.need(sink), Ok(BlockNeed::Done))
    }

    // Whether a block has writers.
    fn has_output(&self, block: usize) -> bool {
        matches!(self.ends.get(block), Some(End::Output(_)))
    }

    /// Writes all that the sinks have taken, and flushes the writers. While some take nothing it writes to the others.
    pub(crate) fn write_rest<Q: Readiness>(
        &mut self,
        readiness: &mut Q,
    ) -> Result<(), PipelineFault>
        ensures goes { OnOk result (GoesFrom R.remaining W.contents B.meaning self.old self.new) }
        ensures begins { OnErr result (BeginsFrom R.remaining W.contents B.meaning self.old self.new) }
        ensures fault { IfErr result (IsFaultOf R.remaining self.new.ends.items) }
        ensures same { self.new.plant.plant ≡ self.old.plant.plant }
        ensures written { OnOk result (AllDelivered B.meaning self.new) }
    {
        for _looks in 0..u64::MAX {
            if !self.look(readiness) {
                return self.write_all();
            }
            self.write_beside(0)?;
            readiness.wait();
        }
        // No run is so long that it looks so often.
        Err(PipelineFault::Memory)
    }

    /// Writes all that the sinks have taken, and flushes the writers.
    pub(crate) fn write_all(&mut self) -> Result<(), PipelineFault>
        ensures goes { OnOk result (GoesFrom R.remaining W.contents B.meaning self.old self.new) }
        ensures begins { OnErr result (BeginsFrom R.remaining W.contents B.meaning self.old self.new) }
        ensures fault { IfErr result (IsFaultOf R.remaining self.new.ends.items) }
        ensures same { self.new.plant.plant ≡ self.old.plant.plant }
        ensures written { OnOk result (AllDelivered B.meaning self.new) }
    {
        self.write(0)?;
        self.flush()
    }

    /// Writes what sinks have taken, of each sink with at least so many items in memory.
    pub(crate) fn write(&mut self, least: usize) -> Result<(), PipelineFault>
        ensures goes { OnOk result (GoesFrom R.remaining W.contents B.meaning self.old self.new) }
        ensures begins { OnErr result (BeginsFrom R.remaining W.contents B.meaning self.old self.new) }
        ensures fault { IfErr result (IsFaultOf R.remaining self.new.ends.items) }
        ensures same { self.new.plant.plant ≡ self.old.plant.plant }
        ensures written { least ≡ 0 → OnOk result (AllDelivered B.meaning self.new) }
    {
        for block in 0..self.plant.graph().len() {
            self.deliver(BlockId(block as u32), least)?;
        }
        Ok(())
    }

    /// Like `write`, of the sinks alone whose writers took something at the last look. With 0 it flushes these writers.
    pub(crate) fn write_beside(&mut self, least: usize) -> Result<(), PipelineFault>
        ensures goes { OnOk result (GoesFrom R.remaining W.contents B.meaning self.old self.new) }
        ensures begins { OnErr result (BeginsFrom R.remaining W.contents B.meaning self.old self.new) }
        ensures fault { IfErr result (IsFaultOf R.remaining self.new.ends.items) }
        ensures same { self.new.plant.plant ≡ self.old.plant.plant }
        ensures written { least ≡ 0 → OnOk result (OthersDelivered self.old.full.items B.meaning self.new) }
    {
        for block in 0..self.plant.graph().len() {
            self.write_own(BlockId(block as u32), least)?;
        }
        Ok(())
    }

    // The same of one sink.
    fn write_own(&mut self, block: BlockId, least: usize) -> Result<(), PipelineFault>
        ensures goes { OnOk result (GoesFrom R.remaining W.contents B.meaning self.old self.new) }
        ensures begins { OnErr result (BeginsFrom R.remaining W.contents B.meaning self.old self.new) }
        ensures fault { IfErr result (IsFaultOf R.remaining self.new.ends.items) }
        ensures same { self.new.plant.plant ≡ self.old.plant.plant }
        ensures held { self.new.full ≡ self.old.full }
        ensures own { least ≡ 0 → is_held self.old.full.items block.0 ≡ false
            → OnOk result (DeliveredAt self.new block.0) }
        ensures others { (b : ℕ) → (b ≡ block.0 → ⊥) → DeliveredAt self.old b → DeliveredAt self.new b }
    {
        if self.is_full(block) {
            return Ok(());
        }
        self.deliver(block, least)?;
        if least == 0 {
            self.flush_own(block)
        } else {
            Ok(())
        }
    }

    // Whether the writers of a sink took nothing at the last look.
    fn is_full(&self, block: BlockId) -> bool
        ensures { result ≡ is_held self.now.full.items block.0 }
    {
        match self.full.get(block.0 as usize) {
            Some(is_full) => *is_full,
            None => false,
        }
    }

    // Writes what a sink has taken, if it has an output and at least so many of its items are in memory.
    fn deliver(&mut self, block: BlockId, least: usize) -> Result<(), PipelineFault>
        ensures goes { OnOk result (GoesFrom R.remaining W.contents B.meaning self.old self.new) }
        ensures begins { OnErr result (BeginsFrom R.remaining W.contents B.meaning self.old self.new) }
        ensures fault { IfErr result (IsFaultOf R.remaining self.new.ends.items) }
        ensures same { self.new.plant.plant ≡ self.old.plant.plant }
        ensures held { self.new.full ≡ self.old.full }
        ensures own { least ≡ 0 → OnOk result (DeliveredAt self.new block.0) }
        ensures others { (b : ℕ) → (b ≡ block.0 → ⊥) → DeliveredAt self.old b → DeliveredAt self.new b }
    {
        if self.plant.items_in_memory(block) < least {
            return Ok(());
        }
        let at = block.0 as usize;
        if self.ends.len() <= at {
            return Ok(());
        }
        match &mut self.ends[at] {
            End::Output(output) => deliver(&mut self.plant, block, output),
            End::Open | End::Input(_) => Ok(()),
        }
    }

    // Flushes all writers.
    fn flush(&mut self) -> Result<(), PipelineFault>
        ensures goes { OnOk result (GoesFrom R.remaining W.contents B.meaning self.old self.new) }
        ensures begins { OnErr result (BeginsFrom R.remaining W.contents B.meaning self.old self.new) }
        ensures fault { IfErr result (IsFaultOf R.remaining self.new.ends.items) }
        ensures same { self.new.plant ≡ self.old.plant }
        ensures written { AllDelivered B.meaning self.old → AllDelivered B.meaning self.new }
    {
        for block in 0..self.plant.graph().len() {
            self.flush_own(BlockId(block as u32))?;
        }
        Ok(())
    }

    // Flushes the writers of one sink.
    fn flush_own(&mut self, block: BlockId) -> Result<(), PipelineFault>
        ensures goes { OnOk result (GoesFrom R.remaining W.contents B.meaning self.old self.new) }
        ensures begins { OnErr result (BeginsFrom R.remaining W.contents B.meaning self.old self.new) }
        ensures fault { IfErr result (IsFaultOf R.remaining self.new.ends.items) }
        ensures same { self.new.plant ≡ self.old.plant }
        ensures held { self.new.full ≡ self.old.full }
        ensures written { (b : ℕ) → DeliveredAt self.old b → DeliveredAt self.new b }
    {
        let at = block.0 as usize;
        if self.ends.len() <= at {
            return Ok(());
        }
        match &mut self.ends[at] {
            End::Output(output) => flush(block, output),
            End::Open | End::Input(_) => Ok(()),
        }
    }
}
