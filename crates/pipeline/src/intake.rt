//! Feeds a source what its reader gives.

ghost use Rattle.std.specs.Prelude.{◌≡◌, [], false, IfErr, OnOk, OnErr};
ghost use Rattle.std.specs.Io.KnownBytes.{IsAtEnd};
ghost use Rattle.flowgraph.specs.Flowgraph.{net_of};
ghost use Rattle.stream_model.specs.Machine as machine;
ghost use Rattle.stream_model.specs.Machine.{feed_of};
ghost use Rattle.items.specs.Items.{numbers_of, type_of};
ghost use Rattle.plant.specs.Answers.{Answered};
ghost use Rattle.pipeline.specs.Faults.{IsCut, IsOfPlant, IsOfReader, NotesReads, told_reply};
ghost use Rattle.script_text.specs.Commands.{marks_seen};
ghost use Rattle.pipeline.specs.Marks.{AreRead};
ghost use Rattle.pipeline.specs.Pipeline.{HasRead, MayHaveRead};
ghost use Rattle.pipeline.specs.Steps.{HasFed, TakesIn};

use crate::end::Input;
use crate::fault::PipelineFault;
use crate::marks::{end_marks, find_marks};
use flowgraph::{Block, BlockId};
use items::{Items, Mark};
use std::io::Read;
use streaming::{Fed, StreamingPlant};

/// How many bytes are read at once, at most.
pub(crate) const PIECE: usize = 65_536;

impl<R: Read> Input<R> {
    /// Reads once into `piece`, and feeds the source what was read. It closes the source if the reader is at its end,
    /// and then does nothing.
    pub(crate) fn take_in<B: Block>(
        &mut self,
        plant: &mut StreamingPlant<B>,
        source: BlockId,
        piece: &mut [u8; PIECE],
    ) -> Result<(), PipelineFault>
        ensures ok { OnOk result (TakesIn (HasRead R.remaining) (net_of B.meaning plant.old.plant.graph) plant.old
            plant.new source.0 self.old self.new) }
        ensures err { OnErr result (TakesIn (MayHaveRead R.remaining source.0) (net_of B.meaning plant.old.plant.graph)
            plant.old plant.new source.0 self.old self.new) }
        ensures fault { IfErr result (IsOfReader R.remaining source self.new) }
        ensures noted { IfErr result (NotesReads self.old self.new) }
        ensures cut { IfErr result (λ fault. IsCut fault → TakesIn (HasRead R.remaining)
            (net_of B.meaning plant.old.plant.graph) plant.old plant.new source.0 self.old self.new) }
    {
        if self.is_ended {
            return Ok(());
        }
        let count = match self.reader.read(piece) {
            Ok(count) => count,
            Err(error) => return Err(PipelineFault::Read(source, error)),
        };
        if count == 0 {
            return self.end(plant, source);
        }
        self.feed(plant, source, &piece[..count])
    }

    // Feeds the source the items of bytes.
    fn feed<B: Block>(
        &mut self,
        plant: &mut StreamingPlant<B>,
        source: BlockId,
        bytes: &[u8],
    ) -> Result<(), PipelineFault>
        ensures ok { OnOk result (TakesIn (HasFed R.remaining bytes.now) (net_of B.meaning plant.old.plant.graph)
            plant.old plant.new source.0 self.old self.new) }
        ensures reader { self.new.reader ≡ self.old.reader }
        ensures err { OnErr result (plant.new ≡ plant.old) }
        ensures ended { OnErr result (self.new.is_ended ≡ self.old.is_ended) }
        ensures marks { OnErr result (AreRead R.remaining self.old.marks self.new.marks) }
        ensures fault { IfErr result (IsOfReader R.remaining source self.new) }
        ensures noted { IfErr result (NotesReads self.old self.new) }
        ensures whole { IfErr result (λ fault. IsCut fault → ⊥) }
    {
        self.items.clear();
        self.found.clear();
        let start = start_of(self.marks.is_some(), plant, source)?;
        self.decoder.push(bytes, &mut self.items)?;
        // It asks for no mark as long as there is no item that it may be on.
        if self.items.is_empty() {
            return Ok(());
        }
        let end = start.saturating_add(self.items.len() as u64);
        find_marks(&mut self.marks, source, start, end, &mut self.found)?;
        plant.recall();
        let _fed = hand(plant, source, &self.items, &self.found)?;
        Ok(())
    }

    // Closes the source, since the reader is at its end.
    fn end<B: Block>(
        &mut self,
        plant: &mut StreamingPlant<B>,
        source: BlockId,
    ) -> Result<(), PipelineFault>
        requires at_end { IsAtEnd (R.remaining self.old.reader) }
        requires goes_on { self.old.is_ended ≡ false }
        ensures ok { OnOk result (TakesIn (HasRead R.remaining) (net_of B.meaning plant.old.plant.graph) plant.old
            plant.new source.0 self.old self.new) }
        ensures reader { self.new.reader ≡ self.old.reader }
        ensures err { OnErr result (plant.new ≡ plant.old) }
        ensures ended { OnErr result (self.new.is_ended ≡ self.old.is_ended) }
        ensures marks { OnErr result (AreRead R.remaining self.old.marks self.new.marks) }
        ensures fault { IfErr result (IsOfReader R.remaining source self.new) }
        ensures noted { IfErr result (NotesReads self.old self.new) }
        ensures cut { IfErr result (λ fault. IsCut fault → self.new ≡ self.old) }
    {
        if self.decoder.is_cut() {
            return Err(PipelineFault::CutItem(source));
        }
        end_marks(&mut self.marks, source)?;
        plant.recall();
        if let Err(fault) = plant.close(source) {
            return Err(PipelineFault::of_plant(source, fault));
        }
        self.is_ended = true;
        Ok(())
    }
}

// Where the next items of a source stand. Only marks need it.
fn start_of<B: Block>(
    may_have_marks: bool,
    plant: &StreamingPlant<B>,
    source: BlockId,
) -> Result<u64, PipelineFault>
    ensures fault { IfErr result (IsOfPlant source) }
{
    if !may_have_marks {
        return Ok(0);
    }
    match plant.levels(source) {
        Ok(levels) => Ok(levels.taken.saturating_add(levels.waiting)),
        Err(fault) => Err(PipelineFault::of_plant(source, fault)),
    }
}

// Feeds a source, and tells what the plant tells.
fn hand<B: Block>(
    plant: &mut StreamingPlant<B>,
    source: BlockId,
    items: &Items,
    marks: &[Mark],
) -> Result<Fed, PipelineFault>
    ensures answered { Answered (feed_of (net_of B.meaning plant.old.plant.graph) plant.old.plant.state source.0
        (type_of items.now) (numbers_of items.now) (marks_seen marks.now)) plant.old.plant plant.new.plant
        (told_reply (λ f. machine.Fed f.0) result) }
    ensures kept { plant.new.kept ≡ plant.old.kept }
    ensures err { OnErr result (plant.new ≡ plant.old) }
    ensures fault { IfErr result (IsOfPlant source) }
{
    match plant.feed(source, items, marks) {
        Ok(fed) => Ok(fed),
        Err(fault) => Err(PipelineFault::of_plant(source, fault)),
    }
}
