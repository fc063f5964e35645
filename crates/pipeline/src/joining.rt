//! Joins the blocks of a pipeline to readers and writers, before it runs.

ghost use Rattle.std.specs.Prelude.{◌≡◌, ◌<◌, ◌↔◌, Err, IfErr, IfOk, IsOk, IsTrue, OnErr, OnOk, false, length, replicate, slice_set};
ghost use Rattle.stream_model.specs.Network.{node_at};
ghost use Rattle.flowgraph.specs.Flowgraph.{net_of};
ghost use Rattle.plant.specs.Answers.{source_type_of};
ghost use Rattle.pipeline.specs.declared.end.End.TheVariants.{Open};
ghost use Rattle.pipeline.specs.declared.fault.PipelineFault.TheVariants.{Joined, Memory, NotJoined, Plant};
ghost use Rattle.pipeline.specs.Joining.{IsMarked, IsUnmarked, IsUnread, JoinsMarks, JoinsReader, JoinsWriters, sink_type_of};
ghost use Rattle.pipeline.specs.Parts.{whole_stream, whole_tape};
ghost use Rattle.pipeline.specs.Pipeline.{end_at};

use crate::end::{End, Input, Output};
use crate::fault::PipelineFault;
use crate::intake::PIECE;
use crate::part::{StreamPart, TapePart};
use crate::pipeline::Pipeline;
use flowgraph::{Block, BlockId};
use items::ItemType;
use raw_items::ByteOrder;
use std::alloc::{AllocError, Global};
use std::io::{Read, Write};
use streaming::{PlantFault, StreamingPlant};

impl<B: Block, R: Read + Drop, W: Write + Drop> Pipeline<B, R, W> {
    /// A pipeline whose blocks are joined to nothing. It fails only if the allocator refuses, and then returns the
    /// plant.
    pub fn new(
        alloc: Global,
        plant: StreamingPlant<B>,
    ) -> Result<Pipeline<B, R, W>, (StreamingPlant<B>, AllocError)>
        ensures plant { IfOk result (λ pipeline. pipeline.plant ≡ plant) }
        ensures open { IfOk result (λ pipeline. pipeline.ends.items ≡ replicate (length plant.plant.graph.blocks)
            Open) }
        ensures full { IfOk result (λ pipeline. pipeline.full.items ≡ replicate (length plant.plant.graph.blocks)
            false) }
        ensures back { IfErr result (λ refusal. refusal.0 ≡ plant) }
    {
        let (ends, full) = match room(alloc, plant.graph().len()) {
            Ok(room) => room,
            Err(refusal) => return Err((plant, refusal)),
        };
        match Box::new(alloc, [0; PIECE]) {
            Ok(piece) => Ok(Pipeline {
                plant,
                ends,
                full,
                sink: BlockId(0),
                piece,
            }),
            Err(refusal) => Err((plant, refusal.into())),
        }
    }

    /// Feeds a source the items of a reader's bytes. Refusals, in this order: `NoSuchBlock`, `NotSource`, and `Joined`
    /// for a source that is joined already. Then nothing changes.
    pub fn read_from(
        &mut self,
        alloc: Global,
        source: BlockId,
        order: ByteOrder,
        reader: R,
    ) -> Result<(), PipelineFault>
        ensures plant { self.new.plant ≡ self.old.plant }
        ensures other { IfErr (source_type_of (net_of B.meaning self.old.plant.plant.graph) source.0)
            (λ fault. result ≡ Err (Plant source fault)) }
        ensures free { IsOk (source_type_of (net_of B.meaning self.old.plant.plant.graph) source.0)
            → source.0 < length self.old.ends.items → end_at self.old.ends.items source.0 ≡ Open → IsOk result }
        ensures joined { IsOk (source_type_of (net_of B.meaning self.old.plant.plant.graph) source.0)
            → (end_at self.old.ends.items source.0 ≡ Open → ⊥) → result ≡ Err (Joined source) }
        ensures joins { OnOk result (JoinsReader (net_of B.meaning self.old.plant.plant.graph) source.0 order reader
            self.old.ends.items self.new.ends.items) }
        ensures err { OnErr result (self.new.ends.items ≡ self.old.ends.items) }
    {
        let item = match self.plant.source_type(source) {
            Ok(item) => item,
            Err(fault) => return Err(PipelineFault::Plant(source, fault)),
        };
        self.join(source, End::Input(Input::new(alloc, item, order, reader)))
    }

    /// Marks the items of a source as the lines of a reader say: each is a mark `@OFFSET:KEY=VALUE`, or `until N` where
    /// no mark below item N comes any more, in the order of their items. Refusals: `NotJoined` for a block without a
    /// reader of items, `Joined` for one with a reader of marks, and a lack of memory. Then nothing changes.
    pub fn mark_from(
        &mut self,
        alloc: Global,
        source: BlockId,
        reader: R,
    ) -> Result<(), PipelineFault>
        ensures plant { self.new.plant ≡ self.old.plant }
        ensures joined { IsMarked (end_at self.old.ends.items source.0) → result ≡ Err (Joined source) }
        ensures unread { IsUnread (end_at self.old.ends.items source.0) → result ≡ Err (NotJoined source) }
        ensures free { IsUnmarked (end_at self.old.ends.items source.0) → IfErr result (λ fault. fault ≡ Memory) }
        ensures joins { OnOk result (JoinsMarks source.0 whole_tape reader self.old.ends.items self.new.ends.items) }
        ensures err { OnErr result (self.new.ends.items ≡ self.old.ends.items) }
    {
        self.mark_part(alloc, source, TapePart::whole(), reader)
    }

    /// Like `mark_from`, for a source that is fed a part of a whole tape: a mark on item n of the whole is on item n -
    /// `part.origin` of the plant's tape.
    pub fn mark_part(
        &mut self,
        alloc: Global,
        source: BlockId,
        part: TapePart,
        reader: R,
    ) -> Result<(), PipelineFault>
        ensures plant { self.new.plant ≡ self.old.plant }
        ensures joined { IsMarked (end_at self.old.ends.items source.0) → result ≡ Err (Joined source) }
        ensures unread { IsUnread (end_at self.old.ends.items source.0) → result ≡ Err (NotJoined source) }
        ensures free { IsUnmarked (end_at self.old.ends.items source.0) → IfErr result (λ fault. fault ≡ Memory) }
        ensures joins { OnOk result (JoinsMarks source.0 part reader self.old.ends.items self.new.ends.items) }
        ensures err { OnErr result (self.new.ends.items ≡ self.old.ends.items) }
    {
        let at = source.0 as usize;
        if self.ends.len() <= at {
            return Err(PipelineFault::NotJoined(source));
        }
        match &mut self.ends[at] {
            End::Input(input) => input.join_marks(alloc, source, part, reader),
            End::Open | End::Output(_) => Err(PipelineFault::NotJoined(source)),
        }
    }

    /// Writes what a sink takes, from the next item that is drained on: one writer gets the items as raw bytes, one, if
    /// given, the tags as lines. Refusals, in this order: `NoSuchBlock`, `NotSink`, and `Joined` for a sink that is
    /// joined already. Then nothing changes.
    pub fn write_to(
        &mut self,
        alloc: Global,
        sink: BlockId,
        order: ByteOrder,
        items: Option<W>,
        tags: Option<W>,
    ) -> Result<(), PipelineFault>
        ensures plant { self.new.plant ≡ self.old.plant }
        ensures other { IfErr (sink_type_of (net_of B.meaning self.old.plant.plant.graph) sink.0)
            (λ fault. result ≡ Err (Plant sink fault)) }
        ensures free { IsOk (sink_type_of (net_of B.meaning self.old.plant.plant.graph) sink.0)
            → sink.0 < length self.old.ends.items → end_at self.old.ends.items sink.0 ≡ Open → IsOk result }
        ensures joined { IsOk (sink_type_of (net_of B.meaning self.old.plant.plant.graph) sink.0)
            → (end_at self.old.ends.items sink.0 ≡ Open → ⊥) → result ≡ Err (Joined sink) }
        ensures joins { OnOk result (JoinsWriters (net_of B.meaning self.old.plant.plant.graph) sink.0 whole_stream
            order items tags self.old.ends.items self.new.ends.items) }
        ensures err { OnErr result (self.new.ends.items ≡ self.old.ends.items) }
    {
        self.write_part(alloc, sink, StreamPart::whole(), order, items, tags)
    }

    /// Like `write_to`, for a sink that takes a part of a whole stream. Its first `part.drop` items, and the tags on
    /// them, are not written. A tag on item n of the sink is written as one on item `part.origin` + n.
    pub fn write_part(
        &mut self,
        alloc: Global,
        sink: BlockId,
        part: StreamPart,
        order: ByteOrder,
        items: Option<W>,
        tags: Option<W>,
    ) -> Result<(), PipelineFault>
        ensures plant { self.new.plant ≡ self.old.plant }
        ensures other { IfErr (sink_type_of (net_of B.meaning self.old.plant.plant.graph) sink.0)
            (λ fault. result ≡ Err (Plant sink fault)) }
        ensures free { IsOk (sink_type_of (net_of B.meaning self.old.plant.plant.graph) sink.0)
            → sink.0 < length self.old.ends.items → end_at self.old.ends.items sink.0 ≡ Open → IsOk result }
        ensures joined { IsOk (sink_type_of (net_of B.meaning self.old.plant.plant.graph) sink.0)
            → (end_at self.old.ends.items sink.0 ≡ Open → ⊥) → result ≡ Err (Joined sink) }
        ensures joins { OnOk result (JoinsWriters (net_of B.meaning self.old.plant.plant.graph) sink.0 part order items
            tags self.old.ends.items self.new.ends.items) }
        ensures err { OnErr result (self.new.ends.items ≡ self.old.ends.items) }
    {
        let item = match sink_type(&self.plant, sink) {
            Ok(item) => item,
            Err(fault) => return Err(PipelineFault::Plant(sink, fault)),
        };
        self.join(
            sink,
            End::Output(Output::new(alloc, item, order, part, items, tags)),
        )
    }

    // Joins a block that is joined to nothing.
    fn join(&mut self, block: BlockId, end: End<R, W>) -> Result<(), PipelineFault>
        ensures plant { self.new.plant ≡ self.old.plant }
        ensures ok { OnOk result (self.new.ends.items ≡ slice_set self.old.ends.items block.0 end) }
        ensures free { block.0 < length self.old.ends.items → end_at self.old.ends.items block.0 ≡ Open → IsOk result }
        ensures joined { (end_at self.old.ends.items block.0 ≡ Open → ⊥) → result ≡ Err (Joined block) }
        ensures err { OnErr result (self.new.ends.items ≡ self.old.ends.items) }
    {
        let at = block.0 as usize;
        if self.ends.len() <= at {
            return Err(PipelineFault::Joined(block));
        }
        if !is_open(&self.ends[at]) {
            return Err(PipelineFault::Joined(block));
        }
        self.ends[at] = end;
        Ok(())
    }
}

// Whether a block is joined to nothing.
fn is_open<R, W>(end: &End<R, W>) -> bool
    ensures { IsTrue result ↔ (end.now ≡ Open) }
{
    match end {
        End::Open => true,
        End::Input(_) | End::Output(_) => false,
    }
}

// What so many blocks are joined to at first, and which of them are full.
fn room<R: Drop, W: Drop>(
    alloc: Global,
    blocks: usize,
) -> Result<(Vec<End<R, W>>, Vec<bool>), AllocError>
    ensures open { IfOk result (λ room. room.0.items ≡ replicate blocks Open) }
    ensures full { IfOk result (λ room. room.1.items ≡ replicate blocks false) }
{
    let ends = all_open(alloc, blocks)?;
    Ok((ends, none_full(alloc, blocks)?))
}

// So many blocks of which none is full.
fn none_full(alloc: Global, blocks: usize) -> Result<Vec<bool>, AllocError>
    ensures { IfOk result (λ full. full.items ≡ replicate blocks false) }
{
    let mut full = Vec::with_capacity(alloc, blocks)?;
    for _blocks in 0..blocks {
        full.push_reserved(false);
    }
    Ok(full)
}

// So many blocks that are joined to nothing.
fn all_open<R: Drop, W: Drop>(alloc: Global, blocks: usize) -> Result<Vec<End<R, W>>, AllocError>
    ensures { IfOk result (λ ends. ends.items ≡ replicate blocks Open) }
{
    let mut ends = Vec::with_capacity(alloc, blocks)?;
    for _blocks in 0..blocks {
        ends.push_reserved(End::Open);
    }
    Ok(ends)
}

// The type of the items of a sink.
fn sink_type<B: Block>(plant: &StreamingPlant<B>, sink: BlockId) -> Result<ItemType, PlantFault>
    ensures value { result ≡ sink_type_of (net_of B.meaning plant.now.plant.graph) sink.0 }
    ensures item { IfOk result (λ item. item ≡ (node_at (net_of B.meaning plant.now.plant.graph)
        sink.0).meaning.inputs.item) }
{
    plant.recall();
    let graph = plant.graph();
    graph.recall();
    if graph.len() <= sink.0 as usize {
        return Err(PlantFault::NoSuchBlock);
    }
    if !graph.is_keeper(sink) {
        return Err(PlantFault::NotSink);
    }
    Ok(graph.block(sink).inputs().item)
}
