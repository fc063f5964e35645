//! Writes what a sink has taken.

ghost use Rattle.std.specs.Prelude.{◌≡◌, ◌<◌, ◌≤◌, ◌+◌, ◌^◌, length, drop, true, [], ◌∷◌, ◌++◌, IfErr, IfNone, IfSome, OnOk, OnErr};
ghost use Rattle.std.specs.Io.KnownBytes.{Appends};
ghost use Rattle.stream_model.specs.Network.{role_at, is_keeper};
ghost use Rattle.machine_laws.specs.Sound.{fired};
ghost use Rattle.items.specs.Items.{numbers_of, type_of};
ghost use Rattle.flowgraph.specs.Flowgraph.{net_of};
ghost use Rattle.raw_items.specs.Values.{all_bytes_of};
ghost use Rattle.byte_io.specs.Ends.{AppendsBeginning};
ghost use Rattle.script_text.specs.Printed.{tag_seen, tags_seen};
ghost use Rattle.streaming.specs.Streaming.{drained};
ghost use Rattle.pipeline.specs.Faults.{IsNotOfItems, IsNotOfTags, IsOfWriters, LeavesTags};
ghost use Rattle.pipeline.specs.Parts.{ahead_by, lines_of_part};
ghost use Rattle.pipeline.specs.Pipeline.{WriterGrows};
ghost use Rattle.pipeline.specs.Steps.{Delivers};

use crate::end::Output;
use crate::fault::PipelineFault;
use crate::part::StreamPart;
use byte_io::write_whole;
use flowgraph::{Block, BlockId};
use raw_items::push_item_bytes;
use script_text::push_tag_lines;
use std::alloc::AllocError;
use std::io::Write;
use streaming::StreamingPlant;
use tags::Tag;

/// Drains a sink of all that it has taken, and writes what of it is in the part to write.
pub(crate) fn deliver<B: Block, W: Write>(
    plant: &mut StreamingPlant<B>,
    sink: BlockId,
    output: &mut Output<W>,
) -> Result<(), PipelineFault>
    ensures ok { OnOk result (Delivers Appends W.contents (net_of B.meaning plant.old.plant.graph) plant.old plant.new
        sink.0 output.old output.new) }
    ensures all { OnOk result (drained plant.new sink.0 ≡ fired plant.new.plant.state sink.0) }
    ensures err { OnErr result (Delivers AppendsBeginning W.contents (net_of B.meaning plant.old.plant.graph) plant.old
        plant.new sink.0 output.old output.new) }
    ensures fault { IfErr result (IsOfWriters sink output.new) }
    ensures tags_wait { IfErr result (LeavesTags output.old output.new) }
{
    plant.recall();
    output.items.clear();
    output.tags.clear();
    let appended = match plant.drain_into(sink, u64::MAX, &mut output.items, &mut output.tags) {
        Ok(appended) => appended,
        Err(fault) => return Err(PipelineFault::of_plant(sink, fault)),
    };
    let _held = counted(appended.held);
    write_items(sink, output, output.part.drop.saturating_sub(appended.from))?;
    write_tags(sink, output)
}

// The number itself. Its clause tells the checker here how great it may be.
fn counted(number: u64) -> u64
    ensures value { result ≡ number }
    ensures small { number < 2 ^ 64 }
{
    number
}

// Writes the drained items, without so many of the first.
fn write_items<W: Write>(
    sink: BlockId,
    output: &mut Output<W>,
    left_out: u64,
) -> Result<(), PipelineFault>
    ensures rest { output.new ≡ record output.old { items_to = output.new.items_to; bytes = output.new.bytes } }
    ensures ok { OnOk result (WriterGrows Appends W.contents output.old.items_to output.new.items_to
        (all_bytes_of (type_of output.old.items) output.old.order (drop left_out (numbers_of output.old.items)))) }
    ensures err { OnErr result (WriterGrows AppendsBeginning W.contents output.old.items_to output.new.items_to
        (all_bytes_of (type_of output.old.items) output.old.order (drop left_out (numbers_of output.old.items)))) }
    ensures fault { IfErr result (IsOfWriters sink output.new) }
    ensures own { IfErr result IsNotOfTags }
{
    let Some(writer) = &mut output.items_to else {
        return Ok(());
    };
    output.bytes.clear();
    let count = output.items.len();
    let first = left_out.min(count as u64) as usize;
    push_item_bytes(&mut output.bytes, &output.items, first, count, output.order)?;
    match write_whole(writer, &output.bytes) {
        Ok(()) => Ok(()),
        Err(error) => Err(PipelineFault::WriteItems(sink, error)),
    }
}

// Writes the drained tags that are in the part to write.
fn write_tags<W: Write>(sink: BlockId, output: &mut Output<W>) -> Result<(), PipelineFault>
    ensures rest { output.new ≡ record output.old { tags_to = output.new.tags_to; bytes = output.new.bytes } }
    ensures ok { OnOk result (WriterGrows Appends W.contents output.old.tags_to output.new.tags_to
        (lines_of_part output.old.part (tags_seen output.old.tags.items))) }
    ensures err { OnErr result (WriterGrows AppendsBeginning W.contents output.old.tags_to output.new.tags_to
        (lines_of_part output.old.part (tags_seen output.old.tags.items))) }
    ensures fault { IfErr result (IsOfWriters sink output.new) }
    ensures own { IfErr result IsNotOfItems }
{
    let Some(writer) = &mut output.tags_to else {
        return Ok(());
    };
    output.bytes.clear();
    push_lines(&mut output.bytes, &output.tags, output.part)?;
    match write_whole(writer, &output.bytes) {
        Ok(()) => Ok(()),
        Err(error) => Err(PipelineFault::WriteTags(sink, error)),
    }
}

// Appends the lines of the tags that are in the part to write.
fn push_lines(bytes: &mut Vec<u8>, tags: &[Tag], part: StreamPart) -> Result<(), AllocError>
    ensures { OnOk result (bytes.new.items ≡ bytes.old.items ++ lines_of_part part (tags_seen tags.now)) }
{
    for tag in tags {
        push_line(bytes, *tag, part)?;
    }
    Ok(())
}

// Appends the line of one tag.
fn push_line(bytes: &mut Vec<u8>, tag: Tag, part: StreamPart) -> Result<(), AllocError>
    ensures { OnOk result (bytes.new.items ≡ bytes.old.items ++ lines_of_part part (tag_seen tag ∷ [])) }
{
    if tag.offset < part.drop {
        return Ok(());
    }
    match ahead(part.origin, tag) {
        Some(moved) => push_tag_lines(bytes, &[moved]),
        // No stream is so long.
        None => Err(AllocError),
    }
}

// A tag so many items further on, if that number fits.
fn ahead(origin: u64, tag: Tag) -> Option<Tag>
    ensures moved { IfSome result (λ moved. tag_seen moved ≡ ahead_by origin (tag_seen tag)) }
    ensures none { IfNone result (2 ^ 64 ≤ origin + tag.offset) }
{
    let offset = origin.checked_add(tag.offset)?;
    Some(Tag {
        offset,
        key: tag.key,
        value: tag.value,
        source: tag.source,
    })
}

/// Flushes its writers.
pub(crate) fn flush<W: Write>(sink: BlockId, output: &mut Output<W>) -> Result<(), PipelineFault>
    ensures rest { output.new ≡ record output.old { items_to = output.new.items_to; tags_to = output.new.tags_to } }
    ensures items { WriterGrows Appends W.contents output.old.items_to output.new.items_to [] }
    ensures tags { WriterGrows Appends W.contents output.old.tags_to output.new.tags_to [] }
    ensures fault { IfErr result (IsOfWriters sink output.new) }
    ensures tags_wait { IfErr result (LeavesTags output.old output.new) }
{
    if let Some(writer) = &mut output.items_to {
        if let Err(error) = writer.flush() {
            return Err(PipelineFault::WriteItems(sink, error));
        }
    }
    if let Some(writer) = &mut output.tags_to {
        if let Err(error) = writer.flush() {
            return Err(PipelineFault::WriteTags(sink, error));
        }
    }
    Ok(())
}
