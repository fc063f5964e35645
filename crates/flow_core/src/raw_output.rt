//! Writes what a sink holds, piece by piece.

ghost use Rattle.std.specs.Prelude.{◌≡◌, ◌+◌, ◌-◌, ◌^◌, ◌<◌, length, IfOk, IfErr, OnOk};
ghost use Rattle.std.specs.Io.KnownBytes.{Appends};
ghost use Rattle.flowgraph.specs.Flowgraph.{net_of};
ghost use Rattle.kinds.specs.Kind.{meaning_of};
ghost use Rattle.byte_io.specs.Ends.{AppendsBeginning};
ghost use Rattle.flow_core.specs.declared.raw_fault.EndFault.TheVariants.{Write};
ghost use Rattle.flow_core.specs.declared.raw_fault.RawFault.TheVariants.{End};
ghost use Rattle.flow_core.specs.RawEnds.{held_bytes, held_lines, IsNoSink, IsPieceOf, StopsWriting};
ghost use Rattle.flow_core.specs.RawFeeds.{IsOfEnd, raw_writes};

use crate::raw_fault::{EndFault, EndPlace, RawFault};
use crate::tag_text::tag_lines;
use byte_io::ByteOut;
use flowgraph::BlockId;
use kinds::Kind;
use plant::{Piece, Plant};
use raw_items::{ByteOrder, push_item_bytes};
use std::alloc::{AllocError, Global};

// How many items are taken from a sink at once, at most.
const PIECE: u64 = 65_536;

/// Writes the bytes of all items that a sink holds.
pub fn write_items<O: ByteOut>(
    alloc: Global,
    plant: &Plant<Kind>,
    place: EndPlace,
    sink: BlockId,
    order: ByteOrder,
    output: &mut O,
) -> Result<(), RawFault>
    requires writes { O.failed output.old < 2 ^ 64 - 1 }
    ensures written { OnOk result (Appends (O.contents output.old) (O.contents output.new)
        (held_bytes (net_of meaning_of plant.now.graph) plant.now.state order sink.0)) }
    ensures stops { IfErr result (StopsWriting (net_of meaning_of plant.now.graph) sink.0 place (O.contents output.old)
        (O.contents output.new) (held_bytes (net_of meaning_of plant.now.graph) plant.now.state order sink.0)) }
    ensures failed_writes { O.failed output.new ≡ O.failed output.old + raw_writes result }
{
    test_sink(plant, place, sink)?;
    let mut bytes = Vec::new(alloc);
    let mut from = 0;
    loop {
        let piece = next_piece(alloc, plant, sink, from)?;
        let count = piece.items.len();
        if count == 0 {
            return Ok(());
        }
        bytes.clear();
        push_item_bytes(&mut bytes, &piece.items, 0, count, order)?;
        match output.write(&bytes) {
            Ok(()) => from += count as u64,
            Err(_) => return Err(RawFault::End(place, EndFault::Write)),
        }
    }
}

/// Writes a line for each tag on the items that a sink holds.
pub fn write_tags<O: ByteOut>(
    alloc: Global,
    plant: &Plant<Kind>,
    place: EndPlace,
    sink: BlockId,
    output: &mut O,
) -> Result<(), RawFault>
    requires writes { O.failed output.old < 2 ^ 64 - 1 }
    ensures written { OnOk result (Appends (O.contents output.old) (O.contents output.new)
        (held_lines (net_of meaning_of plant.now.graph) plant.now.state sink.0)) }
    ensures stops { IfErr result (StopsWriting (net_of meaning_of plant.now.graph) sink.0 place (O.contents output.old)
        (O.contents output.new) (held_lines (net_of meaning_of plant.now.graph) plant.now.state sink.0)) }
    ensures failed_writes { O.failed output.new ≡ O.failed output.old + raw_writes result }
{
    plant.recall();
    test_sink(plant, place, sink)?;
    let mut from = 0;
    loop {
        let piece = next_piece(alloc, plant, sink, from)?;
        let held = piece.held;
        if held <= from {
            return Ok(());
        }
        let text = tag_lines(alloc, &piece.tags)?;
        match output.write(&text) {
            Ok(()) => from += PIECE.min(held - from),
            Err(_) => return Err(RawFault::End(place, EndFault::Write)),
        }
    }
}

// Whether a block is a sink.
fn test_sink(plant: &Plant<Kind>, place: EndPlace, sink: BlockId) -> Result<(), RawFault>
    ensures sink { OnOk result (sink.0 < length (net_of meaning_of plant.now.graph).nodes) }
    ensures refused { IfErr result (IsOfEnd place (IsNoSink (net_of meaning_of plant.now.graph) sink.0)) }
    ensures no_write { raw_writes result ≡ 0 }
{
    let graph = plant.graph();
    if graph.len() <= sink.0 as usize {
        Err(RawFault::End(place, EndFault::NoSuchBlock))
    } else if graph.is_keeper(sink) {
        Ok(())
    } else {
        Err(RawFault::End(place, EndFault::NotSink))
    }
}

// A piece of what a sink holds.
fn next_piece(
    alloc: Global,
    plant: &Plant<Kind>,
    sink: BlockId,
    from: u64,
) -> Result<Piece, AllocError>
    ensures { IfOk result (IsPieceOf (net_of meaning_of plant.now.graph) plant.now.state sink.0 from PIECE) }
{
    match plant.read(alloc, sink, from, PIECE) {
        Ok(piece) => Ok(piece),
        // (a sink has each item up to the number that it holds)
        Err(_) => Err(AllocError),
    }
}
