//! Drains the sinks of a streaming plant.

ghost use Rattle.std.specs.Prelude.{◌≡◌, ◌≤◌, true, false};
ghost use Rattle.magbelu_c.specs.Draining.{DrainsFrom, DrainsOn};

use crate::any_plant::AnyPlant;
use crate::block_calls::block_in;
use crate::piece::{Piece, shown, unshown};
use crate::reply::{not_open, refusal};
use kinds::Kind;
use plant::PlantFault;
use raw_items::ByteOrder;
use std::alloc::Global;
use streaming::StreamingPlant;

/// Shows what a sink has taken and what was not drained yet, at most so many items. It takes this away if both parts
/// fit their buffers. A plant that keeps what it took is not drained.
pub(crate) fn drain(
    alloc: Global,
    plant: &mut AnyPlant,
    sink: &[u8],
    max: u64,
    order: ByteOrder,
    bytes: &mut [u8],
    tags: &mut [u8],
) -> Piece
    ensures { DrainsOn plant.old plant.new sink.now max order bytes.old bytes.new tags.old tags.new result }
{
    match plant {
        AnyPlant::Whole(_) => unshown(not_open()),
        AnyPlant::Streaming(stream) => drain_stream(alloc, stream, sink, max, order, bytes, tags),
    }
}

fn drain_stream(
    alloc: Global,
    stream: &mut StreamingPlant<Kind>,
    sink: &[u8],
    max: u64,
    order: ByteOrder,
    bytes: &mut [u8],
    tags: &mut [u8],
) -> Piece
    ensures { DrainsFrom stream.old stream.new sink.now max order bytes.old bytes.new tags.old tags.new result }
{
    let Some(sink) = block_in(stream.graph(), sink) else {
        return unshown(refusal(PlantFault::NoSuchBlock));
    };
    let piece = match stream.peek(alloc, sink, max) {
        Ok(piece) => piece,
        Err(fault) => return unshown(refusal(fault)),
    };
    let bytes_room = bytes.len();
    let tags_room = tags.len();
    let told = shown(alloc, &piece, order, bytes, tags);
    if !fits(told, bytes_room, tags_room) {
        return told;
    }
    match stream.consume(sink, piece.items.len() as u64) {
        Ok(_) => told,
        // (the sink was shown, so it exists)
        Err(_) => unreachable!(),
    }
}

// Whether a piece was shown, and both its parts fit buffers with so much room.
fn fits(told: Piece, bytes_room: usize, tags_room: usize) -> bool
    ensures yes { result ≡ true → (told.status ≡ 0) × (told.bytes_len ≤ bytes_room) × (told.tags_len ≤ tags_room) }
    ensures no { result ≡ false → told.status ≡ 0 → told.bytes_len ≤ bytes_room → told.tags_len ≤ tags_room → ⊥ }
{
    told.status == 0 && told.bytes_len <= bytes_room && told.tags_len <= tags_room
}
