//! Shows what a sink of a held plant holds.

ghost use Rattle.std.specs.Prelude.{◌≡◌, IfOk};
ghost use Rattle.items.specs.Items.{type_of, numbers_of};
ghost use Rattle.raw_items.specs.Values.{all_bytes_of};
ghost use Rattle.magbelu_c.specs.Pieces.{Reads, ReadsOn, ShowsPiece, unshown};

use crate::any_plant::AnyPlant;
use crate::block_calls;
use crate::reply::{Reply, no_memory, not_open, refusal};
use crate::shows::show;
use flow_core::tag_text::tag_lines;
use items::Items;
use kinds::Kind;
use plant::Plant;
use raw_items::{ByteOrder, item_size, push_item_bytes};
use std::alloc::{AllocError, Global};

/// The result of a read.
#[repr(C)]
#[derive(Clone, Copy, Debug, PartialEq, Eq)]
pub struct Piece {
    /// 0; 1 for a refusal; 4 if memory ran out.
    pub status: u32,
    /// The number of the refusal, or 0.
    pub number: u32,
    /// How many items the sink holds in all.
    pub held: u64,
    /// How many bytes an item has.
    pub item_size: usize,
    /// How many bytes the shown items have.
    pub bytes_len: usize,
    /// How many bytes the lines of their tags have.
    pub tags_len: usize,
}

/// Shows what a sink holds from an item on, at most so many items. A streaming plant holds nothing to read again.
pub(crate) fn read(
    alloc: Global,
    plant: &AnyPlant,
    sink: &[u8],
    from: u64,
    max: u64,
    order: ByteOrder,
    bytes: &mut [u8],
    tags: &mut [u8],
) -> Piece
    ensures { ReadsOn plant.now sink.now from max order bytes.old bytes.new tags.old tags.new result }
{
    match plant {
        AnyPlant::Whole(idle) => read_whole(
            alloc,
            &idle.plant,
            sink,
            from,
            max,
            order,
            bytes,
            tags,
        ),
        AnyPlant::Streaming(_) => unshown(not_open()),
    }
}

fn read_whole(
    alloc: Global,
    plant: &Plant<Kind>,
    sink: &[u8],
    from: u64,
    max: u64,
    order: ByteOrder,
    bytes: &mut [u8],
    tags: &mut [u8],
) -> Piece
    ensures { Reads plant.now sink.now from max order bytes.old bytes.new tags.old tags.new result }
{
    let piece = match block_calls::read(alloc, plant, sink, from, max) {
        Ok(piece) => piece,
        Err(fault) => return unshown(refusal(fault)),
    };
    shown(alloc, &piece, order, bytes, tags)
}

/// Shows a piece: the bytes of its items, and a line for each of its tags.
pub(crate) fn shown(
    alloc: Global,
    piece: &plant::Piece,
    order: ByteOrder,
    bytes: &mut [u8],
    tags: &mut [u8],
) -> Piece
    ensures { ShowsPiece piece.now order bytes.old bytes.new tags.old tags.new result }
{
    let Ok(items) = item_bytes(alloc, &piece.items, order) else {
        return unshown(no_memory());
    };
    let Ok(lines) = tag_lines(alloc, &piece.tags) else {
        return unshown(no_memory());
    };
    show(&items, bytes);
    show(&lines, tags);
    Piece {
        status: 0,
        number: 0,
        held: piece.held,
        item_size: item_size(piece.items.item_type()),
        bytes_len: items.len(),
        tags_len: lines.len(),
    }
}

// The bytes of items.
#[tactic(auto, using(crate::proofs::Showing::all_of))]
fn item_bytes(alloc: Global, items: &Items, order: ByteOrder) -> Result<Vec<u8>, AllocError>
    ensures { IfOk result (λ bytes. bytes.items ≡ all_bytes_of (type_of items.now) order (numbers_of items.now)) }
{
    let mut bytes = Vec::new(alloc);
    push_item_bytes(&mut bytes, items, 0, items.len(), order)?;
    Ok(bytes)
}

/// Shows nothing, only this reply.
pub(crate) fn unshown(reply: Reply) -> Piece
    ensures { result ≡ unshown reply }
{
    Piece {
        status: reply.status,
        number: reply.number,
        held: 0,
        item_size: 0,
        bytes_len: 0,
        tags_len: 0,
    }
}
