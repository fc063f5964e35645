//! Calls of a plant that name a block.

ghost use Rattle.std.specs.Prelude.{◌≡◌, length, map, nat_lt, not, position, bytes_eq, is_some, IfOk, IfSome, true, false};
ghost use Rattle.std.specs.Option.{option_map};
ghost use Rattle.stream_model.specs.Machine.{close_of, set_of};
ghost use Rattle.stream_model.specs.Settings.{Number, Taps as Weights};
ghost use Rattle.flowgraph.specs.Flowgraph.{net_of};
ghost use Rattle.kinds.specs.Kind.{meaning_of};
ghost use Rattle.items.specs.Items.{type_of, numbers_of};
ghost use Rattle.plant.specs.Feeding.{feed_numbers};
ghost use Rattle.raw_items.specs.Layout.{cut_of};
ghost use Rattle.raw_items.specs.Values.{items_of};
ghost use Rattle.plant_storage.specs.Marks.{mark_of};
ghost use Rattle.settings.specs.Values.{value_of};
ghost use Rattle.magbelu_c.specs.AnyPlants.{plant_of, with_plant};
ghost use Rattle.magbelu_c.specs.Pieces.{IsRead};
ghost use Rattle.magbelu_c.specs.Replies.{Calls, fed_bytes, is_fed, named, sized, stepped, wants};
ghost use Rattle.magbelu_c.specs.Waiting.{needed};

use crate::any_plant::AnyPlant;
use crate::reply::{Reply, done, no_memory, of_need, of_step, refusal, refused};
use flowgraph::{BlockId, Valid};
use items::{ItemType, Items, Mark};
use kinds::Kind;
use plant::{Piece, Plant, PlantFault};
use raw_items::{ByteOrder, Decoder, item_size};
use settings::{Taps, Value};
use std::alloc::{AllocError, Global};

// The refusal number for bytes that end within an item.
const CUT_ITEM: u32 = 53;

/// The block of a name.
pub(crate) fn block_in(graph: &Valid<Kind>, name: &[u8]) -> Option<BlockId>
    ensures { option_map (λ block. block.0) result ≡ position (bytes_eq name.now) graph.now.names }
{
    graph.find(name)
}

fn block_named(plant: &AnyPlant, name: &[u8]) -> Option<BlockId>
    ensures { option_map (λ block. block.0) result ≡ position (bytes_eq name.now) (plant_of plant.now).graph.names }
{
    block_in(plant.graph(), name)
}

/// Feeds a source bytes as items, with marks on them.
#[tactic(auto, using(crate::proofs::Variants::same_plant))]
pub(crate) fn feed(
    alloc: Global,
    plant: &mut AnyPlant,
    source: &[u8],
    order: ByteOrder,
    bytes: &[u8],
    marks: &[Mark],
) -> Reply
    ensures calls { Calls (wants (plant_of plant.old) source.now is_fed)
        (named (plant_of plant.old) source.now (fed_bytes order bytes.now (map mark_of marks.now))) (plant_of plant.old)
        (plant_of plant.new) result }
    ensures keeps { plant.new ≡ with_plant plant.old (plant_of plant.new) }
{
    let Some(source) = block_named(plant, source) else {
        return refusal(PlantFault::NoSuchBlock);
    };
    let item_type = match plant.source_type(source) {
        Ok(item_type) => item_type,
        Err(fault) => return refusal(fault),
    };
    let found = match whole_items(alloc, item_type, order, bytes) {
        Ok(found) => found,
        Err(_) => return no_memory(),
    };
    let Some(items) = found else {
        return refused(CUT_ITEM, 0);
    };
    match plant.feed(source, &items, marks) {
        Ok(fed) => done(0, fed.0),
        Err(fault) => refusal(fault),
    }
}

/// Feeds numbers to a source, with marks on them.
#[tactic(auto, using(crate::proofs::Variants::same_plant))]
pub(crate) fn feed_numbers(
    alloc: Global,
    plant: &mut AnyPlant,
    source: &[u8],
    numbers: &[i64],
    marks: &[Mark],
) -> Reply
    ensures calls { Calls false (named (plant_of plant.old) source.now
        (λ net st b. feed_numbers net st b numbers.now (map mark_of marks.now))) (plant_of plant.old)
        (plant_of plant.new) result }
    ensures keeps { plant.new ≡ with_plant plant.old (plant_of plant.new) }
{
    let Some(source) = block_named(plant, source) else {
        return refusal(PlantFault::NoSuchBlock);
    };
    match plant.feed_numbers(alloc, source, numbers, marks) {
        Ok(fed) => done(0, fed.0),
        Err(fault) => refusal(fault),
    }
}

/// Closes a source's tape.
#[tactic(auto, using(crate::proofs::Variants::same_plant))]
pub(crate) fn close(plant: &mut AnyPlant, source: &[u8]) -> Reply
    ensures calls { Calls false (named (plant_of plant.old) source.now close_of) (plant_of plant.old)
        (plant_of plant.new) result }
    ensures keeps { plant.new ≡ with_plant plant.old (plant_of plant.new) }
{
    let Some(source) = block_named(plant, source) else {
        return refusal(PlantFault::NoSuchBlock);
    };
    match plant.close(source) {
        Ok(closed) => done(0, closed.0),
        Err(fault) => refusal(fault),
    }
}

/// Sets a block's number, from an item on, or from the first that is still open.
#[tactic(auto, using(crate::proofs::Variants::same_plant))]
pub(crate) fn set_number(plant: &mut AnyPlant, block: &[u8], at: Option<u64>, number: i64) -> Reply
    ensures calls { Calls false (named (plant_of plant.old) block.now (λ net st b. set_of net st b at (Number number)))
        (plant_of plant.old) (plant_of plant.new) result }
    ensures keeps { plant.new ≡ with_plant plant.old (plant_of plant.new) }
{
    let Some(block) = block_named(plant, block) else {
        return refusal(PlantFault::NoSuchBlock);
    };
    match plant.set(block, at, number_value(number)) {
        Ok(taken) => done(0, taken.0),
        Err(fault) => refusal(fault),
    }
}

/// Sets a block's taps.
#[tactic(auto, using(crate::proofs::Variants::same_plant))]
pub(crate) fn set_taps(
    alloc: Global,
    plant: &mut AnyPlant,
    block: &[u8],
    at: Option<u64>,
    taps: &[i16],
) -> Reply
    ensures calls { Calls (wants (plant_of plant.old) block.now (λ net b. true))
        (named (plant_of plant.old) block.now (λ net st b. set_of net st b at (Weights taps.now))) (plant_of plant.old)
        (plant_of plant.new) result }
    ensures keeps { plant.new ≡ with_plant plant.old (plant_of plant.new) }
{
    let Some(block) = block_named(plant, block) else {
        return refusal(PlantFault::NoSuchBlock);
    };
    let Ok(value) = taps_value(alloc, taps) else {
        return no_memory();
    };
    match plant.set(block, at, value) {
        Ok(taken) => done(0, taken.0),
        Err(fault) => refusal(fault),
    }
}

fn number_value(number: i64) -> Value
    ensures { value_of result ≡ Number number }
{
    Value::Number(number)
}

fn taps_value(alloc: Global, taps: &[i16]) -> Result<Value, AllocError>
    ensures { IfOk result (λ value. value_of value ≡ Weights taps.now) }
{
    Ok(Value::Taps(Taps::new(Vec::from_slice(alloc, taps)?)))
}

/// Does at most so many firings of a block.
#[tactic(auto, using(crate::proofs::Variants::same_plant))]
pub(crate) fn step(alloc: Global, plant: &mut AnyPlant, block: &[u8], max: u32) -> Reply
    ensures calls { Calls false (named (plant_of plant.old) block.now (stepped (plant_of plant.old).capacities max))
        (plant_of plant.old) (plant_of plant.new) result }
    ensures keeps { plant.new ≡ with_plant plant.old (plant_of plant.new) }
{
    let Some(block) = block_named(plant, block) else {
        return refusal(PlantFault::NoSuchBlock);
    };
    if max == 0 {
        return done(0, 0);
    }
    match plant.step(alloc, block, max) {
        Ok(step) => of_step(step),
        Err(fault) => refusal(fault),
    }
}

/// How many bytes an item of a source has.
pub(crate) fn size_of(plant: &AnyPlant, source: &[u8]) -> Reply
    ensures { result ≡ sized (net_of meaning_of (plant_of plant.now).graph)
        (position (bytes_eq source.now) (plant_of plant.now).graph.names) }
{
    let Some(source) = block_named(plant, source) else {
        return refusal(PlantFault::NoSuchBlock);
    };
    match plant.source_type(source) {
        Ok(item_type) => done(0, item_size(item_type) as u64),
        Err(fault) => refusal(fault),
    }
}

/// What a block waits for.
pub(crate) fn need(plant: &AnyPlant, block: &[u8]) -> Reply
    ensures { result ≡ needed (plant_of plant.now) (position (bytes_eq block.now) (plant_of plant.now).graph.names) }
{
    let Some(block) = block_named(plant, block) else {
        return refusal(PlantFault::NoSuchBlock);
    };
    match plant.need(block) {
        Ok(need) => of_need(need),
        Err(fault) => refusal(fault),
    }
}

/// A copy of what a sink holds from an item on.
pub(crate) fn read(
    alloc: Global,
    plant: &Plant<Kind>,
    sink: &[u8],
    from: u64,
    max: u64,
) -> Result<Piece, PlantFault>
    ensures { IsRead plant.now sink.now from max result }
{
    let Some(sink) = block_in(plant.graph(), sink) else {
        return Err(PlantFault::NoSuchBlock);
    };
    match plant.read(alloc, sink, from, max) {
        Ok(piece) => Ok(piece),
        Err(fault) => Err(fault),
    }
}

// Bytes as items, or none if they end within an item.
fn whole_items(
    alloc: Global,
    item_type: ItemType,
    order: ByteOrder,
    bytes: &[u8],
) -> Result<Option<Items>, AllocError>
    ensures cut { IfOk result (λ items. is_some items ≡ not (nat_lt 0 (length (cut_of item_type bytes.now)))) }
    ensures items { IfOk result (λ found. IfSome found (λ items. (type_of items ≡ item_type)
        × (numbers_of items ≡ items_of item_type order bytes.now))) }
{
    let mut items = Items::empty(alloc, item_type);
    let mut decoder = Decoder::new(item_type, order);
    match decoder.push(bytes, &mut items) {
        Ok(()) if decoder.is_cut() => Ok(None),
        Ok(()) => Ok(Some(items)),
        Err(refusal) => Err(refusal),
    }
}
