//! Calls of a plant that a caller holds. Each takes the plant from behind the handle, and puts it back.

ghost use Rattle.std.specs.Prelude.{◌≡◌, IfOk, IfErr, true, false, position, bytes_eq};
ghost use Rattle.stream_model.specs.Machine.{close_of, set_of};
ghost use Rattle.stream_model.specs.Settings.{Number, Taps};
ghost use Rattle.flowgraph.specs.Flowgraph.{net_of};
ghost use Rattle.kinds.specs.Kind.{meaning_of};
ghost use Rattle.plant.specs.Feeding.{feed_numbers};
ghost use Rattle.flow_core.specs.Serve.{Refuses};
ghost use Rattle.magbelu_c.specs.CallAnswers.{order_of};
ghost use Rattle.magbelu_c.specs.AnyPlants.{IsOpened, opening_in, plant_of};
ghost use Rattle.magbelu_c.specs.Held.{Drains, Frees, Opens, Shows, answered, at_of};
ghost use Rattle.magbelu_c.specs.Later.{OpensLater};
ghost use Rattle.magbelu_c.specs.Levels.{levels_held};
ghost use Rattle.magbelu_c.specs.Slicing as slicing;
ghost use Rattle.magbelu_c.specs.Replies.{CallsOn, OnHeld, fed_bytes, is_fed, named, sized, stepped, wants};
ghost use Rattle.magbelu_c.specs.Settling.{SettlesOn};
ghost use Rattle.magbelu_c.specs.Tagging.{Feeds};
ghost use Rattle.magbelu_c.specs.Waiting.{needed};

use crate::answer::{Answer, badly};
use crate::any_plant::AnyPlant;
use crate::draining::drain;
use crate::handle::Handle;
use crate::later::{Unopened, opened_later};
use crate::levels::{BlockLevels, levels, untold};
use crate::orders::order;
use crate::piece::{Piece, read, unshown};
use crate::reply::{Reply, done, not_open};
use crate::slicing::{Uncut, not_cut};
use crate::tables::Mark;
use crate::{block_calls, tagging};
use flow_core::fault::Fault;
use flow_core::script::ScriptFault;
use std::alloc::Global;

// The refusal number if a plant is held already.
const IS_OPEN: u32 = 56;

/// Opens the plant of a graph file, with its feeds on the tapes, behind a handle that holds none.
#[unsafe(no_mangle)]
pub extern "C" fn magbelu_bytes_open(
    alloc: Global,
    plant: &mut Handle,
    file: &[u8],
    error: &mut [u8],
) -> Answer
    ensures { Opens false file.now plant.old.plant plant.new.plant error.old error.new result }
{
    open(alloc, plant, file, false, error)
}

/// Opens the streaming plant of a graph file.
#[unsafe(no_mangle)]
pub extern "C" fn magbelu_bytes_open_stream(
    alloc: Global,
    plant: &mut Handle,
    file: &[u8],
    error: &mut [u8],
) -> Answer
    ensures { Opens true file.now plant.old.plant plant.new.plant error.old error.new result }
{
    open(alloc, plant, file, true, error)
}

/// Opens the streaming plant whose blocks go on where those of a graph file stand after so many iterations. It feeds
/// nothing: what the file feeds belongs to the front of the tapes.
#[unsafe(no_mangle)]
pub extern "C" fn magbelu_bytes_open_stream_at(
    alloc: Global,
    plant: &mut Handle,
    file: &[u8],
    iterations: u64,
    error: &mut [u8],
) -> Answer
    ensures { OpensLater file.now iterations plant.old.plant plant.new.plant error.old error.new result }
{
    if let Some(held) = plant.take(alloc) {
        plant.put(held);
        return answered(1, IS_OPEN);
    }
    match opened_later(alloc, file, iterations) {
        Ok(opened) => {
            plant.put(opened);
            answered(0, 0)
        }
        Err(Unopened::File(fault)) => badly(alloc, &Fault::File(fault), &[], &mut [], error),
        Err(Unopened::Uncut(uncut)) => unopened(uncut),
    }
}

// Nothing is opened, since there is no slice.
fn unopened(uncut: Uncut) -> Answer
    ensures { let why = slicing.not_cut uncut in result ≡ answered why.status why.number }
{
    let why = not_cut(uncut);
    answered(why.status, why.number)
}

fn open(alloc: Global, plant: &mut Handle, file: &[u8], streams: bool, error: &mut [u8]) -> Answer
    ensures { Opens streams file.now plant.old.plant plant.new.plant error.old error.new result }
{
    if let Some(held) = plant.take(alloc) {
        plant.put(held);
        return answered(1, IS_OPEN);
    }
    match opened(alloc, file, streams) {
        Ok(opened) => {
            plant.put(opened);
            answered(0, 0)
        }
        Err(fault) => badly(alloc, &fault, &[], &mut [], error),
    }
}

fn answered(status: u32, number: u32) -> Answer
    ensures { result ≡ answered status number }
{
    Answer {
        status,
        number,
        output_len: 0,
        error_len: 0,
    }
}

// The plant of a graph file in memory of its own.
#[tactic(auto, using(crate::proofs::Variants::opened_is_ok))]
fn opened(alloc: Global, file: &[u8], streams: bool) -> Result<Box<AnyPlant>, Fault>
    ensures opens { IfOk result (λ plant. IsOpened streams file.now plant.value) }
    ensures refused { IfErr result (Refuses (opening_in streams file.now)) }
{
    let plant = match AnyPlant::open(alloc, file, streams) {
        Ok(plant) => plant,
        Err(fault) => return Err(Fault::File(fault)),
    };
    match Box::new(alloc, plant) {
        Ok(plant) => Ok(plant),
        Err(_) => Err(Fault::Script(ScriptFault::Memory)),
    }
}

/// Frees the held plant.
#[unsafe(no_mangle)]
pub extern "C" fn magbelu_bytes_free(alloc: Global, plant: &mut Handle) -> Reply
    ensures { Frees plant.old.plant plant.new.plant result }
{
    match plant.take(alloc) {
        Some(_) => done(0, 0),
        None => not_open(),
    }
}

/// How many bytes an item of a source has.
#[unsafe(no_mangle)]
pub extern "C" fn magbelu_bytes_item_size(alloc: Global, plant: &mut Handle, source: &[u8]) -> Reply
    ensures { OnHeld plant.old.plant plant.new.plant (λ p p' r.
        (p' ≡ p) × (r ≡ sized (net_of meaning_of (plant_of p).graph) (position (bytes_eq source.now)
        (plant_of p).graph.names))) result }
{
    let Some(held) = plant.take(alloc) else {
        return not_open();
    };
    let reply = block_calls::size_of(&held, source);
    plant.put(held);
    reply
}

/// Feeds a source bytes as items, with tags on them.
#[unsafe(no_mangle)]
pub extern "C" fn magbelu_bytes_feed(
    alloc: Global,
    plant: &mut Handle,
    source: &[u8],
    big_endian: u32,
    bytes: &[u8],
    tags: &[Mark<'_>],
) -> Reply
    ensures { OnHeld plant.old.plant plant.new.plant (λ p p' r.
        Feeds tags.now p p' r (λ ms. CallsOn (wants (plant_of p) source.now is_fed)
        (named (plant_of p) source.now (fed_bytes (order_of big_endian) bytes.now ms)) p p' r)) result }
{
    let Some(mut held) = plant.take(alloc) else {
        return not_open();
    };
    let reply = tagging::feed(alloc, &mut held, source, order(big_endian), bytes, tags);
    plant.put(held);
    reply
}

/// Feeds numbers to a source, with tags on them.
#[unsafe(no_mangle)]
pub extern "C" fn magbelu_bytes_feed_numbers(
    alloc: Global,
    plant: &mut Handle,
    source: &[u8],
    numbers: &[i64],
    tags: &[Mark<'_>],
) -> Reply
    ensures { OnHeld plant.old.plant plant.new.plant (λ p p' r.
        Feeds tags.now p p' r (λ ms. CallsOn false (named (plant_of p) source.now
        (λ net st b. feed_numbers net st b numbers.now ms)) p p' r)) result }
{
    let Some(mut held) = plant.take(alloc) else {
        return not_open();
    };
    let reply = tagging::feed_numbers(alloc, &mut held, source, numbers, tags);
    plant.put(held);
    reply
}

/// Closes a source's tape.
#[unsafe(no_mangle)]
pub extern "C" fn magbelu_bytes_close(alloc: Global, plant: &mut Handle, source: &[u8]) -> Reply
    ensures { OnHeld plant.old.plant plant.new.plant (λ p. CallsOn false (named (plant_of p) source.now close_of) p)
        result }
{
    let Some(mut held) = plant.take(alloc) else {
        return not_open();
    };
    let reply = block_calls::close(&mut held, source);
    plant.put(held);
    reply
}

/// Sets a block's number, from an item on.
#[unsafe(no_mangle)]
pub extern "C" fn magbelu_bytes_set(
    alloc: Global,
    plant: &mut Handle,
    block: &[u8],
    at: u64,
    number: i64,
) -> Reply
    ensures { OnHeld plant.old.plant plant.new.plant (λ p. CallsOn false
        (named (plant_of p) block.now (λ net st b. set_of net st b (at_of at) (Number number))) p) result }
{
    let Some(mut held) = plant.take(alloc) else {
        return not_open();
    };
    let reply = block_calls::set_number(&mut held, block, place(at), number);
    plant.put(held);
    reply
}

/// Sets a block's taps, from an item on.
#[unsafe(no_mangle)]
pub extern "C" fn magbelu_bytes_set_taps(
    alloc: Global,
    plant: &mut Handle,
    block: &[u8],
    at: u64,
    taps: &[i16],
) -> Reply
    ensures { OnHeld plant.old.plant plant.new.plant (λ p.
        CallsOn (wants (plant_of p) block.now (λ net b. true)) (named (plant_of p) block.now
        (λ net st b. set_of net st b (at_of at) (Taps taps.now))) p) result }
{
    let Some(mut held) = plant.take(alloc) else {
        return not_open();
    };
    let reply = block_calls::set_taps(alloc, &mut held, block, place(at), taps);
    plant.put(held);
    reply
}

// The item from which a setting is to be in force. The greatest number stands for the first item that is still open.
fn place(at: u64) -> Option<u64>
    ensures { result ≡ at_of at }
{
    if at == u64::MAX { None } else { Some(at) }
}

/// Does at most so many firings of a block.
#[unsafe(no_mangle)]
pub extern "C" fn magbelu_bytes_step(
    alloc: Global,
    plant: &mut Handle,
    block: &[u8],
    max: u32,
) -> Reply
    ensures { OnHeld plant.old.plant plant.new.plant (λ p. CallsOn false
        (named (plant_of p) block.now (stepped (plant_of p).capacities max)) p) result }
{
    let Some(mut held) = plant.take(alloc) else {
        return not_open();
    };
    let reply = block_calls::step(alloc, &mut held, block, max);
    plant.put(held);
    reply
}

/// Steps all blocks until none can act.
#[unsafe(no_mangle)]
pub extern "C" fn magbelu_bytes_settle(alloc: Global, plant: &mut Handle) -> Reply
    ensures { OnHeld plant.old.plant plant.new.plant SettlesOn result }
{
    let Some(mut held) = plant.take(alloc) else {
        return not_open();
    };
    let reply = held.settle(alloc);
    plant.put(held);
    reply
}

/// Shows what a sink holds from an item on, at most so many items: their bytes, and a line for each of their tags.
#[unsafe(no_mangle)]
pub extern "C" fn magbelu_bytes_read(
    alloc: Global,
    plant: &mut Handle,
    sink: &[u8],
    from: u64,
    max: u64,
    big_endian: u32,
    bytes: &mut [u8],
    tags: &mut [u8],
) -> Piece
    ensures { Shows plant.old.plant plant.new.plant sink.now from max (order_of big_endian) bytes.old bytes.new tags.old
        tags.new result }
{
    let Some(held) = plant.take(alloc) else {
        return unshown(not_open());
    };
    let piece = read(
        alloc,
        &held,
        sink,
        from,
        max,
        order(big_endian),
        bytes,
        tags,
    );
    plant.put(held);
    piece
}

/// Takes away items that a sink of a streaming plant has taken and that were not drained yet, at most so many: their
/// bytes, and a line for each of their tags. If one of the two does not fit its buffer, it takes nothing away.
#[unsafe(no_mangle)]
pub extern "C" fn magbelu_bytes_drain(
    alloc: Global,
    plant: &mut Handle,
    sink: &[u8],
    max: u64,
    big_endian: u32,
    bytes: &mut [u8],
    tags: &mut [u8],
) -> Piece
    ensures { Drains plant.old.plant plant.new.plant sink.now max (order_of big_endian) bytes.old bytes.new tags.old
        tags.new result }
{
    let Some(mut held) = plant.take(alloc) else {
        return unshown(not_open());
    };
    let piece = drain(alloc, &mut held, sink, max, order(big_endian), bytes, tags);
    plant.put(held);
    piece
}

/// What a block waits for.
#[unsafe(no_mangle)]
pub extern "C" fn magbelu_bytes_need(alloc: Global, plant: &mut Handle, block: &[u8]) -> Reply
    ensures { OnHeld plant.old.plant plant.new.plant (λ p p' r.
        (p' ≡ p) × (r ≡ needed (plant_of p) (position (bytes_eq block.now) (plant_of p).graph.names))) result }
{
    let Some(held) = plant.take(alloc) else {
        return not_open();
    };
    let reply = block_calls::need(&held, block);
    plant.put(held);
    reply
}

/// How far a block of a streaming plant is.
#[unsafe(no_mangle)]
pub extern "C" fn magbelu_bytes_levels(
    alloc: Global,
    plant: &mut Handle,
    block: &[u8],
) -> BlockLevels
    ensures told { result ≡ levels_held plant.old.plant block.now }
    ensures keeps { plant.new.plant ≡ plant.old.plant }
{
    let Some(held) = plant.take(alloc) else {
        return untold(not_open());
    };
    let told = levels(&held, block);
    plant.put(held);
    told
}
