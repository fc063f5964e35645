//! How the program explains a run that stalled. Its lines take no memory. The rates take some; if it runs out, nothing
//! is said of them.

ghost use Rattle.std.specs.Prelude.{◌≡◌, ◌+◌, ◌-◌, ◌^◌, ◌<◌, ◌++◌, Bool, length, IfSome};
ghost use Rattle.std.specs.List.{flat_map};
ghost use Rattle.std.specs.Option.{option_map};
ghost use Rattle.graph_model.specs.Rates.{balance_of};
ghost use Rattle.machine_laws.specs.Waits.{next_of, wait_of};
ghost use Rattle.flowgraph.specs.Flowgraph.{net_of};
ghost use Rattle.kinds.specs.Kind.{meaning_of};
ghost use Rattle.graph_file.specs.Blocks.{drafted};
ghost use Rattle.file_plants.specs.Opening.{opened_of};
ghost use Rattle.flow_core.specs.Serve.{Explains, Puts, Remarks, stream};
ghost use Rattle.flow_core.specs.Stalls.{full_in, is_for_room, lowest_from, open_line, open_text, opener_line, ring_at, ring_from, ring_text, stall_text, uneven_line, wait_line, waits_text};

pub mod stalled_plant;

use crate::stalls::stalled_plant::StalledPlant;
use byte_io::{Broken, ByteOut};
use flowgraph::Valid;
use itoa::Buffer;
use kinds::Kind;
use plant::{BlockId, BlockNeed, Plant};
use rates::{Rates, balance};
use std::alloc::Global;

const UNEVEN: &[u8] =
    b"flow: stalled: the rates are uneven: on longer streams any capacity may fill\n";

/// Whether to write lines that no command asks for, such as why a run stalled.
#[derive(Clone, Copy, Debug, PartialEq, Eq)]
pub enum Verbosity {
    WithNotes,
    Quiet,
}

/// Tells why a run stalled, if it did and if that is wanted.
pub fn note_stall<E: ByteOut>(
    alloc: Global,
    verbosity: Verbosity,
    stalled: &Option<Plant<Kind>>,
    errors: &mut E,
)
    requires { E.failed errors.old < 2 ^ 64 - 1 }
    ensures { Remarks verbosity (option_map opened_of stalled.now) (stream (E.contents errors.old)
        (E.failed errors.old)) (stream (E.contents errors.new) (E.failed errors.new)) }
{
    match (verbosity, stalled) {
        (Verbosity::WithNotes, Some(plant)) => explain_stall(alloc, plant, errors),
        (Verbosity::WithNotes, None) | (Verbosity::Quiet, _) => {}
    }
}

/// Writes what the blocks of a stalled plant wait for, up to the first write that fails.
pub fn explain_stall<P: StalledPlant, E: ByteOut>(alloc: Global, plant: &P, errors: &mut E)
    requires { E.failed errors.old < 2 ^ 64 - 1 }
    ensures { Explains (opened_of (P.seen plant.now)) (stream (E.contents errors.old) (E.failed errors.old))
        (stream (E.contents errors.new) (E.failed errors.new)) }
{
    let rates = rates_line(alloc, plant.graph());
    let _ = tell_stall(errors, plant, rates);
}

// The line about the rates of a graph.
fn rates_line(alloc: Global, graph: &Valid<Kind>) -> &'static [u8]
    ensures { (known : Bool) × (result.now ≡ uneven_line known (balance_of (net_of meaning_of graph.now))) }
{
    match balance(alloc, graph) {
        Ok(Rates::Uneven) => UNEVEN,
        Ok(Rates::Balanced(_) | Rates::TooLarge) | Err(_) => b"",
    }
}

// Writes what a stall is, with this text on the rates.
fn tell_stall<P: StalledPlant, E: ByteOut>(
    errors: &mut E,
    plant: &P,
    rates: &[u8],
) -> Result<(), Broken>
    requires { E.failed errors.old < 2 ^ 64 - 1 }
    ensures { Puts result (stream (E.contents errors.old) (E.failed errors.old))
        (stream (E.contents errors.new) (E.failed errors.new)) (stall_text rates.now (drafted (P.seen plant.now).graph)
        (P.seen plant.now).capacities (P.seen plant.now).state) }
{
    let Some(block) = plant.ring() else {
        return Ok(());
    };
    match plant.need(block) {
        BlockNeed::Items { .. } | BlockNeed::Room { .. } => tell_ring(errors, plant, block, rates),
        BlockNeed::Done | BlockNeed::Busy | BlockNeed::Ready | BlockNeed::Feed => {
            tell_open(errors, plant)
        }
    }
}

// Writes what each block of a ring waits for, and what may open the ring. The ring is that of this block.
fn tell_ring<P: StalledPlant, E: ByteOut>(
    errors: &mut E,
    plant: &P,
    block: BlockId,
    rates: &[u8],
) -> Result<(), Broken>
    requires failed { E.failed errors.old < 2 ^ 64 - 1 }
    requires inside { block.0 < length (P.seen plant.now).graph.blocks }
    ensures { let net = net_of meaning_of (P.seen plant.now).graph in let caps = (P.seen plant.now).capacities in let
        st = (P.seen plant.now).state in
        Puts result (stream (E.contents errors.old) (E.failed errors.old))
        (stream (E.contents errors.new) (E.failed errors.new)) (ring_text (drafted (P.seen plant.now).graph) caps st
        (ring_at net caps st block.0) ++ rates.now) }
{
    let first = lowest(plant, block);
    tell_waits(errors, plant, first)?;
    tell_opener(errors, plant, full(plant, first))?;
    errors.write(rates)
}

// The lowest among a block and those that waits lead to from it, in as many steps as there are blocks.
fn lowest<P: StalledPlant>(plant: &P, block: BlockId) -> BlockId
    requires { block.0 < length (P.seen plant.now).graph.blocks }
    ensures value { let net = net_of meaning_of (P.seen plant.now).graph in result.0
        ≡ lowest_from net (P.seen plant.now).capacities (P.seen plant.now).state (length net.nodes) block.0 }
    ensures inside { result.0 < length (P.seen plant.now).graph.blocks }
{
    let mut lowest = block.0;
    let mut block = block;
    for _turn in 0..plant.graph().len() {
        block = next(plant, block);
        lowest = lowest.min(block.0);
    }
    BlockId(lowest)
}

// Writes what each block of a ring waits for, from this block on.
fn tell_waits<P: StalledPlant, E: ByteOut>(
    errors: &mut E,
    plant: &P,
    first: BlockId,
) -> Result<(), Broken>
    requires failed { E.failed errors.old < 2 ^ 64 - 1 }
    requires inside { first.0 < length (P.seen plant.now).graph.blocks }
    ensures { let net = net_of meaning_of (P.seen plant.now).graph in let caps = (P.seen plant.now).capacities in let
        st = (P.seen plant.now).state in
        Puts result (stream (E.contents errors.old) (E.failed errors.old))
        (stream (E.contents errors.new) (E.failed errors.new)) (waits_text (drafted (P.seen plant.now).graph) caps st
        (ring_from net caps st first.0 (length net.nodes) first.0)) }
{
    let mut block = first;
    for _turn in 0..plant.graph().len() {
        tell_wait(errors, plant, block)?;
        block = next(plant, block);
        if block.0 == first.0 {
            return Ok(());
        }
    }
    Ok(())
}

// The first block of a ring that waits for room, from this block on.
fn full<P: StalledPlant>(plant: &P, first: BlockId) -> Option<BlockId>
    requires { first.0 < length (P.seen plant.now).graph.blocks }
    ensures value { let net = net_of meaning_of (P.seen plant.now).graph in let caps = (P.seen plant.now).capacities in
        let st = (P.seen plant.now).state in
        option_map (λ block. block.0) result ≡ full_in net caps st (ring_from net caps st first.0 (length net.nodes)
        first.0) }
    ensures inside { IfSome result (λ block. block.0 < length (P.seen plant.now).graph.blocks) }
{
    let mut block = first;
    for _turn in 0..plant.graph().len() {
        if is_full(plant, block) {
            return Some(block);
        }
        block = next(plant, block);
        if block.0 == first.0 {
            return None;
        }
    }
    None
}

// Whether a block waits for room.
fn is_full<P: StalledPlant>(plant: &P, block: BlockId) -> bool
    requires { block.0 < length (P.seen plant.now).graph.blocks }
    ensures { result ≡ is_for_room (wait_of (net_of meaning_of (P.seen plant.now).graph) (P.seen plant.now).capacities
        (P.seen plant.now).state block.0) }
{
    match plant.need(block) {
        BlockNeed::Room { .. } => true,
        BlockNeed::Done
        | BlockNeed::Busy
        | BlockNeed::Ready
        | BlockNeed::Feed
        | BlockNeed::Items { .. } => false,
    }
}

// Writes which capacity may open a ring.
fn tell_opener<P: StalledPlant, E: ByteOut>(
    errors: &mut E,
    plant: &P,
    full: Option<BlockId>,
) -> Result<(), Broken>
    requires failed { E.failed errors.old < 2 ^ 64 - 1 }
    requires inside { IfSome full (λ block. block.0 < length (P.seen plant.now).graph.blocks) }
    ensures { Puts result (stream (E.contents errors.old) (E.failed errors.old))
        (stream (E.contents errors.new) (E.failed errors.new)) (opener_line (drafted (P.seen plant.now).graph)
        (option_map (λ block. block.0) full)) }
{
    let Some(block) = full else {
        return Ok(());
    };
    let name = plant.graph().name(block);
    put(
        errors,
        &[
            b"flow: stalled: a greater capacity of ",
            name,
            b" may open this ring\n",
        ],
    )
}

// Writes that a source is open, for each source that waits to be fed.
fn tell_open<P: StalledPlant, E: ByteOut>(errors: &mut E, plant: &P) -> Result<(), Broken>
    requires { E.failed errors.old < 2 ^ 64 - 1 }
    ensures { Puts result (stream (E.contents errors.old) (E.failed errors.old))
        (stream (E.contents errors.new) (E.failed errors.new)) (open_text (drafted (P.seen plant.now).graph)
        (P.seen plant.now).capacities (P.seen plant.now).state) }
{
    for block in 0..plant.graph().len() {
        tell_if_open(errors, plant, BlockId(block as u32))?;
    }
    Ok(())
}

// Writes that a block is open, if it is a source that waits to be fed.
fn tell_if_open<P: StalledPlant, E: ByteOut>(
    errors: &mut E,
    plant: &P,
    block: BlockId,
) -> Result<(), Broken>
    requires failed { E.failed errors.old < 2 ^ 64 - 1 }
    requires inside { block.0 < length (P.seen plant.now).graph.blocks }
    ensures { Puts result (stream (E.contents errors.old) (E.failed errors.old))
        (stream (E.contents errors.new) (E.failed errors.new)) (open_line (drafted (P.seen plant.now).graph)
        (P.seen plant.now).capacities (P.seen plant.now).state block.0) }
{
    match plant.need(block) {
        BlockNeed::Feed => put(
            errors,
            &[
                b"flow: stalled: ",
                plant.graph().name(block),
                b" is open: it waits to be fed\n",
            ],
        ),
        BlockNeed::Done
        | BlockNeed::Busy
        | BlockNeed::Ready
        | BlockNeed::Items { .. }
        | BlockNeed::Room { .. } => Ok(()),
    }
}

// Writes what a block waits for, if it waits for another block.
fn tell_wait<P: StalledPlant, E: ByteOut>(
    errors: &mut E,
    plant: &P,
    block: BlockId,
) -> Result<(), Broken>
    requires failed { E.failed errors.old < 2 ^ 64 - 1 }
    requires inside { block.0 < length (P.seen plant.now).graph.blocks }
    ensures { Puts result (stream (E.contents errors.old) (E.failed errors.old))
        (stream (E.contents errors.new) (E.failed errors.new)) (wait_line (drafted (P.seen plant.now).graph) block.0
        (wait_of (net_of meaning_of (P.seen plant.now).graph) (P.seen plant.now).capacities (P.seen plant.now).state
        block.0)) }
{
    let graph = plant.graph();
    let name = graph.name(block);
    match plant.need(block) {
        BlockNeed::Done | BlockNeed::Busy | BlockNeed::Ready | BlockNeed::Feed => Ok(()),
        BlockNeed::Items { port, writer } => put(
            errors,
            &[
                b"flow: stalled: ",
                name,
                b" waits for items of ",
                graph.name(writer),
                b" on input ",
                Buffer::new().format(port).as_bytes(),
                b"\n",
            ],
        ),
        BlockNeed::Room { port, reader } => put(
            errors,
            &[
                b"flow: stalled: ",
                name,
                b" waits for room on output ",
                Buffer::new().format(port).as_bytes(),
                b", which ",
                graph.name(reader),
                b" has not read\n",
            ],
        ),
    }
}

// The block that a block waits for, or the block itself if it waits for none.
fn next<P: StalledPlant>(plant: &P, block: BlockId) -> BlockId
    requires { block.0 < length (P.seen plant.now).graph.blocks }
    ensures value { result.0 ≡ next_of (net_of meaning_of (P.seen plant.now).graph) (P.seen plant.now).capacities
        (P.seen plant.now).state block.0 }
    ensures inside { result.0 < length (P.seen plant.now).graph.blocks }
{
    match plant.need(block) {
        BlockNeed::Items { writer, .. } => writer,
        BlockNeed::Room { reader, .. } => reader,
        BlockNeed::Done | BlockNeed::Busy | BlockNeed::Ready | BlockNeed::Feed => block,
    }
}

// Writes pieces one after another, up to the first write that fails.
fn put<E: ByteOut>(errors: &mut E, pieces: &[&[u8]]) -> Result<(), Broken>
    requires { E.failed errors.old < 2 ^ 64 - 1 }
    ensures { Puts result (stream (E.contents errors.old) (E.failed errors.old))
        (stream (E.contents errors.new) (E.failed errors.new)) (flat_map (λ piece. piece.now) pieces.now) }
{
    for piece in pieces {
        errors.write(piece)?;
    }
    Ok(())
}
