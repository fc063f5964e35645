//! Feeds sources the raw items of inputs, before the plant runs.

ghost use Rattle.std.specs.Prelude.{◌≡◌, ℕ, ◌+◌, ◌-◌, ◌^◌, ◌<◌, List, Option, [], true, Ok, IfOk, IfErr, OnOk, length, position, bytes_eq};
ghost use Rattle.stream_model.specs.Machine as machine;
ghost use Rattle.stream_model.specs.Machine.{is_idle, feed_of};
ghost use Rattle.items.specs.Items.{type_of, numbers_of};
ghost use Rattle.flowgraph.specs.Flowgraph.{net_of};
ghost use Rattle.kinds.specs.Kind.{meaning_of};
ghost use Rattle.plant.specs.Feeding.{given_type};
ghost use Rattle.flow_core.specs.declared.raw_fault.RawFault.TheVariants.{End};
ghost use Rattle.flow_core.specs.declared.raw_fault.EndFault.TheVariants.{CutItem};
ghost use Rattle.plant.specs.Answers.{source_type_of};
ghost use Rattle.flow_core.specs.declared.raw_fault.EndPlace.TheVariants.{Input};
ghost use Rattle.flow_core.specs.Session.{in_state};
ghost use Rattle.flow_core.specs.RawFeeds.{IsFedBy, IsOfEnd, IsRefusedFor, IsWrong, StopsFeeding, raw_reads, source_at, sink_at};

use crate::raw_fault::{EndFault, EndPlace, RawFault};
use crate::session::find_named;
use byte_io::ByteIn;
use flowgraph::{BlockId, Valid};
use items::{ItemType, Items};
use kinds::Kind;
use plant::{Plant, PlantFault};
use raw_items::{ByteOrder, Decoder};
use std::alloc::{AllocError, Global};

// How many bytes of an input are read at once, at most.
const PIECE: usize = 65_536;

/// Reads an input to its end, piece by piece, and appends its bytes as items to a source's tape. If it stops by a
/// fault, some of them may be there.
pub fn feed_from<I: ByteIn>(
    alloc: Global,
    plant: &mut Plant<Kind>,
    number: usize,
    source: BlockId,
    order: ByteOrder,
    input: &mut I,
) -> Result<(), RawFault>
    requires reads { I.failed input.old < 2 ^ 64 - 1 }
    ensures same { plant.new ≡ in_state plant.old plant.new.state }
    ensures idle { is_idle plant.old.state ≡ true → is_idle plant.new.state ≡ true }
    ensures fed { OnOk result (IsFedBy (net_of meaning_of plant.old.graph) plant.old.state plant.new.state source.0
        order (I.remaining input.old) (I.remaining input.new)) }
    ensures stops { IfErr result (StopsFeeding (net_of meaning_of plant.old.graph) plant.old.state source.0 order number
        (I.remaining input.old) (I.remaining input.new)) }
    ensures failed_reads { I.failed input.new ≡ I.failed input.old + raw_reads result }
{
    plant.recall();
    let item_type = source_type(plant, number, source)?;
    let mut items = Items::empty(alloc, item_type);
    let mut decoder = Decoder::new(item_type, order);
    put_on(plant, number, source, &items)?;
    let mut buffer = [0; PIECE];
    for _pieces in 0..u64::MAX {
        let Ok(read) = input.read(&mut buffer) else {
            return Err(RawFault::End(EndPlace::Input(number), EndFault::Read));
        };
        if read == 0 {
            return whole(&decoder, number);
        }
        decoder.push(&buffer[..read], &mut items)?;
        put_on(plant, number, source, &items)?;
        items.clear();
    }
    // No tape takes the items of so many pieces.
    Err(RawFault::from(AllocError))
}

// The type of the items that a source takes.
fn source_type(plant: &Plant<Kind>, number: usize, source: BlockId) -> Result<ItemType, RawFault>
    ensures ok { IfOk result (λ t. (source_type_of (net_of meaning_of plant.now.graph) source.0 ≡ Ok t)) }
    ensures refused { IfErr result (λ fault. (order : ByteOrder) (rest : Option (List ℕ))
        → IsOfEnd (Input number) (IsWrong (net_of meaning_of plant.now.graph) plant.now.state source.0 order rest [])
        fault) }
    ensures no_read { raw_reads result ≡ 0 }
{
    let refusal = match plant.source_type(source) {
        Ok(item_type) => return Ok(item_type),
        Err(refusal) => refusal,
    };
    let fault = match refusal {
        PlantFault::NoSuchBlock => EndFault::NoSuchBlock,
        _ => EndFault::NotSource,
    };
    Err(RawFault::End(EndPlace::Input(number), fault))
}

// Appends items to a source's tape.
fn put_on(
    plant: &mut Plant<Kind>,
    number: usize,
    source: BlockId,
    items: &Items,
) -> Result<(), RawFault>
    requires { type_of items.now ≡ given_type (net_of meaning_of plant.old.graph) source.0 }
    ensures same { plant.new ≡ in_state plant.old plant.new.state }
    ensures idle { is_idle plant.old.state ≡ true → is_idle plant.new.state ≡ true }
    ensures fed { OnOk result ((total : ℕ) × (feed_of (net_of meaning_of plant.old.graph) plant.old.state source.0
        (type_of items.now) (numbers_of items.now) [] ≡ (machine.Fed total, plant.new.state))) }
    ensures refused { IfErr result (IsOfEnd (Input number) (IsRefusedFor
        (feed_of (net_of meaning_of plant.old.graph) plant.old.state source.0 (type_of items.now) (numbers_of items.now)
        []).0)) }
    ensures no_read { raw_reads result ≡ 0 }
{
    let refusal = match plant.feed_from(source, items, &[]) {
        Ok(_) => return Ok(()),
        Err(refusal) => refusal,
    };
    let fault = match refusal {
        PlantFault::Memory => return Err(RawFault::from(AllocError)),
        PlantFault::NoSuchBlock => EndFault::NoSuchBlock,
        PlantFault::NotSource => EndFault::NotSource,
        PlantFault::Closed => EndFault::Closed,
        PlantFault::TapeFull => EndFault::TapeFull,
        // Items of the source's type without marks have no other refusal.
        _ => unreachable!(),
    };
    Err(RawFault::End(EndPlace::Input(number), fault))
}

// Whether an ended input consisted of whole items.
fn whole(decoder: &Decoder, number: usize) -> Result<(), RawFault>
    ensures ok { OnOk result (decoder.now.cut ≡ []) }
    ensures cut { IfErr result (λ fault. (fault ≡ End (Input number) CutItem) × (0 < length decoder.now.cut)) }
    ensures no_read { raw_reads result ≡ 0 }
{
    if decoder.is_cut() {
        Err(RawFault::End(EndPlace::Input(number), EndFault::CutItem))
    } else {
        Ok(())
    }
}

/// The source of this name, for an input to feed.
pub fn source_named(graph: &Valid<Kind>, place: EndPlace, name: &[u8]) -> Result<BlockId, RawFault>
    ensures { result ≡ source_at (net_of meaning_of graph.now) place (position (bytes_eq name.now) graph.now.names) }
{
    match find_named(graph, name) {
        None => Err(RawFault::End(place, EndFault::NoSuchBlock)),
        Some(block) if graph.is_source(block) => Ok(block),
        Some(_) => Err(RawFault::End(place, EndFault::NotSource)),
    }
}

/// The sink of this name, for an output to take what it holds.
pub fn sink_named(graph: &Valid<Kind>, place: EndPlace, name: &[u8]) -> Result<BlockId, RawFault>
    ensures { result ≡ sink_at (net_of meaning_of graph.now) place (position (bytes_eq name.now) graph.now.names) }
{
    match find_named(graph, name) {
        None => Err(RawFault::End(place, EndFault::NoSuchBlock)),
        Some(block) if graph.is_keeper(block) => Ok(block),
        Some(_) => Err(RawFault::End(place, EndFault::NotSink)),
    }
}
