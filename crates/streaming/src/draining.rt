//! Drains sinks of what they have taken.

ghost use Rattle.std.specs.Prelude.{◌≡◌, ◌+◌, ◌++◌, ◌<◌, ◌≤◌, length, map, min, true, false, Err, None, IsOk, IfOk, IfErr, OnOk, OnErr, slice_index_or, slice_range, slice_set, vec_len, vec_capacity};
ghost use Rattle.stream_model.specs.Numbers.{types_agree};
ghost use Rattle.stream_model.specs.Tags.{tags_within};
ghost use Rattle.stream_model.specs.Machine.{read_of, HoldsAll};
ghost use Rattle.stream_model.specs.Network.{node_at, role_at, is_keeper};
ghost use Rattle.items.specs.Items.{type_of, numbers_of, spare_of};
ghost use Rattle.items.specs.Tags.{tag_of};
ghost use Rattle.flowgraph.specs.Flowgraph.{net_of};
ghost use Rattle.plant_faults.specs.declared.fault.PlantFault.TheVariants.{NoSuchBlock, NotSink, ItemRange, Memory};
ghost use Rattle.plant.specs.Plant.{IsRight, plant_of, spans_in};
ghost use Rattle.plant.specs.Answers.{AnsweredBy, reply_of, piece_reply};
ghost use Rattle.streaming.specs.Streaming.{GoesOn};
ghost use Rattle.streaming.specs.Draining.{HasRoom, IsAtSink, MayBeRefused, drain_fault, end_of, items_taken, tags_taken};

use flowgraph::{Block, BlockId};
use items::Items;
use plant::{Parts, Piece, PlantFault};
use recordings::Recording;
use std::alloc::Global;
use tags::Tag;

/// What `drain_into` has appended, and how far the sink is.
#[derive(Clone, Copy, Debug)]
pub struct Appended {
    /// The number of the first of the items among all that the sink has taken.
    pub from: u64,
    /// How many items the sink has taken in all.
    pub held: u64,
    /// Whether the sink is done, so that it has taken its whole stream.
    pub done: bool,
}

// Which items a drain takes away.
#[derive(Clone, Copy)]
struct Extent {
    appended: Appended,
    to: u64,
}

/// A copy of at most `max` items that a sink has taken and that were not drained yet, with the tags on them.
pub(crate) fn peek<B: Block>(
    parts: &Parts<B>,
    alloc: Global,
    sink: BlockId,
    max: u64,
) -> Result<Piece, PlantFault>
    requires { IsRight B.meaning parts.now }
    ensures answered { let plant = plant_of parts.now in
        AnsweredBy (read_of (net_of B.meaning plant.graph) plant.state sink.0
        (slice_index_or (spans_in parts.now).firsts.sinks sink.0 0) max) (reply_of piece_reply result) }
    ensures typed { let plant = plant_of parts.now in IfOk result (λ piece. type_of piece.items
        ≡ (node_at (net_of B.meaning plant.graph) sink.0).meaning.inputs.item) }
    ensures whole { let plant = plant_of parts.now in IfOk result (λ piece. piece.done ≡ true
        → HoldsAll (net_of B.meaning plant.graph) plant.state sink.0) }
    ensures joins { let plant = plant_of parts.now in
        IfOk result (λ piece. GoesOn (net_of B.meaning plant.graph) plant.state sink.0
        (slice_index_or (spans_in parts.now).firsts.sinks sink.0 0) (numbers_of piece.items)
        (map tag_of piece.tags.items)) }
{
    parts.graph.recall();
    let from = drained(parts, sink);
    parts.read(alloc, sink, from, max)
}

/// Takes away what `peek` shows.
pub(crate) fn drain<B: Block>(
    parts: &mut Parts<B>,
    alloc: Global,
    sink: BlockId,
    max: u64,
) -> Result<Piece, PlantFault>
    requires { IsRight B.meaning parts.old }
    ensures right { IsRight B.meaning parts.new }
    ensures same { plant_of parts.new ≡ plant_of parts.old }
    ensures answered { let plant = plant_of parts.old in
        AnsweredBy (read_of (net_of B.meaning plant.graph) plant.state sink.0
        (slice_index_or (spans_in parts.old).firsts.sinks sink.0 0) max) (reply_of piece_reply result) }
    ensures typed { let plant = plant_of parts.old in IfOk result (λ piece. type_of piece.items
        ≡ (node_at (net_of B.meaning plant.graph) sink.0).meaning.inputs.item) }
    ensures whole { let plant = plant_of parts.old in IfOk result (λ piece. piece.done ≡ true
        → HoldsAll (net_of B.meaning plant.graph) plant.state sink.0) }
    ensures joins { let plant = plant_of parts.old in
        IfOk result (λ piece. GoesOn (net_of B.meaning plant.graph) plant.state sink.0
        (slice_index_or (spans_in parts.old).firsts.sinks sink.0 0) (numbers_of piece.items)
        (map tag_of piece.tags.items)) }
    ensures tapes { (spans_in parts.new).firsts.tapes ≡ (spans_in parts.old).firsts.tapes }
    ensures settings { (spans_in parts.new).firsts.settings ≡ (spans_in parts.old).firsts.settings }
    ensures alone { (spans_in parts.new).own ≡ (spans_in parts.old).own }
    ensures sinks { let old = (spans_in parts.old).firsts.sinks in
        IfOk result (λ piece. (spans_in parts.new).firsts.sinks ≡ slice_set old sink.0
        (slice_index_or old sink.0 0 + length (numbers_of piece.items))) }
    ensures err { OnErr result (spans_in parts.new ≡ spans_in parts.old) }
{
    parts.graph.recall();
    let piece = peek(parts, alloc, sink, max)?;
    let end = drained(parts, sink) + piece.items.len() as u64;
    parts.stores.sinks[sink.0 as usize].forget(end);
    Ok(piece)
}

// How many items were drained of a sink.
fn drained<B: Block>(parts: &Parts<B>, sink: BlockId) -> u64
    ensures { result ≡ slice_index_or (spans_in parts.now).firsts.sinks sink.0 0 }
{
    match parts.stores.sinks.get(sink.0 as usize) {
        Some(collected) => collected.from(),
        None => 0,
    }
}

/// Takes away what `drain` takes, and returns nothing of it.
pub(crate) fn consume<B: Block>(
    parts: &mut Parts<B>,
    sink: BlockId,
    max: u64,
) -> Result<Appended, PlantFault>
    requires { IsRight B.meaning parts.old }
    ensures right { IsRight B.meaning parts.new }
    ensures same { plant_of parts.new ≡ plant_of parts.old }
    ensures absent { let net = net_of B.meaning (plant_of parts.old).graph in length net.nodes ≤ sink.0 → result
        ≡ Err NoSuchBlock }
    ensures no_sink { let net = net_of B.meaning (plant_of parts.old).graph in sink.0 < length net.nodes
        → is_keeper (role_at net sink.0) ≡ false → result ≡ Err NotSink }
    ensures sink { let net = net_of B.meaning (plant_of parts.old).graph in sink.0 < length net.nodes
        → is_keeper (role_at net sink.0) ≡ true → IsOk result }
    ensures at { let plant = plant_of parts.old in
        IfOk result (IsAtSink plant.state sink.0 (slice_index_or (spans_in parts.old).firsts.sinks sink.0 0)) }
    ensures whole { let plant = plant_of parts.old in IfOk result (λ d. d.done ≡ true
        → HoldsAll (net_of B.meaning plant.graph) plant.state sink.0) }
    ensures tapes { (spans_in parts.new).firsts.tapes ≡ (spans_in parts.old).firsts.tapes }
    ensures settings { (spans_in parts.new).firsts.settings ≡ (spans_in parts.old).firsts.settings }
    ensures alone { (spans_in parts.new).own ≡ (spans_in parts.old).own }
    ensures sinks { let old = (spans_in parts.old).firsts.sinks in
        IfOk result (λ d. (spans_in parts.new).firsts.sinks ≡ slice_set old sink.0 (end_of d max)) }
    ensures err { OnErr result (spans_in parts.new ≡ spans_in parts.old) }
{
    parts.graph.recall();
    let Extent { appended, to } = extent_of(parts, sink, max)?;
    parts.stores.sinks[sink.0 as usize].forget(to);
    Ok(appended)
}

/// Takes away what `drain` takes, and appends it.
pub(crate) fn drain_into<B: Block>(
    parts: &mut Parts<B>,
    sink: BlockId,
    max: u64,
    items: &mut Items,
    tags: &mut Vec<Tag>,
) -> Result<Appended, PlantFault>
    requires { IsRight B.meaning parts.old }
    ensures right { IsRight B.meaning parts.new }
    ensures same { plant_of parts.new ≡ plant_of parts.old }
    ensures refused { MayBeRefused (drain_fault (net_of B.meaning (plant_of parts.old).graph) sink.0
        (type_of items.old)) result }
    ensures succeeds { let plant = plant_of parts.old in let net = net_of B.meaning plant.graph in
        drain_fault net sink.0 (type_of items.old) ≡ None →
        HasRoom net plant.state sink.0 (slice_index_or (spans_in parts.old).firsts.sinks sink.0 0) max
        (spare_of items.old) (vec_len tags.old) (vec_capacity tags.old) → IsOk result }
    ensures at { let plant = plant_of parts.old in
        IfOk result (IsAtSink plant.state sink.0 (slice_index_or (spans_in parts.old).firsts.sinks sink.0 0)) }
    ensures items { let plant = plant_of parts.old in
        IfOk result (λ d. numbers_of items.new ≡ numbers_of items.old ++ items_taken (net_of B.meaning plant.graph)
        plant.state sink.0 d max) }
    ensures tags { let plant = plant_of parts.old in
        IfOk result (λ d. map tag_of tags.new.items ≡ map tag_of tags.old.items
        ++ tags_taken (net_of B.meaning plant.graph) plant.state sink.0 d max) }
    ensures joins { let plant = plant_of parts.old in let net = net_of B.meaning plant.graph in
        IfOk result (λ d. GoesOn net plant.state sink.0 d.from (items_taken net plant.state sink.0 d max)
        (tags_taken net plant.state sink.0 d max)) }
    ensures whole { let plant = plant_of parts.old in IfOk result (λ d. d.done ≡ true
        → HoldsAll (net_of B.meaning plant.graph) plant.state sink.0) }
    ensures item_type { type_of items.new ≡ type_of items.old }
    ensures tapes { (spans_in parts.new).firsts.tapes ≡ (spans_in parts.old).firsts.tapes }
    ensures settings { (spans_in parts.new).firsts.settings ≡ (spans_in parts.old).firsts.settings }
    ensures alone { (spans_in parts.new).own ≡ (spans_in parts.old).own }
    ensures sinks { let old = (spans_in parts.old).firsts.sinks in
        IfOk result (λ d. (spans_in parts.new).firsts.sinks ≡ slice_set old sink.0 (end_of d max)) }
    ensures err { OnErr result ((spans_in parts.new ≡ spans_in parts.old)
        × (numbers_of items.new ≡ numbers_of items.old) × (tags.new.items ≡ tags.old.items)) }
{
    parts.graph.recall();
    let Extent { appended, to } = extent_of(parts, sink, max)?;
    append(
        &parts.stores.sinks[sink.0 as usize],
        appended.from,
        to,
        items,
        tags,
    )?;
    parts.stores.sinks[sink.0 as usize].forget(to);
    Ok(appended)
}

// Which items a drain of at most `max` takes away of a sink.
fn extent_of<B: Block>(parts: &Parts<B>, sink: BlockId, max: u64) -> Result<Extent, PlantFault>
    requires { IsRight B.meaning parts.now }
    ensures absent { let net = net_of B.meaning (plant_of parts.now).graph in length net.nodes ≤ sink.0 → result
        ≡ Err NoSuchBlock }
    ensures no_sink { let net = net_of B.meaning (plant_of parts.now).graph in sink.0 < length net.nodes
        → is_keeper (role_at net sink.0) ≡ false → result ≡ Err NotSink }
    ensures sink { let net = net_of B.meaning (plant_of parts.now).graph in sink.0 < length net.nodes
        → is_keeper (role_at net sink.0) ≡ true → IsOk result }
    ensures inside { let net = net_of B.meaning (plant_of parts.now).graph in IfOk result
        (λ e. (sink.0 < length net.nodes) × (is_keeper (role_at net sink.0) ≡ true)) }
    ensures at { IfOk result (λ e. IsAtSink (plant_of parts.now).state sink.0
        (slice_index_or (spans_in parts.now).firsts.sinks sink.0 0) e.appended) }
    ensures to { IfOk result (λ e. e.to ≡ end_of e.appended max) }
{
    parts.graph.recall();
    if parts.graph.len() <= sink.0 as usize {
        return Err(PlantFault::NoSuchBlock);
    }
    if !parts.graph.is_keeper(sink) {
        return Err(PlantFault::NotSink);
    }
    let own = parts.firings.progress(sink);
    let appended = Appended {
        from: drained(parts, sink),
        held: own.firings,
        done: own.done,
    };
    let to = appended.from + max.min(own.firings - appended.from);
    Ok(Extent { appended, to })
}

// Appends items `from` to below `to` of what a sink has collected, with the tags on them. These items are kept.
// `ItemRange` if the items are of another type, and `Memory`; then nothing is appended.
fn append(
    collected: &Recording,
    from: u64,
    to: u64,
    items: &mut Items,
    tags: &mut Vec<Tag>,
) -> Result<(), PlantFault>
    requires kept { collected.now.from ≤ from }
    requires ordered { from ≤ to }
    requires within { to ≤ length collected.now.items }
    ensures succeeds { types_agree (type_of items.old) collected.now.item ≡ true → to ≤ spare_of items.old + from
        → vec_len tags.old + length (tags_within from to collected.now.tags) ≤ vec_capacity tags.old → IsOk result }
    ensures other { types_agree (type_of items.old) collected.now.item ≡ false → result ≡ Err ItemRange }
    ensures same { types_agree (type_of items.old) collected.now.item ≡ true → IfErr result (λ fault. fault ≡ Memory) }
    ensures item_type { type_of items.new ≡ type_of items.old }
    ensures items { OnOk result (numbers_of items.new ≡ numbers_of items.old
        ++ slice_range collected.now.items from to) }
    ensures tags { OnOk result (map tag_of tags.new.items ≡ map tag_of tags.old.items
        ++ tags_within from to collected.now.tags) }
    ensures err { OnErr result ((numbers_of items.new ≡ numbers_of items.old) × (tags.new.items ≡ tags.old.items)) }
{
    if items.item_type() != collected.item_type() {
        return Err(PlantFault::ItemRange);
    }
    let kept = collected.kept();
    items.reserve((to - from) as usize)?;
    tags.extend_from_slice(collected.tags(from, to))?;
    items.push_range(
        kept.items,
        (from - kept.first) as usize,
        (to - kept.first) as usize,
    );
    Ok(())
}
