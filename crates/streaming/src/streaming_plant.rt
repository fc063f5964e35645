//! The plant that streams.

ghost use Rattle.std.specs.Prelude.{◌≡◌, ◌+◌, ◌++◌, ◌-◌, ◌*◌, ◌<◌, ◌≤◌, ℕ, length, map, true, false, Some, None, Err, IsOk, IfOk, IfErr, OnErr, vec_len, vec_capacity};
ghost use Rattle.std.specs.List.{Any};
ghost use Rattle.std.specs.Option.{option_map};
ghost use Rattle.stream_model.specs.Machine as machine;
ghost use Rattle.stream_model.specs.Settings as model;
ghost use Rattle.stream_model.specs.Machine.{step_of, feed_of, close_of, set_of, read_of, is_idle, is_all_done, is_quiet, IsWhole, HoldsAll};
ghost use Rattle.stream_model.specs.Network.{node_at, handed_at, role_at, is_keeper, is_source};
ghost use Rattle.stream_model.specs.Tags.{tags_within};
ghost use Rattle.stream_laws.specs.CanRun.{CanRun};
ghost use Rattle.machine_laws.specs.Sound.{Sound, fired};
ghost use Rattle.machine_laws.specs.Waits.{ring_of};
ghost use Rattle.items.specs.Items.{type_of, numbers_of, spare_of};
ghost use Rattle.items.specs.Tags.{tag_of};
ghost use Rattle.settings.specs.Timelines.{kept_from};
ghost use Rattle.settings.specs.Values.{value_of};
ghost use Rattle.tags.specs.TagList.{tags_from};
ghost use Rattle.flowgraph.specs.Flowgraph.{net_of};
ghost use Rattle.plant_storage.specs.Stores.{mark_of};
ghost use Rattle.plant_faults.specs.declared.fault.PlantFault.TheVariants.{NoSuchBlock, NotSink};
ghost use Rattle.plant.specs.Plant.{ForgetsNone};
ghost use Rattle.plant.specs.Answers.{Answered, AnsweredAlways, AnsweredBy, piece_reply, reply_of, source_type_of, step_reply};
ghost use Rattle.plant.specs.Feeding.{feed_numbers};
ghost use Rattle.plant.specs.Headway.{headway_shown};
ghost use Rattle.plant.specs.Settling.{StepsLead, HasMoved, HasSettled, HoldsSettled};
ghost use Rattle.plant.specs.Waits.{need_of, wait_in};
ghost use Rattle.streaming.specs.Beside.{HasMovedBeside};
ghost use Rattle.streaming.specs.Draining.{HasRoom, IsAtSink, MayBeRefused, drain_fault, end_of, items_taken, tags_taken};
ghost use Rattle.streaming.specs.Levels.{levels_at};
ghost use Rattle.streaming.specs.Streaming.{GoesOn, HasDrainedTo, KeepsNoTaken, StaysBegun, drained, settings_kept, streaming_opening, tags_into, tape_kept};
ghost use Rattle.streaming.specs.Working.{HasWorked};

use crate::beside::held_round;
use crate::draining::{Appended, consume, drain, drain_into, peek};
use crate::forgetting::forget_taken;
use crate::helped::helped_round;
use crate::helpers::Helpers;
use crate::levels::{Levels, read_levels};
use crate::memory::{items_in_memory, settings_in_memory, tags_in_memory};
use firing_rules::BlockNeed;
use flowgraph::{Block, BlockId, Valid};
use items::{ItemType, Items, Mark};
use plant::{
    Closed, Fed, Headway, Job, Parts, Piece, PlantFault, Settled, Step, Taken, Unwatched, Worked,
    source_type,
};
use settings::Value;
use std::alloc::{AllocError, Global};
use std::fmt;
use std::marker::Model;
use tags::Tag;

/// A flowgraph that runs in constant memory, for as long as it is fed. A contract sees it as a plant that forgets
/// nothing, with how much is kept.
///
/// In memory are the buffers, what was fed and not taken by its source, and what a sink took and was not drained.
/// Memory is at most twice what is still needed. The memory of the longest piece so far stays for what comes.
pub struct StreamingPlant<B: Block> {
    parts: Parts<B>,
}

impl<B: Block> fmt::Debug for StreamingPlant<B> {
    fn fmt<W: fmt::Write>(&self, f: &mut fmt::Formatter<W>) -> fmt::Result {
        f.debug_struct("StreamingPlant").finish_non_exhaustive()
    }
}

// Written by hand: crates above need not prove the drop of each part again.
impl<B: Block> Drop for StreamingPlant<B> {
    fn drop(self) {
        let StreamingPlant { parts } = self;
        drop(parts);
    }
}

impl<B: Block> Model for StreamingPlant<B> {
    ghost use Rattle.plant.specs.Plant.{plant_of, spans_in};
    ghost use Rattle.streaming.specs.Streaming.{IsStreaming, StreamingState};

    ghost Value = { StreamingState B };

    ghost view = { λ p. record { plant = plant_of p.parts; kept = (spans_in p.parts).firsts } };

    ghost invariant = { λ p. IsStreaming B.meaning p.parts };
}

impl<B: Block> StreamingPlant<B> {
    /// The plant of a graph, with nothing fed and nothing fired. It computes the rates and allocates the buffers. A
    /// source takes 2^61 items divided by the greatest gain. It fails only if the allocator refuses, and returns the
    /// graph.
    pub fn open(alloc: Global, graph: Valid<B>) -> Result<StreamingPlant<B>, (Valid<B>, AllocError)>
        ensures opens { IfOk result (λ plant. plant.plant ≡ streaming_opening B.meaning graph) }
        ensures none { IfOk result (λ plant. ForgetsNone plant.kept) }
        ensures back { IfErr result (λ refusal. refusal.0 ≡ graph) }
    {
        let longest = graph.longest_tape();
        match Parts::open(alloc, graph, longest, true) {
            Ok(parts) => Ok(StreamingPlant { parts }),
            Err(refusal) => Err(refusal),
        }
    }

    /// The graph.
    pub fn graph(&self) -> &Valid<B>
        ensures { result.now ≡ self.now.plant.graph }
    {
        &self.parts.graph
    }

    /// The type of the items that a source takes. Refusals: `NoSuchBlock`, and `NotSource` of any other block.
    pub fn source_type(&self, block: BlockId) -> Result<ItemType, PlantFault>
        ensures { result ≡ source_type_of (net_of B.meaning self.now.plant.graph) block.0 }
    {
        source_type(&self.parts.graph, block)
    }

    /// Whether each block is done. Then each sink has taken its whole stream.
    pub fn all_done(&self) -> bool
        ensures value { result ≡ is_all_done self.now.plant.state }
        ensures whole { result ≡ true → IsWhole (net_of B.meaning self.now.plant.graph) self.now.plant.state }
    {
        self.parts.graph.recall();
        self.parts.firings.all_done()
    }

    /// Appends items to what a source is fed, with marks at the offsets that these items get. Refusals, in this order:
    /// `NoSuchBlock`, `NotSource`, `ItemRange` for items of another type, `Closed`, `TagPlace` for a mark on none of
    /// the items, `TapeFull` if the source would be fed more than it takes, and `Memory`. An `Err` changes nothing.
    pub fn feed(
        &mut self,
        source: BlockId,
        items: &Items,
        marks: &[Mark],
    ) -> Result<Fed, PlantFault>
        ensures answered { Answered (feed_of (net_of B.meaning self.old.plant.graph) self.old.plant.state source.0
            (type_of items.now) (numbers_of items.now) (map mark_of marks.now)) self.old.plant self.new.plant
            (reply_of (λ f. machine.Fed f.0) result) }
        ensures kept { self.new.kept ≡ self.old.kept }
    {
        self.parts.feed(source, items, marks)
    }

    /// Appends whole numbers to what a source is fed, as items of its type, with marks. Refusals are those of `feed`,
    /// with `ItemRange` for a number out of range. It makes `Items` first, which takes memory. An `Err` changes
    /// nothing.
    pub fn feed_numbers(
        &mut self,
        alloc: Global,
        source: BlockId,
        numbers: &[i64],
        marks: &[Mark],
    ) -> Result<Fed, PlantFault>
        ensures answered { Answered (feed_numbers (net_of B.meaning self.old.plant.graph) self.old.plant.state source.0
            numbers.now (map mark_of marks.now)) self.old.plant self.new.plant
            (reply_of (λ f. machine.Fed f.0) result) }
        ensures kept { self.new.kept ≡ self.old.kept }
    {
        self.parts.feed_numbers(alloc, source, numbers, marks)
    }

    /// Closes a source: nothing more comes. It returns how many items the source was fed. Refusals, in this order:
    /// `NoSuchBlock`, `NotSource`, and `Closed` if it was closed before. It takes no memory.
    pub fn close(&mut self, source: BlockId) -> Result<Closed, PlantFault>
        ensures answered { AnsweredAlways (close_of (net_of B.meaning self.old.plant.graph) self.old.plant.state
            source.0) self.old.plant self.new.plant (reply_of (λ c. machine.Closed c.0) result) }
        ensures kept { self.new.kept ≡ self.old.kept }
    {
        self.parts.close(source)
    }

    /// Sets the value of a block's setting from item `at` of its first input on, or from the first that is neither
    /// taken nor claimed, as `Plant::set` does, with the same refusals.
    pub fn set(
        &mut self,
        block: BlockId,
        at: Option<u64>,
        value: Value,
    ) -> Result<Taken, PlantFault>
        ensures replaces { (place : ℕ) → (set_of (net_of B.meaning self.old.plant.graph) self.old.plant.state block.0 at
            (value_of value)).0 ≡ machine.Taken place →
            Any (λ h. h.at ≡ place) (handed_at self.old.plant.state.handed block.0).settings → IsOk result }
        ensures answered { Answered (set_of (net_of B.meaning self.old.plant.graph) self.old.plant.state block.0 at
            (value_of value)) self.old.plant self.new.plant (reply_of (λ t. machine.Taken t.0) result) }
        ensures kept { self.new.kept ≡ self.old.kept }
    {
        self.parts.set(block, at, value)
    }

    /// Like `Plant::step`. What a source takes by it stays in memory until `release` or `settle`.
    pub fn step(&mut self, alloc: Global, block: BlockId, max: u32) -> Result<Step, PlantFault>
        requires { 1 ≤ max }
        ensures answered { Answered (step_of (net_of B.meaning self.old.plant.graph) self.old.plant.capacities
            self.old.plant.state block.0 max) self.old.plant self.new.plant (reply_of step_reply result) }
        ensures kept { self.new.kept ≡ self.old.kept }
    {
        self.parts.graph.recall();
        self.parts.step(alloc, block, max)
    }

    /// Forgets all that sources have taken, and settings that no future item can use. It takes no memory.
    pub fn release(&mut self)
        ensures plant { self.new.plant ≡ self.old.plant }
        ensures sinks { self.new.kept.sinks ≡ self.old.kept.sinks }
        ensures taken { KeepsNoTaken (net_of B.meaning self.new.plant.graph) self.new }
    {
        forget_taken(&mut self.parts);
    }

    /// Steps all blocks in turn, writers before readers, at most `max` firings each, until all are done or a whole
    /// round did nothing. Then it forgets what sources have taken, and past settings. If memory runs out it stops where
    /// its steps took it.
    pub fn settle(&mut self, alloc: Global, max: u32) -> Result<Settled, AllocError>
        requires { 1 ≤ max }
        ensures same { self.new.plant ≡ record self.old.plant { state = self.new.plant.state } }
        ensures steps { StepsLead (net_of B.meaning self.old.plant.graph) self.old.plant.capacities max
            self.old.plant.state self.new.plant.state }
        ensures settled { IfOk result (HasSettled (net_of B.meaning self.new.plant.graph) self.new.plant.capacities
            self.new.plant.state) }
        ensures whole { IfOk result (HoldsSettled (net_of B.meaning self.new.plant.graph) self.new.plant.state) }
        ensures sinks { self.new.kept.sinks ≡ self.old.kept.sinks }
        ensures taken { IfOk result (λ _. KeepsNoTaken (net_of B.meaning self.new.plant.graph) self.new) }
    {
        let settled = self.parts.settle(alloc, max, &mut Unwatched)?;
        forget_taken(&mut self.parts);
        Ok(settled)
    }

    /// Steps each block once, writers before readers, at most `max` firings each, forgets what sources have taken, and
    /// returns whether a block moved on. It is for a caller who has more to do than to settle. If no block moved on,
    /// the plant is quiet. If memory runs out it stops, and the plant stays where its steps took it.
    pub fn round(&mut self, alloc: Global, max: u32) -> Result<bool, AllocError>
        requires { 1 ≤ max }
        ensures same { self.new.plant ≡ record self.old.plant { state = self.new.plant.state } }
        ensures steps { StepsLead (net_of B.meaning self.old.plant.graph) self.old.plant.capacities max
            self.old.plant.state self.new.plant.state }
        ensures moved { IfOk result (HasMoved (net_of B.meaning self.new.plant.graph) self.new.plant.capacities
            self.old.plant.state self.new.plant.state) }
        ensures sinks { self.new.kept.sinks ≡ self.old.kept.sinks }
        ensures taken { IfOk result (λ _. KeepsNoTaken (net_of B.meaning self.new.plant.graph) self.new) }
    {
        let moved = self.parts.round(alloc, max, &mut Unwatched)?;
        forget_taken(&mut self.parts);
        Ok(moved)
    }

    /// Like `round`. Helpers that are called do the work of some blocks meanwhile, which may then fire more often. When
    /// it returns, all that helpers were given has come back, or was given up.
    pub fn round_with<H: Helpers<Job<B>, Worked<B>>>(
        &mut self,
        alloc: Global,
        max: u32,
        helpers: &mut H,
    ) -> Result<bool, AllocError>
        requires { 1 ≤ max }
        ensures worked { HasWorked B.meaning max self.old.plant self.new.plant }
        ensures moved { IfOk result (HasMoved (net_of B.meaning self.new.plant.graph) self.new.plant.capacities
            self.old.plant.state self.new.plant.state) }
        ensures sinks { self.new.kept.sinks ≡ self.old.kept.sinks }
        ensures taken { IfOk result (λ _. KeepsNoTaken (net_of B.meaning self.new.plant.graph) self.new) }
    {
        let moved = helped_round(&mut self.parts, alloc, max, helpers)?;
        forget_taken(&mut self.parts);
        Ok(moved)
    }

    /// Like `round_with`, but blocks that are held back rest: those at whose number `held` has true. If no block moved
    /// on, none of the others can, but those that are held back may.
    pub fn round_beside<H: Helpers<Job<B>, Worked<B>>>(
        &mut self,
        alloc: Global,
        max: u32,
        held: &[bool],
        helpers: &mut H,
    ) -> Result<bool, AllocError>
        requires { 1 ≤ max }
        ensures worked { HasWorked B.meaning max self.old.plant self.new.plant }
        ensures moved { IfOk result (HasMovedBeside held.now (net_of B.meaning self.new.plant.graph)
            self.new.plant.capacities max self.old.plant.state self.new.plant.state) }
        ensures sinks { self.new.kept.sinks ≡ self.old.kept.sinks }
        ensures taken { IfOk result (λ _. KeepsNoTaken (net_of B.meaning self.new.plant.graph) self.new) }
    {
        let moved = held_round(&mut self.parts, alloc, max, held, helpers)?;
        forget_taken(&mut self.parts);
        Ok(moved)
    }

    /// Takes away at most `max` undrained items of a sink, with the tags on them. Refusals, in this order:
    /// `NoSuchBlock`, `NotSink`, `Memory`. An `Err` changes nothing. A piece that says done is of a sink that took its
    /// whole stream.
    pub fn drain(&mut self, alloc: Global, sink: BlockId, max: u64) -> Result<Piece, PlantFault>
        ensures answered { AnsweredBy (read_of (net_of B.meaning self.old.plant.graph) self.old.plant.state sink.0
            (drained self.old sink.0) max) (reply_of piece_reply result) }
        ensures typed { IfOk result (λ piece. type_of piece.items ≡ (node_at (net_of B.meaning self.old.plant.graph)
            sink.0).meaning.inputs.item) }
        ensures joins { IfOk result (λ piece. GoesOn (net_of B.meaning self.old.plant.graph) self.old.plant.state sink.0
            (drained self.old sink.0) (numbers_of piece.items) (map tag_of piece.tags.items)) }
        ensures drains { IfOk result (λ piece. HasDrainedTo self.old self.new sink.0
            (drained self.old sink.0 + length (numbers_of piece.items))) }
        ensures err { OnErr result (self.new ≡ self.old) }
        ensures whole { IfOk result (λ piece. piece.done ≡ true → HoldsAll (net_of B.meaning self.old.plant.graph)
            self.old.plant.state sink.0) }
    {
        drain(&mut self.parts, alloc, sink, max)
    }

    /// Copies what `drain` would take away, and leaves it there. Refusals are those of `drain`.
    pub fn peek(&self, alloc: Global, sink: BlockId, max: u64) -> Result<Piece, PlantFault>
        ensures answered { AnsweredBy (read_of (net_of B.meaning self.now.plant.graph) self.now.plant.state sink.0
            (drained self.now sink.0) max) (reply_of piece_reply result) }
        ensures typed { IfOk result (λ piece. type_of piece.items ≡ (node_at (net_of B.meaning self.now.plant.graph)
            sink.0).meaning.inputs.item) }
        ensures joins { IfOk result (λ piece. GoesOn (net_of B.meaning self.now.plant.graph) self.now.plant.state sink.0
            (drained self.now sink.0) (numbers_of piece.items) (map tag_of piece.tags.items)) }
        ensures whole { IfOk result (λ piece. piece.done ≡ true → HoldsAll (net_of B.meaning self.now.plant.graph)
            self.now.plant.state sink.0) }
    {
        peek(&self.parts, alloc, sink, max)
    }

    /// Takes away what `drain` would take, and returns nothing of it: `peek` may have shown it. Refusals, in this
    /// order: `NoSuchBlock`, `NotSink`. An `Err` changes nothing. It takes no memory.
    pub fn consume(&mut self, sink: BlockId, max: u64) -> Result<Appended, PlantFault>
        ensures absent { length (net_of B.meaning self.old.plant.graph).nodes ≤ sink.0 → result ≡ Err NoSuchBlock }
        ensures no_sink { let net = net_of B.meaning self.old.plant.graph in sink.0 < length net.nodes
            → is_keeper (role_at net sink.0) ≡ false → result ≡ Err NotSink }
        ensures sink { let net = net_of B.meaning self.old.plant.graph in sink.0 < length net.nodes
            → is_keeper (role_at net sink.0) ≡ true → IsOk result }
        ensures at { IfOk result (IsAtSink self.old.plant.state sink.0 (drained self.old sink.0)) }
        ensures drains { IfOk result (λ d. HasDrainedTo self.old self.new sink.0 (end_of d max)) }
        ensures err { OnErr result (self.new ≡ self.old) }
        ensures whole { IfOk result (λ d. d.done ≡ true → HoldsAll (net_of B.meaning self.old.plant.graph)
            self.old.plant.state sink.0) }
    {
        consume(&mut self.parts, sink, max)
    }

    /// Takes away what `drain` takes, and appends it to items of the sink's type and to tags, so a caller can use the
    /// same memory again and again. It takes none if there is room. Refusals, in this order: `NoSuchBlock`, `NotSink`,
    /// `ItemRange` for items of another type, `Memory`. An `Err` changes nothing.
    pub fn drain_into(
        &mut self,
        sink: BlockId,
        max: u64,
        items: &mut Items,
        tags: &mut Vec<Tag>,
    ) -> Result<Appended, PlantFault>
        ensures refused { MayBeRefused (drain_fault (net_of B.meaning self.old.plant.graph) sink.0 (type_of items.old))
            result }
        ensures succeeds { let net = net_of B.meaning self.old.plant.graph in
            drain_fault net sink.0 (type_of items.old) ≡ None →
            HasRoom net self.old.plant.state sink.0 (drained self.old sink.0) max (spare_of items.old)
            (vec_len tags.old) (vec_capacity tags.old) → IsOk result }
        ensures at { IfOk result (IsAtSink self.old.plant.state sink.0 (drained self.old sink.0)) }
        ensures items { IfOk result (λ d. numbers_of items.new ≡ numbers_of items.old
            ++ items_taken (net_of B.meaning self.old.plant.graph) self.old.plant.state sink.0 d max) }
        ensures tags { IfOk result (λ d. map tag_of tags.new.items ≡ map tag_of tags.old.items
            ++ tags_taken (net_of B.meaning self.old.plant.graph) self.old.plant.state sink.0 d max) }
        ensures item_type { type_of items.new ≡ type_of items.old }
        ensures joins { let net = net_of B.meaning self.old.plant.graph in
            IfOk result (λ d. GoesOn net self.old.plant.state sink.0 d.from
            (items_taken net self.old.plant.state sink.0 d max) (tags_taken net self.old.plant.state sink.0 d max)) }
        ensures drains { IfOk result (λ d. HasDrainedTo self.old self.new sink.0 (end_of d max)) }
        ensures err { OnErr result ((self.new ≡ self.old) × (numbers_of items.new ≡ numbers_of items.old)
            × (tags.new.items ≡ tags.old.items)) }
        ensures whole { IfOk result (λ d. d.done ≡ true → HoldsAll (net_of B.meaning self.old.plant.graph)
            self.old.plant.state sink.0) }
    {
        drain_into(&mut self.parts, sink, max, items, tags)
    }

    /// What a step of a block would come to, or what it waits for, as `Plant::need` tells it. It takes no memory.
    pub fn need(&self, block: BlockId) -> Result<BlockNeed, PlantFault>
        ensures { wait_in result ≡ need_of (net_of B.meaning self.now.plant.graph) self.now.plant.capacities
            self.now.plant.state block.0 }
    {
        self.parts.need(block)
    }

    /// How far a block is: how much it has taken of its first input, how much it has given, and how much waits at that
    /// input. Refusal: `NoSuchBlock`. Nothing changes, and it takes no memory.
    pub fn levels(&self, block: BlockId) -> Result<Levels, PlantFault>
        ensures { result ≡ levels_at (net_of B.meaning self.now.plant.graph) self.now.plant.state block.0 }
    {
        read_levels(&self.parts, block)
    }

    /// How many items all sources were fed, and how many of these they have given, forgotten ones too. Numbers beyond
    /// 64 bits stay at the greatest. It looks at each block, and takes no memory.
    pub fn headway(&self) -> Headway
        ensures value { result ≡ headway_shown (net_of B.meaning self.now.plant.graph) self.now.plant.state }
        ensures within { result.given ≤ result.fed }
    {
        self.parts.headway()
    }

    /// The block that the waits lead to, as `Plant::ring` tells it; none if all are done. It takes no memory.
    pub fn ring(&self) -> Option<BlockId>
        ensures { option_map (λ block. block.0) result ≡ ring_of (net_of B.meaning self.now.plant.graph)
            self.now.plant.capacities self.now.plant.state }
    {
        self.parts.ring()
    }

    /// How many items are in memory of what a source was fed, or of what a sink has taken: all that are kept, and at
    /// most twice as many. Any other block has none; its outputs have buffers.
    pub fn items_in_memory(&self, block: BlockId) -> usize
        ensures source { let net = net_of B.meaning self.now.plant.graph in block.0 < length net.nodes
            → is_source (role_at net block.0) ≡ true →
            result ≤ 2 * (length (handed_at self.now.plant.state.handed block.0).tape - tape_kept self.now block.0) }
        ensures sink { let net = net_of B.meaning self.now.plant.graph in block.0 < length net.nodes
            → is_keeper (role_at net block.0) ≡ true →
            result ≤ 2 * (fired self.now.plant.state block.0 - drained self.now block.0) }
        ensures of_source { let net = net_of B.meaning self.now.plant.graph in block.0 < length net.nodes
            → is_source (role_at net block.0) ≡ true →
            length (handed_at self.now.plant.state.handed block.0).tape - tape_kept self.now block.0 ≤ result }
        ensures of_sink { let net = net_of B.meaning self.now.plant.graph in block.0 < length net.nodes
            → is_keeper (role_at net block.0) ≡ true →
            fired self.now.plant.state block.0 - drained self.now block.0 ≤ result }
    {
        items_in_memory(&self.parts, block)
    }

    /// How many tags are in memory of what a source was fed or a sink has taken: just those on kept items.
    pub fn tags_in_memory(&self, block: BlockId) -> usize
        ensures source { let net = net_of B.meaning self.now.plant.graph in block.0 < length net.nodes
            → is_source (role_at net block.0) ≡ true →
            result ≡ length (tags_from (tape_kept self.now block.0) (handed_at self.now.plant.state.handed
            block.0).tags) }
        ensures sink { let net = net_of B.meaning self.now.plant.graph in block.0 < length net.nodes
            → is_keeper (role_at net block.0) ≡ true →
            result ≡ length (tags_within (drained self.now block.0) (fired self.now.plant.state block.0)
            (tags_into net self.now.plant.state block.0)) }
    {
        tags_in_memory(&self.parts, block)
    }

    /// How many settings of a block are in memory: all that may still be read, no more than were made, and at most one
    /// made before the first item that may read them: the one in force there at the last forgetting.
    pub fn settings_in_memory(&self, block: BlockId) -> usize
        ensures read { let net = net_of B.meaning self.now.plant.graph in let
            made = (handed_at self.now.plant.state.handed block.0).settings in
            (own : model.Value) → block.0 < length net.nodes → (node_at net block.0).meaning.own ≡ Some own →
            length (kept_from (model.setting_at own made (settings_kept self.now block.0)).at made) ≤ result }
        ensures made { result ≤ length (handed_at self.now.plant.state.handed block.0).settings }
        ensures past { result ≤ 1 + length (kept_from (settings_kept self.now block.0)
            (handed_at self.now.plant.state.handed block.0).settings) }
    {
        settings_in_memory(&self.parts, block)
    }

    /// Recalls what every plant that streams keeps: the graph can run, the state is sound (`Sound`), nothing is in
    /// flight, each block has a place for how much was drained of it, and that is no more than a sink has taken.
    /// Whatever is called later, what was drained stays the beginning of the one stream that the equations give. It
    /// does nothing.
    pub fn recall(&self)
        ensures runs { CanRun (net_of B.meaning self.now.plant.graph) }
        ensures sound { Sound (net_of B.meaning self.now.plant.graph) self.now.plant.capacities self.now.plant.state }
        ensures idle { is_idle self.now.plant.state ≡ true }
        ensures sinks { length self.now.kept.sinks ≡ length (net_of B.meaning self.now.plant.graph).nodes }
        ensures taken { let net = net_of B.meaning self.now.plant.graph in (b : ℕ) → b < length net.nodes
            → is_keeper (role_at net b) ≡ true →
            drained self.now b ≤ fired self.now.plant.state b }
        ensures stays { let net = net_of B.meaning self.now.plant.graph in (b : ℕ) → b < length net.nodes
            → is_keeper (role_at net b) ≡ true →
            StaysBegun net self.now.plant.capacities self.now.plant.state b (drained self.now b) }
    {
        self.parts.graph.recall();
    }
}
