//! The plant.

ghost use Rattle.std.specs.Prelude.{◌≡◌, ◌≤◌, ℕ, List, map, ◌↔◌, true, IsOk, IsTrue, IfOk, IfErr, IfSome, Some};
ghost use Rattle.std.specs.Option.{option_map};
ghost use Rattle.std.specs.Arc.{arc_value};
ghost use Rattle.std.specs.List.{Any};
ghost use Rattle.stream_model.specs.Machine as machine;
ghost use Rattle.stream_model.specs.Machine.{capacity_at, next, step_of, commit_of, abandon_of, feed_of, close_of, set_of, read_of, is_idle, is_all_done, is_quiet, IsWhole, HoldsAll};
ghost use Rattle.rates.specs.Answer.{AreRates};
ghost use Rattle.stream_model.specs.Network.{node_at, handed_at};
ghost use Rattle.plant.specs.Plant.{PlantState, IsSettled};
ghost use Rattle.items.specs.Items.{type_of, numbers_of};
ghost use Rattle.settings.specs.Values.{value_of};
ghost use Rattle.flowgraph.specs.Agreeing.{graphs_agree};
ghost use Rattle.flowgraph.specs.Flowgraph.{net_of};
ghost use Rattle.plant.specs.Own.{is_own};
ghost use Rattle.stream_laws.specs.CanRun.{CanRun};
ghost use Rattle.graph_model.specs.Rates.{balance_of, capacities_of};
ghost use Rattle.machine_laws.specs.Sound.{Sound};
ghost use Rattle.machine_laws.specs.Stalls.{AreClosed};
ghost use Rattle.machine_laws.specs.Waits.{IsOnRing, ring_of};
ghost use Rattle.plant_storage.specs.Stores.{mark_of};
ghost use Rattle.plant.specs.Answers.{Answered, AnsweredAlways, AnsweredBy, IsOf, IsTaken, claim_reply, piece_reply, reply_of, source_type_of, step_reply, view_of, view_reply};
ghost use Rattle.plant.specs.Keeping.{IsKeptOf, port_fault};
ghost use Rattle.plant.specs.Setting.{fault_in};
ghost use Rattle.plant.specs.Opening.{opening_plant};
ghost use Rattle.plant.specs.Feeding.{feed_numbers};
ghost use Rattle.plant.specs.Settling.{StepsLead, HasSettled, HoldsSettled};
ghost use Rattle.plant.specs.Headway.{headway_of};
ghost use Rattle.plant.specs.Runs.{Made, Leads, IsRun};
ghost use Rattle.plant.specs.Waits.{need_of, wait_in};

use crate::answers::{Claim, Closed, Did, Fed, Headway, Piece, Settled, SinkView, Step, Taken};
use crate::checks::source_type;
use crate::feeds::LONGEST_TAPE;
use crate::handed::{Handed, Opening};
use crate::parts::Parts;
use crate::settle::{Unwatched, Watch};
use crate::source_tapes::SourceTapes;
use claimed_work::{Job, Worked};
use firing_rules::BlockNeed;
use flowgraph::{Block, BlockId, Valid};
use items::{ItemType, Items, Mark};
use plant_faults::PlantFault;
use plant_storage::Stored;
use rates::Rates;
use settings::Value;
use std::alloc::{AllocError, Global};
use std::fmt;
use std::marker::Model;
use std::sync::Arc;

/// A flowgraph with what it was handed and how far it is. A contract sees the graph, the capacities, and the machine's
/// state.
pub struct Plant<B: Block> {
    parts: Parts<B>,
}

impl<B: Block> fmt::Debug for Plant<B> {
    fn fmt<W: fmt::Write>(&self, f: &mut fmt::Formatter<W>) -> fmt::Result {
        f.debug_struct("Plant").finish_non_exhaustive()
    }
}

// Written by hand: crates above need not prove the drop of each part again.
impl<B: Block> Drop for Plant<B> {
    fn drop(self) {
        let Plant { parts } = self;
        drop(parts);
    }
}

impl<B: Block> Model for Plant<B> {
    ghost use Rattle.plant.specs.Plant.{PlantState, plant_of, IsWholePlant};

    ghost Value = { PlantState B };

    ghost view = { λ p. plant_of p.parts };

    ghost invariant = { λ p. IsWholePlant B.meaning p.parts };
}

impl<B: Block> Plant<B> {
    /// The plant of a graph, with nothing fed and nothing fired. It computes the rates and allocates the buffers. It
    /// fails only if the allocator refuses, and then returns the graph.
    pub fn open(alloc: Global, graph: Valid<B>) -> Result<Plant<B>, (Valid<B>, AllocError)>
        ensures opens { IfOk result (λ plant. plant ≡ opening_plant B.meaning graph) }
        ensures back { IfErr result (λ refusal. refusal.0 ≡ graph) }
    {
        graph.recall();
        match Parts::open(alloc, graph, LONGEST_TAPE, false) {
            Ok(parts) => Ok(Plant { parts }),
            Err(refusal) => Err(refusal),
        }
    }

    /// The graph.
    pub fn graph(&self) -> &Valid<B>
        ensures { result.now ≡ self.now.graph }
    {
        &self.parts.graph
    }

    /// A share of the graph, to look up blocks while the plant works elsewhere. It fails if no more can be counted.
    pub fn share_graph(&self) -> Result<Arc<Valid<B>, Global>, AllocError>
        ensures { IfOk result (λ graph. arc_value graph ≡ self.now.graph) }
    {
        Arc::try_clone(&self.parts.graph)
    }

    /// The type of the items that a source takes. Refusals: `NoSuchBlock`, and `NotSource` of any other block.
    pub fn source_type(&self, block: BlockId) -> Result<ItemType, PlantFault>
        ensures { result ≡ source_type_of (net_of B.meaning self.now.graph) block.0 }
    {
        source_type(&self.parts.graph, block)
    }

    /// Whether no claim is in flight.
    pub fn idle(&self) -> bool
        ensures { result ≡ is_idle self.now.state }
    {
        self.parts.firings.idle()
    }

    /// The rates of the graph, as they were computed when it opened.
    pub fn rates(&self) -> &Rates
        ensures { AreRates (net_of B.meaning self.now.graph) result.now }
    {
        &self.parts.rates
    }

    /// Whether each block is done. Then each sink holds its whole stream.
    pub fn all_done(&self) -> bool
        ensures value { result ≡ is_all_done self.now.state }
        ensures whole { result ≡ true → IsWhole (net_of B.meaning self.now.graph) self.now.state }
    {
        self.parts.graph.recall();
        self.parts.firings.all_done()
    }

    /// Whether no claim is in flight and each block is done or would wait. It looks at each block. If the rates are
    /// balanced and each tape is closed, each block is then done, and each sink holds its whole stream.
    pub fn quiet(&self) -> bool
        ensures value { result ≡ is_quiet (net_of B.meaning self.now.graph) self.now.capacities self.now.state }
        ensures whole { result ≡ true → IsSettled (net_of B.meaning self.now.graph) self.now.state }
    {
        let parts = &self.parts;
        parts.graph.recall();
        parts.firings.quiet(
            &parts.graph,
            parts.capacities.rows(),
            &SourceTapes::of(&parts.stores),
        )
    }

    /// Closes a source's tape: nothing more comes. It returns how many items the tape holds. Refusals, in this order:
    /// `NoSuchBlock`, `NotSource`, and `Closed` if it was closed before. It takes no memory.
    pub fn close(&mut self, source: BlockId) -> Result<Closed, PlantFault>
        ensures { AnsweredAlways (close_of (net_of B.meaning self.old.graph) self.old.state source.0) self.old self.new
            (reply_of (λ c. machine.Closed c.0) result) }
    {
        self.parts.close(source)
    }

    /// Appends items to a source's tape, with marks at the offsets that these items get. Refusals, in this order:
    /// `NoSuchBlock`, `NotSource`, `ItemRange` for items of another type, `Closed`, `TagPlace` for a mark on none of
    /// the items, `TapeFull` above 2^32 items, and `Memory`. An `Err` changes nothing. A tape that a `Handed` or an
    /// `Opening` shares is copied first.
    pub fn feed(&mut self, source: BlockId, items: Items, marks: &[Mark]) -> Result<Fed, PlantFault>
        ensures { Answered (feed_of (net_of B.meaning self.old.graph) self.old.state source.0 (type_of items)
            (numbers_of items) (map mark_of marks.now)) self.old self.new (reply_of (λ f. machine.Fed f.0) result) }
    {
        self.feed_from(source, &items, marks)
    }

    /// Like `feed`, for items that stay the caller's. `feed` copies them too.
    pub fn feed_from(
        &mut self,
        source: BlockId,
        items: &Items,
        marks: &[Mark],
    ) -> Result<Fed, PlantFault>
        ensures { Answered (feed_of (net_of B.meaning self.old.graph) self.old.state source.0 (type_of items.now)
            (numbers_of items.now) (map mark_of marks.now)) self.old self.new (reply_of (λ f. machine.Fed f.0) result) }
    {
        self.parts.feed(source, items, marks)
    }

    /// Appends whole numbers to a source's tape, as items of its type, with marks. Refusals are those of `feed`, with
    /// `ItemRange` for a number out of range. It makes `Items` first, which takes memory. An `Err` changes nothing.
    pub fn feed_numbers(
        &mut self,
        alloc: Global,
        source: BlockId,
        numbers: &[i64],
        marks: &[Mark],
    ) -> Result<Fed, PlantFault>
        ensures { Answered (feed_numbers (net_of B.meaning self.old.graph) self.old.state source.0 numbers.now
            (map mark_of marks.now)) self.old self.new (reply_of (λ f. machine.Fed f.0) result) }
    {
        self.parts.feed_numbers(alloc, source, numbers, marks)
    }

    /// Sets the value of a block's setting from item `at` of its first input on, or from the first that is neither
    /// taken nor claimed. Refusals, in this order: `NoSuchBlock`, `NoSetting`, `WrongSetting` for a value of another
    /// sort, range or length, `Late` for an item before that first one, and `Memory`. An `Err` changes nothing. A
    /// setting that replaces one at the same item needs no memory.
    pub fn set(
        &mut self,
        block: BlockId,
        at: Option<u64>,
        value: Value,
    ) -> Result<Taken, PlantFault>
        ensures replaces { (place : ℕ) → (set_of (net_of B.meaning self.old.graph) self.old.state block.0 at
            (value_of value)).0 ≡ machine.Taken place →
            Any (λ h. h.at ≡ place) (handed_at self.old.state.handed block.0).settings → IsOk result }
        ensures answered { Answered (set_of (net_of B.meaning self.old.graph) self.old.state block.0 at
            (value_of value)) self.old self.new (reply_of (λ t. machine.Taken t.0) result) }
    {
        self.parts.set(block, at, value)
    }

    /// Copies what a sink holds from item `from` on, at most `max` items, with the tags on them. Refusals, in this
    /// order: `NoSuchBlock`, `NotSink`, `BeyondEnd` if it holds fewer than `from` items, and `Memory`. A piece that
    /// says done comes from a sink that holds its whole stream.
    pub fn read(
        &self,
        alloc: Global,
        sink: BlockId,
        from: u64,
        max: u64,
    ) -> Result<Piece, PlantFault>
        ensures answered { AnsweredBy (read_of (net_of B.meaning self.now.graph) self.now.state sink.0 from max)
            (reply_of piece_reply result) }
        ensures typed { IfOk result (λ piece. type_of piece.items ≡ (node_at (net_of B.meaning self.now.graph)
            sink.0).meaning.inputs.item) }
        ensures whole { IfOk result (λ piece. piece.done ≡ true → HoldsAll (net_of B.meaning self.now.graph)
            self.now.state sink.0) }
    {
        self.parts.read(alloc, sink, from, max)
    }

    /// Lends all that a sink holds, with the tags on it. It copies nothing and takes no memory. Refusals:
    /// `NoSuchBlock`, `NotSink`. A view that says done is of a sink that holds its whole stream.
    pub fn view(&self, sink: BlockId) -> Result<SinkView<'_>, PlantFault>
        ensures answered { reply_of view_reply result ≡ Some (view_of (net_of B.meaning self.now.graph) self.now.state
            sink.0) }
        ensures typed { IfOk result (λ view. type_of view.items.now ≡ (node_at (net_of B.meaning self.now.graph)
            sink.0).meaning.inputs.item) }
        ensures whole { IfOk result (λ view. view.done ≡ true → HoldsAll (net_of B.meaning self.now.graph)
            self.now.state sink.0) }
    {
        self.parts.view(sink)
    }

    /// How many unread items the buffer of an output holds at most: the capacity asked for, or more if the graph needs
    /// it. Refusals: `NoSuchBlock`, and `NoSuchPort` for an output without a connection. It takes no memory.
    pub fn capacity(&self, block: BlockId, port: usize) -> Result<u32, PlantFault>
        ensures refused { fault_in result ≡ port_fault (net_of B.meaning self.now.graph) block.0 port }
        ensures value { IfOk result (λ items. items ≡ capacity_at self.now.capacities block.0 port) }
    {
        self.parts.capacity(block, port)
    }

    /// How much the buffer of an output keeps: no more than its capacity and the greatest history of its readers
    /// require. Refusals: `NoSuchBlock`, and `NoSuchPort` for an output without a connection. It takes no memory.
    pub fn stored(&self, block: BlockId, port: usize) -> Result<Stored, PlantFault>
        ensures refused { fault_in result ≡ port_fault (net_of B.meaning self.now.graph) block.0 port }
        ensures kept { IfOk result (IsKeptOf (net_of B.meaning self.now.graph) self.now.capacities self.now.state
            block.0 port) }
    {
        self.parts.stored(block, port)
    }

    /// Claims at most `max` firings of a block: as many as there are items for, room for, and left of its limit. It
    /// reserves all memory of their work and their commit. Refusals: `NoSuchBlock`, `Memory`. An `Err` changes nothing.
    pub fn claim(&mut self, alloc: Global, block: BlockId, max: u32) -> Result<Claim<B>, PlantFault>
        requires { 1 ≤ max }
        ensures answered { Answered (next (net_of B.meaning self.old.graph) self.old.capacities self.old.state
            (machine.Claim block.0 max)) self.old self.new (reply_of claim_reply result) }
        ensures of_graph { IfOk result (IsOf self.old.graph) }
    {
        self.parts.claim(alloc, block, max)
    }

    /// Does at most `max` firings of a block: claim, work, commit. Refusals as for `claim`. An `Err` changes nothing.
    pub fn step(&mut self, alloc: Global, block: BlockId, max: u32) -> Result<Step, PlantFault>
        requires { 1 ≤ max }
        ensures { Answered (step_of (net_of B.meaning self.old.graph) self.old.capacities self.old.state block.0 max)
            self.old self.new (reply_of step_reply result) }
    {
        self.parts.step(alloc, block, max)
    }

    /// Steps all blocks in turn, writers before readers, at most `max` firings each, again and again, until all are
    /// done, or a whole round did nothing: the plant is then quiet. Once all are done, each sink holds its whole
    /// stream. It ends like that if the rates are balanced and each tape is closed. If memory runs out it stops, and
    /// the plant stays where its steps took it.
    pub fn settle(&mut self, alloc: Global, max: u32) -> Result<Settled, AllocError>
        requires idle { is_idle self.old.state ≡ true }
        requires some { 1 ≤ max }
        ensures same { self.new ≡ record self.old { state = self.new.state } }
        ensures steps { StepsLead (net_of B.meaning self.old.graph) self.old.capacities max self.old.state
            self.new.state }
        ensures idle { is_idle self.new.state ≡ true }
        ensures settled { IfOk result (HasSettled (net_of B.meaning self.new.graph) self.new.capacities
            self.new.state) }
        ensures whole { IfOk result (HoldsSettled (net_of B.meaning self.new.graph) self.new.state) }
    {
        self.settle_watched(alloc, max, &mut Unwatched)
    }

    /// Like `settle`. It calls `watch.show` after each round of all blocks, and `watch.end` however it ends.
    pub fn settle_watched<W: Watch>(
        &mut self,
        alloc: Global,
        max: u32,
        watch: &mut W,
    ) -> Result<Settled, AllocError>
        requires idle { is_idle self.old.state ≡ true }
        requires some { 1 ≤ max }
        ensures same { self.new ≡ record self.old { state = self.new.state } }
        ensures steps { StepsLead (net_of B.meaning self.old.graph) self.old.capacities max self.old.state
            self.new.state }
        ensures idle { is_idle self.new.state ≡ true }
        ensures settled { IfOk result (HasSettled (net_of B.meaning self.new.graph) self.new.capacities
            self.new.state) }
        ensures whole { IfOk result (HoldsSettled (net_of B.meaning self.new.graph) self.new.state) }
    {
        let settled = self.parts.settle(alloc, max, watch);
        watch.end();
        settled
    }

    /// How many items all sources were fed, and how many of these they have given. It looks at each block, and takes no
    /// memory.
    pub fn headway(&self) -> Headway
        ensures value { result ≡ headway_of (net_of B.meaning self.now.graph) self.now.state }
        ensures within { result.given ≤ result.fed }
    {
        self.parts.headway()
    }

    /// What was handed to the plant so far: a share of its graph and of its tapes, and a copy of its settings. It takes
    /// memory only for blocks and settings, and fails only if the allocator refuses.
    pub fn handed(&self, alloc: Global) -> Result<Handed<B>, AllocError>
        ensures graph { IfOk result (λ h. h.graph ≡ self.now.graph) }
        ensures handed { IfOk result (λ h. h.handed ≡ self.now.state.handed) }
    {
        self.parts.handed(alloc)
    }

    /// Whether that is what was handed to the plant: an equal graph, block by block by `==`, and the same tapes, closed
    /// marks and settings. It looks at each item once, and takes no memory. Graphs equal like that are one network.
    pub fn agrees(&self, handed: &Handed<B>) -> bool
        ensures nets { IsTrue result → net_of B.meaning self.now.graph ≡ net_of B.meaning handed.now.graph }
        ensures same { IsTrue result ↔ ((graphs_agree B.eq self.now.graph handed.now.graph ≡ true)
            × (handed.now.handed ≡ self.now.state.handed)) }
    {
        self.parts.agrees(handed)
    }

    /// What was handed to the plant so far, and how far each block is. It takes memory and fails as `handed` does.
    pub fn opening(&self, alloc: Global) -> Result<Opening<B>, AllocError>
        ensures graph { IfOk result (λ o. o.graph ≡ self.now.graph) }
        ensures state { IfOk result (λ o. o.state ≡ self.now.state) }
    {
        self.parts.graph.recall();
        self.parts.opening(alloc)
    }

    /// What a claim of a block would come to, or what it waits for, and of which block. Refusal: `NoSuchBlock`. Nothing
    /// changes, and it takes no memory.
    pub fn need(&self, block: BlockId) -> Result<BlockNeed, PlantFault>
        ensures { wait_in result ≡ need_of (net_of B.meaning self.now.graph) self.now.capacities self.now.state
            block.0 }
    {
        self.parts.need(block)
    }

    /// The block reached after as many waits as there are blocks, from the lowest block that is not done; none if all
    /// are done. If each tape is closed and the plant is quiet, it is on a ring: the waits lead from it back to it, and
    /// on the way each block waits for another.
    pub fn ring(&self) -> Option<BlockId>
        ensures value { option_map (λ block. block.0) result ≡ ring_of (net_of B.meaning self.now.graph)
            self.now.capacities self.now.state }
        ensures comes_back { AreClosed (net_of B.meaning self.now.graph) self.now.state
            → is_quiet (net_of B.meaning self.now.graph) self.now.capacities self.now.state ≡ true →
            IfSome result (λ block. IsOnRing (net_of B.meaning self.now.graph) self.now.capacities self.now.state
            block.0) }
    {
        self.parts.ring()
    }

    /// Commits a job that was done, and returns how many firings it had. The work has to be that of its block's claim
    /// in flight: block (number, number of used outputs, and the block itself), first firing, count, windows, settings
    /// and opening state word agree. Other work comes back, and nothing changes. It takes no memory.
    pub fn commit(&mut self, worked: Worked<B>) -> Result<Did, Worked<B>>
        ensures { IsTaken (λ d. machine.Did d.0) (commit_of (net_of B.meaning self.old.graph) self.old.state
            (is_own B.eq self.old.graph worked.graph worked.job.block) worked.job) self.old self.new worked result }
    {
        self.parts.commit(worked)
    }

    /// Gives up a job: its firings are as if never claimed. A job that is not its block's claim in flight comes back,
    /// as from `commit`. It takes no memory.
    pub fn abandon(&mut self, job: Job<B>) -> Result<(), Job<B>>
        ensures { IsTaken (λ u. machine.Abandoned) (abandon_of (net_of B.meaning self.old.graph) self.old.state
            (is_own B.eq self.old.graph job.graph job.job.block) job.job) self.old self.new job result }
    {
        self.parts.abandon(job)
    }

    /// Recalls what every plant keeps: the graph can run, the capacities are those of its rates, and the state is sound
    /// (`Sound`). After any list of calls, each answered as its contract says, replies and state are a run of the
    /// machine. It does nothing.
    pub fn recall(&self)
        ensures runs { CanRun (net_of B.meaning self.now.graph) }
        ensures capacities { self.now.capacities ≡ capacities_of (net_of B.meaning self.now.graph)
            (balance_of (net_of B.meaning self.now.graph)) }
        ensures sound { Sound (net_of B.meaning self.now.graph) self.now.capacities self.now.state }
        ensures composes { (made : List Made) (new : PlantState B) → Leads (net_of B.meaning self.now.graph) self.now
            made new →
            IsRun (net_of B.meaning self.now.graph) self.now made new }
    {
        self.parts.graph.recall();
    }
}
