//! The calls that hand something to a block: items, the end of them, and settings.

ghost use Rattle.std.specs.Prelude.{◌≡◌, ◌+◌, ◌^◌, ◌<◌, ℕ, length, map, IsOk};
ghost use Rattle.std.specs.List.{Any};
ghost use Rattle.std.specs.Arc.{arc_value};
ghost use Rattle.stream_model.specs.Network.{handed_at, writers_of};
ghost use Rattle.stream_model.specs.Machine as machine;
ghost use Rattle.stream_model.specs.Machine.{feed_of, close_of, set_of, floor_of};
ghost use Rattle.items.specs.Items.{type_of, numbers_of};
ghost use Rattle.settings.specs.Values.{value_of};
ghost use Rattle.flowgraph.specs.Flowgraph.{net_of};
ghost use Rattle.plant_storage.specs.Stores.{mark_of};
ghost use Rattle.plant.specs.Plant.{IsRight, plant_of, spans_in};
ghost use Rattle.plant.specs.Answers.{Answered, AnsweredAlways, reply_of};
ghost use Rattle.plant.specs.Feeding.{feed_numbers, length_with};

use crate::answers::{Closed, Fed, Taken};
use crate::checks::{fit, same_type, source_type, wanted};
use crate::parts::Parts;
use crate::source_tapes::counts_of;
use firing_rules::Tape;
use flowgraph::{Block, BlockId};
use items::{ItemFault, Items, Mark};
use plant_faults::PlantFault;
use settings::Value;
use std::alloc::Global;

/// The most items that a tape of a `Plant` may come to hold.
pub const LONGEST_TAPE: u64 = 4_294_967_296;

impl<B: Block> Parts<B> {
    /// Closes a source's tape.
    pub fn close(&mut self, source: BlockId) -> Result<Closed, PlantFault>
        requires { IsRight B.meaning self.old }
        ensures right { IsRight B.meaning self.new }
        ensures spans { spans_in self.new ≡ spans_in self.old }
        ensures answered { let old = plant_of self.old in AnsweredAlways
            (close_of (net_of B.meaning old.graph) old.state source.0) old (plant_of self.new)
            (reply_of (λ c. machine.Closed c.0) result) }
    {
        self.graph.recall();
        source_type(&self.graph, source)?;
        let at = source.0 as usize;
        let tape = counts_of(&self.stores.handed[at]);
        if tape.closed {
            return Err(PlantFault::Closed);
        }
        self.stores.handed[at].closed = true;
        Ok(Closed(tape.length))
    }

    /// Appends items to a source's tape, with marks on them.
    pub fn feed(
        &mut self,
        source: BlockId,
        items: &Items,
        marks: &[Mark],
    ) -> Result<Fed, PlantFault>
        requires { IsRight B.meaning self.old }
        ensures right { IsRight B.meaning self.new }
        ensures spans { spans_in self.new ≡ spans_in self.old }
        ensures answered { let old = plant_of self.old in Answered (feed_of (net_of B.meaning old.graph) old.state
            source.0 (type_of items.now) (numbers_of items.now) (map mark_of marks.now)) old (plant_of self.new)
            (reply_of (λ f. machine.Fed f.0) result) }
    {
        self.graph.recall();
        let item = source_type(&self.graph, source)?;
        if !same_type(items.item_type(), item) {
            return Err(PlantFault::ItemRange);
        }
        let at = source.0 as usize;
        let intake = &self.stores.handed[at];
        let total = length_with(counts_of(intake), intake.longest, items.len() as u64, marks)?;
        self.stores.handed[at].feed(source.0, items, marks)?;
        Ok(Fed(total))
    }

    /// Appends numbers to a source's tape, as items of its type, with marks on them.
    pub fn feed_numbers(
        &mut self,
        alloc: Global,
        source: BlockId,
        numbers: &[i64],
        marks: &[Mark],
    ) -> Result<Fed, PlantFault>
        requires { IsRight B.meaning self.old }
        ensures right { IsRight B.meaning self.new }
        ensures spans { spans_in self.new ≡ spans_in self.old }
        ensures answered { let old = plant_of self.old in Answered (feed_numbers (net_of B.meaning old.graph) old.state
            source.0 numbers.now (map mark_of marks.now)) old (plant_of self.new)
            (reply_of (λ f. machine.Fed f.0) result) }
    {
        self.graph.recall();
        let item = source_type(&self.graph, source)?;
        match Items::from_numbers(alloc, item, numbers) {
            Ok(items) => self.feed(source, &items, marks),
            Err(ItemFault::ItemRange) => Err(PlantFault::ItemRange),
            Err(ItemFault::Memory) => {
                let intake = &self.stores.handed[source.0 as usize];
                length_with(
                    counts_of(intake),
                    intake.longest,
                    numbers.len() as u64,
                    marks,
                )?;
                Err(PlantFault::Memory)
            }
        }
    }

    /// Sets the value of a block's setting from item `at` of its first input on, or from the first that is still open.
    pub fn set(
        &mut self,
        block: BlockId,
        at: Option<u64>,
        value: Value,
    ) -> Result<Taken, PlantFault>
        requires { IsRight B.meaning self.old }
        ensures right { IsRight B.meaning self.new }
        ensures spans { spans_in self.new ≡ spans_in self.old }
        ensures replaces { let old = plant_of self.old in (place : ℕ) → (set_of (net_of B.meaning old.graph) old.state
            block.0 at (value_of value)).0 ≡ machine.Taken place →
            Any (λ h. h.at ≡ place) (handed_at old.state.handed block.0).settings → IsOk result }
        ensures answered { let old = plant_of self.old in Answered (set_of (net_of B.meaning old.graph) old.state
            block.0 at (value_of value)) old (plant_of self.new) (reply_of (λ t. machine.Taken t.0) result) }
    {
        self.graph.recall();
        wanted(&self.graph, block, &value)?;
        let floor = self.floor(block);
        let place = at.unwrap_or(floor);
        if place < floor {
            return Err(PlantFault::Late { floor });
        }
        self.stores.handed[block.0 as usize].set(place, value)?;
        Ok(Taken(place))
    }

    // The first item of a block's first input at which a setting may still begin.
    fn floor(&self, block: BlockId) -> u64
        requires right { IsRight B.meaning self.now }
        requires block { block.0 < length (arc_value self.now.graph).blocks }
        requires input { 0 < length (writers_of (net_of B.meaning (arc_value self.now.graph)) block.0) }
        ensures { let plant = plant_of self.now in result ≡ floor_of (net_of B.meaning plant.graph) plant.state
            block.0 }
    {
        self.graph.recall();
        let own = self.firings.progress(block);
        let multiple = u64::from(self.graph.options(block).multiple);
        self.graph
            .block(block)
            .taken(0, multiple * (own.firings + u64::from(own.claimed)))
    }
}

// How long a tape is with so many items more, or why it does not take them and their marks. It may come to hold
// `longest`.
fn length_with(tape: Tape, longest: u64, count: u64, marks: &[Mark]) -> Result<u64, PlantFault>
    requires { tape.length + count < 2 ^ 64 }
    ensures { result ≡ length_with tape longest count (map mark_of marks.now) }
{
    if tape.closed {
        return Err(PlantFault::Closed);
    }
    let total = tape.length + count;
    if !fit(marks, tape.length, total) {
        return Err(PlantFault::TagPlace);
    }
    if longest < total {
        return Err(PlantFault::TapeFull);
    }
    Ok(total)
}
