//! Which source of a pipeline is read next.

ghost use Rattle.std.specs.Prelude.{◌≡◌, ◌<◌, ◌≤◌, ℕ, length, true, IfNone, IfOk, IfSome};
ghost use Rattle.flowgraph.specs.Flowgraph.{net_of};
ghost use Rattle.pipeline.specs.Asking.{Awaits, AwaitsNone, led_to, needed_by};
ghost use Rattle.pipeline.specs.Pipeline.{Lacks, NoneLacks, end_at};
ghost use Rattle.pipeline.specs.Runs.{IsNextOf, NothingLacks};

use crate::pipeline::Pipeline;
use crate::readiness::Readiness;
use crate::requests::Requests;
use flowgraph::{Block, BlockId};
use std::io::{Read, Write};
use stream_model::Role;
use streaming::BlockNeed;

/// No source is ready: a request waits, or a wait is over.
#[derive(Debug, Drop)]
pub(crate) struct Called;

impl<B: Block, R: Read, W: Write> Pipeline<B, R, W> {
    /// The source to feed next: one whose items a sink lacks, the sinks in turn, or else any that lacks items. If there
    /// are several, it is one that is ready. If none is ready it waits, for a request too, and the turn is over: a
    /// writer may have failed meanwhile, which the next flush tells.
    pub(crate) fn next_source<Q: Readiness, C: Requests>(
        &mut self,
        readiness: &mut Q,
        requests: &C,
    ) -> Result<Option<BlockId>, Called>
        ensures same { (self.new.plant ≡ self.old.plant) × (self.new.ends.items ≡ self.old.ends.items) }
        ensures some { IfOk result (λ next. IfSome next (λ source. IsNextOf B.meaning self.new source.0)) }
        ensures none { IfOk result (λ next. IfNone next (NothingLacks B.meaning self.new)) }
    {
        let blocks = self.plant.graph().len();
        let behind = (self.sink.0 as usize + 1).min(blocks);
        if let Some(first) = self.first_awaiting(behind, blocks) {
            let (sink, source) = self.ready_awaiting(first, readiness, requests)?;
            self.sink = sink;
            return Ok(Some(source));
        }
        if let Some(first) = self.first_awaiting(0, behind) {
            let (sink, source) = self.ready_awaiting(first, readiness, requests)?;
            self.sink = sink;
            return Ok(Some(source));
        }
        match self.any_lacking() {
            Some(first) => Ok(Some(self.ready_lacking(first, readiness, requests)?)),
            None => Ok(None),
        }
    }

    /// Like `next_source`, but only a source that is ready, and it does not wait.
    pub(crate) fn next_ready<Q: Readiness>(&mut self, readiness: &mut Q) -> Option<BlockId>
        ensures same { (self.new.plant ≡ self.old.plant) × (self.new.ends.items ≡ self.old.ends.items) }
        ensures some { IfSome result (λ source. IsNextOf B.meaning self.new source.0) }
    {
        let blocks = self.plant.graph().len();
        if self.first_awaiting(0, blocks).is_none() {
            return self.lacking_ready(readiness);
        }
        let behind = (self.sink.0 as usize + 1).min(blocks);
        if let Some((sink, source)) = self.awaiting_ready(behind, blocks, readiness) {
            self.sink = sink;
            return Some(source);
        }
        let (sink, source) = self.awaiting_ready(0, behind, readiness)?;
        self.sink = sink;
        Some(source)
    }

    // The first of the sinks from `from` to below `to` whose waits lead to a source that lacks items, and that source.
    fn first_awaiting(&self, from: usize, to: usize) -> Option<(BlockId, BlockId)>
        requires inside { to ≤ length self.now.plant.plant.graph.blocks }
        requires few { to ≤ 256 }
        ensures some { IfSome result (λ found. Awaits (net_of B.meaning self.now.plant.plant.graph) self.now.plant
            found.0.0 found.1.0) }
        ensures lacks { IfSome result (λ found. Lacks (net_of B.meaning self.now.plant.plant.graph) self.now.plant
            found.1.0 (end_at self.now.ends.items found.1.0)) }
        ensures none { IfNone result ((k : ℕ) → from ≤ k → k < to → AwaitsNone
            (net_of B.meaning self.now.plant.plant.graph) self.now.plant self.now.ends.items k) }
    {
        for block in from..to {
            let sink = BlockId(block as u32);
            if let Some(source) = self.lacked_by(sink) {
                return Some((sink, source));
            }
        }
        None
    }

    // The source that lacks items to which the waits of a sink lead.
    fn lacked_by(&self, sink: BlockId) -> Option<BlockId>
        requires { sink.0 < length self.now.plant.plant.graph.blocks }
        ensures some { IfSome result (λ source. Awaits (net_of B.meaning self.now.plant.plant.graph) self.now.plant
            sink.0 source.0) }
        ensures lacks { IfSome result (λ source. Lacks (net_of B.meaning self.now.plant.plant.graph) self.now.plant
            source.0 (end_at self.now.ends.items source.0)) }
        ensures none { IfNone result (AwaitsNone (net_of B.meaning self.now.plant.plant.graph) self.now.plant
            self.now.ends.items sink.0) }
    {
        match self.plant.graph().role(sink) {
            Role::Source | Role::Work => None,
            Role::Keep | Role::Discard => self.where_lacking(self.led_to(sink)),
        }
    }

    // The block to which as many waits lead from a sink as there are blocks.
    fn led_to(&self, sink: BlockId) -> BlockId
        ensures { result.0 ≡ led_to (net_of B.meaning self.now.plant.plant.graph) self.now.plant.plant.capacities
            self.now.plant.plant.state sink.0 }
    {
        let mut block = sink;
        for _waits in 0..self.plant.graph().len() {
            let next = self.needed_by(block);
            if next.0 == block.0 {
                return block;
            }
            block = next;
        }
        block
    }

    // The block that a block waits for, or the block itself if it waits for none.
    fn needed_by(&self, block: BlockId) -> BlockId
        ensures { result.0 ≡ needed_by (net_of B.meaning self.now.plant.plant.graph) self.now.plant.plant.capacities
            self.now.plant.plant.state block.0 }
    {
        match self.plant.need(block) {
            Ok(BlockNeed::Items { writer, .. }) => writer,
            Ok(BlockNeed::Room { reader, .. }) => reader,
            Ok(BlockNeed::Done | BlockNeed::Busy | BlockNeed::Ready | BlockNeed::Feed) => block,
            Err(_) => block,
        }
    }

    // The block, if it lacks items.
    fn where_lacking(&self, block: BlockId) -> Option<BlockId>
        ensures some { IfSome result (λ source. source ≡ block) }
        ensures lacks { IfSome result (λ _. Lacks (net_of B.meaning self.now.plant.plant.graph) self.now.plant block.0
            (end_at self.now.ends.items block.0)) }
        ensures none { IfNone result (Lacks (net_of B.meaning self.now.plant.plant.graph) self.now.plant block.0
            (end_at self.now.ends.items block.0) → ⊥) }
    {
        if self.lacks(block) { Some(block) } else { None }
    }

    // The first source that lacks items and has a reader.
    fn any_lacking(&self) -> Option<BlockId>
        ensures some { IfSome result (λ source. Lacks (net_of B.meaning self.now.plant.plant.graph) self.now.plant
            source.0 (end_at self.now.ends.items source.0)) }
        ensures none { IfNone result (NoneLacks (net_of B.meaning self.now.plant.plant.graph) self.now.plant
            self.now.ends.items) }
    {
        for block in 0..self.plant.graph().len() {
            let block = BlockId(block as u32);
            if self.lacks(block) {
                return Some(block);
            }
        }
        None
    }

    // The first sink, in turn from this one on, whose waits lead to a source that lacks items and is ready, and that
    // source. It waits once if there is none, and no request.
    fn ready_awaiting<Q: Readiness, C: Requests>(
        &self,
        first: (BlockId, BlockId),
        readiness: &mut Q,
        requests: &C,
    ) -> Result<(BlockId, BlockId), Called>
        requires awaits { Awaits (net_of B.meaning self.now.plant.plant.graph) self.now.plant first.0.0 first.1.0 }
        requires lacks { Lacks (net_of B.meaning self.now.plant.plant.graph) self.now.plant first.1.0
            (end_at self.now.ends.items first.1.0) }
        ensures awaits { IfOk result (λ found. Awaits (net_of B.meaning self.now.plant.plant.graph) self.now.plant
            found.0.0 found.1.0) }
        ensures lacks { IfOk result (λ found. Lacks (net_of B.meaning self.now.plant.plant.graph) self.now.plant
            found.1.0 (end_at self.now.ends.items found.1.0)) }
    {
        if readiness.is_ready(first.1) {
            return Ok(first);
        }
        let blocks = self.plant.graph().len();
        let turn = (first.0.0 as usize).min(blocks);
        if let Some(found) = self.awaiting_ready(turn, blocks, readiness) {
            return Ok(found);
        }
        if let Some(found) = self.awaiting_ready(0, turn, readiness) {
            return Ok(found);
        }
        if !requests.are_waiting() {
            readiness.wait();
        }
        Err(Called)
    }

    // The first of the sinks from `from` to below `to` whose waits lead to a source that lacks items and is ready, and
    // that source.
    fn awaiting_ready<Q: Readiness>(
        &self,
        from: usize,
        to: usize,
        readiness: &mut Q,
    ) -> Option<(BlockId, BlockId)>
        requires inside { to ≤ length self.now.plant.plant.graph.blocks }
        requires few { to ≤ 256 }
        ensures some { IfSome result (λ found. Awaits (net_of B.meaning self.now.plant.plant.graph) self.now.plant
            found.0.0 found.1.0) }
        ensures lacks { IfSome result (λ found. Lacks (net_of B.meaning self.now.plant.plant.graph) self.now.plant
            found.1.0 (end_at self.now.ends.items found.1.0)) }
    {
        for block in from..to {
            let sink = BlockId(block as u32);
            if let Some(source) = self.lacked_by(sink) {
                if readiness.is_ready(source) {
                    return Some((sink, source));
                }
            }
        }
        None
    }

    // A source that lacks items and is ready: this one if it is. It waits once if there is none, and no request.
    fn ready_lacking<Q: Readiness, C: Requests>(
        &self,
        first: BlockId,
        readiness: &mut Q,
        requests: &C,
    ) -> Result<BlockId, Called>
        requires { Lacks (net_of B.meaning self.now.plant.plant.graph) self.now.plant first.0
            (end_at self.now.ends.items first.0) }
        ensures { IfOk result (λ source. Lacks (net_of B.meaning self.now.plant.plant.graph) self.now.plant source.0
            (end_at self.now.ends.items source.0)) }
    {
        if readiness.is_ready(first) {
            return Ok(first);
        }
        if let Some(found) = self.lacking_ready(readiness) {
            return Ok(found);
        }
        if !requests.are_waiting() {
            readiness.wait();
        }
        Err(Called)
    }

    // The first source that lacks items, has a reader and is ready.
    fn lacking_ready<Q: Readiness>(&self, readiness: &mut Q) -> Option<BlockId>
        ensures { IfSome result (λ source. Lacks (net_of B.meaning self.now.plant.plant.graph) self.now.plant source.0
            (end_at self.now.ends.items source.0)) }
    {
        for block in 0..self.plant.graph().len() {
            let block = BlockId(block as u32);
            if self.lacks(block) && readiness.is_ready(block) {
                return Some(block);
            }
        }
        None
    }

    // Whether a source has given all that it was fed, and its reader has more.
    #[tactic(auto, using(crate::proofs::Moving::lacks_more))]
    fn lacks(&self, block: BlockId) -> bool
        ensures only { result ≡ true → Lacks (net_of B.meaning self.now.plant.plant.graph) self.now.plant block.0
            (end_at self.now.ends.items block.0) }
        ensures all { Lacks (net_of B.meaning self.now.plant.plant.graph) self.now.plant block.0
            (end_at self.now.ends.items block.0) → result ≡ true }
    {
        match self.ends.get(block.0 as usize) {
            Some(end) => end.has_more() && matches!(self.plant.need(block), Ok(BlockNeed::Feed)),
            None => false,
        }
    }
}
