//! The pipeline's share of a run: all of it, or what is left after its pieces.

use crate::cut::Cut;
use crate::lengths::{size_at, zeros};
use flowgraph::{BlockId, Valid};
use kinds::Kind;
use pipeline::{PipelineFault, StreamPart};
use std::alloc::{AllocError, Global};

/// The pipeline's share of a run, by block.
#[derive(Drop)]
pub struct Rest {
    has_pieces: bool,
    // How many iterations of the whole tapes stand before what is read.
    first: u64,
    // For each source the first item that is read, and how many lines of its marks stand before those that are read.
    origins: Vec<u64>,
    lines: Vec<u64>,
    // For each sink how many items the pieces gave it, and which part of its stream comes then.
    given: Vec<u64>,
    parts: Vec<StreamPart>,
}

impl Rest {
    /// All of a run, or of a part of it.
    pub fn whole(alloc: Global, graph: &Valid<Kind>, cut: &Cut) -> Result<Rest, AllocError> {
        let mut origins = zeros(alloc, graph.len())?;
        let mut parts = Vec::with_capacity(alloc, graph.len())?;
        let mut block = 0u32;
        for origin in &mut origins {
            let id = BlockId(block);
            *origin = cut.extent(id).from / size_at(graph, id).max(1);
            let written = cut.written(id);
            parts.push(StreamPart {
                origin: written.origin,
                drop: written.left_out,
            })?;
            block = block.saturating_add(1);
        }
        Ok(Rest {
            has_pieces: false,
            first: cut.from,
            origins,
            lines: zeros(alloc, graph.len())?,
            given: zeros(alloc, graph.len())?,
            parts,
        })
    }

    /// Reading begins after so many iterations of the whole tapes.
    pub fn begin_at(&mut self, first: u64) {
        self.first = first;
    }

    /// Reading of a source begins at this item, and after so many lines of its marks.
    pub fn begin(&mut self, source: BlockId, origin: u64, lines: u64) {
        self.has_pieces = true;
        set(&mut self.origins, source, origin);
        set(&mut self.lines, source, lines);
    }

    /// The pieces gave a sink so many items, and it goes on with this part of its stream.
    pub fn go_on(&mut self, sink: BlockId, given: u64, part: StreamPart) {
        self.has_pieces = true;
        set(&mut self.given, sink, given);
        set(&mut self.parts, sink, part);
    }

    /// How many iterations of the whole tapes stand before what is read.
    pub fn first(&self) -> u64 {
        self.first
    }

    /// Whether it is what pieces left.
    pub fn has_pieces(&self) -> bool {
        self.has_pieces
    }

    /// The item of the whole tape at which reading of a source begins.
    pub fn origin(&self, source: BlockId) -> u64 {
        at(&self.origins, source)
    }

    /// Which part of its stream a sink is given.
    pub fn part(&self, sink: BlockId) -> StreamPart {
        match self.parts.get(sink.0 as usize) {
            Some(part) => *part,
            None => StreamPart::whole(),
        }
    }

    /// How many items a sink was given in all, if the pipeline gave it so many.
    pub fn given(&self, sink: BlockId, held: u64) -> u64 {
        let own = held.saturating_sub(self.part(sink).drop);
        at(&self.given, sink).saturating_add(own)
    }

    /// The fault, in which lines of marks have their numbers among all of them.
    pub fn counted(&self, fault: PipelineFault) -> PipelineFault {
        match fault {
            PipelineFault::BadMark(source, line) => {
                PipelineFault::BadMark(source, line.saturating_add(at(&self.lines, source)))
            }
            PipelineFault::MarkPlace(source, line) => {
                PipelineFault::MarkPlace(source, line.saturating_add(at(&self.lines, source)))
            }
            fault => fault,
        }
    }
}

fn at(counts: &[u64], block: BlockId) -> u64 {
    counts.get(block.0 as usize).copied().unwrap_or(0)
}

fn set<T: Drop>(all: &mut [T], block: BlockId, value: T) {
    if let Some(slot) = all.get_mut(block.0 as usize) {
        *slot = value;
    }
}
