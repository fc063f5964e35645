//! Runs a slice on a piece of the tapes.

use crate::room::Room;
use flowgraph::{Block, BlockId};
use pipeline::{End, Pipeline, StreamPart, TapePart};
use raw_items::ByteOrder;
use std::alloc::{AllocError, Global};
use std::mem;
use streaming::StreamingPlant;

/// Opens plants of one graph.
pub trait Opens {
    type Block: Block;

    /// A plant with nothing fed. Its blocks go on where they stand after so many iterations. It fails only if the
    /// allocator refuses.
    fn open(
        &self,
        alloc: Global,
        iterations: u64,
    ) -> Result<StreamingPlant<Self::Block>, AllocError>;
}

/// What the slices give a sink.
#[derive(Clone, Copy, Debug, PartialEq, Eq)]
pub struct Share {
    pub sink: BlockId,
    /// How many bytes an item has.
    pub item_size: u64,
    /// How many items the sink takes in an iteration.
    pub period: u64,
    /// How many items the overlap before a piece gives.
    pub drop: u64,
    /// The item of the whole stream from which on items and tags are given.
    pub from: u64,
    /// Whether the sink is given the tags too.
    pub has_tags: bool,
}

/// What is the same for all pieces.
#[derive(Drop)]
pub struct Job {
    /// The order of the bytes of an item.
    pub order: ByteOrder,
    /// What the sinks are given, in this order.
    pub shares: Vec<Share>,
}

/// What a piece has of the tape of a source.
#[derive(Drop)]
pub struct Tape {
    pub source: BlockId,
    pub room: Room,
    /// The item of the whole tape at which it begins.
    pub origin: u64,
    /// The lines of the marks on its items, if the source has marks.
    pub marks: Option<Vec<u8>>,
}

/// A piece of the tapes.
#[derive(Drop)]
pub struct Piece {
    /// How many iterations of the whole tapes come before it.
    pub first: u64,
    pub tapes: Vec<Tape>,
    /// The part of its stream that each sink is given, in the order of the shares.
    pub parts: Vec<StreamPart>,
}

/// What a slice gives a sink.
#[derive(Drop)]
pub struct Given {
    /// The items, as raw bytes.
    pub items: Vec<u8>,
    /// The tags, as lines.
    pub tags: Vec<u8>,
}

impl Piece {
    /// The rooms of its tapes, for another piece.
    pub(crate) fn into_rooms(self, alloc: Global) -> Vec<Room> {
        let mut rooms = Vec::new(alloc);
        for tape in self.tapes {
            if rooms.push(tape.room).is_err() {
                break;
            }
        }
        rooms
    }
}

impl Job {
    /// The same for another thread. It fails only if the allocator refuses.
    pub fn copy(&self, alloc: Global) -> Result<Job, AllocError> {
        let mut shares = Vec::with_capacity(alloc, self.shares.len())?;
        shares.extend_from_slice(&self.shares)?;
        Ok(Job {
            order: self.order,
            shares,
        })
    }

    /// Runs the slice on a piece, and returns what it gives each sink, in memory that earlier pieces left. It fails
    /// only if memory runs out.
    pub fn run<O: Opens>(
        &self,
        alloc: Global,
        opener: &O,
        piece: &Piece,
        emptied: Vec<Given>,
    ) -> Result<Vec<Given>, AllocError> {
        let mut given = self.rooms(alloc, emptied)?;
        let mut run = self.joined(alloc, opener, piece, &mut given)?;
        if run.run(alloc).is_err() {
            // (it reads and writes only memory, and the marks are in order)
            return Err(AllocError);
        }
        for (share, given) in self.shares.iter().zip(&mut given) {
            take(alloc, &mut run, share.sink, given);
        }
        Ok(given)
    }

    // The places that each sink's items and tags go to, emptied.
    fn rooms(&self, alloc: Global, emptied: Vec<Given>) -> Result<Vec<Given>, AllocError> {
        let mut given = emptied;
        for given in &mut given {
            given.items.clear();
            given.tags.clear();
        }
        for _ in given.len()..self.shares.len() {
            given.push(Given {
                items: Vec::new(alloc),
                tags: Vec::new(alloc),
            })?;
        }
        Ok(given)
    }

    // The run, with its ends joined.
    fn joined<'a, O: Opens>(
        &self,
        alloc: Global,
        opener: &O,
        piece: &'a Piece,
        given: &mut [Given],
    ) -> Result<InMemory<'a, O::Block>, AllocError> {
        let mut run = match Pipeline::new(alloc, opener.open(alloc, piece.first)?) {
            Ok(run) => run,
            Err((_plant, refusal)) => return Err(refusal),
        };
        for tape in &piece.tapes {
            self.read(alloc, &mut run, tape)?;
        }
        for ((share, part), given) in self.shares.iter().zip(&piece.parts).zip(given) {
            let items = Some(mem::replace(&mut given.items, Vec::new(alloc)));
            let tags = if share.has_tags {
                Some(mem::replace(&mut given.tags, Vec::new(alloc)))
            } else {
                None
            };
            join(run.write_part(alloc, share.sink, *part, self.order, items, tags))?;
        }
        close_others(&mut run);
        Ok(run)
    }

    // Joins a source to its tape, and to the marks on it.
    fn read<'a, B: Block>(
        &self,
        alloc: Global,
        run: &mut InMemory<'a, B>,
        tape: &'a Tape,
    ) -> Result<(), AllocError> {
        join(run.read_from(alloc, tape.source, self.order, tape.room.bytes()))?;
        let Some(marks) = &tape.marks else {
            return Ok(());
        };
        let part = TapePart {
            origin: tape.origin,
            goes_on: true,
        };
        join(run.mark_part(alloc, tape.source, part, marks.as_slice()))
    }
}

// A run between bytes in memory.
type InMemory<'a, B> = Pipeline<B, &'a [u8], Vec<u8>>;

// (an end that exists is refused only if memory runs out)
fn join<E: Drop>(joined: Result<(), E>) -> Result<(), AllocError> {
    match joined {
        Ok(()) => Ok(()),
        Err(_) => Err(AllocError),
    }
}

// Closes the sources that no tape feeds.
fn close_others<B: Block>(run: &mut InMemory<'_, B>) {
    let mut block = 0u32;
    for _ in 0..run.plant.graph().len() {
        if let Some(End::Open) = run.ends.get(block as usize) {
            // (a block that is no source is refused)
            let _ = run.plant.close(BlockId(block));
        }
        block = block.saturating_add(1);
    }
}

// Takes what a sink was given.
fn take<B: Block>(alloc: Global, run: &mut InMemory<'_, B>, sink: BlockId, given: &mut Given) {
    if let Some(End::Output(output)) = run.ends.get_mut(sink.0 as usize) {
        given.items = output.items_to.take().unwrap_or(Vec::new(alloc));
        given.tags = output.tags_to.take().unwrap_or(Vec::new(alloc));
    }
}
