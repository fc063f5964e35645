//! A gate that keeps what happens in a run.

use firing_rules::Need;
use flowgraph::{Block, BlockId, Valid};
use scheduling::Gate;
use std::alloc::{AllocError, Global};
use std::sync::atomic::{AtomicU64, Ordering};
use std::time::Clock;

// The end of a wait that no turn has ended.
const NEVER: u64 = u64::MAX;

/// A turn or a wait of a block. Times are in nanoseconds, as the clock shows them.
#[derive(Clone, Copy, Debug, PartialEq, Eq)]
pub struct Event {
    pub block: BlockId,
    pub deed: Deed,
    pub began: u64,
    /// None for a wait that no turn ended.
    pub ended: Option<u64>,
}

/// What a block did in that time.
#[derive(Clone, Copy, Debug, PartialEq, Eq)]
pub enum Deed {
    /// It was at work on so many firings.
    Fired(u64),
    /// It waited.
    Waited(Need),
}

/// The gate that keeps turns and waits of blocks, in the order in which it is told of them. It keeps the first ones, as
/// many as it has room for. It takes its memory before the run, and locks nothing. A clock that cannot be read counts
/// as 0.
#[derive(Drop)]
pub struct Tracer<R> {
    clock: R,
    blocks: Vec<State>,
    slots: Vec<Slot>,
    // How many turns and waits there were, including those without a slot.
    count: AtomicU64,
}

// The state of a block. At most one thread at a time acts for it.
#[derive(Drop)]
struct State {
    outputs: usize,
    // When its turn began.
    began: AtomicU64,
    // The number of the port at which it waits; 0 for none.
    port: AtomicU64,
    // The slot of this wait.
    slot: AtomicU64,
}

// The room for an event.
#[derive(Drop)]
struct Slot {
    block: AtomicU64,
    // The number of the port at which the block waits; 0 for a turn.
    port: AtomicU64,
    firings: AtomicU64,
    began: AtomicU64,
    ended: AtomicU64,
}

impl<R: Clock + Drop> Tracer<R> {
    /// A tracer for the blocks of a graph, with room for so many turns and waits together.
    pub fn new<B: Block>(
        alloc: Global,
        clock: R,
        graph: &Valid<B>,
        room: usize,
    ) -> Result<Tracer<R>, AllocError> {
        let mut blocks = Vec::with_capacity(alloc, graph.len())?;
        for block in 0..graph.len() {
            blocks.push(State::new(graph.outputs(BlockId(block as u32))))?;
        }
        let mut slots = Vec::with_capacity(alloc, room)?;
        for _ in 0..room {
            slots.push(Slot::new())?;
        }
        Ok(Tracer {
            clock,
            blocks,
            slots,
            count: AtomicU64::new(0),
        })
    }

    /// How many turns and waits there were.
    pub fn count(&self) -> u64 {
        read(&self.count)
    }

    /// How many of them it has kept.
    pub fn kept(&self) -> usize {
        usize::try_from(self.count())
            .unwrap_or(usize::MAX)
            .min(self.slots.len())
    }

    /// How many it had no room for.
    pub fn left_out(&self) -> u64 {
        self.count().saturating_sub(self.slots.len() as u64)
    }

    /// After the run, the kept event of this number, counted from 0.
    pub fn event(&self, number: usize) -> Option<Event> {
        let slot = self.slots.get(number)?;
        let block = u32::try_from(read(&slot.block)).ok()?;
        let state = self.blocks.get(block as usize)?;
        let deed = match state.need_of(read(&slot.port)) {
            Some(need) => Deed::Waited(need),
            None => Deed::Fired(read(&slot.firings)),
        };
        let ended = read(&slot.ended);
        Some(Event {
            block: BlockId(block),
            deed,
            began: read(&slot.began),
            ended: if ended == NEVER { None } else { Some(ended) },
        })
    }

    /// When the first kept event began; 0 if there is none.
    pub fn beginning(&self) -> u64 {
        let began = self
            .slots
            .iter()
            .take(self.kept())
            .map(|slot| read(&slot.began));
        began.min().unwrap_or(0)
    }

    // Keeps a turn or a wait, if there is a slot for it, and returns its number.
    fn keep(&self, block: BlockId, port: u64, firings: u32, began: u64, ended: u64) -> u64 {
        let number = self.count.fetch_add(1, Ordering::SeqCst);
        if let Some(slot) = self.slots.get(number as usize) {
            write(&slot.block, u64::from(block.0));
            write(&slot.port, port);
            write(&slot.firings, u64::from(firings));
            write(&slot.began, began);
            write(&slot.ended, ended);
        }
        number
    }

    // The wait of a block ends, if it has one.
    fn end_wait(&self, state: &State, now: u64) {
        if read(&state.port) != 0 {
            if let Some(slot) = self.slots.get(read(&state.slot) as usize) {
                write(&slot.ended, now);
            }
            write(&state.port, 0);
        }
    }

    // What the clock shows, in nanoseconds.
    fn time(&self) -> u64 {
        match self.clock.monotonic() {
            Ok(time) => u64::try_from(time.as_nanos()).unwrap_or(u64::MAX),
            Err(_) => 0,
        }
    }
}

impl<R: Clock + Drop> Gate for Tracer<R> {
    fn pass(&self, _block: BlockId, _firing: u64) {}

    fn begins(&self, block: BlockId) {
        if let Some(state) = self.blocks.get(block.0 as usize) {
            write(&state.began, self.time());
        }
    }

    fn worked(&self, block: BlockId, firings: u32) {
        let now = self.time();
        if let Some(state) = self.blocks.get(block.0 as usize) {
            let began = read(&state.began);
            self.end_wait(state, began);
            let _number = self.keep(block, 0, firings, began, now);
        }
    }

    fn waits(&self, block: BlockId, need: Need) {
        if let Some(state) = self.blocks.get(block.0 as usize) {
            let port = state.number_of(need);
            if read(&state.port) != port {
                let now = self.time();
                self.end_wait(state, now);
                write(&state.slot, self.keep(block, port, 0, now, NEVER));
                write(&state.port, port);
            }
        }
    }
}

impl State {
    fn new(outputs: usize) -> State {
        State {
            outputs,
            began: AtomicU64::new(0),
            port: AtomicU64::new(0),
            slot: AtomicU64::new(0),
        }
    }

    // The number of a port, from 1 on, outputs first. A source waits for its feed at a number that is none of its
    // ports.
    fn number_of(&self, need: Need) -> u64 {
        let before = match need {
            Need::Room(port) => port,
            Need::Items(port) => self.outputs.saturating_add(port),
        };
        (before as u64).saturating_add(1)
    }

    // What a block waits for at the port of this number.
    fn need_of(&self, number: u64) -> Option<Need> {
        let before = (number as usize).checked_sub(1)?;
        match before.checked_sub(self.outputs) {
            Some(port) => Some(Need::Items(port)),
            None => Some(Need::Room(before)),
        }
    }
}

impl Slot {
    fn new() -> Slot {
        Slot {
            block: AtomicU64::new(0),
            port: AtomicU64::new(0),
            firings: AtomicU64::new(0),
            began: AtomicU64::new(0),
            ended: AtomicU64::new(0),
        }
    }
}

fn read(number: &AtomicU64) -> u64 {
    number.load(Ordering::SeqCst)
}

fn write(number: &AtomicU64, value: u64) {
    number.store(value, Ordering::SeqCst);
}
