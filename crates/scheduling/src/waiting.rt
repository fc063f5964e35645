//! Which workers work, which wait and for what, and whom the progress of a block concerns. It is policy: nothing that a
//! sink shows depends on it. A lost wake-up costs only time, since the last worker to rest looks at the whole graph.

ghost use Rattle.std.specs.Prelude.{◌<◌, ◌≤◌, length};

use crate::turns::Turns;
use crate::woken::Woken;
use block_trait::Pace;
use firing_rules::Need;
use flowgraph::{Block, BlockId, Valid};
use std::alloc::{AllocError, Global};

// A sleeper is woken for this part of the buffer that it waits at, or for less once the worker at the other end rests
// too.
const PART: u32 = 2;

// A claim takes no more than such a part of a buffer.
const HALVES: u32 = 2;

// What a worker does.
#[derive(Clone, Copy, Debug)]
enum WorkerState {
    Works,
    // It waits for items or room, of which so many have come since.
    Waits(Need, u64),
    Left,
}

// How far a block went on: by so many firings, and whether its worker rests then.
#[derive(Clone, Copy, Debug)]
struct Advance {
    firings: u32,
    rests: bool,
}

/// What the worker of each block does.
#[derive(Drop)]
pub struct Waiting {
    states: Vec<WorkerState>,
    working: usize,
}

impl Waiting {
    /// All work.
    pub fn new(alloc: Global, blocks: usize) -> Result<Waiting, AllocError> {
        Ok(Waiting {
            states: Vec::from_elem(alloc, WorkerState::Works, blocks)?,
            working: blocks,
        })
    }

    /// No workers: threads that act have no block of their own.
    pub fn none(alloc: Global) -> Waiting {
        Waiting {
            states: Vec::new(alloc),
            working: 1,
        }
    }

    /// Whether none works.
    pub fn all_rest(&self) -> bool {
        self.working == 0
    }

    /// The worker of a block works.
    pub fn works(&mut self, block: BlockId) {
        if let Some(state) = self.states.get_mut(block.0 as usize) {
            if let WorkerState::Waits(..) = *state {
                *state = WorkerState::Works;
                self.working = self.working.saturating_add(1);
            }
        }
    }

    /// A block has fired so often. Wakes those that wait at it, if that was enough for them.
    pub fn commits<B: Block>(
        &mut self,
        graph: &Valid<B>,
        block: BlockId,
        firings: u32,
        woken: &mut Woken,
    )
        requires { block.0 < length graph.now.blocks }
    {
        let headway = Advance {
            firings,
            rests: false,
        };
        self.tell(graph, block, headway, woken);
    }

    /// The worker of a block sleeps. Wakes those that wait at it for whatever came.
    pub fn waits<B: Block>(
        &mut self,
        graph: &Valid<B>,
        block: BlockId,
        need: Need,
        woken: &mut Woken,
    )
        requires { block.0 < length graph.now.blocks }
    {
        self.rests(block, WorkerState::Waits(need, 0));
        let headway = Advance {
            firings: 0,
            rests: true,
        };
        self.tell(graph, block, headway, woken);
    }

    /// The worker of a block leaves, since its block is done. Wakes its neighbours, whatever they wait for: a writer
    /// may end now too.
    pub fn leaves<B: Block>(&mut self, graph: &Valid<B>, block: BlockId, woken: &mut Woken)
        requires { block.0 < length graph.now.blocks }
    {
        self.rests(block, WorkerState::Left);
        for port in 0..graph.outputs(block) {
            for connection in graph.readers(block, port) {
                self.wake(connection.to, woken);
            }
        }
        for input in graph.inputs(block) {
            self.wake(input.connection.from, woken);
        }
    }

    /// All that sleep are woken.
    pub fn wake_all(&mut self, woken: &mut Woken) {
        for (block, state) in self.states.iter_mut().enumerate() {
            if let WorkerState::Waits(..) = *state {
                *state = WorkerState::Works;
                self.working = self.working.saturating_add(1);
                woken.add(block);
            }
        }
    }

    // A worker that worked does so no longer.
    fn rests(&mut self, block: BlockId, next: WorkerState) {
        if let Some(state) = self.states.get_mut(block.0 as usize) {
            if let WorkerState::Works = *state {
                *state = next;
                self.working = self.working.saturating_sub(1);
            }
        }
    }

    /// A worker that sleeps is woken.
    pub fn wake(&mut self, block: BlockId, woken: &mut Woken) {
        if let Some(state) = self.states.get_mut(block.0 as usize) {
            if let WorkerState::Waits(..) = *state {
                *state = WorkerState::Works;
                self.working = self.working.saturating_add(1);
                woken.add(block.0 as usize);
            }
        }
    }

    // Tells those around a block how far it went on.
    fn tell<B: Block>(
        &mut self,
        graph: &Valid<B>,
        block: BlockId,
        headway: Advance,
        woken: &mut Woken,
    )
        requires { block.0 < length graph.now.blocks }
    {
        let part = part_of(graph, block);
        let firings = base_firings(graph, block, headway.firings);
        let given = firings.saturating_mul(given_in(graph.pace(block, 0)));
        for port in 0..graph.outputs(block) {
            for connection in graph.readers(block, port) {
                let need = Need::Items(connection.in_port);
                self.comes(connection.to, need, given, part, headway.rests, woken);
            }
        }
        for (port, input) in graph.inputs(block).iter().enumerate() {
            let writer = input.connection.from;
            let need = Need::Room(input.connection.out_port);
            let taken = firings.saturating_mul(taken_in(graph.pace(block, port)));
            self.comes(
                writer,
                need,
                taken,
                part_of(graph, writer),
                headway.rests,
                woken,
            );
        }
    }

    // So much of what a worker may wait for has come.
    fn comes(
        &mut self,
        block: BlockId,
        need: Need,
        items: u64,
        part: u64,
        is_all: bool,
        woken: &mut Woken,
    ) {
        let Some(state) = self.states.get_mut(block.0 as usize) else {
            return;
        };
        let WorkerState::Waits(own, came) = *state else {
            return;
        };
        if own != need {
            return;
        }
        let came = came.saturating_add(items);
        *state = WorkerState::Waits(own, came);
        // (do not wake a waiter for zero items, or two waiters wake each other forever)
        if 0 < came && (is_all || part <= came) {
            self.wake(block, woken);
        }
    }
}

/// How many firings a worker claims at most: no more than a turn has, and no more than half of a buffer that its block
/// fills or empties, if that half is a firing or more. So the worker at the other end finds something to do meanwhile.
pub fn share_of<B: Block>(graph: &Valid<B>, block: BlockId, turns: Turns) -> u32
    requires { block.0 < length graph.now.blocks }
    ensures some { 1 ≤ result }
    ensures few { result ≤ turns.most }
{
    let mut share = u64::from(turns.most());
    if 0 < graph.outputs(block) {
        share = share.min(firings_in(graph, block, block, given_in(graph.pace(block, 0))));
    }
    for (port, input) in graph.inputs(block).iter().enumerate() {
        let taken = taken_in(graph.pace(block, port));
        share = share.min(firings_in(graph, block, input.connection.from, taken));
    }
    u32::try_from(share).unwrap_or(1).clamp(1, turns.most())
}

// How many firings of a block, each of so many base items, half of a buffer of a writer holds.
fn firings_in<B: Block>(graph: &Valid<B>, block: BlockId, writer: BlockId, items: u64) -> u64
    requires { block.0 < length graph.now.blocks }
{
    let firing = base_firings(graph, block, 1).saturating_mul(items);
    if firing == 0 || graph.len() <= writer.0 as usize {
        return 1;
    }
    u64::from(graph.options(writer).capacity / HALVES) / firing
}

// The items for which those that wait at a block are woken, as a part of its buffers. It goes by the capacity that was
// asked for.
fn part_of<B: Block>(graph: &Valid<B>, block: BlockId) -> u64 {
    if (block.0 as usize) < graph.len() {
        u64::from(graph.options(block).capacity / PART)
    } else {
        0
    }
}

// How many base firings these are.
fn base_firings<B: Block>(graph: &Valid<B>, block: BlockId, firings: u32) -> u64
    requires { block.0 < length graph.now.blocks }
{
    u64::from(firings).saturating_mul(u64::from(graph.options(block).multiple))
}

// How many items a base firing gives, and takes.
fn given_in(pace: Pace) -> u64 {
    match pace {
        Pace::Rate(_, given) | Pace::Turns(_, given, _) | Pace::Placed(_, given) => given,
        Pace::Skip(_) | Pace::Delay(_) => 1,
    }
}

fn taken_in(pace: Pace) -> u64 {
    match pace {
        Pace::Rate(taken, _) | Pace::Turns(taken, _, _) | Pace::Placed(taken, _) => taken,
        Pace::Skip(_) | Pace::Delay(_) => 1,
    }
}
