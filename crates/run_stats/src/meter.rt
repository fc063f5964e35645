//! A gate that measures.

use crate::figures::{Figures, Stats, Waited};
use firing_rules::Need;
use flowgraph::{Block, BlockId, Valid};
use scheduling::Gate;
use std::alloc::{AllocError, Global};
use std::io;
use std::sync::atomic::{AtomicU64, Ordering};
use std::time::{Clock, CpuClock, Duration};

/// The gate that measures the turns and the waits of each block. A block's time at work is the processor time that its
/// threads take in its turns, so other work on the machine makes no block slow. The gate takes its memory before the
/// run, and locks nothing. If a clock cannot be read, times are measured as 0. A wait that no turn ended is counted,
/// but its time is not.
#[derive(Drop)]
pub struct Meter<R> {
    clock: R,
    blocks: Vec<Counters>,
    // When the first turn began; the greatest number before.
    began: AtomicU64,
    // When the last turn ended; 0 before.
    ended: AtomicU64,
}

// The counters of a block. At most one thread at a time acts for it.
#[derive(Drop)]
struct Counters {
    firings: AtomicU64,
    turns: AtomicU64,
    nanos: AtomicU64,
    lasted: AtomicU64,
    // When its turn began.
    began: AtomicU64,
    // How much processor time the thread of its turn had taken by then.
    used: AtomicU64,
    // The port at which it waits, counted from 1, outputs first; 0 for none.
    port: AtomicU64,
    // When the wait began.
    since: AtomicU64,
    inputs: Vec<Waits>,
    outputs: Vec<Waits>,
}

// The waits at a port.
#[derive(Drop)]
struct Waits {
    count: AtomicU64,
    nanos: AtomicU64,
}

impl<R: Drop> Meter<R> {
    /// A meter for the blocks of a graph. It has measured nothing.
    pub fn new<B: Block>(
        alloc: Global,
        clock: R,
        graph: &Valid<B>,
    ) -> Result<Meter<R>, AllocError> {
        let mut blocks = Vec::with_capacity(alloc, graph.len())?;
        for block in 0..graph.len() {
            let block = BlockId(block as u32);
            blocks.push(Counters::new(alloc, graph.inputs(block).len(), graph.outputs(block))?)?;
        }
        Ok(Meter {
            clock,
            blocks,
            began: AtomicU64::new(u64::MAX),
            ended: AtomicU64::new(0),
        })
    }

    /// What it has measured so far.
    pub fn stats(&self, alloc: Global) -> Result<Stats, AllocError> {
        let mut blocks = Vec::with_capacity(alloc, self.blocks.len())?;
        for counters in &self.blocks {
            blocks.push(counters.figures(alloc)?)?;
        }
        Ok(Stats {
            nanos: read(&self.ended).saturating_sub(read(&self.began)),
            blocks,
        })
    }
}

impl<R: Clock + CpuClock + Drop> Meter<R> {
    fn time(&self) -> u64 {
        nanos_of(self.clock.monotonic())
    }

    // How much processor time the calling thread has taken, in nanoseconds.
    fn used(&self) -> u64 {
        nanos_of(self.clock.thread_cpu_time())
    }
}

// What a clock shows, in nanoseconds; 0 if it cannot be read.
fn nanos_of(shown: io::Result<Duration>) -> u64 {
    match shown {
        Ok(time) => u64::try_from(time.as_nanos()).unwrap_or(u64::MAX),
        Err(_) => 0,
    }
}

impl<R: Clock + CpuClock + Drop> Gate for Meter<R> {
    fn pass(&self, _block: BlockId, _firing: u64) {}

    // (the processor's clock is read farther from the work than the other, so that reading it does not count as a lack
    // of a processor)
    fn begins(&self, block: BlockId) {
        let used = self.used();
        let now = self.time();
        if now < read(&self.began) {
            self.began.fetch_min(now, Ordering::SeqCst);
        }
        if let Some(counters) = self.blocks.get(block.0 as usize) {
            write(&counters.began, now);
            write(&counters.used, used);
        }
    }

    // The turn began on this thread.
    fn worked(&self, block: BlockId, firings: u32) {
        let now = self.time();
        let used = self.used();
        if let Some(counters) = self.blocks.get(block.0 as usize) {
            counters.turn(firings, now, used);
        }
        self.ended.fetch_max(now, Ordering::SeqCst);
    }

    fn waits(&self, block: BlockId, need: Need) {
        if let Some(counters) = self.blocks.get(block.0 as usize) {
            counters.wait(need, self.time());
        }
    }
}

impl Counters {
    fn new(alloc: Global, inputs: usize, outputs: usize) -> Result<Counters, AllocError> {
        Ok(Counters {
            firings: AtomicU64::new(0),
            turns: AtomicU64::new(0),
            nanos: AtomicU64::new(0),
            lasted: AtomicU64::new(0),
            began: AtomicU64::new(0),
            used: AtomicU64::new(0),
            port: AtomicU64::new(0),
            since: AtomicU64::new(0),
            inputs: no_waits(alloc, inputs)?,
            outputs: no_waits(alloc, outputs)?,
        })
    }

    // A turn ends, and its thread has taken so much processor time by now. When the turn began, it ended a wait too.
    fn turn(&self, firings: u32, now: u64, used: u64) {
        let began = read(&self.began);
        self.ends_wait(began);
        add(&self.firings, u64::from(firings));
        add(&self.turns, 1);
        add(&self.nanos, used.saturating_sub(read(&self.used)));
        add(&self.lasted, now.saturating_sub(began));
    }

    // A wait begins, unless the block is already in it.
    fn wait(&self, need: Need, now: u64) {
        let port = self.number_of(need);
        if read(&self.port) == port {
            return;
        }
        self.ends_wait(now);
        write(&self.port, port);
        write(&self.since, now);
        if let Some(waits) = self.waits_at(port) {
            add(&waits.count, 1);
        }
    }

    fn ends_wait(&self, now: u64) {
        let port = read(&self.port);
        if let Some(waits) = self.waits_at(port) {
            add(&waits.nanos, now.saturating_sub(read(&self.since)));
        }
        write(&self.port, 0);
    }

    // The number of a port, from 1 on, outputs first. A source waits for its feed at a number that is none of its
    // ports.
    fn number_of(&self, need: Need) -> u64 {
        let before = match need {
            Need::Room(port) => port,
            Need::Items(port) => self.outputs.len().saturating_add(port),
        };
        (before as u64).saturating_add(1)
    }

    // The waits at the port of a number.
    fn waits_at(&self, number: u64) -> Option<&Waits> {
        let before = (number as usize).checked_sub(1)?;
        match before.checked_sub(self.outputs.len()) {
            Some(port) => self.inputs.get(port),
            None => self.outputs.get(before),
        }
    }

    fn figures(&self, alloc: Global) -> Result<Figures, AllocError> {
        Ok(Figures {
            firings: read(&self.firings),
            turns: read(&self.turns),
            nanos: read(&self.nanos),
            lasted: read(&self.lasted),
            inputs: waited(alloc, &self.inputs)?,
            outputs: waited(alloc, &self.outputs)?,
        })
    }
}

// So many ports at which nothing waited.
fn no_waits(alloc: Global, count: usize) -> Result<Vec<Waits>, AllocError> {
    let mut waits = Vec::with_capacity(alloc, count)?;
    for _ in 0..count {
        waits.push(Waits {
            count: AtomicU64::new(0),
            nanos: AtomicU64::new(0),
        })?;
    }
    Ok(waits)
}

// The waits at each port, as plain numbers.
fn waited(alloc: Global, waits: &[Waits]) -> Result<Vec<Waited>, AllocError> {
    let mut waited = Vec::with_capacity(alloc, waits.len())?;
    for at_port in waits {
        waited.push(Waited {
            count: read(&at_port.count),
            nanos: read(&at_port.nanos),
        })?;
    }
    Ok(waited)
}

fn read(number: &AtomicU64) -> u64 {
    number.load(Ordering::SeqCst)
}

fn write(number: &AtomicU64, value: u64) {
    number.store(value, Ordering::SeqCst);
}

fn add(number: &AtomicU64, more: u64) {
    number.fetch_add(more, Ordering::SeqCst);
}
