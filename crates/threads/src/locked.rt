//! What lies under the lock: the plant, and what its workers do.

ghost use Rattle.std.specs.Prelude.{◌≡◌, ◌≤◌, ◌-◌, true, false, None};
ghost use Rattle.threads.specs.declared.locked.Next.TheVariants as next;
ghost use Rattle.threads.specs.Locked.{HasBrought, HasNext, HasTurned, IsOwn};

use crate::worker::Worker;
use call_history::Engine;
use claimed_work::{Job, Worked};
use flowgraph::{Block, BlockId};
use plant::{Claim, Need};
use scheduling::pool::Pool;
use scheduling::waiting::Waiting;
use scheduling::woken::Woken;
use scheduling::{Turns, share_of};
use std::alloc::Global;

/// What a worker has to do next.
#[derive(Drop)]
pub enum Next<B: Block> {
    /// The work of a claim.
    Work(Job<B>),
    /// To sleep until it is woken. Its block waits for this.
    Sleep(Need),
    /// To leave: its block is done, or the run ends.
    Leave,
}

/// The plant, and what its workers do.
#[derive(Drop)]
pub struct Locked<B: Block> {
    pub engine: Engine<B>,
    /// What the worker of each block does, if each has one.
    pub waiting: Waiting,
    /// What a pool of threads does, if it acts for all blocks.
    pub pool: Pool,
    /// How many callers have not returned.
    pub callers: usize,
    /// Whether a caller asked for the end of the run.
    pub asked: bool,
    /// Whether the workers are to leave.
    pub ends: bool,
    /// Whether a claim was out of memory.
    pub starved: bool,
}

impl<B: Block> Locked<B> {
    /// All workers work, and so many callers have not returned.
    pub fn new(engine: Engine<B>, waiting: Waiting, pool: Pool, callers: usize) -> Locked<B>
        ensures { result ≡ record {
          engine = engine;
          waiting = waiting;
          pool = pool;
          callers = callers;
          asked = false;
          ends = false;
          starved = false;
        } }
    {
        Locked {
            engine,
            waiting,
            pool,
            callers,
            asked: false,
            ends: false,
            starved: false,
        }
    }

    /// How many firings the worker of a block claims at most.
    pub fn share(&self, block: BlockId, turns: Turns) -> u32
        ensures some { 1 ≤ result }
        ensures few { result ≤ turns.most }
    {
        let graph = self.engine.plant().graph();
        if (block.0 as usize) < graph.len() {
            share_of(graph, block, turns)
        } else {
            turns.most()
        }
    }

    /// The next turn of a worker: commits what it has done, and claims its next firings.
    pub fn turn(&mut self, alloc: Global, worker: &mut Worker<B>, woken: &mut Woken) -> Next<B>
        ensures turned { HasTurned B.meaning B.eq worker.old.block.0 worker.old.most worker.old.brought self.old
            self.new result }
        ensures own { IsOwn worker.old.block.0 result }
        ensures brought { worker.new.brought ≡ None }
        ensures block { worker.new.block ≡ worker.old.block }
        ensures most { worker.new.most ≡ worker.old.most }
        ensures others { self.new ≡ record self.old {
          engine = self.new.engine;
          waiting = self.new.waiting;
          pool = self.new.pool;
          ends = self.new.ends;
          starved = self.new.starved;
        } }
    {
        self.waiting.works(worker.block);
        self.take_back(worker.brought.take(), woken);
        self.claim(alloc, worker.block, worker.most, woken)
    }

    /// Whether nobody works or will work any more.
    pub fn is_over(&self) -> bool {
        self.ends || (self.callers == 0 && self.waiting.all_rest())
    }

    /// A caller has returned. Once none is left, the run ends when all rest; a thread of a pool finds that.
    pub fn caller_leaves(&mut self, woken: &mut Woken)
        ensures { self.new ≡ record self.old {
          callers = self.old.callers - 1;
          waiting = self.new.waiting;
          pool = self.new.pool;
          ends = self.new.ends;
        } }
    {
        self.callers = self.callers.saturating_sub(1);
        if self.callers == 0 {
            self.pool.call(woken);
        }
        self.look(woken);
    }

    /// The workers are to leave, each once it has committed what it works on.
    pub fn end(&mut self, woken: &mut Woken) -> Next<B>
        ensures others { self.new ≡ record self.old { waiting = self.new.waiting; pool = self.new.pool; ends = true } }
        ensures leaves { result ≡ next.Leave }
    {
        self.ends = true;
        woken.ends = true;
        self.waiting.wake_all(woken);
        self.pool.wake_all(woken);
        Next::Leave
    }

    // Commits what a worker did, and wakes who waits for it. Work that is none of the plant's ends the run.
    fn take_back(&mut self, brought: Option<Worked<B>>, woken: &mut Woken)
        ensures committed { HasBrought B.meaning B.eq brought self.old.engine self.new.engine }
        ensures others { self.new ≡ record self.old {
          engine = self.new.engine;
          waiting = self.new.waiting;
          pool = self.new.pool;
          ends = self.new.ends;
        } }
    {
        let Some(worked) = brought else {
            return;
        };
        let block = worked.block();
        match self.engine.commit(worked) {
            Ok(did) => {
                let graph = self.engine.plant().graph();
                if (block.0 as usize) < graph.len() {
                    self.waiting.commits(graph, block, did.0, woken);
                }
            }
            Err(_) => {
                let _ = self.end(woken);
            }
        }
    }

    // Claims the next firings of a block, unless the run ends.
    fn claim(&mut self, alloc: Global, block: BlockId, most: u32, woken: &mut Woken) -> Next<B>
        requires { 1 ≤ most }
        ensures claimed { HasNext B.meaning block.0 most self.old self.new result }
        ensures others { self.new ≡ record self.old {
          engine = self.new.engine;
          waiting = self.new.waiting;
          pool = self.new.pool;
          ends = self.new.ends;
          starved = self.new.starved;
        } }
    {
        if self.ends {
            return Next::Leave;
        }
        match self.engine.claim(alloc, block, most) {
            Ok(Claim::Claimed(job)) => Next::Work(job),
            Ok(Claim::Waiting(need)) => self.sleep(block, need, woken),
            Ok(Claim::Done) => self.leave(block, woken),
            // Nobody else claims for this block.
            Ok(Claim::Busy) => self.end(woken),
            Err(_) => {
                self.starved = true;
                self.end(woken)
            }
        }
    }

    fn sleep(&mut self, block: BlockId, need: Need, woken: &mut Woken) -> Next<B>
        ensures others { self.new ≡ record self.old {
          waiting = self.new.waiting;
          pool = self.new.pool;
          ends = self.new.ends;
        } }
        ensures sleeps { result ≡ next.Sleep need }
    {
        let graph = self.engine.plant().graph();
        if (block.0 as usize) < graph.len() {
            self.waiting.waits(graph, block, need, woken);
        }
        self.look(woken);
        Next::Sleep(need)
    }

    fn leave(&mut self, block: BlockId, woken: &mut Woken) -> Next<B>
        ensures others { self.new ≡ record self.old {
          waiting = self.new.waiting;
          pool = self.new.pool;
          ends = self.new.ends;
        } }
        ensures leaves { result ≡ next.Leave }
    {
        let graph = self.engine.plant().graph();
        if (block.0 as usize) < graph.len() {
            self.waiting.leaves(graph, block, woken);
        }
        self.look(woken);
        Next::Leave
    }

    // Once all rest and no caller is left the run is over, or a worker slept though it could act: then all look again.
    fn look(&mut self, woken: &mut Woken)
        ensures { self.new ≡ record self.old {
          waiting = self.new.waiting;
          pool = self.new.pool;
          ends = self.new.ends;
        } }
    {
        if 0 < self.callers || !self.waiting.all_rest() {
            return;
        }
        let plant = self.engine.plant();
        if plant.all_done() || plant.quiet() {
            let _ = self.end(woken);
        } else {
            woken.missed = true;
            self.waiting.wake_all(woken);
        }
    }
}
