//! The turn of a thread of a pool, under the lock: it commits what it did, steps light blocks, and claims firings of a
//! heavy one.

ghost use Rattle.std.specs.Prelude.{Some};
ghost use Rattle.std.specs.Option.{option_map};
ghost use Rattle.threads.specs.Errands.{HasErrand, HasRun, HasStep, IsStepped};
ghost use Rattle.threads.specs.Locked.{HasBrought};

use crate::locked::Locked;
use claimed_work::{Job, Worked};
use flowgraph::{Block, BlockId};
use plant::{Claim, Step};
use scheduling::Gate;
use scheduling::habit::NextStep;
use scheduling::policy::STEPS;
use scheduling::stopwatch::{nanos_since, now};
use scheduling::woken::Woken;
use std::alloc::Global;
use std::sync::atomic::{AtomicU64, Ordering};
use std::time::Clock;

/// What a thread of a pool has to do next.
#[derive(Drop)]
pub enum Errand<B: Block> {
    /// The work of a claim. The claim took so many nanoseconds.
    Work(Job<B>, u64),
    /// To take its turn again.
    Again,
    /// To sleep until it is called.
    Sleep,
    /// To leave: the run ends.
    Leave,
}

/// What a thread brings back: what it did, and how many nanoseconds its claim and its work took.
#[derive(Drop)]
pub struct Brought<B: Block> {
    pub worked: Worked<B>,
    pub held: u64,
    pub nanos: u64,
}

/// Who waits for the lock.
#[derive(Drop)]
pub struct LockQueue {
    /// How many threads of the pool have something to bring back.
    pub mates: AtomicU64,
    /// How many others there are.
    pub guests: AtomicU64,
}

impl LockQueue {
    /// Nobody.
    pub fn new() -> LockQueue {
        LockQueue {
            mates: AtomicU64::new(0),
            guests: AtomicU64::new(0),
        }
    }

    /// Whether a guest waits.
    pub fn has_guest(&self) -> bool {
        self.guests.load(Ordering::SeqCst) != 0
    }

    /// Whether a thread of the pool does.
    pub fn has_mate(&self) -> bool {
        self.mates.load(Ordering::SeqCst) != 0
    }
}

impl<B: Block> Locked<B> {
    /// The next turn of a thread of the pool.
    pub fn errand<R: Clock, G: Gate>(
        &mut self,
        rt: &R,
        alloc: Global,
        thread: usize,
        brought: Option<Brought<B>>,
        queue: &LockQueue,
        gate: &G,
        woken: &mut Woken,
    ) -> Errand<B>
        ensures { HasRun B.meaning B.eq (option_map (λ b. b.worked) brought) self.old self.new result }
    {
        self.pool.is_here(thread);
        let from = self.bring(rt, brought, woken);
        self.go_on(rt, alloc, thread, from, queue, gate, woken)
    }

    // Step after step, until the turn ends.
    fn go_on<R: Clock, G: Gate>(
        &mut self,
        rt: &R,
        alloc: Global,
        thread: usize,
        from: usize,
        queue: &LockQueue,
        gate: &G,
        woken: &mut Woken,
    ) -> Errand<B>
        ensures { HasErrand B.meaning self.old.engine self.new.engine self.new.ends result }
    {
        'steps: for _ in 0..STEPS {
            if let Some(errand) = self.act(rt, alloc, thread, from, queue, gate, woken) {
                return errand;
            }
        }
        Errand::Again
    }

    // One step, or the end of the turn.
    fn act<R: Clock, G: Gate>(
        &mut self,
        rt: &R,
        alloc: Global,
        thread: usize,
        from: usize,
        queue: &LockQueue,
        gate: &G,
        woken: &mut Woken,
    ) -> Option<Errand<B>>
        ensures { HasStep B.meaning self.old.engine self.new.engine self.new.ends result }
    {
        if self.ends {
            return Some(Errand::Leave);
        }
        if queue.has_guest() {
            return Some(Errand::Again);
        }
        let light = self.pool.next_light();
        if light.is_none() || queue.has_mate() {
            if let Some(block) = self.pool.next_heavy(from) {
                return self.claim_heavy(rt, alloc, block, gate, woken);
            }
        }
        match light {
            Some(block) => {
                let next = self.pool.begins(block);
                self.step_light(rt, alloc, block, next, gate, woken);
                None
            }
            None => Some(self.rest(thread, woken)),
        }
    }

    // Commits what a thread did, and returns the number behind that of its block.
    fn bring<R: Clock>(&mut self, rt: &R, brought: Option<Brought<B>>, woken: &mut Woken) -> usize
        ensures { HasBrought B.meaning B.eq (option_map (λ b. b.worked) brought) self.old.engine self.new.engine }
    {
        let Some(brought) = brought else {
            return 0;
        };
        let Brought {
            worked,
            held,
            nanos,
        } = brought;
        let block = worked.block();
        let start = now(rt);
        let answer = self.engine.commit(worked);
        self.pool.comes(block);
        match answer {
            Ok(did) => {
                let held = held.saturating_add(nanos_since(rt, start));
                self.pool.worked(block, did.0, nanos, held);
            }
            // The plant does not take the work: then the run ends, and the plant is compared.
            Err(_) => {
                let _ = self.end(woken);
            }
        }
        (block.0 as usize).saturating_add(1)
    }

    // Steps a block under the lock.
    fn step_light<R: Clock, G: Gate>(
        &mut self,
        rt: &R,
        alloc: Global,
        block: BlockId,
        next: NextStep,
        gate: &G,
        woken: &mut Woken,
    )
        ensures { IsStepped B.meaning block.0 next.most self.old.engine self.new.engine }
    {
        gate.begins(block);
        let start = if next.is_timed { now(rt) } else { None };
        match self.engine.step(alloc, block, next.most) {
            Ok(Step::Did(firings)) => {
                self.pool.went_on(block);
                if next.is_timed {
                    self.pool.stepped(block, firings, nanos_since(rt, start));
                }
                gate.worked(block, firings);
            }
            Ok(Step::Done) => self.pool.leaves(block),
            Ok(Step::Waiting(need)) => {
                self.pool.waits(block);
                gate.waits(block, need);
            }
            Ok(Step::Busy) => self.pool.waits(block),
            Err(_) => {
                self.starved = true;
                let _ = self.end(woken);
            }
        }
    }

    // Claims firings of a block for work outside of the lock, if it can act.
    fn claim_heavy<R: Clock, G: Gate>(
        &mut self,
        rt: &R,
        alloc: Global,
        block: BlockId,
        gate: &G,
        woken: &mut Woken,
    ) -> Option<Errand<B>>
        ensures { HasStep B.meaning self.old.engine self.new.engine self.new.ends result }
    {
        let start = now(rt);
        let share = self.pool.share(block);
        match self.engine.claim(alloc, block, share) {
            Ok(Claim::Claimed(job)) => {
                self.pool.goes(block, woken);
                Some(Errand::Work(job, nanos_since(rt, start)))
            }
            Ok(Claim::Waiting(need)) => {
                self.pool.waits(block);
                gate.waits(block, need);
                None
            }
            Ok(Claim::Busy) => {
                self.pool.waits(block);
                None
            }
            Ok(Claim::Done) => {
                self.pool.leaves(block);
                None
            }
            Err(_) => {
                self.starved = true;
                let _ = self.end(woken);
                Some(Errand::Leave)
            }
        }
    }

    // No block that nobody works for can act. Once nobody works and no caller is left, the run is over, or a block was
    // not marked though it can act.
    fn rest(&mut self, thread: usize, woken: &mut Woken) -> Errand<B>
        ensures errand { HasStep B.meaning self.old.engine self.new.engine self.new.ends (Some result) }
    {
        if 0 < self.callers || self.pool.some_work() {
            self.pool.sleeps(thread);
            return Errand::Sleep;
        }
        let plant = self.engine.plant();
        if plant.all_done() || plant.quiet() {
            let _ = self.end(woken);
            return Errand::Leave;
        }
        woken.missed = true;
        self.pool.all_ready();
        Errand::Again
    }
}
