//! What workers and callers share, and the calls that they make under its lock. Each takes the lock for one call of
//! `Locked`, whose clauses say what it does. No clause here can speak of what lies under a lock.

ghost use Rattle.std.specs.Prelude.{◌≡◌, ◌≤◌, None, IfOk};
ghost use Rattle.threads.specs.Locked.{IsOwn};
ghost use Rattle.call_history.specs.Request.{AreFor, IsReady};

use crate::errands::{Brought, Errand, LockQueue};
use crate::locked::{Locked, Next};
use crate::worker::Worker;
use call_history::{Answer, Request, Response};
use flowgraph::{Block, BlockId};
use plant::{Headway, Watch};
use scheduling::number_set::BITS;
use scheduling::policy::LOOKS;
use scheduling::woken::Woken;
use scheduling::{Gate, Turns};
use std::alloc::{AllocError, Global};
use std::hint::spin_loop;
use std::sync::atomic::Ordering;
use std::sync::{Arc, Mutex, MutexGuard, Wait};
use std::thread::Parker;
use std::time::Clock;

/// What all workers and callers share.
#[derive(Drop)]
pub struct Shared<B: Block, G: Gate + Drop> {
    pub locked: Mutex<Locked<B>>,
    /// Who waits for the lock, in a run whose threads act for all blocks: these hold it long.
    pub queue: LockQueue,
    /// Where each block's worker, or each thread of a pool, sleeps.
    pub parkers: Vec<Parker>,
    /// Where a watcher sleeps between two looks.
    pub watcher: Parker,
    /// The gate that is told of turns, if there is one.
    pub gate: Option<Arc<G, Global>>,
    /// How much a worker does in one turn.
    pub turns: Turns,
}

impl<B: Block, G: Gate + Drop> Shared<B, G> {
    /// The shared state as a run begins: nobody has the lock or waits for it.
    pub fn new(
        locked: Locked<B>,
        parkers: Vec<Parker>,
        gate: Option<Arc<G, Global>>,
        turns: Turns,
    ) -> Shared<B, G>
        ensures turns { result.turns ≡ turns }
        ensures gate { result.gate ≡ gate }
    {
        Shared {
            locked: Mutex::new(locked),
            queue: LockQueue::new(),
            parkers,
            watcher: Parker::new(),
            gate,
            turns,
        }
    }

    /// Wakes threads. The lock is not held.
    pub fn wake(&self, woken: &Woken) {
        for (parkers, word) in self.parkers.chunks(BITS).zip(woken.words()) {
            let mut bits = *word;
            for _ in 0..bits.count_ones() {
                if let Some(parker) = parkers.get(bits.trailing_zeros() as usize) {
                    parker.unpark();
                }
                bits &= bits.wrapping_sub(1);
            }
        }
        if woken.ends {
            self.watcher.unpark();
        }
        if woken.missed {
            self.gate.missed();
        }
    }

    /// How many items all sources were fed, and how many of these they have given by now. It takes the lock, and looks
    /// at each block.
    pub fn headway<R: Wait>(&self, rt: &R) -> Headway {
        self.as_guest(rt).engine.plant().headway()
    }

    /// How far the sources are, once no caller is left; `None` before that. It takes the lock, and looks at each block.
    pub fn headway_alone<R: Wait>(&self, rt: &R) -> Option<Headway> {
        let locked = self.as_guest(rt);
        if 0 < locked.callers {
            return None;
        }
        Some(locked.engine.plant().headway())
    }

    /// Shows `watch` how far the plant is after each pause, until the run is over.
    pub fn show<R: Wait, W: Watch>(&self, rt: &R, watch: &mut W) {
        if let Some(pause) = watch.pause() {
            for _ in rt.forever() {
                if self.as_guest(rt).is_over() {
                    break;
                }
                self.watcher.park_timeout(rt, pause);
                watch.show(self.headway(rt));
            }
        }
        watch.end();
    }

    /// Has the workers leave, each once it has committed what it works on.
    pub fn end<R: Wait>(&self, rt: &R) {
        let mut woken = Woken::new();
        let _ = self.as_guest(rt).end(&mut woken);
        self.wake(&woken);
    }

    /// How many firings the worker of a block claims at most.
    pub fn share<R: Wait>(&self, rt: &R, block: BlockId) -> u32
        ensures some { 1 ≤ result }
        ensures few { result ≤ self.now.turns.most }
    {
        self.locked.lock(rt).share(block, self.turns)
    }

    /// The next turn of a worker.
    pub fn turn<R: Wait>(
        &self,
        rt: &R,
        alloc: Global,
        worker: &mut Worker<B>,
        woken: &mut Woken,
    ) -> Next<B>
        ensures own { IsOwn worker.old.block.0 result }
        ensures brought { worker.new.brought ≡ None }
        ensures block { worker.new.block ≡ worker.old.block }
        ensures most { worker.new.most ≡ worker.old.most }
    {
        self.locked(rt).turn(alloc, worker, woken)
    }

    /// The next turn of a thread of a pool. A thread that brings something back is counted while it waits for the lock,
    /// so that the thread that has it leaves soon.
    pub fn errand<R: Wait + Clock>(
        &self,
        rt: &R,
        alloc: Global,
        thread: usize,
        brought: Option<Brought<B>>,
        woken: &mut Woken,
    ) -> Errand<B> {
        let mut locked = if brought.is_some() {
            self.as_mate(rt)
        } else {
            self.locked(rt)
        };
        locked.errand(rt, alloc, thread, brought, &self.queue, &self.gate, woken)
    }

    // The lock for a thread of a pool that is counted while it waits.
    fn as_mate<R: Wait>(&self, rt: &R) -> MutexGuard<'_, Locked<B>> {
        self.queue.mates.fetch_add(1, Ordering::SeqCst);
        let locked = self.locked(rt);
        self.queue.mates.fetch_sub(1, Ordering::SeqCst);
        locked
    }

    // The lock for a guest, who goes first.
    fn as_guest<R: Wait>(&self, rt: &R) -> MutexGuard<'_, Locked<B>> {
        self.queue.guests.fetch_add(1, Ordering::SeqCst);
        let locked = self.locked.lock(rt);
        self.queue.guests.fetch_sub(1, Ordering::SeqCst);
        locked
    }

    // The lock. It looks for it for some time before it sleeps.
    fn locked<R: Wait>(&self, rt: &R) -> MutexGuard<'_, Locked<B>> {
        for _ in 0..LOOKS {
            if let Some(locked) = self.locked.try_lock() {
                return locked;
            }
            spin_loop();
        }
        self.locked.lock(rt)
    }

    /// The worker of a block sleeps until it is woken.
    pub fn sleep<R: Wait>(&self, rt: &R, block: BlockId) {
        if let Some(parker) = self.parkers.get(block.0 as usize) {
            parker.park(rt);
        }
    }

    /// Makes a call for a desk: the response, and what is noted of it.
    pub fn call<R: Wait>(
        &self,
        rt: &R,
        alloc: Global,
        desk: u32,
        request: Request,
    ) -> Result<(Response, Answer), AllocError>
        requires { IsReady request }
        ensures { IfOk result (λ r. AreFor request r.0 r.1) }
    {
        let mut woken = Woken::new();
        let answer = self.as_guest(rt).call(alloc, desk, request, &mut woken);
        self.wake(&woken);
        answer
    }

    /// A caller asks for the end of the run.
    pub fn stop<R: Wait>(&self, rt: &R) {
        let mut woken = Woken::new();
        self.as_guest(rt).stop(&mut woken);
        self.wake(&woken);
    }

    /// A caller has returned.
    pub fn caller_leaves<R: Wait>(&self, rt: &R) {
        let mut woken = Woken::new();
        self.as_guest(rt).caller_leaves(&mut woken);
        self.wake(&woken);
    }
}
