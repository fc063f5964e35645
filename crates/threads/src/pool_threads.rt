//! The threads of a pool: the first, which starts the others, and these.

use crate::errands::{Brought, Errand};
use crate::pauses::Pauses;
use crate::shared::Shared;
use claimed_work::Job;
use flowgraph::Block;
use plant::Watch;
use scheduling::Gate;
use scheduling::policy::{YIELDS, processors};
use scheduling::stopwatch::{nanos_since, now};
use scheduling::woken::Woken;
use std::alloc::Global;
use std::hint::spin_loop;
use std::sync::{Arc, Wait};
use std::thread;
use std::thread::{JoinHandle, Scope, Threads};
use std::time::{Clock, Duration};

// The number of the first thread.
const FIRST: usize = 0;

/// Turn after turn of the first thread of a pool until the run ends. It starts the others as they are wanted, joins
/// them, and shows `watch` how far the plant is each time that its pause is over. Where no thread can be started the
/// run goes on with those that are there.
pub fn lead<
    B: Block + Send + Sync + 'static,
    G: Gate + Drop + Send + Sync + 'static,
    R: Threads + Wait + Clock + Copy + Send + 'static,
    W: Watch,
>(rt: R, alloc: Global, shared: &Arc<Shared<B, G>, Global>, watch: &mut W)
where
    B::Places: Send + Sync + 'static,
{
    let mut pauses = Pauses::of(&rt, watch);
    let mut mates = Mates::new(alloc);
    let mut brought = None;
    for _ in rt.forever() {
        let turned = shared.round(&rt, alloc, FIRST, brought, pauses.length());
        brought = turned.brought;
        if turned.leaves {
            break;
        }
        if turned.wants {
            mates.one_more(rt, alloc, shared);
        }
        if pauses.end(&rt) {
            watch.show(shared.headway(&rt));
        }
    }
    mates.join(&rt);
}

/// Turn after turn of the first thread of a pool until the run ends. The others are threads of the scope, which joins
/// them. `watch` is shown how far the plant is once no caller is left.
pub fn lead_in_scope<
    's,
    'r: 's,
    'h: 's,
    E,
    B: Block + Send + Sync + 's + 'h,
    G: Gate + Drop + Send + Sync + 's + 'h,
    R: Threads + Wait + Clock + Sync + 's + 'r,
    W: Watch,
>(rt: &'r R, alloc: Global, scope: &Scope<'s, E>, shared: &'h Shared<B, G>, watch: &mut W)
where
    B::Places: Send + Sync,
{
    let mut pauses = Pauses::of(rt, watch);
    let mut places = Places::new();
    let mut brought = None;
    for _ in rt.forever() {
        let turned = shared.round(rt, alloc, FIRST, brought, pauses.length());
        brought = turned.brought;
        if turned.leaves {
            return;
        }
        if turned.wants {
            if let Some(number) = places.next(rt, shared.parkers.len()) {
                let mate = scope.spawn(move || follow(rt, alloc, shared, number));
                places.came(number, mate.is_ok());
            }
        }
        if pauses.end(rt) {
            if let Some(headway) = shared.headway_alone(rt) {
                watch.show(headway);
            }
        }
    }
}

// The places of a pool's threads beside the first one: up to one a processor and one a block.
#[derive(Clone, Copy)]
struct Places {
    taken: usize,
    // How many threads there may be in all, once that was asked for.
    limit: Option<usize>,
}

impl Places {
    fn new() -> Places {
        Places {
            taken: 0,
            limit: None,
        }
    }

    // The number of the next thread, where there may be one more.
    fn next<R: Threads>(&mut self, rt: &R, blocks: usize) -> Option<usize> {
        let limit = match self.limit {
            Some(limit) => limit,
            None => processors(rt).min(blocks),
        };
        self.limit = Some(limit);
        let number = self.taken.saturating_add(1);
        if limit <= number {
            return None;
        }
        Some(number)
    }

    // The thread of this number is there, or could not be started; then it is not tried again.
    fn came(&mut self, number: usize, is_there: bool) {
        if is_there {
            self.taken = number;
        } else {
            self.limit = Some(number);
        }
    }
}

// The threads that the first one started.
#[derive(Drop)]
struct Mates {
    handles: Vec<JoinHandle<()>>,
    places: Places,
}

impl Mates {
    fn new(alloc: Global) -> Mates {
        Mates {
            handles: Vec::new(alloc),
            places: Places::new(),
        }
    }

    // Starts one more, where there is a place, memory and a thread for it.
    fn one_more<
        B: Block + Send + Sync + 'static,
        G: Gate + Drop + Send + Sync + 'static,
        R: Threads + Wait + Clock + Copy + Send + 'static,
    >(&mut self, rt: R, alloc: Global, shared: &Arc<Shared<B, G>, Global>)
    where
        B::Places: Send + Sync + 'static,
    {
        let Some(number) = self.places.next(&rt, shared.parkers.len()) else {
            return;
        };
        if self.handles.reserve(1).is_err() {
            return;
        }
        match start_mate(rt, alloc, shared, number) {
            Some(mate) => {
                self.handles.push_reserved(mate);
                self.places.came(number, true);
            }
            None => self.places.came(number, false),
        }
    }

    fn join<R: Threads + Wait>(self, rt: &R) {
        for mate in self.handles {
            mate.join(rt);
        }
    }
}

fn start_mate<
    B: Block + Send + Sync + 'static,
    G: Gate + Drop + Send + Sync + 'static,
    R: Threads + Wait + Clock + Copy + Send + 'static,
>(rt: R, alloc: Global, shared: &Arc<Shared<B, G>, Global>, number: usize) -> Option<JoinHandle<()>>
where
    B::Places: Send + Sync + 'static,
{
    let shared = Arc::try_clone(shared).ok()?;
    thread::spawn(&rt, move || follow(&rt, alloc, &*shared, number)).ok()
}

// Turn after turn of another thread.
fn follow<B: Block, G: Gate + Drop, R: Wait + Clock>(
    rt: &R,
    alloc: Global,
    shared: &Shared<B, G>,
    number: usize,
) {
    let mut brought = None;
    for _ in rt.forever() {
        let turned = shared.round(rt, alloc, number, brought, None);
        brought = turned.brought;
        if turned.leaves {
            break;
        }
    }
}

// What came of a turn.
#[derive(Drop)]
struct Turned<B: Block> {
    brought: Option<Brought<B>>,
    // Whether another thread would have something to do.
    wants: bool,
    leaves: bool,
}

impl<B: Block, G: Gate + Drop> Shared<B, G> {
    // A turn of a thread, with its work or its sleep, which is of such a length at most.
    fn round<R: Wait + Clock>(
        &self,
        rt: &R,
        alloc: Global,
        thread: usize,
        brought: Option<Brought<B>>,
        longest: Option<Duration>,
    ) -> Turned<B> {
        let mut woken = Woken::new();
        let errand = self.errand(rt, alloc, thread, brought, &mut woken);
        self.wake(&woken);
        let mut turned = Turned {
            brought: None,
            wants: woken.wants,
            leaves: false,
        };
        match errand {
            Errand::Work(job, held) => turned.brought = Some(self.works(rt, job, held)),
            Errand::Again => self.yield_to_guests(),
            Errand::Sleep => self.doze(rt, thread, longest),
            Errand::Leave => turned.leaves = true,
        }
        turned
    }

    // Passes the gate and does a job, with no lock held.
    fn works<R: Clock>(&self, rt: &R, job: Job<B>, held: u64) -> Brought<B> {
        let block = job.block();
        let firings = job.count();
        self.gate.pass(block, job.first());
        self.gate.begins(block);
        let start = now(rt);
        let worked = job.work();
        let nanos = nanos_since(rt, start);
        self.gate.worked(block, firings);
        Brought {
            worked,
            held,
            nanos,
        }
    }

    // Sleeps until it is called, or so long.
    fn doze<R: Wait>(&self, rt: &R, thread: usize, longest: Option<Duration>) {
        if let Some(parker) = self.parkers.get(thread) {
            match longest {
                Some(length) => parker.park_timeout(rt, length),
                None => parker.park(rt),
            }
        }
    }

    // Lets guests take the lock first.
    fn yield_to_guests(&self) {
        for _ in 0..YIELDS {
            if !self.queue.has_guest() {
                return;
            }
            spin_loop();
        }
    }
}
