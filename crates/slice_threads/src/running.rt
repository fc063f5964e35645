//! Threads that run slices.

use crate::crew::{Shared, Step, Worker};
use crate::desk::Desk;
use crate::feeds::Feeds;
use crate::piece::{Job, Opens};
use crate::reading::{Event, Readers, Reading};
use crate::supply::{By, Supply};
use crate::turn::{Outlet, Turn};
use crossbeam_channel::{Receiver, Sender, bounded};
use flowgraph::Block;
use pipeline::StreamPart;
use std::alloc::{AllocError, Global};
use std::io::Read;
use std::sync::{Arc, Mutex, Wait};
use std::thread;
use std::thread::{JoinHandle, Threads};
use streaming::{Headway, Watch};

// The most events (something was read, or a piece was written) that wait until the waiting thread looks.
const EVENTS: usize = 2;

/// The tapes of the sources.
#[derive(Drop)]
pub struct Tapes<F> {
    /// How they are cut.
    pub feeds: Feeds,
    /// Their readers, in the order of the feeds.
    pub readers: Vec<Readers<F>>,
    /// Whether a read may wait. Then one more thread reads.
    pub may_wait: bool,
}

/// What is left of a run after its pieces.
#[derive(Drop)]
pub struct Left<F, O> {
    /// What was read and is in no piece.
    pub feeds: Feeds,
    /// The readers that read on, in the order of the feeds.
    pub readers: Vec<Readers<F>>,
    pub outlet: O,
    /// The parts of their streams that a run on the rest gives the sinks, in the order of the job.
    pub parts: Vec<StreamPart>,
    /// How many items each of them was given.
    pub given: Vec<u64>,
}

/// Starts a thread for each opener. The threads run slices on the tapes, and write the results in the order of the
/// pieces. If a thread cannot be started, those before it run the slices. After a piece, `watch` sees how many items
/// are in pieces and how many are written, of all sources together.
///
/// A piece has full length, or, while no slice runs and a read may wait, the iterations that are there. The rest is
/// left. If a write fails, or memory runs out, what was written is a beginning. A thread that waits in a read is then
/// not waited for: it ends when the read returns.
pub fn run_slices<
    R: Threads + Wait + Copy + Send + 'static,
    P: Opens + Send + Drop + 'static,
    F: Read + Send + Drop + 'static,
    O: Outlet + Send + Drop + 'static,
    V: Watch,
>(
    rt: R,
    alloc: Global,
    openers: Vec<P>,
    job: Job,
    tapes: Tapes<F>,
    outlet: O,
    watch: &mut V,
) -> Result<Left<F, O>, O::Fault>
where
    P::Block: Send + Sync + 'static,
    <P::Block as Block>::Places: Send + Sync + 'static,
    O::Fault: Send + 'static,
{
    let period = tapes.feeds.period();
    let turn = Turn::new(alloc, outlet, job.shares.len())?;
    let (tell, events) = bounded(alloc, EVENTS)?;
    let Tapes {
        feeds,
        readers,
        may_wait,
    } = tapes;
    let by = read_by(rt, alloc, readers, may_wait, &tell)?;
    let shared = Shared {
        supply: Mutex::new(Some(Supply::new(feeds, by, events))),
        desk: Desk::new(turn),
        tell,
    };
    let Ok(shared) = Arc::new(alloc, shared) else {
        return Err(AllocError.into());
    };
    let (steps, shown) = bounded(alloc, 1)?;
    let threads = start(rt, alloc, openers, &job, &shared, steps);
    show(&rt, &shown, period, watch);
    for handle in threads {
        handle.join(&rt);
    }
    make_left(&rt, alloc, &job, &shared, period, watch)
}

// Who reads. If the reading thread cannot be started, the threads with the pieces read.
fn read_by<R: Threads + Wait + Copy + Send + 'static, F: Read + Send + Drop + 'static>(
    rt: R,
    alloc: Global,
    readers: Vec<Readers<F>>,
    may_wait: bool,
    tell: &Sender<Event, Global>,
) -> Result<By<F>, AllocError> {
    if !may_wait {
        return Ok(By::Here(readers));
    }
    match Reading::start(rt, alloc, readers, tell.clone()?)? {
        Ok(reading) => Ok(By::Apart(reading)),
        Err(readers) => Ok(By::Here(readers)),
    }
}

// Starts as many threads as memory and the system allow.
fn start<
    R: Threads + Wait + Copy + Send + 'static,
    P: Opens + Send + Drop + 'static,
    F: Read + Send + Drop + 'static,
    O: Outlet + Send + Drop + 'static,
>(
    rt: R,
    alloc: Global,
    openers: Vec<P>,
    job: &Job,
    shared: &Arc<Shared<F, O>, Global>,
    steps: Sender<Step, Global>,
) -> Vec<JoinHandle<()>>
where
    P::Block: Send + Sync + 'static,
    <P::Block as Block>::Places: Send + Sync + 'static,
    O::Fault: Send + 'static,
{
    let mut threads = Vec::new(alloc);
    for opener in openers {
        let Ok(worker) = worker(alloc, opener, job, shared, &steps) else {
            break;
        };
        if threads.reserve(1).is_err() {
            break;
        }
        match thread::spawn(&rt, move || worker.serve(&rt, alloc)) {
            Ok(handle) => threads.push_reserved(handle),
            Err(_) => break,
        }
    }
    threads
}

// What a thread needs.
fn worker<P: Opens + Drop, F: Read + Drop, O: Outlet + Drop>(
    alloc: Global,
    opener: P,
    job: &Job,
    shared: &Arc<Shared<F, O>, Global>,
    steps: &Sender<Step, Global>,
) -> Result<Worker<P, F, O>, AllocError> {
    Ok(Worker {
        opener,
        job: job.copy(alloc)?,
        shared: Arc::try_clone(shared)?,
        steps: steps.clone()?,
    })
}

// Shows how far the run is, until no thread is left to tell it.
fn show<R: Wait, V: Watch>(rt: &R, shown: &Receiver<Step, Global>, period: u64, watch: &mut V) {
    for _ in rt.forever() {
        match shown.recv(rt) {
            Ok(step) => watch.show(headway(step, period)),
            Err(_) => return,
        }
    }
}

fn headway(step: Step, period: u64) -> Headway {
    Headway {
        given: step.written.saturating_mul(period),
        fed: step.read.saturating_mul(period),
    }
}

// What is left after the pieces, once no thread is left that runs slices.
fn make_left<R: Wait, F: Drop, O: Outlet + Drop, V: Watch>(
    rt: &R,
    alloc: Global,
    job: &Job,
    shared: &Shared<F, O>,
    period: u64,
    watch: &mut V,
) -> Result<Left<F, O>, O::Fault> {
    let turn = shared.desk.end(rt)?;
    let supply = shared.supply.lock(rt).take();
    let (Some(turn), Some(supply)) = (turn, supply) else {
        return Err(AllocError.into());
    };
    let step = Step {
        read: supply.iterations,
        written: turn.iterations,
    };
    watch.show(headway(step, period));
    let (feeds, readers) = supply.into_rest(rt)?;
    let parts = feeds.parts(alloc, &job.shares, &turn.given)?;
    Ok(Left {
        feeds,
        readers,
        outlet: turn.outlet,
        parts,
        given: turn.given,
    })
}
