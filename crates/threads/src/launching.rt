//! The start of a run in threads.

ghost use Rattle.std.specs.Prelude.{◌≡◌, true, false, Some, IfOk, IfErr};
ghost use Rattle.std.specs.Arc.{arc_value};
ghost use Rattle.std.specs.Option.{option_map};
ghost use Rattle.stream_model.specs.Machine.{is_idle};
ghost use Rattle.threads.specs.Outcomes.{GivesBack, IsSo, handed_of};

use crate::fault::RunFault;
use crate::pool_threads::lead;
use crate::prepared::{given_back, prepare};
use crate::running::Running;
use crate::shared::Shared;
use crate::worker::work;
use flowgraph::{Block, BlockId};
use plant::{Handed, Plant, Unwatched};
use scheduling::crew::Crew;
use scheduling::{Gate, RunOptions, Threading};
use std::alloc::Global;
use std::sync::{Arc, Wait};
use std::thread;
use std::thread::{JoinHandle, Threads};
use std::time::Clock;

/// Starts a worker for each block of a plant that has no claim in flight, and returns. The workers claim, work and
/// commit until all blocks are done, none can act, or a stop is asked for; each claims at most 1,024 firings at a time.
/// Before each work the gate is called. Open sources stay open. Fails with `RunFault::Memory` or `RunFault::Thread`,
/// which return the plant.
pub fn launch<
    B: Block + Send + Sync + 'static,
    G: Gate + Drop + Send + Sync + 'static,
    R: Threads + Wait + Clock + Copy + Send + 'static,
>(rt: R, alloc: Global, plant: Plant<B>, gate: Arc<G, Global>) -> Result<Running<B, G>, RunFault<B>>
where
    B::Places: Send + Sync + 'static,
    requires { is_idle plant.state ≡ true }
    ensures ok { IfOk result (λ r. r ≡ record {
      handed = handed_of plant;
      asked = false;
      most = 1024;
      gate = Some
          (arc_value gate);
    }) }
    ensures err { IfErr result (GivesBack B.meaning B.eq (handed_of plant)) }
{
    launch_with(rt, alloc, plant, RunOptions::per_block(Some(gate)))
}

/// Starts a run as these options say, and returns: like `launch`, or with one thread that starts others if the work is
/// worth them. The run goes on until all blocks are done, none can act, or a stop is asked for. Open sources stay open.
/// Fails with `RunFault::Memory` or `RunFault::Thread`, which return the plant.
pub fn launch_with<
    B: Block + Send + Sync + 'static,
    G: Gate + Drop + Send + Sync + 'static,
    R: Threads + Wait + Clock + Copy + Send + 'static,
>(
    rt: R,
    alloc: Global,
    plant: Plant<B>,
    options: RunOptions<G>,
) -> Result<Running<B, G>, RunFault<B>>
where
    B::Places: Send + Sync + 'static,
    requires { is_idle plant.state ≡ true }
    ensures ok { IfOk result (λ r. r ≡ record {
      handed = handed_of plant;
      asked = false;
      most = options.turns.most;
      gate = option_map arc_value options.gate;
    }) }
    ensures err { IfErr result (GivesBack B.meaning B.eq (handed_of plant)) }
{
    let RunOptions {
        threading,
        turns,
        gate,
    } = options;
    let Running {
        shared,
        mut workers,
        handed,
        asked,
    } = prepare(alloc, plant, gate, turns, Crew::new(threading))?;
    let started = match threading {
        Threading::PerBlock => start_workers(rt, alloc, &shared, &mut workers),
        Threading::Adaptive => start_first(rt, alloc, &shared, &mut workers),
    };
    if started.is_none() {
        return Err(called_back(rt, shared, workers, &handed));
    }
    Ok(Running {
        shared,
        workers,
        handed,
        asked,
    })
}

// Starts a worker for each block, as far as threads can be started.
fn start_workers<
    B: Block + Send + Sync + 'static,
    G: Gate + Drop + Send + Sync + 'static,
    R: Threads + Wait + Copy + Send + 'static,
>(
    rt: R,
    alloc: Global,
    shared: &Arc<Shared<B, G>, Global>,
    workers: &mut Vec<JoinHandle<()>>,
) -> Option<()>
where
    B::Places: Send + Sync + 'static,
{
    for (block, _parker) in (0..u32::MAX).zip(&shared.parkers) {
        let worker = start_worker(rt, alloc, shared, BlockId(block))?;
        workers.push(worker).ok()?;
    }
    Some(())
}

// A worker's thread.
fn start_worker<
    B: Block + Send + Sync + 'static,
    G: Gate + Drop + Send + Sync + 'static,
    R: Threads + Wait + Copy + Send + 'static,
>(
    rt: R,
    alloc: Global,
    shared: &Arc<Shared<B, G>, Global>,
    block: BlockId,
) -> Option<JoinHandle<()>>
where
    B::Places: Send + Sync + 'static,
{
    let shared = Arc::try_clone(shared).ok()?;
    thread::spawn(&rt, move || work(&rt, alloc, &*shared, block)).ok()
}

// Starts the first thread of a pool, which starts the others.
fn start_first<
    B: Block + Send + Sync + 'static,
    G: Gate + Drop + Send + Sync + 'static,
    R: Threads + Wait + Clock + Copy + Send + 'static,
>(
    rt: R,
    alloc: Global,
    shared: &Arc<Shared<B, G>, Global>,
    workers: &mut Vec<JoinHandle<()>>,
) -> Option<()>
where
    B::Places: Send + Sync + 'static,
{
    let first = Arc::try_clone(shared).ok()?;
    let leader = thread::spawn(&rt, move || lead(rt, alloc, &first, &mut Unwatched));
    workers.push(leader.ok()?).ok()
}

// Lets the started workers leave, and returns the plant.
fn called_back<B: Block, G: Gate + Drop, R: Threads + Wait + Copy>(
    rt: R,
    shared: Arc<Shared<B, G>, Global>,
    workers: Vec<JoinHandle<()>>,
    handed: &Handed<B>,
) -> RunFault<B>
    ensures back { GivesBack B.meaning B.eq handed.now result }
    ensures thread { IsSo false true result }
{
    shared.end(&rt);
    for worker in workers {
        worker.join(&rt);
    }
    let Ok(shared) = Arc::try_unwrap(shared) else {
        return RunFault::Foreign;
    };
    match given_back(shared, handed) {
        Some(plant) => RunFault::Thread(plant),
        None => RunFault::Foreign,
    }
}
