//! Runs in as many threads as their work is worth: on one while it is cheap, and in a pool of threads once the work of
//! several blocks pays for them.

ghost use Rattle.std.specs.Prelude.{◌≡◌, true, false, IfOk, IfErr};
ghost use Rattle.stream_model.specs.Machine.{is_idle};
ghost use Rattle.threads.specs.Outcomes.{HasReturned, RunEndsIn, GivesBack, IsSo, handed_of};

use crate::alone::{Ended, settle_alone};
use crate::fault::RunFault;
use crate::outcome::Outcome;
use crate::pool_threads::lead;
use crate::prepared::{out_of_memory, prepare};
use flowgraph::Block;
use plant::{Plant, Watch};
use scheduling::crew::Crew;
use scheduling::number_set::NumberSet;
use scheduling::{Gate, Open, RunOptions};
use std::alloc::Global;
use std::sync::Wait;
use std::thread::Threads;
use std::time::Clock;

/// Runs a plant to its end in as many threads as its work is worth, and waits for the end. It begins on the caller's
/// own thread. Once the work of several blocks is worth it, it takes up to one thread a processor. It calls
/// `watch.show` after each pause, only now and then while the run is on one thread, and `watch.end` however the run
/// ends.
pub fn run_adaptive<
    B: Block + Send + Sync + 'static,
    G: Gate + Drop + Send + Sync + 'static,
    R: Threads + Wait + Clock + Copy + Send + 'static,
    W: Watch,
>(
    rt: R,
    alloc: Global,
    plant: Plant<B>,
    options: RunOptions<G>,
    watch: &mut W,
) -> Result<Outcome<B>, RunFault<B>>
where
    B::Places: Send + Sync + 'static,
    requires { is_idle plant.state ≡ true }
    ensures ok { IfOk result (RunEndsIn B.meaning B.eq (handed_of plant) false) }
    ensures err { IfErr result (GivesBack B.meaning B.eq (handed_of plant)) }
    ensures told { IfErr result (IsSo true false) }
{
    let mut plant = plant;
    // A run without a gate does not look for one in each step.
    let ended = match &options.gate {
        Some(_) => settle_alone(&rt, alloc, &mut plant, &options.gate, watch),
        None => settle_alone(&rt, alloc, &mut plant, &Open, watch),
    };
    let outcome = went_on(rt, alloc, plant, options, ended, watch);
    watch.end();
    outcome
}

// How a run goes on after its rounds on one thread.
fn went_on<
    B: Block + Send + Sync + 'static,
    G: Gate + Drop + Send + Sync + 'static,
    R: Threads + Wait + Clock + Copy + Send + 'static,
    W: Watch,
>(
    rt: R,
    alloc: Global,
    plant: Plant<B>,
    options: RunOptions<G>,
    ended: Ended,
    watch: &mut W,
) -> Result<Outcome<B>, RunFault<B>>
where
    B::Places: Send + Sync + 'static,
    ensures ok { IfOk result (RunEndsIn B.meaning B.eq (handed_of plant) false) }
    ensures err { IfErr result (GivesBack B.meaning B.eq (handed_of plant)) }
    ensures told { IfErr result (IsSo true false) }
{
    if !plant.idle() {
        return Err(RunFault::Foreign);
    }
    match ended {
        Ended::Rests => settled(plant),
        Ended::Starved => Err(out_of_memory(plant)),
        Ended::Splits(heavy) => in_pool(rt, alloc, plant, options, heavy, watch),
    }
}

// Runs a plant in a pool of threads. The caller's is the first.
fn in_pool<
    B: Block + Send + Sync + 'static,
    G: Gate + Drop + Send + Sync + 'static,
    R: Threads + Wait + Clock + Copy + Send + 'static,
    W: Watch,
>(
    rt: R,
    alloc: Global,
    plant: Plant<B>,
    options: RunOptions<G>,
    heavy: NumberSet,
    watch: &mut W,
) -> Result<Outcome<B>, RunFault<B>>
where
    B::Places: Send + Sync + 'static,
    requires { is_idle plant.state ≡ true }
    ensures ok { IfOk result (RunEndsIn B.meaning B.eq (handed_of plant) false) }
    ensures err { IfErr result (GivesBack B.meaning B.eq (handed_of plant)) }
    ensures told { IfErr result (IsSo true false) }
{
    let RunOptions { turns, gate, .. } = options;
    match prepare(alloc, plant, gate, turns, Crew::Pool(heavy)) {
        Ok(running) => {
            lead(rt, alloc, &running.shared, watch);
            running.wait(&rt)
        }
        Err(fault) => Err(fault),
    }
}

// How a plant came to rest that nobody else had.
fn settled<B: Block>(plant: Plant<B>) -> Result<Outcome<B>, RunFault<B>>
    requires { is_idle plant.state ≡ true }
    ensures ok { IfOk result (RunEndsIn B.meaning B.eq (handed_of plant) false) }
    ensures err { IfErr result (GivesBack B.meaning B.eq (handed_of plant)) }
    ensures told { IfErr result (IsSo true false) }
{
    is_itself(&plant);
    if plant.all_done() {
        return Ok(Outcome::Done(plant));
    }
    if plant.quiet() {
        return Ok(Outcome::Stalled(plant));
    }
    Err(RunFault::Foreign)
}

// A plant has what it was handed.
fn is_itself<B: Block>(plant: &Plant<B>)
    requires { is_idle plant.now.state ≡ true }
    ensures { HasReturned B.meaning B.eq (handed_of plant.now) plant.now }
{
    plant.recall();
}
