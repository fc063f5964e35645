//! A run that goes on in threads, and its end.

ghost use Rattle.std.specs.Prelude.{◌≡◌, true, false, IfOk, IfErr};
ghost use Rattle.stream_model.specs.Machine.{is_idle};
ghost use Rattle.scheduling.specs.declared.run_options.Threading.TheVariants.{Adaptive};
ghost use Rattle.threads.specs.Outcomes.{RunEndsIn, GivesBack, HasReturned, IsSo, handed_of};
ghost use Rattle.threads.specs.Running.{RunState};

use crate::adaptive::run_adaptive;
use crate::fault::RunFault;
use crate::launching::launch_with;
use crate::locked::Locked;
use crate::outcome::Outcome;
use crate::shared::Shared;
use call_history::Engine;
use flowgraph::Block;
use plant::{Handed, Headway, Plant, Unwatched, Watch};
use scheduling::{Gate, RunOptions, Threading};
use std::alloc::Global;
use std::fmt;
use std::marker::Model;
use std::sync::{Arc, Wait};
use std::thread::{JoinHandle, Threads};
use std::time::Clock;

/// A plant at work in threads: one for each of its blocks, or a pool that acts for all. If it is dropped, the threads
/// go on by themselves until the program ends. `wait` gives the plant back. A contract sees what was handed in, whether
/// a stop was asked for, how many firings a claim has at most, and the gate.
#[derive(Drop)]
pub struct Running<B: Block, G: Gate + Drop> {
    pub(crate) shared: Arc<Shared<B, G>, Global>,
    pub(crate) workers: Vec<JoinHandle<()>>,
    pub(crate) handed: Handed<B>,
    pub(crate) asked: bool,
}

impl<B: Block, G: Gate + Drop> fmt::Debug for Running<B, G> {
    fn fmt<W: fmt::Write>(&self, f: &mut fmt::Formatter<W>) -> fmt::Result {
        f.debug_struct("Running").finish_non_exhaustive()
    }
}

impl<B: Block, G: Gate + Drop> Model for Running<B, G> {
    ghost use Rattle.std.specs.Arc.{arc_value};
    ghost use Rattle.std.specs.Option.{option_map};
    ghost use Rattle.threads.specs.Running.{RunState};

    ghost Value = { RunState B G };

    ghost view = { λ r. record { handed = r.handed; asked = r.asked; most = (arc_value r.shared).turns.most; gate = option_map arc_value (arc_value r.shared).gate } };
}

impl<B: Block, G: Gate + Drop> Running<B, G> {
    /// Asks the workers to leave: each commits what it works on and claims no more. It does not wait for them.
    pub fn stop<R: Wait>(&mut self, rt: &R)
        ensures { self.new ≡ record self.old { asked = true } }
    {
        self.asked = true;
        self.shared.end(rt);
    }

    /// Whether a stop was asked for.
    pub fn asked(&self) -> bool
        ensures { result ≡ self.now.asked }
    {
        self.asked
    }

    /// How many items all sources were fed, and how many of these they have given by now. It takes the lock, and looks
    /// at each block. No contract says what it returns.
    pub fn headway<R: Wait>(&self, rt: &R) -> Headway {
        self.shared.headway(rt)
    }

    /// Like `wait`, and calls `watch.show` after each pause until then, and `watch.end` at the end.
    pub fn wait_watched<R: Threads + Wait, W: Watch>(
        self,
        rt: &R,
        watch: &mut W,
    ) -> Result<Outcome<B>, RunFault<B>>
        ensures ok { IfOk result (RunEndsIn B.meaning B.eq self.handed self.asked) }
        ensures err { IfErr result (GivesBack B.meaning B.eq self.handed) }
        ensures told { IfErr result (IsSo true false) }
    {
        self.shared.show(rt, watch);
        self.wait(rt)
    }

    /// Waits until all workers have left, and returns how the run ended. Sinks hold what they have taken. A claim that
    /// runs out of memory ends the run with `RunFault::Memory`, and the plant may be run again.
    pub fn wait<R: Threads + Wait>(self, rt: &R) -> Result<Outcome<B>, RunFault<B>>
        ensures ok { IfOk result (RunEndsIn B.meaning B.eq self.handed self.asked) }
        ensures err { IfErr result (GivesBack B.meaning B.eq self.handed) }
        ensures told { IfErr result (IsSo true false) }
    {
        let Running {
            shared,
            workers,
            handed,
            asked,
        } = self;
        for worker in workers {
            worker.join(rt);
        }
        match Arc::try_unwrap(shared) {
            Ok(shared) => ended(shared.locked.into_inner(), &handed, asked),
            Err(_) => Err(RunFault::Foreign),
        }
    }
}

// How a run ended, by what came back of it.
fn ended<B: Block>(
    locked: Locked<B>,
    handed: &Handed<B>,
    asked: bool,
) -> Result<Outcome<B>, RunFault<B>>
    ensures ok { IfOk result (RunEndsIn B.meaning B.eq handed.now asked) }
    ensures err { IfErr result (GivesBack B.meaning B.eq handed.now) }
    ensures told { IfErr result (IsSo locked.starved false) }
{
    let Locked {
        engine,
        starved,
        ..
    } = locked;
    let Engine::Plain(plant) = engine else {
        return Err(RunFault::Foreign);
    };
    if !came_back(&plant, handed) {
        return Err(RunFault::Foreign);
    }
    if plant.all_done() {
        return Ok(Outcome::Done(plant));
    }
    if starved {
        return Err(RunFault::Memory(plant));
    }
    if asked {
        return Ok(Outcome::Stopped(plant));
    }
    if plant.quiet() {
        return Ok(Outcome::Stalled(plant));
    }
    Err(RunFault::Foreign)
}

/// Whether a plant has what was handed in, with no claim in flight.
pub(crate) fn came_back<B: Block>(plant: &Plant<B>, handed: &Handed<B>) -> bool
    ensures { result ≡ true → HasReturned B.meaning B.eq handed.now plant.now }
{
    plant.recall();
    plant.idle() && plant.agrees(handed)
}

/// Runs a plant to its end in threads, one for each block: `launch` and `wait`. It is never `Stopped`.
pub fn run<
    B: Block + Send + Sync + 'static,
    G: Gate + Drop + Send + Sync + 'static,
    R: Threads + Wait + Clock + Copy + Send + 'static,
>(rt: R, alloc: Global, plant: Plant<B>, gate: Arc<G, Global>) -> Result<Outcome<B>, RunFault<B>>
where
    B::Places: Send + Sync + 'static,
    requires { is_idle plant.state ≡ true }
    ensures ok { IfOk result (RunEndsIn B.meaning B.eq (handed_of plant) false) }
    ensures err { IfErr result (GivesBack B.meaning B.eq (handed_of plant)) }
{
    run_with(
        rt,
        alloc,
        plant,
        RunOptions::per_block(Some(gate)),
        &mut Unwatched,
    )
}

/// Runs a plant to its end as these options say, and waits for the end. It is never `Stopped`. Open sources stay open.
/// It calls `watch.show` after each pause, only now and then while the run is on one thread, and `watch.end` however
/// the run ends. Fails with `RunFault::Memory`, and with `RunFault::Thread` if each block has a thread and one could
/// not be started; both return the plant. A run in as many threads as its work is worth goes on with the caller's
/// thread if no other can be started.
pub fn run_with<
    B: Block + Send + Sync + 'static,
    G: Gate + Drop + Send + Sync + 'static,
    R: Threads + Wait + Clock + Copy + Send + 'static,
    W: Watch,
>(
    rt: R,
    alloc: Global,
    plant: Plant<B>,
    options: RunOptions<G>,
    watch: &mut W,
) -> Result<Outcome<B>, RunFault<B>>
where
    B::Places: Send + Sync + 'static,
    requires { is_idle plant.state ≡ true }
    ensures ok { IfOk result (RunEndsIn B.meaning B.eq (handed_of plant) false) }
    ensures err { IfErr result (GivesBack B.meaning B.eq (handed_of plant)) }
    ensures told { options.threading ≡ Adaptive → IfErr result (IsSo true false) }
{
    match options.threading {
        Threading::Adaptive => run_adaptive(rt, alloc, plant, options, watch),
        Threading::PerBlock => match launch_with(rt, alloc, plant, options) {
            Ok(running) => running.wait_watched(&rt, watch),
            Err(fault) => {
                watch.end();
                Err(fault)
            }
        },
    }
}
