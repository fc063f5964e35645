//! A plant that runs in threads until it comes to rest.

ghost use Rattle.std.specs.Prelude.{◌≡◌, true, IfOk, IfErr};
ghost use Rattle.stream_model.specs.Machine.{is_idle};
ghost use Rattle.flowgraph.specs.Flowgraph.{net_of};
ghost use Rattle.kinds.specs.Kind.{meaning_of};
ghost use Rattle.plant.specs.Settling.{HasSettled};
ghost use Rattle.threads.specs.Outcomes.{HasReturned, GivesBack, handed_of};
ghost use Rattle.closing.specs.Closing.{with_all_closed};

use flow_core::turn::TURN;
use kinds::Kind;
use plant::{Plant, Settled, Watch};
use std::alloc::Global;
use std::sync::{Arc, Wait};
use std::thread::Threads;
use std::time::Clock;
pub use threads::Threading;
use threads::{Gate, Outcome, RunFault, RunOptions, Turns};
use top_block::TopBlock;

/// Closes the sources of a plant, runs it in threads, and shows it to `watch` until it comes to rest. If there is a
/// gate, the run passes it. It returns the plant as it is then; a failed run returns it in its fault.
pub(crate) fn run_plant<
    G: Gate + Drop + Send + Sync + 'static,
    R: Threads + Wait + Clock + Copy + Send + Sync + 'static,
    W: Watch,
>(
    rt: R,
    alloc: Global,
    threading: Threading,
    plant: Plant<Kind>,
    gate: Option<Arc<G, Global>>,
    watch: &mut W,
) -> Result<(Plant<Kind>, Settled), RunFault<Kind>>
    requires { is_idle plant.state ≡ true }
    ensures came_back { IfOk result (λ r. HasReturned meaning_of ⟦<Kind as PartialEq>⟧.eq
        (handed_of (with_all_closed meaning_of plant)) r.0) }
    ensures settled { IfOk result (λ r. HasSettled (net_of meaning_of r.0.graph) r.0.capacities r.0.state r.1) }
    ensures fails { IfErr result (GivesBack meaning_of ⟦<Kind as PartialEq>⟧.eq
        (handed_of (with_all_closed meaning_of plant))) }
{
    let options = RunOptions {
        threading,
        turns: turns(),
        gate,
    };
    match TopBlock::from_plant(plant).run_with(rt, alloc, options, watch) {
        Ok(Outcome::Done(plant)) => Ok((plant, Settled::Done)),
        Ok(Outcome::Stalled(plant)) => Ok((plant, Settled::Quiet)),
        // Nobody asks for a stop.
        Ok(Outcome::Stopped(_)) => unreachable!(),
        Err(fault) => Err(fault),
    }
}

/// The turns of a run's workers.
pub(crate) fn turns() -> Turns {
    match Turns::new(TURN) {
        Some(turns) => turns,
        None => Turns::default(),
    }
}
