//! The command `run`: runs the plant of a file in threads until it comes to rest, and writes what its sinks hold.

ghost use Rattle.std.specs.Prelude.{◌≡◌, ◌+◌, ◌<◌, ◌-◌, ◌^◌, IfOk, IfErr};
ghost use Rattle.std.specs.Option.{option_map};
ghost use Rattle.file_plants.specs.Opening.{opened_of};
ghost use Rattle.flow_core.specs.Serve.{Writes, plant_in};
ghost use Rattle.flow_runs.specs.Serve.{Fails, IsRun, IsRunTo, RunsNot, writes_in};

use crate::fault::{ServeFault, of_command};
use crate::threading::{Threading, run_plant};
use byte_io::ByteOut;
use flow_core::command_output::{CommandEnd, RunOutput, run_output, write_run};
use flow_core::opening::open_plant;
use plant::Watch;
use std::alloc::Global;
use std::sync::{Arc, Wait};
use std::thread::Threads;
use std::time::Clock;
use threads::Gate;

/// Runs the plant of a file in threads until it comes to rest, and writes what its sinks hold.
pub(crate) fn run<
    G: Gate + Drop + Send + Sync + 'static,
    R: Threads + Wait + Clock + Copy + Send + Sync + 'static,
    O: ByteOut,
    W: Watch,
>(
    rt: R,
    alloc: Global,
    threading: Threading,
    file: &[u8],
    output: &mut O,
    gate: Option<Arc<G, Global>>,
    watch: &mut W,
) -> Result<CommandEnd, ServeFault>
    requires writes { O.failed output.old < 2 ^ 64 - 1 }
    ensures does { IfOk result (λ ended. Writes (IsRunTo file.now (option_map opened_of ended.stalled))
        (O.contents output.old) (O.contents output.new) ended.status) }
    ensures does_not { IfErr result (RunsNot (IsRun file.now) (plant_in file.now) (O.contents output.old)
        (O.contents output.new)) }
    ensures failed_writes { O.failed output.new ≡ O.failed output.old + writes_in result }
{
    match run_file(rt, alloc, threading, file, gate, watch) {
        Ok(ran) => of_command(write_run(output, ran)),
        Err(fault) => Err(fault),
    }
}

// Closes the sources of a file's plant, runs it in threads until it comes to rest, and reports what it holds then.
fn run_file<
    G: Gate + Drop + Send + Sync + 'static,
    R: Threads + Wait + Clock + Copy + Send + Sync + 'static,
    W: Watch,
>(
    rt: R,
    alloc: Global,
    threading: Threading,
    file: &[u8],
    gate: Option<Arc<G, Global>>,
    watch: &mut W,
) -> Result<RunOutput, ServeFault>
    ensures ok { IfOk result (λ ran. IsRunTo file.now (option_map opened_of ran.stalled) ran.given.text.items
        ran.given.status) }
    ensures failed { IfErr result (Fails (plant_in file.now)) }
{
    let plant = open_plant(alloc, file)?;
    plant.recall();
    let (plant, settled) = run_plant(rt, alloc, threading, plant, gate, watch)?;
    plant.recall();
    Ok(run_output(alloc, plant, settled)?)
}
