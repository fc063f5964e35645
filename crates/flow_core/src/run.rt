//! The command `run` on one thread: steps the plant of a file until it comes to rest, and writes what its sinks hold.

ghost use Rattle.std.specs.Prelude.{◌≡◌, ◌+◌, ◌<◌, ◌-◌, ◌^◌, true, IfOk, IfErr};
ghost use Rattle.std.specs.Option.{option_map};
ghost use Rattle.stream_model.specs.Machine.{is_idle};
ghost use Rattle.flowgraph.specs.Flowgraph.{net_of};
ghost use Rattle.kinds.specs.Kind.{meaning_of};
ghost use Rattle.plant.specs.Settling.{HasSettled};
ghost use Rattle.file_plants.specs.Opening.{opened_of};
ghost use Rattle.flow_core.specs.RawEnds.{StepsToRest};
ghost use Rattle.flow_core.specs.Serve.{IsRunAlone, IsRunAloneTo, Refuses, Writes, WritesNot, plant_in, writes_in};

use crate::command_output::{CommandEnd, RunOutput, run_output, write_run};
use crate::fault::Fault;
use crate::opening::open_plant;
use crate::turn::TURN;
use byte_io::ByteOut;
use closing::close_all;
use kinds::Kind;
use plant::{Plant, Settled, Watch};
use std::alloc::{AllocError, Global};

/// Runs the plant of a file on one thread until it comes to rest, writes what its sinks hold, and returns the status.
/// It starts no thread and waits for none.
pub fn run_alone<O: ByteOut, W: Watch>(
    alloc: Global,
    file: &[u8],
    output: &mut O,
    watch: &mut W,
) -> Result<u8, Fault>
    requires writes { O.failed output.old < 2 ^ 64 - 1 }
    ensures does { IfOk result (Writes (IsRunAlone file.now) (O.contents output.old) (O.contents output.new)) }
    ensures does_not { IfErr result (WritesNot (IsRunAlone file.now) (plant_in file.now) (O.contents output.old)
        (O.contents output.new)) }
    ensures failed_writes { O.failed output.new ≡ O.failed output.old + writes_in result }
{
    match run_on_one(alloc, file, output, watch) {
        Ok(ended) => Ok(ended.status),
        Err(fault) => Err(fault),
    }
}

/// Runs the plant of a file on one thread until it comes to rest, and writes what its sinks hold.
pub fn run_on_one<O: ByteOut, W: Watch>(
    alloc: Global,
    file: &[u8],
    output: &mut O,
    watch: &mut W,
) -> Result<CommandEnd, Fault>
    requires writes { O.failed output.old < 2 ^ 64 - 1 }
    ensures does { IfOk result (λ ended. Writes (IsRunAloneTo file.now (option_map opened_of ended.stalled))
        (O.contents output.old) (O.contents output.new) ended.status) }
    ensures does_not { IfErr result (WritesNot (IsRunAlone file.now) (plant_in file.now) (O.contents output.old)
        (O.contents output.new)) }
    ensures failed_writes { O.failed output.new ≡ O.failed output.old + writes_in result }
{
    match run_file_alone(alloc, file, watch) {
        Ok(ran) => write_run(output, ran),
        Err(fault) => Err(fault),
    }
}

// Closes the sources of a file's plant, runs it on one thread until it comes to rest, and reports what it holds then.
fn run_file_alone<W: Watch>(alloc: Global, file: &[u8], watch: &mut W) -> Result<RunOutput, Fault>
    ensures ok { IfOk result (λ ran. IsRunAloneTo file.now (option_map opened_of ran.stalled) ran.given.text.items
        ran.given.status) }
    ensures refused { IfErr result (Refuses (plant_in file.now)) }
{
    let plant = open_plant(alloc, file)?;
    let (plant, settled) = settle_plant(alloc, plant, watch)?;
    Ok(run_output(alloc, plant, settled)?)
}

/// Closes the sources of a plant, and steps its blocks until none can act. It returns the plant as it is then.
pub fn settle_plant<W: Watch>(
    alloc: Global,
    plant: Plant<Kind>,
    watch: &mut W,
) -> Result<(Plant<Kind>, Settled), AllocError>
    requires { is_idle plant.state ≡ true }
    ensures rests { IfOk result (λ r. StepsToRest (opened_of plant) (opened_of r.0)) }
    ensures settled { IfOk result (λ r. HasSettled (net_of meaning_of r.0.graph) r.0.capacities r.0.state r.1) }
{
    let mut plant = plant;
    close_all(&mut plant);
    let settled = plant.settle_watched(alloc, TURN, watch)?;
    Ok((plant, settled))
}
