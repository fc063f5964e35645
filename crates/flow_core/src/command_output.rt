//! What a command writes, and how it ends.

ghost use Rattle.std.specs.Prelude.{◌≡◌, ◌+◌, ◌<◌, ◌-◌, ◌^◌, Some, None, IfOk, IfErr, if◌then◌else◌};
ghost use Rattle.std.specs.Option.{option_map};
ghost use Rattle.std.specs.Io.KnownBytes.{Appends};
ghost use Rattle.flowgraph.specs.Flowgraph.{net_of};
ghost use Rattle.kinds.specs.Kind.{meaning_of};
ghost use Rattle.plant.specs.Settling.{HasSettled};
ghost use Rattle.file_plants.specs.Opening.{opened_of};
ghost use Rattle.byte_io.specs.Ends.{AppendsBeginning};
ghost use Rattle.flow_core.specs.Serve.{IsEnd, writes_in};
ghost use Rattle.flow_core.specs.declared.fault.Fault.TheVariants.{Script};
ghost use Rattle.flow_core.specs.declared.script.ScriptFault.TheVariants.{Write};

use crate::fault::Fault;
use crate::reports::run_report;
use crate::script::ScriptFault;
use byte_io::ByteOut;
use kinds::Kind;
use plant::{Plant, Settled};
use std::alloc::{AllocError, Global};

// The exit status of a run that came to rest before all blocks were done.
const STALLED: u8 = 3;

/// What a finished command gives: the text to write, and its exit status.
#[derive(Drop)]
pub struct CommandOutput {
    pub text: Vec<u8>,
    pub status: u8,
}

/// What a run that came to rest gives, and its plant if it stalled.
#[derive(Drop)]
pub struct RunOutput {
    pub given: CommandOutput,
    pub stalled: Option<Plant<Kind>>,
}

/// How a command ended, after its text was written: its exit status, and the plant of a run that stalled.
#[derive(Drop)]
pub struct CommandEnd {
    pub status: u8,
    pub stalled: Option<Plant<Kind>>,
}

/// What a run gives after its plant settled like this.
pub fn run_output(
    alloc: Global,
    plant: Plant<Kind>,
    settled: Settled,
) -> Result<RunOutput, AllocError>
    requires { HasSettled (net_of meaning_of plant.graph) plant.capacities plant.state settled }
    ensures { IfOk result (λ ran. IsEnd (opened_of plant) (option_map opened_of ran.stalled) ran.given.text.items
        ran.given.status) }
{
    let text = run_report(alloc, &plant, settled)?;
    let done = plant.all_done();
    let status = status_of(done);
    let stalled = stalled_one(plant, done);
    Ok(RunOutput {
        given: CommandOutput { text, status },
        stalled,
    })
}

// The plant of a run that came to rest, if that was not the end.
fn stalled_one(plant: Plant<Kind>, done: bool) -> Option<Plant<Kind>>
    ensures { option_map opened_of result ≡ (if done then None else Some (opened_of plant)) }
{
    if done { None } else { Some(plant) }
}

/// The exit status of a run that came to rest: 3 if that was before all blocks were done.
pub fn status_of(done: bool) -> u8
    ensures { result ≡ (if done then 0 else 3) }
{
    if done { 0 } else { STALLED }
}

/// Writes what a command gives, and returns its status.
pub(crate) fn write_output<O: ByteOut>(output: &mut O, given: &CommandOutput) -> Result<u8, Fault>
    requires { O.failed output.old < 2 ^ 64 - 1 }
    ensures ok { IfOk result (λ status. (status ≡ given.now.status) × Appends (O.contents output.old)
        (O.contents output.new) given.now.text.items) }
    ensures err { IfErr result (λ fault. (fault ≡ Script Write) × AppendsBeginning (O.contents output.old)
        (O.contents output.new) given.now.text.items) }
    ensures failed_writes { O.failed output.new ≡ O.failed output.old + writes_in result }
{
    match output.write(&given.text) {
        Ok(()) => Ok(given.status),
        Err(_) => Err(Fault::Script(ScriptFault::Write)),
    }
}

/// Writes what a run gives, and returns its status, with its plant if it stalled.
pub fn write_run<O: ByteOut>(output: &mut O, ran: RunOutput) -> Result<CommandEnd, Fault>
    requires { O.failed output.old < 2 ^ 64 - 1 }
    ensures ok { IfOk result (λ ended. (ended.status ≡ ran.given.status) × (ended.stalled ≡ ran.stalled)
        × Appends (O.contents output.old) (O.contents output.new) ran.given.text.items) }
    ensures err { IfErr result (λ fault. (fault ≡ Script Write) × AppendsBeginning (O.contents output.old)
        (O.contents output.new) ran.given.text.items) }
    ensures failed_writes { O.failed output.new ≡ O.failed output.old + writes_in result }
{
    let RunOutput { given, stalled } = ran;
    match write_output(output, &given) {
        Ok(status) => Ok(CommandEnd { status, stalled }),
        Err(fault) => Err(fault),
    }
}
