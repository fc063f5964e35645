//! The command `live`: the plant of a file runs in as many threads as its work is worth, while the lines of an input
//! make calls.

ghost use Rattle.std.specs.Prelude.{◌≡◌, List, ℕ, Option, ◌<◌, ◌-◌, ◌^◌, true, get_or, vec_len, IfOk, IfErr};
ghost use Rattle.std.specs.Option.{option_map};
ghost use Rattle.stream_model.specs.Machine.{is_idle};
ghost use Rattle.flowgraph.specs.Flowgraph.{net_of};
ghost use Rattle.kinds.specs.Kind.{meaning_of};
ghost use Rattle.kinds.specs.declared.kind.Kind.{Kind};
ghost use Rattle.plant.specs.Handed.{OpeningState};
ghost use Rattle.plant.specs.Settling.{HasSettled};
ghost use Rattle.call_history.specs.History.{Noted};
ghost use Rattle.call_history.specs.Reached.{HasReached, opening_of};
ghost use Rattle.threads.specs.Live.{LiveRunEndsIn};
ghost use Rattle.file_plants.specs.Opening.{opened_of};
ghost use Rattle.flow_core.specs.Serve.{Writes};
ghost use Rattle.flow_runs.specs.Serve.{AnswersLines, IsLiveTo, StopsLines, StopsLive};
ghost use Rattle.flow_runs.specs.Threads.{HasCome, IsCause, IsEndOf};

mod desk_calls;
mod line_caller;

use crate::fault::{ServeFault, of_command};
use crate::live::line_caller::LineCaller;
use crate::threading::turns;
use byte_io::{ByteIn, ByteOut};
use flow_core::command_output::{CommandEnd, run_output, write_run};
use flow_core::fault::Fault;
use flow_core::opening::open_plant;
use flow_core::script::ScriptFault;
use kinds::Kind;
use plant::{Plant, Settled, Watch};
use script_text::LineSplitter;
use std::alloc::{AllocError, Global};
use std::sync::Wait;
use std::thread::Threads;
use std::time::Clock;
use threads::{Finished, Outcome, RunError, RunOptions, Threading};
use top_block::TopBlock;

/// Runs the plant of a file while the lines of `input` make calls. After the end of the input it runs until it comes to
/// rest. Then it writes what the sinks hold.
pub(crate) fn run_live<
    R: Threads + Wait + Clock + Sync,
    I: ByteIn + Send,
    O: ByteOut + Send,
    W: Watch,
>(
    rt: &R,
    alloc: Global,
    file: &[u8],
    input: &mut I,
    output: &mut O,
    watch: &mut W,
) -> Result<CommandEnd, ServeFault>
    requires reads { I.failed input.old < 2 ^ 64 - 1 }
    requires writes { O.failed output.old < 2 ^ 64 - 1 }
    ensures does { IfOk result (λ ended. (between : Option (List ℕ))
        × Writes (IsLiveTo file.now (I.remaining input.old) (O.contents output.old)
        (option_map opened_of ended.stalled)) between (O.contents output.new) ended.status) }
    ensures does_not { IfErr result (StopsLive file.now (I.remaining input.old) (I.remaining input.new)
        (O.contents output.old) (O.contents output.new)) }
{
    let plant = match open_plant(alloc, file) {
        Ok(plant) => plant,
        Err(fault) => return Err(ServeFault::Command(Fault::File(fault))),
    };
    plant.recall();
    let (plant, settled) = live_plant(rt, alloc, plant, input, output, watch)?;
    plant.recall();
    let ran = run_output(alloc, plant, settled)?;
    // (the caller's thread may have left it at the greatest count of failures)
    if output.failures() == u64::MAX {
        return Err(ServeFault::Command(Fault::Script(ScriptFault::Write)));
    }
    of_command(write_run(output, ran))
}

// Runs a plant while the lines of `input` make calls. Each line is answered on `output` before the next is read. After
// the end of the input the run goes on until it comes to rest. It returns the plant as it is then.
fn live_plant<R: Threads + Wait + Clock + Sync, I: ByteIn + Send, O: ByteOut + Send, W: Watch>(
    rt: &R,
    alloc: Global,
    plant: Plant<Kind>,
    input: &mut I,
    output: &mut O,
    watch: &mut W,
) -> Result<(Plant<Kind>, Settled), ServeFault>
    requires idle { is_idle plant.state ≡ true }
    requires reads { I.failed input.old < 2 ^ 64 - 1 }
    requires writes { O.failed output.old < 2 ^ 64 - 1 }
    ensures came { IfOk result (λ r. (log : List Noted) × HasCome meaning_of ⟦<Kind as PartialEq>⟧.eq (opening_of plant)
        log r.0 × AnswersLines plant.graph log (I.remaining input.old) (O.contents output.old)) }
    ensures settled { IfOk result (λ r. HasSettled (net_of meaning_of r.0.graph) r.0.capacities r.0.state r.1) }
    ensures stopped { IfErr result (StopsLines plant.graph (I.remaining input.old) (O.contents output.old)) }
{
    let callers = one_caller(alloc, input, output)?;
    let options = RunOptions::new(Threading::Adaptive, turns());
    match TopBlock::from_plant(plant).run_live(rt, alloc, callers, options, watch) {
        Ok(finished) => came_to_rest(finished),
        Err(fault) => Err(ServeFault::from(fault)),
    }
}

// The caller that does what the lines of an input say.
fn one_caller<'a, I: ByteIn, O: ByteOut>(
    alloc: Global,
    input: &'a mut I,
    output: &'a mut O,
) -> Result<Vec<LineCaller<'a, I, O>>, AllocError>
    ensures one { IfOk result (λ callers. vec_len callers ≡ 1) }
    ensures of { IfOk result (λ callers. (caller : _) → ((get_or callers.items 0 caller).input.now ≡ input.entry.now)
        × ((get_or callers.items 0 caller).output.now ≡ output.entry.now)) }
{
    let mut callers = Vec::with_capacity(alloc, 1)?;
    callers.push_reserved(LineCaller {
        input,
        output,
        ended: Ok(()),
    });
    Ok(callers)
}

// The plant of a run that came to rest, unless a line stopped it.
fn came_to_rest<I: ByteIn, O: ByteOut>(
    finished: Finished<Kind, LineCaller<'_, I, O>>,
) -> Result<(Plant<Kind>, Settled), ServeFault>
    requires { vec_len finished.callers ≡ 1 }
    ensures rested { IfOk result (λ r. (o : OpeningState Kind) (history : List Noted)
        → LiveRunEndsIn meaning_of ⟦<Kind as PartialEq>⟧.eq o history finished.entry.outcome →
        HasReached meaning_of ⟦<Kind as PartialEq>⟧.eq o history r.0 × HasSettled (net_of meaning_of r.0.graph)
        r.0.capacities r.0.state r.1) }
    ensures ended { (caller : _) → IsEndOf (get_or finished.entry.callers.items 0 caller).ended result }
{
    let Finished {
        outcome,
        callers,
        ..
    } = finished;
    match end_of(callers) {
        Err(fault) => Err(stopped_by(fault, &outcome)),
        Ok(()) => rested(outcome),
    }
}

// How the lines of the one caller ended.
fn end_of<I: ByteIn, O: ByteOut>(mut callers: Vec<LineCaller<'_, I, O>>) -> Result<(), ScriptFault>
    requires { vec_len callers ≡ 1 }
    ensures { (caller : _) → result ≡ (get_or callers.entry.items 0 caller).ended }
{
    match callers.pop() {
        Some(caller) => caller.ended,
        None => unreachable!(),
    }
}

// Why a run ended, if lines asked for its end.
fn stopped_by(fault: ScriptFault, outcome: &Outcome<Kind>) -> ServeFault
    ensures { IsCause (Err fault) result }
{
    match outcome {
        Outcome::Done(_) | Outcome::Stopped(_) => ServeFault::Command(Fault::Script(fault)),
        // A caller that stops by a fault asks for a stop.
        Outcome::Stalled(_) => ServeFault::Run(RunError::Foreign),
    }
}

// The plant of a run, if nobody asked for its end.
fn rested(outcome: Outcome<Kind>) -> Result<(Plant<Kind>, Settled), ServeFault>
    ensures rested { IfOk result (λ r. (o : OpeningState Kind) (history : List Noted)
        → LiveRunEndsIn meaning_of ⟦<Kind as PartialEq>⟧.eq o history outcome →
        HasReached meaning_of ⟦<Kind as PartialEq>⟧.eq o history r.0 × HasSettled (net_of meaning_of r.0.graph)
        r.0.capacities r.0.state r.1) }
    ensures ended { IsEndOf (Ok tt) result }
{
    match outcome {
        Outcome::Done(plant) => Ok((plant, Settled::Done)),
        Outcome::Stalled(plant) => Ok((plant, Settled::Quiet)),
        // Only a fault asks for a stop.
        Outcome::Stopped(_) => Err(ServeFault::Run(RunError::Foreign)),
    }
}
