//! What the program does with a graph file and its standard streams, over any source and sink of bytes.

ghost use Rattle.std.specs.Prelude.{None, ◌≡◌, ◌<◌, ◌-◌, ◌^◌, IfOk, IfErr};
ghost use Rattle.std.specs.Option.{option_map};
ghost use Rattle.file_plants.specs.Opening.{opened_of};
ghost use Rattle.flow_core.specs.Serve.{stream};
ghost use Rattle.flow_runs.specs.Serve.{Serves, Does, DoesNot, Grows, Becomes, reads_in, writes_in};

use crate::fault::{ServeFault, of_command};
use crate::live::run_live;
use crate::run::run;
use crate::threading::Threading;
use byte_io::{ByteIn, ByteOut};
use drawings::Format;
use flow_core::check::{check, check_feeds};
use flow_core::command_output::CommandEnd;
use flow_core::draw::draw;
use flow_core::fault::Fault;
use flow_core::run::run_on_one;
use flow_core::script::run_script;
pub use flow_core::stalls::Verbosity;
use flow_core::stalls::note_stall;
use plant::Watch;
use std::alloc::Global;
use std::sync::{Arc, Wait};
use std::thread::Threads;
use std::time::Clock;
use threads::{Gate, GatedWatch};

/// What the program is asked to do with a graph file.
#[derive(Clone, Copy, Debug, PartialEq, Eq)]
pub enum Action {
    /// Report its graph.
    Check,
    /// Put its feeds onto the tapes, and report its graph.
    CheckFeeds,
    /// Write its graph as text that becomes a picture.
    Draw(Format),
    /// Feed it, run it to its end in threads, and report what its sinks hold.
    Run(Threading),
    /// Feed it, run it to its end on one thread, block by block, and report what its sinks hold.
    RunAlone,
    /// Feed it, run it while the lines of standard input make calls, and report what its sinks hold at the end.
    Live,
    /// Feed it, and do the commands of standard input.
    Script,
}

/// Does an action. The status is 0 if all went well, 3 for a run that stalled, 1 for a refused file or line, and 4 for
/// memory and devices. With 1 and 4 one line on `errors` says why. If the file is refused, and has a `name`, the line
/// has that name. With 3, unless the program is to be quiet, lines say what the blocks wait for. Failures of these
/// writes change nothing. `watch` sees the run while it goes on, and its end before anything is written. If there is a
/// gate, the run passes it.
pub fn serve<
    G: Gate + Drop + Send + Sync + 'static,
    R: Threads + Wait + Clock + Copy + Send + Sync + 'static,
    I: ByteIn + Send,
    O: ByteOut + Send,
    E: ByteOut,
    W: Watch,
>(
    rt: R,
    alloc: Global,
    action: Action,
    verbosity: Verbosity,
    name: &str,
    file: &[u8],
    input: &mut I,
    output: &mut O,
    errors: &mut E,
    gate: Option<Arc<G, Global>>,
    watch: &mut W,
) -> u8
    requires reads { I.failed input.old < 2 ^ 64 - 1 }
    requires writes { O.failed output.old < 2 ^ 64 - 1 }
    requires reports { E.failed errors.old < 2 ^ 64 - 1 }
    ensures { Serves verbosity action name.now file.now (stream (I.remaining input.old) (I.failed input.old))
        (stream (I.remaining input.new) (I.failed input.new)) (stream (O.contents output.old) (O.failed output.old))
        (stream (O.contents output.new) (O.failed output.new)) (stream (E.contents errors.old) (E.failed errors.old))
        (stream (E.contents errors.new) (E.failed errors.new)) result }
{
    match obey(rt, alloc, action, file, input, output, gate, watch) {
        Ok(ended) => {
            note_stall(alloc, verbosity, &ended.stalled, errors);
            ended.status
        }
        Err(fault) => {
            let status = fault.status();
            fault.report(name, errors);
            status
        }
    }
}

// Does an action.
fn obey<
    G: Gate + Drop + Send + Sync + 'static,
    R: Threads + Wait + Clock + Copy + Send + Sync + 'static,
    I: ByteIn + Send,
    O: ByteOut + Send,
    W: Watch,
>(
    rt: R,
    alloc: Global,
    action: Action,
    file: &[u8],
    input: &mut I,
    output: &mut O,
    gate: Option<Arc<G, Global>>,
    watch: &mut W,
) -> Result<CommandEnd, ServeFault>
    requires reads { I.failed input.old < 2 ^ 64 - 1 }
    requires writes { O.failed output.old < 2 ^ 64 - 1 }
    ensures does { IfOk result (λ ended. Does action file.now (I.remaining input.old) (I.remaining input.new)
        (O.contents output.old) (O.contents output.new) ended.status (option_map opened_of ended.stalled)) }
    ensures does_not { IfErr result (DoesNot action file.now (I.remaining input.old) (I.remaining input.new)
        (O.contents output.old) (O.contents output.new)) }
    ensures failed_reads { Grows action (I.failed input.old) (I.failed input.new) (reads_in result) }
    ensures failed_writes { Grows action (O.failed output.old) (O.failed output.new) (writes_in result) }
{
    match action {
        Action::Check => unstalled(check(alloc, file, output)),
        Action::CheckFeeds => unstalled(check_feeds(alloc, file, output)),
        Action::Draw(format) => unstalled(draw(alloc, format, file, output)),
        Action::Run(threading) => run(rt, alloc, threading, file, output, gate, watch),
        Action::RunAlone => {
            of_command(run_on_one(alloc, file, output, &mut GatedWatch::new(gate, watch)))
        }
        Action::Live => run_live(&rt, alloc, file, input, output, watch),
        Action::Script => unstalled(run_script(alloc, file, input, output)),
    }
}

// The end of an action that runs nothing to its end.
fn unstalled(done: Result<u8, Fault>) -> Result<CommandEnd, ServeFault>
    ensures { Becomes (λ status ended. (ended.status ≡ status) × (ended.stalled ≡ None)) done result }
{
    match done {
        Ok(status) => Ok(CommandEnd {
            status,
            stalled: None,
        }),
        Err(fault) => Err(ServeFault::Command(fault)),
    }
}
