//! Why an action is not done, and how the program says so.

ghost use Rattle.std.specs.Prelude.{◌≡◌, ◌-◌, ◌^◌, ◌<◌};
ghost use Rattle.flow_core.specs.Serve.{Tries, stream};
ghost use Rattle.flow_core.specs.declared.fault.Fault.TheVariants.{File, Script};
ghost use Rattle.flow_core.specs.declared.script.ScriptFault.TheVariants.{Memory};
ghost use Rattle.flow_runs.specs.Faults.{serve_line, serve_status};
ghost use Rattle.flow_runs.specs.Serve.{Becomes};
ghost use Rattle.flow_runs.specs.declared.fault.ServeFault.TheVariants.{Command, Run};

use byte_io::ByteOut;
use flow_core::command_output::CommandEnd;
use flow_core::fault::Fault;
use flow_core::refusal_line::{report, write_line};
use flow_core::script::ScriptFault;
use flowgraph::Block;
use graph_file::FileFault;
use refusal_codes::{Refusal, RefusalText};
use std::alloc::AllocError;
use threads::{RunError, RunFault};

/// Why an action was not done.
#[derive(Debug, Drop)]
pub enum ServeFault {
    /// No thread is to blame: the graph file or a line is refused, or a device or memory failed.
    Command(Fault),
    /// A run in threads failed.
    Run(RunError),
}

impl ServeFault {
    /// The exit status for the fault: 4 for memory, devices and threads, 1 for every other refusal.
    pub fn status(&self) -> u8
        ensures { result ≡ serve_status self.now }
    {
        match self {
            ServeFault::Command(fault) => fault.status(),
            ServeFault::Run(_) => 4,
        }
    }

    /// Writes the line that says why an action was not done, with the `name` of the graph file if that is refused. A
    /// failed write does not matter.
    pub fn report<E: ByteOut>(&self, name: &str, errors: &mut E)
        requires { E.failed errors.old < 2 ^ 64 - 1 }
        ensures { Tries (stream (E.contents errors.old) (E.failed errors.old))
            (stream (E.contents errors.new) (E.failed errors.new)) (serve_line name.now self.now) }
    {
        match self {
            ServeFault::Command(fault) => report(fault, name, errors),
            ServeFault::Run(fault) => write_line(RefusalText::alone(fault.row()), "", errors),
        }
    }
}

/// How an action ended that is a command on one thread.
pub(crate) fn of_command(done: Result<CommandEnd, Fault>) -> Result<CommandEnd, ServeFault>
    ensures { Becomes (λ ended given. (given.status ≡ ended.status) × (given.stalled ≡ ended.stalled)) done result }
{
    match done {
        Ok(ended) => Ok(ended),
        Err(fault) => Err(ServeFault::Command(fault)),
    }
}

impl From<FileFault> for ServeFault {
    ghost from_gives = { λ fault e. e ≡ Command (File fault) };

    fn from(fault: FileFault) -> ServeFault {
        ServeFault::Command(Fault::File(fault))
    }
}

impl<B: Block> From<RunFault<B>> for ServeFault {
    ghost use Rattle.threads.specs.Fault.{error_of};

    ghost from_gives = { λ fault e. e ≡ Run (error_of fault) };

    fn from(fault: RunFault<B>) -> ServeFault {
        ServeFault::Run(fault.error())
    }
}

impl From<AllocError> for ServeFault {
    ghost from_gives = { λ _ e. e ≡ Command (Script Memory) };

    fn from(_refusal: AllocError) -> ServeFault {
        ServeFault::Command(Fault::Script(ScriptFault::Memory))
    }
}
