//! Calls that take a graph file and a script as bytes, and give texts.

ghost use Rattle.std.specs.Prelude.{◌≡◌};
ghost use Rattle.flow_core.specs.Serve.{IsCheck, IsRunAlone, graph_in, plant_in};
ghost use Rattle.magbelu_c.specs.CallAnswers.{Answers, WasNot, IsScripted, WasNotScripted};

use crate::answer::{Answer, badly, well};
use byte_io::{ReadEnd, WriteEnd};
use flow_core::check::check;
use flow_core::run::run_alone;
use flow_core::script::run_script;
use plant::Unwatched;
use std::alloc::Global;

const VERSION: u32 = 1;

/// The version of these calls. It grows when one of them changes what it takes or answers.
#[unsafe(no_mangle)]
pub extern "C" fn magbelu_version() -> u32
    ensures { result ≡ 1 }
{
    VERSION
}

/// Reports the graph of a file, as `flow check` does.
#[unsafe(no_mangle)]
pub extern "C" fn magbelu_bytes_check(
    alloc: Global,
    file: &[u8],
    output: &mut [u8],
    error: &mut [u8],
) -> Answer
    ensures { Answers (IsCheck file.now) (WasNot (IsCheck file.now) (graph_in file.now)) output.old output.new error.old
        error.new result }
{
    let mut text = WriteEnd::new(Vec::new(alloc));
    match check(alloc, file, &mut text) {
        Ok(status) => well(status, &text.writer, output),
        Err(fault) => badly(alloc, &fault, &text.writer, output, error),
    }
}

/// Runs the graph of a file to its end, and tells what its sinks hold, as `flow run --one-thread` does.
#[unsafe(no_mangle)]
pub extern "C" fn magbelu_bytes_run(
    alloc: Global,
    file: &[u8],
    output: &mut [u8],
    error: &mut [u8],
) -> Answer
    ensures { Answers (IsRunAlone file.now) (WasNot (IsRunAlone file.now) (plant_in file.now)) output.old output.new
        error.old error.new result }
{
    let mut text = WriteEnd::new(Vec::new(alloc));
    match run_alone(alloc, file, &mut text, &mut Unwatched) {
        Ok(status) => well(status, &text.writer, output),
        Err(fault) => badly(alloc, &fault, &text.writer, output, error),
    }
}

/// Does the commands of a script on the plant of a file, as `flow script` does.
#[unsafe(no_mangle)]
pub extern "C" fn magbelu_bytes_script(
    alloc: Global,
    file: &[u8],
    script: &[u8],
    output: &mut [u8],
    error: &mut [u8],
) -> Answer
    ensures { Answers (IsScripted file.now script.now) (WasNotScripted file.now script.now) output.old output.new
        error.old error.new result }
{
    let mut lines = ReadEnd::new(script);
    let mut text = WriteEnd::new(Vec::new(alloc));
    match run_script(alloc, file, &mut lines, &mut text) {
        Ok(status) => well(status, &text.writer, output),
        Err(fault) => badly(alloc, &fault, &text.writer, output, error),
    }
}
