//! The command `check`: the report on the graph of a file.

ghost use Rattle.std.specs.Prelude.{◌≡◌, ◌+◌, ◌<◌, ◌-◌, ◌^◌, IfOk, IfErr};
ghost use Rattle.graph_file.specs.Blocks.{drafted};
ghost use Rattle.flow_core.specs.Reports.{check_text};
ghost use Rattle.flow_core.specs.Serve.{IsCheck, IsCheckOfFeeds, Refuses, Writes, WritesNot, graph_in, plant_in, writes_in};

use crate::command_output::{CommandOutput, write_output};
use crate::fault::Fault;
use crate::opening::{open_plant, valid_graph};
use crate::reports::check_report;
use byte_io::ByteOut;
use flowgraph::Valid;
use kinds::Kind;
use rates::balance;
use std::alloc::{AllocError, Global};

/// Writes the report on the graph of a file, and returns the status.
pub fn check<O: ByteOut>(alloc: Global, file: &[u8], output: &mut O) -> Result<u8, Fault>
    requires writes { O.failed output.old < 2 ^ 64 - 1 }
    ensures does { IfOk result (Writes (IsCheck file.now) (O.contents output.old) (O.contents output.new)) }
    ensures does_not { IfErr result (WritesNot (IsCheck file.now) (graph_in file.now) (O.contents output.old)
        (O.contents output.new)) }
    ensures failed_writes { O.failed output.new ≡ O.failed output.old + writes_in result }
{
    match check_file(alloc, file) {
        Ok(given) => write_output(output, &given),
        Err(fault) => Err(fault),
    }
}

/// Writes the report on the graph of a file, if its feeds fit the tapes, and returns the status.
pub fn check_feeds<O: ByteOut>(alloc: Global, file: &[u8], output: &mut O) -> Result<u8, Fault>
    requires writes { O.failed output.old < 2 ^ 64 - 1 }
    ensures does { IfOk result (Writes (IsCheckOfFeeds file.now) (O.contents output.old) (O.contents output.new)) }
    ensures does_not { IfErr result (WritesNot (IsCheckOfFeeds file.now) (plant_in file.now) (O.contents output.old)
        (O.contents output.new)) }
    ensures failed_writes { O.failed output.new ≡ O.failed output.old + writes_in result }
{
    match check_plant(alloc, file) {
        Ok(given) => write_output(output, &given),
        Err(fault) => Err(fault),
    }
}

// The report on the graph of a file.
fn check_file(alloc: Global, file: &[u8]) -> Result<CommandOutput, Fault>
    ensures ok { IfOk result (λ given. IsCheck file.now given.text.items given.status) }
    ensures refused { IfErr result (Refuses (graph_in file.now)) }
{
    let graph = valid_graph(alloc, file)?;
    let text = report_of(alloc, &graph)?;
    Ok(CommandOutput { text, status: 0 })
}

// The report on the graph of a file, if its plant can be opened.
fn check_plant(alloc: Global, file: &[u8]) -> Result<CommandOutput, Fault>
    ensures ok { IfOk result (λ given. IsCheckOfFeeds file.now given.text.items given.status) }
    ensures refused { IfErr result (Refuses (plant_in file.now)) }
{
    let plant = open_plant(alloc, file)?;
    let text = report_of(alloc, plant.graph())?;
    Ok(CommandOutput { text, status: 0 })
}

// The report on a valid graph.
fn report_of(alloc: Global, graph: &Valid<Kind>) -> Result<Vec<u8>, AllocError>
    ensures { IfOk result (λ text. text.items ≡ check_text (drafted graph.now)) }
{
    let rates = balance(alloc, graph)?;
    check_report(alloc, graph, &rates)
}
