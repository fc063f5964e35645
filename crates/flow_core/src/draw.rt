//! The command `draw`: the graph of a file as text that becomes a picture.

ghost use Rattle.std.specs.Prelude.{◌≡◌, ◌+◌, ◌<◌, ◌-◌, ◌^◌, IfOk, IfErr};
ghost use Rattle.drawings.specs.Drawings.{drawn_text};
ghost use Rattle.flow_core.specs.Serve.{IsPicture, Refuses, Writes, WritesNot, graph_in, writes_in};

use crate::command_output::{CommandOutput, write_output};
use crate::fault::Fault;
use crate::opening::valid_graph;
use byte_io::ByteOut;
use drawings::{Format, drawn};
use flowgraph::Valid;
use kinds::Kind;
use rates::balance;
use std::alloc::{AllocError, Global};

/// Writes the graph of a file as text that becomes a picture, and returns the status.
pub fn draw<O: ByteOut>(
    alloc: Global,
    format: Format,
    file: &[u8],
    output: &mut O,
) -> Result<u8, Fault>
    requires writes { O.failed output.old < 2 ^ 64 - 1 }
    ensures does { IfOk result (Writes (IsPicture format file.now) (O.contents output.old) (O.contents output.new)) }
    ensures does_not { IfErr result (WritesNot (IsPicture format file.now) (graph_in file.now) (O.contents output.old)
        (O.contents output.new)) }
    ensures failed_writes { O.failed output.new ≡ O.failed output.old + writes_in result }
{
    match draw_file(alloc, format, file) {
        Ok(given) => write_output(output, &given),
        Err(fault) => Err(fault),
    }
}

// The picture of the graph of a file.
fn draw_file(alloc: Global, format: Format, file: &[u8]) -> Result<CommandOutput, Fault>
    ensures ok { IfOk result (λ given. IsPicture format file.now given.text.items given.status) }
    ensures refused { IfErr result (Refuses (graph_in file.now)) }
{
    let valid = valid_graph(alloc, file)?;
    let text = picture_of(alloc, format, &valid)?;
    Ok(CommandOutput { text, status: 0 })
}

// The picture of a valid graph.
fn picture_of(alloc: Global, format: Format, graph: &Valid<Kind>) -> Result<Vec<u8>, AllocError>
    ensures { IfOk result (λ text. text.items ≡ drawn_text format graph.now) }
{
    let rates = balance(alloc, graph)?;
    drawn(alloc, graph, &rates, format)
}
