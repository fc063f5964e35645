//! The report for programs: one object of JSON. Names of blocks consist of letters, digits, `_`, `.` and `-`, which
//! need no escape in strings.

ghost use Rattle.std.specs.Prelude.{◌<◌, length};
ghost use Rattle.stream_model.specs.Network.{used_outputs};
ghost use Rattle.flowgraph.specs.Flowgraph.{net_of};
ghost use Rattle.kinds.specs.Kind.{meaning_of};

use crate::blame::{all_wait_for, limiting};
use crate::figures::{Figures, Stats, Waited};
use crate::flow_of_items::{items_in, items_out};
use crate::units::{mean, per_mille, push_number};
use flowgraph::{BlockId, Valid};
use kinds::Kind;
use std::alloc::{AllocError, Global};

/// The report on a run of this graph, in one line.
pub fn json_report(
    alloc: Global,
    graph: &Valid<Kind>,
    stats: &Stats,
) -> Result<Vec<u8>, AllocError> {
    let mut out = Vec::new(alloc);
    push_count(&mut out, b"{\"nanoseconds\":", stats.nanos)?;
    out.extend_from_slice(b",\"blocks\":[")?;
    for block in 0..graph.len() {
        if let Some(figures) = stats.blocks.get(block) {
            push_comma(&mut out, 0 < block)?;
            push_block(&mut out, graph, BlockId(block as u32), figures, stats.nanos)?;
        }
    }
    out.extend_from_slice(b"],\"limited_by\":")?;
    push_limit(&mut out, graph, stats)?;
    out.extend_from_slice(b"}\n")?;
    Ok(out)
}

fn push_block(
    out: &mut Vec<u8>,
    graph: &Valid<Kind>,
    block: BlockId,
    figures: &Figures,
    run: u64,
) -> Result<(), AllocError>
    requires { block.0 < length graph.now.blocks }
{
    let firings = figures.firings;
    out.extend_from_slice(b"{\"name\":\"")?;
    out.extend_from_slice(graph.name(block))?;
    out.extend_from_slice(b"\",\"kind\":\"")?;
    out.extend_from_slice(graph.block(block).name().text().as_bytes())?;
    push_count(out, b"\",\"firings\":", firings)?;
    push_count(out, b",\"items_in\":", items_in(graph, block, firings))?;
    push_count(out, b",\"items_out\":", items_out(graph, block, firings))?;
    push_count(out, b",\"nanoseconds_at_work\":", figures.nanos)?;
    push_count(out, b",\"nanoseconds_in_turns\":", figures.lasted)?;
    push_count(
        out,
        b",\"per_mille_of_the_run\":",
        per_mille(figures.nanos, run),
    )?;
    push_count(out, b",\"turns\":", figures.turns)?;
    out.extend_from_slice(b",\"nanoseconds_of_a_turn\":")?;
    match mean(figures.nanos, figures.turns) {
        Some(nanos) => push_number(out, nanos)?,
        None => out.extend_from_slice(b"null")?,
    }
    out.extend_from_slice(b",\"waits\":[")?;
    push_waits(out, graph, block, figures)?;
    out.extend_from_slice(b"]}")
}

// Writes the waits of a block, an object for each port at which it waited.
fn push_waits(
    out: &mut Vec<u8>,
    graph: &Valid<Kind>,
    block: BlockId,
    figures: &Figures,
) -> Result<(), AllocError>
    requires { block.0 < length graph.now.blocks }
{
    let mut some = false;
    for (input, waited) in graph.inputs(block).iter().zip(&figures.inputs) {
        if 0 < waited.count {
            push_comma(out, some)?;
            some = true;
            out.extend_from_slice(b"{\"for\":\"items\",\"of\":[")?;
            push_name(out, graph, input.connection.from)?;
            push_waited(out, waited)?;
        }
    }
    for port in 0..graph.outputs(block) {
        if let Some(waited) = figures.outputs.get(port) {
            if 0 < waited.count {
                push_comma(out, some)?;
                some = true;
                push_readers(out, graph, block, port)?;
                push_waited(out, waited)?;
            }
        }
    }
    Ok(())
}

fn push_readers(
    out: &mut Vec<u8>,
    graph: &Valid<Kind>,
    block: BlockId,
    port: usize,
) -> Result<(), AllocError>
    requires block { block.0 < length graph.now.blocks }
    requires port { port < used_outputs (net_of meaning_of graph.now) block.0 }
{
    out.extend_from_slice(b"{\"for\":\"room\",\"of\":[")?;
    for (number, reader) in graph.readers(block, port).iter().enumerate() {
        push_comma(out, 0 < number)?;
        push_name(out, graph, reader.to)?;
    }
    Ok(())
}

fn push_waited(out: &mut Vec<u8>, waited: &Waited) -> Result<(), AllocError> {
    push_count(out, b"],\"count\":", waited.count)?;
    push_count(out, b",\"nanoseconds\":", waited.nanos)?;
    out.extend_from_slice(b"}")
}

// Writes the block that limits the run, and whether all waits are for it.
fn push_limit(out: &mut Vec<u8>, graph: &Valid<Kind>, stats: &Stats) -> Result<(), AllocError> {
    let Some(limit) = limiting(stats) else {
        return out.extend_from_slice(b"null,\"all_waited_for_it\":false");
    };
    push_name(out, graph, limit)?;
    out.extend_from_slice(b",\"all_waited_for_it\":")?;
    if all_wait_for(graph, stats, limit) {
        out.extend_from_slice(b"true")
    } else {
        out.extend_from_slice(b"false")
    }
}

// Writes the name of a block in quotes, if it is one of the graph.
fn push_name(out: &mut Vec<u8>, graph: &Valid<Kind>, block: BlockId) -> Result<(), AllocError> {
    out.extend_from_slice(b"\"")?;
    if (block.0 as usize) < graph.len() {
        out.extend_from_slice(graph.name(block))?;
    }
    out.extend_from_slice(b"\"")
}

// Writes a key and its number.
fn push_count(out: &mut Vec<u8>, key: &[u8], number: u64) -> Result<(), AllocError> {
    out.extend_from_slice(key)?;
    push_number(out, number)
}

fn push_comma(out: &mut Vec<u8>, is_wanted: bool) -> Result<(), AllocError> {
    if is_wanted {
        out.extend_from_slice(b",")?;
    }
    Ok(())
}
