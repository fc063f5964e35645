//! The report for people: a line for each block, and which block limits the run.

ghost use Rattle.std.specs.Prelude.{◌<◌, length};
ghost use Rattle.stream_model.specs.Network.{used_outputs};
ghost use Rattle.flowgraph.specs.Flowgraph.{net_of};
ghost use Rattle.kinds.specs.Kind.{meaning_of};

use crate::blame::{Whole, all_wait_for, limiting, longest_at_work};
use crate::figures::{Figures, Stats, Waited};
use crate::flow_of_items::{items_in, items_out};
use crate::table::{Row, Table};
use crate::units::{mean, push_grouped, push_share, push_time};
use flowgraph::{BlockId, Valid};
use kinds::Kind;
use std::alloc::{AllocError, Global};

const HEADS: [&str; 10] = [
    "block",
    "kind",
    "firings",
    "items in",
    "items out",
    "at work",
    "of the run",
    "turns",
    "mean turn",
    "waited for",
];

/// The report on a run of this graph.
pub fn text_report(
    alloc: Global,
    graph: &Valid<Kind>,
    stats: &Stats,
) -> Result<Vec<u8>, AllocError> {
    let mut table = Table::new(alloc, &HEADS)?;
    for block in 0..graph.len() {
        if let Some(figures) = stats.blocks.get(block) {
            let row = row(alloc, graph, BlockId(block as u32), figures, stats.nanos)?;
            table.push(row)?;
        }
    }
    let mut out = Vec::new(alloc);
    table.write(&mut out)?;
    push_limit(&mut out, graph, stats)?;
    Ok(out)
}

// The line of a block.
fn row(
    alloc: Global,
    graph: &Valid<Kind>,
    block: BlockId,
    figures: &Figures,
    run: u64,
) -> Result<Row, AllocError>
    requires { block.0 < length graph.now.blocks }
{
    let firings = figures.firings;
    let mut row = Vec::with_capacity(alloc, HEADS.len())?;
    row.push(Vec::from_slice(alloc, graph.name(block))?)?;
    let kind = graph.block(block).name().text();
    row.push(Vec::from_slice(alloc, kind.as_bytes())?)?;
    row.push(grouped(alloc, firings)?)?;
    row.push(grouped(alloc, items_in(graph, block, firings))?)?;
    row.push(grouped(alloc, items_out(graph, block, firings))?)?;
    row.push(time(alloc, figures.nanos)?)?;
    row.push(share(alloc, figures.nanos, run)?)?;
    row.push(grouped(alloc, figures.turns)?)?;
    row.push(mean_turn(alloc, figures)?)?;
    row.push(waits(alloc, graph, block, figures)?)?;
    Ok(row)
}

fn grouped(alloc: Global, number: u64) -> Result<Vec<u8>, AllocError> {
    let mut cell = Vec::new(alloc);
    push_grouped(&mut cell, number)?;
    Ok(cell)
}

fn time(alloc: Global, nanos: u64) -> Result<Vec<u8>, AllocError> {
    let mut cell = Vec::new(alloc);
    push_time(&mut cell, nanos)?;
    Ok(cell)
}

fn share(alloc: Global, nanos: u64, run: u64) -> Result<Vec<u8>, AllocError> {
    let mut cell = Vec::new(alloc);
    push_share(&mut cell, nanos, run)?;
    Ok(cell)
}

fn mean_turn(alloc: Global, figures: &Figures) -> Result<Vec<u8>, AllocError> {
    match mean(figures.nanos, figures.turns) {
        Some(nanos) => time(alloc, nanos),
        None => Vec::from_slice(alloc, b"-"),
    }
}

// What a block waited for, how often, and how long.
fn waits(
    alloc: Global,
    graph: &Valid<Kind>,
    block: BlockId,
    figures: &Figures,
) -> Result<Vec<u8>, AllocError>
    requires { block.0 < length graph.now.blocks }
{
    let mut cell = Vec::new(alloc);
    for (input, waited) in graph.inputs(block).iter().zip(&figures.inputs) {
        if 0 < waited.count {
            push_comma(&mut cell)?;
            cell.extend_from_slice(b"items of ")?;
            push_name(&mut cell, graph, input.connection.from)?;
            push_waited(&mut cell, waited)?;
        }
    }
    for port in 0..graph.outputs(block) {
        if let Some(waited) = figures.outputs.get(port) {
            if 0 < waited.count {
                push_comma(&mut cell)?;
                push_room(&mut cell, graph, block, port, waited)?;
            }
        }
    }
    if cell.is_empty() {
        cell.push(b'-')?;
    }
    Ok(cell)
}

fn push_room(
    out: &mut Vec<u8>,
    graph: &Valid<Kind>,
    block: BlockId,
    port: usize,
    waited: &Waited,
) -> Result<(), AllocError>
    requires block { block.0 < length graph.now.blocks }
    requires port { port < used_outputs (net_of meaning_of graph.now) block.0 }
{
    out.extend_from_slice(b"room of ")?;
    for (number, reader) in graph.readers(block, port).iter().enumerate() {
        if 0 < number {
            out.extend_from_slice(b" and ")?;
        }
        push_name(out, graph, reader.to)?;
    }
    push_waited(out, waited)
}

// Writes the name of a block, if it is one of the graph.
fn push_name(out: &mut Vec<u8>, graph: &Valid<Kind>, block: BlockId) -> Result<(), AllocError> {
    if (block.0 as usize) < graph.len() {
        out.extend_from_slice(graph.name(block))?;
    }
    Ok(())
}

fn push_waited(out: &mut Vec<u8>, waited: &Waited) -> Result<(), AllocError> {
    out.push(b' ')?;
    push_grouped(out, waited.count)?;
    out.extend_from_slice(if waited.count == 1 {
        b" time ("
    } else {
        b" times ("
    })?;
    push_time(out, waited.nanos)?;
    out.push(b')')?;
    Ok(())
}

// Writes a separator, if a part stands before it.
fn push_comma(out: &mut Vec<u8>) -> Result<(), AllocError> {
    if !out.is_empty() {
        out.extend_from_slice(b", ")?;
    }
    Ok(())
}

// Writes which block limits the run, or, if none does, what the time went to.
fn push_limit(out: &mut Vec<u8>, graph: &Valid<Kind>, stats: &Stats) -> Result<(), AllocError> {
    let Some((longest, nanos)) = longest_at_work(stats) else {
        return out.extend_from_slice(b"No block was at work.\n");
    };
    let Some(limit) = limiting(stats) else {
        return push_whole(out, graph, stats, longest, nanos);
    };
    out.extend_from_slice(b"The run is limited by ")?;
    push_name(out, graph, limit)?;
    out.extend_from_slice(b", which was at work for ")?;
    push_share(out, nanos, stats.nanos)?;
    out.extend_from_slice(b" of it")?;
    if all_wait_for(graph, stats, limit) {
        out.extend_from_slice(b", and each wait of another block was for it")?;
    }
    out.extend_from_slice(b".\n")
}

// Writes what the time of a run went to. This block was at work longest.
fn push_whole(
    out: &mut Vec<u8>,
    graph: &Valid<Kind>,
    stats: &Stats,
    longest: BlockId,
    nanos: u64,
) -> Result<(), AllocError> {
    let whole = Whole::of(stats);
    out.extend_from_slice(b"No block was at work for more than half of the run: ")?;
    push_name(out, graph, longest)?;
    out.extend_from_slice(b" was the longest, for ")?;
    push_share(out, nanos, stats.nanos)?;
    out.extend_from_slice(b" of it, and all blocks together for ")?;
    push_share(out, whole.at_work, stats.nanos)?;
    out.extend_from_slice(b".\nTheir turns had no processor for ")?;
    push_share(out, whole.lacking, stats.nanos)?;
    out.extend_from_slice(b" of it, and for ")?;
    push_share(out, whole.between, stats.nanos)?;
    out.extend_from_slice(b" or more no block had a turn.\n")
}
