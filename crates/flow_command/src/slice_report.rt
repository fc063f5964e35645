//! Reports on slices: how a graph is cut, and how the run of a slice ended.

use crate::cut::Cut;
use crate::listing::print_text;
use crate::refusing::begins_none;
use crate::rest::Rest;
use crate::slicing::plan_of;
use crate::stops::name_of;
use crate::uncut::{Uncut, text_of};
use crate::words::Call;
use flow_core::start_fault::StartFault;
use flowgraph::{BlockId, Valid};
use graph_file::read_graph;
use kinds::Kind;
use pipeline::{Ended, Settled};
use script_text::Report;
use slices::{Asks, Plan};
use std::alloc::{AllocError, Global};
use streaming::StreamingPlant;

/// Tells how the graph of a file is cut that was checked with this status, if the words ask for it, and returns the
/// status of the call.
pub fn tell_slices(rt: &HostRuntime, call: &Call<'_>, file: &[u8], status: u8) -> u8 {
    if !call.tells_slices || status != 0 {
        return status;
    }
    let Some(graph) = graph_of(rt.alloc(), file) else {
        return begins_none(rt, StartFault::Memory);
    };
    match text(rt.alloc(), &graph) {
        Ok(text) => print_text(rt, text.as_str()),
        Err(_) => begins_none(rt, StartFault::Memory),
    }
}

// The graph of a file that was not refused before; none if memory runs out.
fn graph_of(alloc: Global, file: &[u8]) -> Option<Valid<Kind>> {
    let content = read_graph(alloc, file).ok()?;
    let (graph, _) = content.validate(alloc).ok()?;
    Some(graph)
}

fn text(alloc: Global, graph: &Valid<Kind>) -> Result<String, AllocError> {
    match plan_of(alloc, graph, Asks::Items) {
        Ok((_rates, plan)) => plan_text(alloc, graph, &plan),
        Err(Uncut::Memory) => Err(AllocError),
        Err(Uncut::Remembers(block)) => {
            let name = text_of(graph, block);
            format!(in alloc; "slices none {name}\n")
        }
        Err(_) => String::from_str(alloc, "slices none\n"),
    }
}

// A line for each source, and one for each sink that keeps its items.
fn plan_text(alloc: Global, graph: &Valid<Kind>, plan: &Plan) -> Result<String, AllocError> {
    let mut text = String::new(alloc);
    for source in &plan.sources {
        let (name, period, overlap) = (text_of(graph, source.block), source.period, source.overlap);
        let line = format!(in alloc; "slice {name} period {period} overlap {overlap}\n")?;
        text.push_str(&line)?;
    }
    for sink in &plan.sinks {
        let (name, period, drop) = (text_of(graph, sink.block), sink.period, sink.drop);
        let line = format!(in alloc; "slice {name} period {period} drops {drop}\n")?;
        text.push_str(&line)?;
    }
    Ok(text)
}

/// The report on a part of a run: how many items the pieces and the rest gave each sink, and how it ended.
pub fn part_text(
    alloc: Global,
    plant: &StreamingPlant<Kind>,
    cut: &Cut,
    rest: &Rest,
    ended: Ended,
) -> Result<Vec<u8>, AllocError> {
    let mut text = Vec::new(alloc);
    let mut block = 0u32;
    for _ in 0..plant.graph().len() {
        add_sink(alloc, &mut text, plant, cut, rest, BlockId(block))?;
        block = block.saturating_add(1);
    }
    match ended {
        Ended::Settled(Settled::Done) => {
            text.extend_from_slice(&Report::Done.to_line(alloc)?)?;
        }
        Ended::Settled(Settled::Quiet) => {
            text.extend_from_slice(&Report::Stalled.to_line(alloc)?)?;
        }
        Ended::Stopped => text.extend_from_slice(b"stopped\n")?,
    }
    Ok(text)
}

// Adds how many items a sink got.
fn add_sink(
    alloc: Global,
    text: &mut Vec<u8>,
    plant: &StreamingPlant<Kind>,
    cut: &Cut,
    rest: &Rest,
    block: BlockId,
) -> Result<(), AllocError> {
    let Ok(piece) = plant.peek(alloc, block, u64::MAX) else {
        return Ok(());
    };
    let written = rest.given(block, piece.held).min(cut.written(block).most);
    let line = Report::Sink {
        name: name_of(plant.graph(), block),
        held: written,
        items: &piece.items,
        tags: &piece.tags,
    };
    text.extend_from_slice(&line.to_line(alloc)?)
}
