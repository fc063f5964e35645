//! The reports on a graph, and on a run at its end.

ghost use Rattle.std.specs.Prelude.{◌≡◌, ◌++◌, ◌<◌, ◌^◌, length, IfOk, OnOk};
ghost use Rattle.flowgraph.specs.Flowgraph.{net_of};
ghost use Rattle.items.specs.Items.{numbers_of};
ghost use Rattle.kinds.specs.Kind.{meaning_of};
ghost use Rattle.rates.specs.Answer.{AreRates, answer_of};
ghost use Rattle.plant.specs.Settling.{HasSettled};
ghost use Rattle.graph_file.specs.Blocks.{drafted};
ghost use Rattle.script_text.specs.Replies.{line_text};
ghost use Rattle.script_text.specs.Printed.{reported, tags_seen};
ghost use Rattle.script_text.specs.Reports.{sink_text};
ghost use Rattle.flow_core.specs.RawEnds.{rest_line, streamed_text};
ghost use Rattle.flow_core.specs.Reports.{check_text, rates_text, run_text, each_block, firings_line, sink_line, settled_text};

use flowgraph::{BlockId, Valid};
use kinds::Kind;
use plant::{Piece, Plant, PlantFault, Settled};
use rates::Rates;
use script_text::Report;
use std::alloc::{AllocError, Global};
use streaming::StreamingPlant;

/// The report on a valid graph: its blocks, its connections, its rates, and how often each block fires in an iteration.
pub(crate) fn check_report(
    alloc: Global,
    graph: &Valid<Kind>,
    rates: &Rates,
) -> Result<Vec<u8>, AllocError>
    requires { AreRates (net_of meaning_of graph.now) rates.now }
    ensures { IfOk result (λ text. text.items ≡ check_text (drafted graph.now)) }
{
    let mut text = Vec::new(alloc);
    add(alloc, &mut text, Report::Blocks(graph.len() as u64))?;
    add(
        alloc,
        &mut text,
        Report::Connections(graph.connections().len() as u64),
    )?;
    add_rates(alloc, &mut text, graph, rates)?;
    Ok(text)
}

// The rates, and, if they are balanced, how often each block fires.
fn add_rates(
    alloc: Global,
    text: &mut Vec<u8>,
    graph: &Valid<Kind>,
    rates: &Rates,
) -> Result<(), AllocError>
    requires { AreRates (net_of meaning_of graph.now) rates.now }
    ensures { OnOk result (text.new.items ≡ text.old.items ++ rates_text (drafted graph.now) (answer_of rates.now)) }
{
    graph.recall();
    match rates {
        Rates::Balanced(balanced) => {
            add(alloc, text, Report::Balanced)?;
            add_firings(alloc, text, graph, balanced.firings())
        }
        Rates::Uneven => add(alloc, text, Report::Uneven),
        Rates::TooLarge => add(alloc, text, Report::TooLarge),
    }
}

// How often each block fires.
fn add_firings(
    alloc: Global,
    text: &mut Vec<u8>,
    graph: &Valid<Kind>,
    firings: &[u32],
) -> Result<(), AllocError>
    requires { length firings.now ≡ length graph.now.blocks }
    ensures { OnOk result (text.new.items ≡ text.old.items ++ each_block (drafted graph.now)
        (firings_line (drafted graph.now) firings.now)) }
{
    for block in 0..graph.len() {
        let name = graph.name(BlockId(block as u32));
        let count = firings[block];
        add(alloc, text, Report::Firings { name, count })?;
    }
    Ok(())
}

/// The report on a run: what each sink holds, and how the run ended.
pub(crate) fn run_report(
    alloc: Global,
    plant: &Plant<Kind>,
    settled: Settled,
) -> Result<Vec<u8>, AllocError>
    requires { HasSettled (net_of meaning_of plant.now.graph) plant.now.capacities plant.now.state settled }
    ensures { IfOk result (λ text. text.items ≡ run_text (drafted plant.now.graph) plant.now.state) }
{
    let mut text = Vec::new(alloc);
    for block in 0..plant.graph().len() {
        add_sink(alloc, &mut text, plant, BlockId(block as u32))?;
    }
    add_end(alloc, &mut text, settled)?;
    Ok(text)
}

/// The report on a run of a streaming plant: how many items each sink has taken, with those that were not drained, and
/// how the run ended.
pub fn stream_report(
    alloc: Global,
    plant: &StreamingPlant<Kind>,
    settled: Settled,
) -> Result<Vec<u8>, AllocError>
    ensures { IfOk result (λ text. text.items ≡ streamed_text (drafted plant.now.plant.graph) plant.now.plant.state
        plant.now.kept.sinks ++ line_text (settled_text settled)) }
{
    let mut text = Vec::new(alloc);
    for block in 0..plant.graph().len() {
        add_rest(alloc, &mut text, plant, BlockId(block as u32))?;
    }
    add_end(alloc, &mut text, settled)?;
    Ok(text)
}

// What a block holds and was not drained, if it keeps its items.
fn add_rest(
    alloc: Global,
    text: &mut Vec<u8>,
    plant: &StreamingPlant<Kind>,
    block: BlockId,
) -> Result<(), AllocError>
    requires { block.0 < length plant.now.plant.graph.blocks }
    ensures { OnOk result (text.new.items ≡ text.old.items ++ rest_line (drafted plant.now.plant.graph)
        plant.now.plant.state plant.now.kept.sinks block.0) }
{
    match plant.peek(alloc, block, u64::MAX) {
        Ok(piece) => {
            let name = plant.graph().name(block);
            add_held(alloc, text, name, piece.held, &piece)
        }
        Err(PlantFault::NotSink) => Ok(()),
        // (a block that exists is refused only if memory runs out)
        Err(_) => Err(AllocError),
    }
}

// How the run ended.
fn add_end(alloc: Global, text: &mut Vec<u8>, settled: Settled) -> Result<(), AllocError>
    ensures { OnOk result (text.new.items ≡ text.old.items ++ line_text (settled_text settled)) }
{
    match settled {
        Settled::Done => add(alloc, text, Report::Done),
        Settled::Quiet => add(alloc, text, Report::Stalled),
    }
}

// What a block holds, if it keeps its items.
fn add_sink(
    alloc: Global,
    text: &mut Vec<u8>,
    plant: &Plant<Kind>,
    block: BlockId,
) -> Result<(), AllocError>
    requires { block.0 < length plant.now.graph.blocks }
    ensures { OnOk result (text.new.items ≡ text.old.items ++ sink_line (drafted plant.now.graph) plant.now.state
        block.0) }
{
    match plant.read(alloc, block, 0, u64::MAX) {
        Ok(piece) => {
            let name = plant.graph().name(block);
            add_held(alloc, text, name, piece.held, &piece)
        }
        Err(PlantFault::NotSink) => Ok(()),
        // (a block that exists is refused only if memory runs out)
        Err(_) => Err(AllocError),
    }
}

// All that a sink holds: so many items.
fn add_held(
    alloc: Global,
    text: &mut Vec<u8>,
    name: &[u8],
    held: u64,
    piece: &Piece,
) -> Result<(), AllocError>
    ensures small { held < 2 ^ 64 }
    ensures shown { OnOk result (text.new.items ≡ text.old.items ++ line_text
        (sink_text name.now held (numbers_of piece.now.items) (tags_seen piece.now.tags.items))) }
{
    let sink = Report::Sink {
        name,
        held,
        items: &piece.items,
        tags: &piece.tags,
    };
    add(alloc, text, sink)
}

// Adds a line.
fn add(alloc: Global, text: &mut Vec<u8>, report: Report<'_>) -> Result<(), AllocError>
    ensures { OnOk result (text.new.items ≡ text.old.items ++ line_text (reported report.entry)) }
{
    let line = report.to_line(alloc)?;
    text.extend_from_slice(&line)
}
