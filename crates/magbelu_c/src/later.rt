//! Plants whose blocks go on where those of a graph file stand after some iterations.

ghost use Rattle.std.specs.Prelude.{IfOk, IfErr};
ghost use Rattle.magbelu_c.specs.Later.{HasNoLater, IsLater, IsLaterStream, OfGraph, OpensNot};

use crate::any_plant::AnyPlant;
use crate::slice_plans::plan_of;
use crate::slicing::Uncut;
use file_plants::open_later;
use flow_core::opening::open_stream;
use flowgraph::Valid;
use graph_file::FileFault;
use kinds::Kind;
use slices::{Asks, MOST_ITERATIONS};
use std::alloc::Global;
use streaming::StreamingPlant;

/// Why no such plant was opened.
#[derive(Drop)]
pub(crate) enum Unopened {
    /// The file is refused.
    File(FileFault),
    /// Its graph is not cut, or not at so late an iteration.
    Uncut(Uncut),
}

/// The plant whose blocks go on where those of a graph file stand after so many iterations, in memory of its own.
pub(crate) fn opened_later(
    alloc: Global,
    file: &[u8],
    iterations: u64,
) -> Result<Box<AnyPlant>, Unopened>
    ensures opens { IfOk result (λ plant. OfGraph file.now (λ g. IsLater g iterations plant.value)) }
    ensures refused { IfErr result (OpensNot file.now iterations) }
{
    let first = match open_stream(alloc, file) {
        Ok(first) => first,
        Err(fault) => return Err(Unopened::File(fault)),
    };
    let later = match later_stream(alloc, file, first.graph(), iterations) {
        Ok(later) => later,
        Err(uncut) => return Err(Unopened::Uncut(uncut)),
    };
    match Box::new(alloc, AnyPlant::Streaming(later)) {
        Ok(plant) => Ok(plant),
        Err(_) => Err(Unopened::Uncut(Uncut::Memory)),
    }
}

// The same, of the graph that was read from the file.
fn later_stream(
    alloc: Global,
    file: &[u8],
    graph: &Valid<Kind>,
    iterations: u64,
) -> Result<StreamingPlant<Kind>, Uncut>
    ensures later { IfOk result (IsLaterStream graph.now iterations) }
    ensures none { IfErr result (HasNoLater graph.now iterations) }
{
    let (rates, _plan) = match plan_of(alloc, graph, Asks::Items) {
        Ok(planned) => planned,
        Err(uncut) => return Err(uncut),
    };
    if MOST_ITERATIONS < iterations {
        return Err(Uncut::Begin);
    }
    match open_later(alloc, file, graph, rates.firings(), iterations) {
        Ok(later) => Ok(later),
        // (the file was not refused before)
        Err(_) => Err(Uncut::Memory),
    }
}
