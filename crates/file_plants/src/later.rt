//! Plants that go on where those of a graph file stand.

ghost use Rattle.std.specs.Prelude.{◌≡◌, IfOk, IfErr, IsErrOf, IsUtf8};
ghost use Rattle.toml.specs.Parse.{parse_document};
ghost use Rattle.flowgraph.specs.Flowgraph.{net_of};
ghost use Rattle.kinds.specs.Kind.{meaning_of};
ghost use Rattle.plant.specs.Plant.{ForgetsNone};
ghost use Rattle.streaming.specs.Streaming.{streaming_opening};
ghost use Rattle.slices.specs.Firings.{looks_of};
ghost use Rattle.slices.specs.Kinds.{look_back_of};
ghost use Rattle.slices.specs.Plans.{HasGoneOn};
ghost use Rattle.graph_file.specs.Refusals.{IsRefused};
ghost use Rattle.graph_file.specs.File.{meanings_of};

use crate::taking::TakesFeeds;
use flowgraph::Valid;
use graph_file::{FileFault, read_blocks};
use kinds::Kind;
use slices::later_graph;
use std::alloc::Global;
use streaming::StreamingPlant;

/// A plant that streams, with nothing fed. Its blocks go on where those of `graph` stand after so many iterations, in
/// which they fire so often. If `graph` was read from the file `text`, and all its blocks forget, it fails only if
/// memory runs out.
pub fn open_later(
    alloc: Global,
    text: &[u8],
    graph: &Valid<Kind>,
    firings: &[u32],
    iterations: u64,
) -> Result<StreamingPlant<Kind>, FileFault>
    ensures later { IfOk result (λ p. HasGoneOn (net_of meaning_of graph.now) firings.now
        (looks_of look_back_of graph.now) iterations (net_of meaning_of p.plant.graph)) }
    ensures opens { IfOk result (λ p. p.plant ≡ streaming_opening meaning_of p.plant.graph) }
    ensures none { IfOk result (λ p. ForgetsNone p.kept) }
    ensures refused { IsUtf8 text.now → IfErr result (IsRefused (meanings_of (parse_document text.now))) }
    ensures encoding { ¬ (IsUtf8 text.now) → IsErrOf result FileFault.Syntax }
{
    let blocks = read_blocks(alloc, text)?;
    match later_graph(alloc, graph, firings, iterations, blocks) {
        Ok(Some(later)) => TakesFeeds::open(alloc, later),
        // (blocks of one file are alike, and a block that goes on keeps its ports)
        Ok(None) | Err(_) => Err(FileFault::Memory),
    }
}
