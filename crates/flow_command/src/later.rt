//! Plants for parts of a run, whose blocks go on where they stand.

ghost use Rattle.std.specs.Prelude.{◌≡◌, ◌⊎◌, ℕ, List, IfOk, MatchOption};
ghost use Rattle.graph_model.specs.Rates.{Balanced, balance_of};
ghost use Rattle.flowgraph.specs.Flowgraph.{net_of};
ghost use Rattle.kinds.specs.Kind.{meaning_of};
ghost use Rattle.slices.specs.Firings.{looks_of};
ghost use Rattle.slices.specs.Kinds.{counts_of, look_back_of};
ghost use Rattle.slices.specs.Plans.{HasGoneOn, NoneCounts, counting_of};

use file_plants::open_later;
use flowgraph::Valid;
use kinds::Kind;
use rates::{Rates, balance};
use slices::first_to_count;
use std::alloc::{AllocError, Global};
use streaming::StreamingPlant;

/// The plant whose blocks go on where those of a graph stand after so many iterations; none if the graph's own blocks
/// do so. The graph is that of the file, and has a plan.
pub fn later_plant(
    alloc: Global,
    file: &[u8],
    graph: &Valid<Kind>,
    iterations: u64,
) -> Result<Option<StreamingPlant<Kind>>, AllocError>
    ensures { IfOk result (λ found. MatchOption found ((iterations ≡ 0) ⊎ NoneCounts (counting_of counts_of graph.now))
        (λ p. (q : List ℕ) × (balance_of (net_of meaning_of graph.now) ≡ Balanced q)
        × HasGoneOn (net_of meaning_of graph.now) q (looks_of look_back_of graph.now) iterations
        (net_of meaning_of p.plant.graph))) }
{
    if iterations == 0 || first_to_count(graph).is_none() {
        return Ok(None);
    }
    let Rates::Balanced(rates) = balance(alloc, graph)? else {
        // (a graph with a plan has a balance)
        return Err(AllocError);
    };
    match open_later(alloc, file, graph, rates.firings(), iterations) {
        Ok(plant) => Ok(Some(plant)),
        // (the file was not refused before)
        Err(_) => Err(AllocError),
    }
}
