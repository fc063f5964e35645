//! A plant as it opens.

ghost use Rattle.std.specs.Prelude.{◌≡◌, All, length, IfOk, IfErr};
ghost use Rattle.graph_model.specs.Gains.{IsWithinGain};
ghost use Rattle.flowgraph.specs.Flowgraph.{net_of};
ghost use Rattle.plant.specs.Plant.{ForgetsNone, IsRight, plant_of, spans_in};
ghost use Rattle.plant.specs.Opening.{IsFresh, opening_plant_within};

use crate::parts::Parts;
use claimed_work::Lent;
use firing_rules::Firings;
use flowgraph::{Block, Valid};
use plant_storage::Stores;
use rates::{BufferCapacities, Rates, balance, capacities};
use std::alloc::{AllocError, Global};
use std::sync::Arc;

// All of a plant but its graph.
#[derive(Drop)]
struct Fresh {
    rates: Rates,
    capacities: BufferCapacities,
    firings: Firings,
    stores: Stores,
    lent: Vec<Lent>,
}

impl<B: Block> Parts<B> {
    /// The parts of a graph, with nothing fed and nothing fired. A tape may come to hold `longest` items. It is the
    /// plant's `alone`, or shared with copies. If memory runs out the graph is returned.
    pub fn open(
        alloc: Global,
        graph: Valid<B>,
        longest: u64,
        alone: bool,
    ) -> Result<Parts<B>, (Valid<B>, AllocError)>
        requires { IsWithinGain (net_of B.meaning graph) longest }
        ensures right { IfOk result (IsRight B.meaning) }
        ensures whole { IfOk result (λ parts. ForgetsNone (spans_in parts).firsts) }
        ensures longest { IfOk result (λ parts. All (λ n. n ≡ longest) (spans_in parts).longest) }
        ensures alone { IfOk result (λ parts. All (λ o. o ≡ alone) (spans_in parts).own) }
        ensures opens { IfOk result (λ parts. plant_of parts ≡ opening_plant_within longest B.meaning graph) }
        ensures back { IfErr result (λ refusal. refusal.0 ≡ graph) }
    {
        match prepare(alloc, &graph, longest, alone) {
            Ok(fresh) => shared(alloc, graph, fresh, longest, alone),
            Err(refusal) => Err((graph, refusal)),
        }
    }
}

// The parts of a graph, which they hold under a shared pointer.
fn shared<B: Block>(
    alloc: Global,
    graph: Valid<B>,
    fresh: Fresh,
    longest: u64,
    alone: bool,
) -> Result<Parts<B>, (Valid<B>, AllocError)>
    requires fresh { IsFresh (net_of B.meaning graph) longest alone fresh }
    requires gain { IsWithinGain (net_of B.meaning graph) longest }
    ensures right { IfOk result (IsRight B.meaning) }
    ensures whole { IfOk result (λ parts. ForgetsNone (spans_in parts).firsts) }
    ensures longest { IfOk result (λ parts. All (λ n. n ≡ longest) (spans_in parts).longest) }
    ensures alone { IfOk result (λ parts. All (λ o. o ≡ alone) (spans_in parts).own) }
    ensures opens { IfOk result (λ parts. plant_of parts ≡ opening_plant_within longest B.meaning graph) }
    ensures back { IfErr result (λ refusal. refusal.0 ≡ graph) }
{
    graph.recall();
    match Arc::new(alloc, graph) {
        Ok(graph) => Ok(Parts {
            graph,
            rates: fresh.rates,
            capacities: fresh.capacities,
            firings: fresh.firings,
            stores: fresh.stores,
            lent: fresh.lent,
        }),
        Err(refused) => Err((refused.value, AllocError)),
    }
}

// All that a plant of the graph has beside it.
fn prepare<B: Block>(
    alloc: Global,
    graph: &Valid<B>,
    longest: u64,
    alone: bool,
) -> Result<Fresh, AllocError>
    ensures { IfOk result (IsFresh (net_of B.meaning graph.now) longest alone) }
{
    graph.recall();
    let rates = balance(alloc, graph)?;
    let capacities = capacities(alloc, graph, &rates)?;
    let blocks = graph.len();
    let stores = Stores::open(alloc, graph, capacities.rows(), longest, alone)?;
    let firings = Firings::new(alloc, blocks)?;
    let lent = places(alloc, blocks)?;
    Ok(Fresh {
        rates,
        capacities,
        firings,
        stores,
        lent,
    })
}

// A place for what the jobs of each block are lent.
fn places(alloc: Global, blocks: usize) -> Result<Vec<Lent>, AllocError>
    ensures { IfOk result (λ places. length places.items ≡ blocks) }
{
    let mut places = Vec::with_capacity(alloc, blocks)?;
    for _ in 0..blocks {
        places.push_reserved(Lent::new(alloc));
    }
    Ok(places)
}
