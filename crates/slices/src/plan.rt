//! The numbers that cut the runs of a graph into slices of time.
ghost use Rattle.std.specs.Prelude.{◌≡◌, ◌<◌, ◌≤◌, ◌*◌, ◌+◌, ◌^◌, List, map, length, IfOk, MatchOption, All, true, ℕ};
ghost use Rattle.flowgraph.specs.Flowgraph.{net_of};
ghost use Rattle.rates.specs.Answer.{AreRates};
ghost use Rattle.rates.specs.declared.answers.Rates.TheVariants.{Balanced};
ghost use Rattle.slices.specs.declared.reach.Content.TheVariants as content;
ghost use Rattle.slices.specs.Firings.{looks_of, AreFirst, AreLate};
ghost use Rattle.slices.specs.Reaches.{reaches_of};
ghost use Rattle.slices.specs.Counts.{CanCut};
ghost use Rattle.slices.specs.Plans.{AllForget, IsFirstToRemember, AreAsked, source_of, sources_of, sink_at, keepers_of, CanWait, IsLeastPlan, IsPlanned};
ghost use Rattle.slices.specs.Order.{AreWithin};

use crate::first_firings::first_firings;
use crate::look_back::Forgets;
use crate::order::in_order;
use crate::overlap::{longest_wait, right_at};
use crate::past::first_past;
use crate::reach::{Content, look_at, reaches};
use flowgraph::{BlockId, Valid};
use rates::Repetitions;
use std::alloc::{AllocError, Global};

/// What slices must give exactly as the whole run does.
#[derive(Clone, Copy, Debug, PartialEq, Eq)]
pub enum Asks {
    /// The items of sinks.
    Items,
    /// The items of sinks, and their tags.
    ItemsAndTags,
}

/// How the tape of a source is cut.
#[derive(Clone, Copy, Debug, PartialEq, Eq)]
pub struct Source {
    pub block: BlockId,
    /// How many items it gives in an iteration.
    pub period: u64,
    /// How many items before its own a slice reads.
    pub overlap: u64,
}

/// How the items of a sink are put together.
#[derive(Clone, Copy, Debug, PartialEq, Eq)]
pub struct Sink {
    pub block: BlockId,
    /// How many items it takes in an iteration.
    pub period: u64,
    /// The item from which on a slice gives it what the whole run does: items, and tags if they are asked for.
    pub settled: u64,
    /// How many items of a slice are dropped.
    pub drop: u64,
}

/// The numbers that cut the runs of a graph. A slice reads some iterations before its own, and drops what these give.
#[derive(Debug, Drop)]
pub struct Plan {
    /// What it was asked for.
    pub asks: Asks,
    /// How many iterations before its own a slice reads: the least number after which all skips are past, and each sink
    /// has got all that is not right yet.
    pub overlap: u64,
    /// The numbers of the sources, in the order of the blocks.
    pub sources: Vec<Source>,
    /// The numbers of the sinks that keep their items, in the order of the blocks.
    pub sinks: Vec<Sink>,
}

/// The plan of a graph, or why there is none.
#[derive(Debug, Drop)]
pub enum Planned {
    /// The plan.
    Plan(Plan),
    /// The first block that does not forget what came long ago.
    Remembers(BlockId),
    /// A block settles only after more than `MOST_FIRINGS` firings.
    TooLate,
}

/// The first block that does not forget.
fn first_to_remember<B: Forgets>(graph: &Valid<B>) -> Option<BlockId>
    ensures { MatchOption result (AllForget (looks_of B.looks_back graph.now))
        (λ block. IsFirstToRemember (looks_of B.looks_back graph.now) block.0) }
{
    for block in 0..graph.len() {
        let id = BlockId(block as u32);
        if !look_at(graph, id).is_forgetful() {
            return Some(id);
        }
    }
    None
}

/// What the plan says of the sources.
fn sources<B: Forgets>(
    alloc: Global,
    graph: &Valid<B>,
    firings: &[u32],
    overlap: u64,
) -> Result<Vec<Source>, AllocError>
    requires can { CanCut (net_of B.meaning graph.now) firings.now }
    requires few { overlap ≤ 2 ^ 42 }
    ensures { IfOk result (λ v. v.items ≡ map (source_of firings.now overlap)
        (sources_of (net_of B.meaning graph.now))) }
{
    let mut sources = Vec::new(alloc);
    for block in 0..graph.len() {
        let id = BlockId(block as u32);
        if graph.is_source(id) {
            let period = u64::from(firings[block]);
            sources.push(Source {
                block: id,
                period,
                overlap: overlap * period,
            })?;
        }
    }
    Ok(sources)
}

/// What the plan says of the sinks. Each has got `there` items, and the overlap has so many more iterations.
fn sinks<B: Forgets>(
    alloc: Global,
    graph: &Valid<B>,
    firings: &[u32],
    first: &[u64],
    tagged: &[u64],
    there: &[u64],
    more: u64,
) -> Result<Vec<Sink>, AllocError>
    requires can { CanWait (net_of B.meaning graph.now) firings.now first.now tagged.now there.now }
    requires few { more ≤ 2 ^ 41 }
    ensures { IfOk result (λ v. v.items ≡ map (sink_at (net_of B.meaning graph.now) firings.now first.now tagged.now
        there.now more) (keepers_of (net_of B.meaning graph.now))) }
{
    let mut sinks = Vec::new(alloc);
    for block in 0..graph.len() {
        let id = BlockId(block as u32);
        if graph.is_keeper(id) {
            let period = u64::from(firings[block]);
            sinks.push(Sink {
                block: id,
                period,
                settled: right_at(graph, id, first, tagged),
                drop: there[block] + more * period,
            })?;
        }
    }
    Ok(sinks)
}

/// The plan, if each block forgets. Items are right from some firings on, and tags from others on.
fn made<B: Forgets>(
    alloc: Global,
    graph: &Valid<B>,
    order: &[BlockId],
    firings: &[u32],
    first: &[u64],
    tagged: &[u64],
    asks: Asks,
) -> Result<Plan, AllocError>
    requires order { AreWithin (length graph.now.blocks) order.now }
    requires can { CanCut (net_of B.meaning graph.now) firings.now }
    requires forget { AllForget (looks_of B.looks_back graph.now) }
    requires first { AreFirst (net_of B.meaning graph.now) (reaches_of B.meaning B.looks_back content.Items graph.now)
        first.now }
    requires tagged { AreAsked (net_of B.meaning graph.now) (reaches_of B.meaning B.looks_back content.Tags graph.now)
        asks first.now tagged.now }
    ensures { IfOk result (IsLeastPlan (net_of B.meaning graph.now) firings.now (looks_of B.looks_back graph.now)
        (reaches_of B.meaning B.looks_back content.Items graph.now) (reaches_of B.meaning B.looks_back content.Tags
        graph.now) asks) }
{
    let past = first_past(alloc, graph, order, firings)?;
    let more = longest_wait(graph, firings, first, tagged, &past.counts);
    let overlap = past.iterations + more;
    Ok(Plan {
        asks,
        overlap,
        sources: sources(alloc, graph, firings, overlap)?,
        sinks: sinks(alloc, graph, firings, first, tagged, &past.counts, more)?,
    })
}

/// For each block the least firing that is far enough, for items or for tags.
fn first_for<B: Forgets>(
    alloc: Global,
    graph: &Valid<B>,
    order: &[BlockId],
    content: Content,
) -> Result<Option<Vec<u64>>, AllocError>
    requires { AreWithin (length graph.now.blocks) order.now }
    ensures { IfOk result (λ found. MatchOption found (AreLate (net_of B.meaning graph.now)
        (reaches_of B.meaning B.looks_back content graph.now))
        (λ first. AreFirst (net_of B.meaning graph.now) (reaches_of B.meaning B.looks_back content graph.now)
        first.items)) }
{
    let reaches = reaches(alloc, graph, content)?;
    first_firings(alloc, graph, &reaches, order)
}

/// The plan that cuts the runs of a graph with these rates into slices. It fails only if the allocator refuses.
pub fn plan_slices<B: Forgets>(
    alloc: Global,
    graph: &Valid<B>,
    rates: &Repetitions,
    asks: Asks,
) -> Result<Planned, AllocError>
    requires { AreRates (net_of B.meaning graph.now) (Balanced rates.now) }
    ensures { IfOk result (IsPlanned (net_of B.meaning graph.now) rates.now.firings.items
        (looks_of B.looks_back graph.now)
        (reaches_of B.meaning B.looks_back content.Items graph.now) (reaches_of B.meaning B.looks_back content.Tags
        graph.now) asks) }
{
    graph.recall();
    if let Some(block) = first_to_remember(graph) {
        return Ok(Planned::Remembers(block));
    }
    let order = in_order(alloc, graph)?;
    let Some(first) = first_for(alloc, graph, &order, Content::Items)? else {
        return Ok(Planned::TooLate);
    };
    let plan = match asks {
        Asks::Items => made(alloc, graph, &order, rates.firings(), &first, &first, asks)?,
        Asks::ItemsAndTags => match first_for(alloc, graph, &order, Content::Tags)? {
            Some(tagged) => made(alloc, graph, &order, rates.firings(), &first, &tagged, asks)?,
            None => return Ok(Planned::TooLate),
        },
    };
    Ok(Planned::Plan(plan))
}
