//! How the runs of a graph are cut into slices of time.

ghost use Rattle.std.specs.Prelude.{◌≡◌, ℕ, List, IfOk, IfErr, true, false};
ghost use Rattle.stream_model.specs.Network.{Network};
ghost use Rattle.slices.specs.declared.look_back.LookBack.{LookBack};
ghost use Rattle.slices.specs.Plans.{IsPlan};
ghost use Rattle.slices.specs.Cuts.{IsSlice};
ghost use Rattle.magbelu_c.specs.Slicing.{CanBegin, CannotBegin, HasNoPlan, HasPlan, Plans, Slices, asks_of};

use crate::cuts::{CutPart, CutSink, CutSource, part_rows, sink_rows, source_rows};
use crate::shows::show;
use crate::slicing::{Slicing, Uncut, not_cut, told};
use flowgraph::Valid;
use kinds::Kind;
use rates::{Rates, Repetitions, balance};
use slices::{Asks, MOST_ITERATIONS, Plan, Planned, Slice, first_to_count, plan_slices};
use std::alloc::{AllocError, Global};

/// What is asked of slices, by a number: 0 for only items.
pub(crate) fn asks(tags: u32) -> Asks
    ensures { result ≡ asks_of tags }
{
    if tags == 0 {
        Asks::Items
    } else {
        Asks::ItemsAndTags
    }
}

/// Puts how each source is cut, and each sink that keeps its items, at the front of its table if they fit.
pub(crate) fn show_plan(
    alloc: Global,
    graph: &Valid<Kind>,
    asks: Asks,
    sources: &mut [CutSource],
    sinks: &mut [CutSink],
) -> Slicing
    ensures { Plans graph.now asks sources.old sources.new sinks.old sinks.new result }
{
    let (_rates, plan) = match plan_of(alloc, graph, asks) {
        Ok(planned) => planned,
        Err(uncut) => return not_cut(uncut),
    };
    let Ok(source_rows) = source_rows(alloc, &plan.sources) else {
        return not_cut(Uncut::Memory);
    };
    let Ok(sink_rows) = sink_rows(alloc, &plan.sinks) else {
        return not_cut(Uncut::Memory);
    };
    show(&source_rows, sources);
    show(&sink_rows, sinks);
    let counting = first_to_count(graph);
    told(plan.overlap, counting, source_rows.len(), sink_rows.len())
}

/// Puts what the slice that begins at an iteration gives each sink that keeps its items at the front of the table if it
/// fits.
pub(crate) fn show_slice(
    alloc: Global,
    graph: &Valid<Kind>,
    asks: Asks,
    begins: u64,
    parts: &mut [CutPart],
) -> Slicing
    ensures { Slices graph.now asks begins parts.old parts.new result }
{
    let (rates, plan) = match plan_of(alloc, graph, asks) {
        Ok(planned) => planned,
        Err(uncut) => return not_cut(uncut),
    };
    if !can_begin(&plan, begins) {
        return not_cut(Uncut::Begin);
    }
    let Ok(slice) = slice_at(alloc, graph, &rates, &plan, begins) else {
        return not_cut(Uncut::Memory);
    };
    let Ok(rows) = part_rows(alloc, &slice.parts) else {
        return not_cut(Uncut::Memory);
    };
    show(&rows, parts);
    told(slice.from, first_to_count(graph), 0, rows.len())
}

/// The numbers that cut the runs of a graph, with the rates that they rest on.
pub(crate) fn plan_of(
    alloc: Global,
    graph: &Valid<Kind>,
    asks: Asks,
) -> Result<(Repetitions, Plan), Uncut>
    ensures planned { IfOk result (λ made. HasPlan graph.now asks made.0.firings.items made.1) }
    ensures not_planned { IfErr result (HasNoPlan graph.now asks) }
{
    let rates = match balance(alloc, graph) {
        Ok(Rates::Balanced(rates)) => rates,
        Ok(Rates::Uneven | Rates::TooLarge) => return Err(Uncut::Rates),
        Err(_) => return Err(Uncut::Memory),
    };
    match plan_slices(alloc, graph, &rates, asks) {
        Ok(Planned::Plan(plan)) => Ok((rates, plan)),
        Ok(Planned::Remembers(block)) => Err(Uncut::Remembers(block)),
        Ok(Planned::TooLate) => Err(Uncut::Rates),
        Err(_) => Err(Uncut::Memory),
    }
}

// The slice that begins at an iteration, by a plan of the graph with these rates.
fn slice_at(
    alloc: Global,
    graph: &Valid<Kind>,
    rates: &Repetitions,
    plan: &Plan,
    begins: u64,
) -> Result<Slice, AllocError>
    ghost of: { Network × List ℕ × List LookBack }
    requires plan { IsPlan of.0 of.1 of.2 plan.now }
    requires begins { CanBegin plan.now begins }
    ensures { IfOk result (IsSlice of.0 of.1 of.2 plan.now begins) }
{
    plan.slice(alloc, begins)
}

// Whether a slice may begin at an iteration.
fn can_begin(plan: &Plan, begins: u64) -> bool
    ensures can { result ≡ true → CanBegin plan.now begins }
    ensures cannot { result ≡ false → CannotBegin plan.now begins }
{
    begins == 0 || plan.overlap <= begins && begins <= MOST_ITERATIONS
}
