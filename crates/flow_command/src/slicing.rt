//! Parts of a run between files: what a part reads of each input, and what it leaves out of each output.

ghost use Rattle.std.specs.Prelude.{◌≡◌, ◌≤◌, ◌⊎◌, List, ℕ, IfOk};
ghost use Rattle.stream_model.specs.Network.{Network};
ghost use Rattle.flowgraph.specs.Flowgraph.{net_of};
ghost use Rattle.kinds.specs.Kind.{meaning_of};
ghost use Rattle.slices.specs.declared.look_back.LookBack.{LookBack};
ghost use Rattle.slices.specs.Firings.{looks_of};
ghost use Rattle.slices.specs.Kinds.{look_back_of};
ghost use Rattle.slices.specs.Plans.{IsPlan};

use crate::cut::{Cut, Written};
use crate::devices::Extent;
use crate::ends::Ends;
use crate::held::held_of;
use crate::lengths::{lengths_of_inputs, output_of, size_at};
use crate::slice::Slice;
use crate::stretch::Stretch;
use crate::uncut::Uncut;
use flowgraph::Valid;
use kinds::Kind;
use rates::{Rates, Repetitions, balance};
use slices::{Asks, MOST_ITERATIONS, Plan, Planned, plan_slices};
use std::alloc::Global;
use streaming::StreamingPlant;

/// What this part of a run reads and writes.
pub fn cut_of(
    rt: &HostRuntime,
    plant: &StreamingPlant<Kind>,
    ends: &Ends<'_>,
    stretch: Stretch,
) -> Result<Cut, Uncut> {
    if stretch == Stretch::Whole {
        return Ok(Cut::whole(rt.alloc()));
    }
    let graph = plant.graph();
    let (rates, plan) = plan_of(rt.alloc(), graph, asks_for(ends))?;
    test_ends(plant, ends, &plan)?;
    let lengths = lengths_of_inputs(rt, graph, ends)?;
    match stretch {
        Stretch::Slice(slice) => slice_cut(rt.alloc(), graph, &rates, &plan, &lengths, slice),
        Stretch::Items { from, most } => items_cut(rt.alloc(), graph, &rates, &plan, from, most),
        Stretch::Whole | Stretch::Resumed => resumed_cut(rt, graph, ends, &rates, &plan),
    }
}

/// Whether parts of a run between these ends have to give tags as well as items.
pub fn asks_for(ends: &Ends<'_>) -> Asks {
    if ends.tags.is_empty() {
        Asks::Items
    } else {
        Asks::ItemsAndTags
    }
}

/// The plan by which the runs of a graph are cut, for items or for tags too, and its rates.
pub fn plan_of(alloc: Global, graph: &Valid<Kind>, asks: Asks) -> Result<(Repetitions, Plan), Uncut>
    ensures { IfOk result (λ made. IsPlan (net_of meaning_of graph.now) made.0.firings.items
        (looks_of look_back_of graph.now) made.1) }
{
    match balance(alloc, graph)? {
        Rates::Balanced(rates) => match plan_slices(alloc, graph, &rates, asks)? {
            Planned::Plan(plan) => Ok((rates, plan)),
            Planned::Remembers(block) => Err(Uncut::Remembers(block)),
            Planned::TooLate => Err(Uncut::Rates),
        },
        Rates::Uneven | Rates::TooLarge => Err(Uncut::Rates),
    }
}

/// Whether no source is fed by the graph file, since each slice would feed it once more, and each sink has an output,
/// since a slice's sink keeps no part of another's.
pub fn test_ends(plant: &StreamingPlant<Kind>, ends: &Ends<'_>, plan: &Plan) -> Result<(), Uncut> {
    for source in &plan.sources {
        if plant.items_in_memory(source.block) != 0 {
            return Err(Uncut::Fed(source.block));
        }
    }
    for sink in &plan.sinks {
        if output_of(plant.graph(), ends, sink.block).is_none() {
            return Err(Uncut::NoOutput(sink.block));
        }
    }
    Ok(())
}

// One of so many slices of inputs of these lengths.
fn slice_cut(
    alloc: Global,
    graph: &Valid<Kind>,
    rates: &Repetitions,
    plan: &Plan,
    lengths: &[u64],
    slice: Slice,
) -> Result<Cut, Uncut>
    requires { IsPlan (net_of meaning_of graph.now) rates.now.firings.items (looks_of look_back_of graph.now) plan.now }
{
    let all = iterations(graph, plan, lengths);
    let (begin, end) = slice_between(slice, all, plan.overlap);
    if end == Some(begin) {
        return nothing(alloc, graph);
    }
    cut_at(alloc, graph, rates, plan, begin, end, &[])
}

// The items of each sink from this one on.
fn items_cut(
    alloc: Global,
    graph: &Valid<Kind>,
    rates: &Repetitions,
    plan: &Plan,
    from: u64,
    most: u64,
) -> Result<Cut, Uncut>
    requires { IsPlan (net_of meaning_of graph.now) rates.now.firings.items (looks_of look_back_of graph.now) plan.now }
{
    let starts = vec![in alloc; from; plan.sinks.len()]?;
    let ends = vec![in alloc; from.saturating_add(most); plan.sinks.len()]?;
    let begin = plan.last_begin(&starts);
    let end = if most < u64::MAX {
        Some(plan.first_end(&ends))
    } else {
        None
    };
    let mut cut = cut_at(alloc, graph, rates, plan, begin, end, &starts)?;
    for sink in &plan.sinks {
        if let Some(own) = cut.written.get_mut(sink.block.0 as usize) {
            own.most = most;
        }
    }
    Ok(cut)
}

// What the outputs lack.
fn resumed_cut(
    rt: &HostRuntime,
    graph: &Valid<Kind>,
    ends: &Ends<'_>,
    rates: &Repetitions,
    plan: &Plan,
) -> Result<Cut, Uncut>
    requires { IsPlan (net_of meaning_of graph.now) rates.now.firings.items (looks_of look_back_of graph.now) plan.now }
{
    let mut all_held = Vec::new(rt.alloc());
    let mut starts = Vec::new(rt.alloc());
    for sink in &plan.sinks {
        let held = held_of(rt, graph, ends, sink.block)?;
        all_held.reserve(1)?;
        all_held.push_reserved(held);
        starts.reserve(1)?;
        starts.push_reserved(held.items);
    }
    let begin = plan.last_begin(&starts);
    let mut cut = cut_at(rt.alloc(), graph, rates, plan, begin, None, &starts)?;
    for (at, sink) in plan.sinks.iter().enumerate() {
        if let Some(own) = cut.written.get_mut(sink.block.0 as usize) {
            own.held = all_held.get(at).copied();
        }
    }
    Ok(cut)
}

// The iterations at which a slice of so many begins and ends; the last goes on to the end. None begins in the midst of
// the first overlap.
fn slice_between(slice: Slice, all: u64, overlap: u64) -> (u64, Option<u64>)
    ensures begins { (result.0 ≡ 0) ⊎ (overlap ≤ result.0) }
    ensures few { result.0 ≤ MOST_ITERATIONS }
{
    let begin = end_of(slice, slice.number.saturating_sub(1), all, overlap);
    if slice.number == slice.of {
        (begin, None)
    } else {
        (begin, Some(end_of(slice, slice.number, all, overlap)))
    }
}

// Where the slice of this number ends.
fn end_of(slice: Slice, number: u64, all: u64, overlap: u64) -> u64
    ensures begins { (result ≡ 0) ⊎ (overlap ≤ result) }
    ensures few { result ≤ MOST_ITERATIONS }
{
    let end = u128::from(all) * u128::from(number) / u128::from(slice.of.max(1));
    match u64::try_from(end) {
        Ok(end) if overlap <= end && end <= MOST_ITERATIONS => end,
        _ => 0,
    }
}

// How many iterations the longest input has.
fn iterations(graph: &Valid<Kind>, plan: &Plan, lengths: &[u64]) -> u64 {
    let mut all = 0;
    for source in &plan.sources {
        let bytes = source.period.saturating_mul(size_at(graph, source.block));
        if let Some(length) = lengths.get(source.block.0 as usize) {
            all = all.max(length / bytes.max(1));
        }
    }
    all.min(MOST_ITERATIONS)
}

// A run that reads nothing, and writes nothing.
fn nothing(alloc: Global, graph: &Valid<Kind>) -> Result<Cut, Uncut> {
    let extents = vec![in alloc; Extent { from: 0, most: 0 }; graph.len()]?;
    let none = Written {
        origin: 0,
        left_out: u64::MAX,
        most: 0,
        held: None,
    };
    let written = vec![in alloc; none; graph.len()]?;
    Ok(Cut {
        extents,
        written,
        from: 0,
        begins: 0,
        goes_on: true,
    })
}

// The run of the iterations between two, or of all from the first on, by a plan with these rates. It writes each sink's
// items from the sink's number on, if it has one. No number lies before what the run gives.
fn cut_at(
    alloc: Global,
    graph: &Valid<Kind>,
    rates: &Repetitions,
    plan: &Plan,
    begin: u64,
    end: Option<u64>,
    starts: &[u64],
) -> Result<Cut, Uncut>
    ghost of: { Network × List ℕ × List LookBack }
    requires plan { IsPlan of.0 of.1 of.2 plan.now }
    requires begins { (begin ≡ 0) ⊎ (plan.now.overlap ≤ begin) }
    requires few { begin ≤ MOST_ITERATIONS }
{
    let slice = plan.slice(alloc, begin)?;
    let mut extents = vec![in alloc; Extent::WHOLE; graph.len()]?;
    for source in &plan.sources {
        let bytes = source.period.saturating_mul(size_at(graph, source.block));
        if let Some(extent) = extents.get_mut(source.block.0 as usize) {
            extent.from = slice.from.saturating_mul(bytes);
            if let Some(end) = end {
                extent.most = end.saturating_sub(slice.from).saturating_mul(bytes);
            }
        }
    }
    let mut written = vec![in alloc; Written::WHOLE; graph.len()]?;
    for (at, part) in slice.parts.iter().enumerate() {
        let start = starts.get(at).copied().unwrap_or(part.stands);
        if let Some(own) = written.get_mut(part.block.0 as usize) {
            own.origin = part.stands.saturating_sub(part.drop);
            own.left_out = part.drop.saturating_add(start.saturating_sub(part.stands));
        }
    }
    Ok(Cut {
        extents,
        written,
        from: slice.from,
        begins: begin,
        goes_on: end.is_some(),
    })
}
