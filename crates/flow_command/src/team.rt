//! Whether a run goes in pieces, on how many threads, and how long the pieces are.

use crate::lengths::{are_files, has_input, lengths_of_inputs, size_at};
use crate::slicing::{asks_for, plan_of, test_ends};
use crate::uncut::Uncut;
use crate::words::Call;
use flow_runs::serve::Action;
use flowgraph::{BlockId, Valid};
use kinds::Kind;
use slices::Plan;
use std::thread;
use std::thread::Threads;
use streaming::StreamingPlant;

// How many bytes of the widest stream a piece has. It has fewer if a thread would otherwise have fewer pieces than
// these. It has at least ten times the overlap, and at most so many bytes.
const USUAL: u64 = 1 << 21;

const PIECES: u64 = 4;

const LEAST_OVERLAPS: u64 = 10;

const MOST: u64 = 1 << 26;

// How many bytes of input are worth the threads, whatever the blocks do.
const LONG: u64 = 1 << 24;

/// How a run goes in pieces.
#[derive(Drop)]
pub struct Team {
    /// How many threads it has.
    pub jobs: usize,
    pub plan: Plan,
    /// How many iterations a piece has, at most.
    pub iterations: u64,
}

/// How a run goes in pieces, if it does: if the words ask for it, or if it has long files and each block forgets and
/// goes on to their end. If the words ask and it cannot be, it is refused.
pub fn team_for<R: Threads + Copy>(
    threads: R,
    rt: &HostRuntime,
    call: &Call<'_>,
    plant: &StreamingPlant<Kind>,
) -> Result<Option<Team>, Uncut> {
    match call.jobs {
        Some(jobs) if 1 < jobs => team_of(rt, call, plant, jobs),
        None if is_free(call.action) && !call.is_measured() => match free_team(
            threads, rt, call, plant,
        ) {
            Err(Uncut::Memory) => Err(Uncut::Memory),
            Err(_) => Ok(None),
            team => team,
        },
        _ => Ok(None),
    }
}

// Whether the words leave the number of threads open.
fn is_free(action: Action) -> bool {
    match action {
        Action::Run(_) => true,
        _ => false,
    }
}

// With a thread for each processor, if the inputs are long.
fn free_team<R: Threads + Copy>(
    threads: R,
    rt: &HostRuntime,
    call: &Call<'_>,
    plant: &StreamingPlant<Kind>,
) -> Result<Option<Team>, Uncut> {
    let jobs = match thread::available_parallelism(&threads) {
        Ok(count) => count.get(),
        Err(_) => 1,
    };
    let lengths = lengths_of_inputs(rt, plant.graph(), &call.ends)?;
    let are_long = lengths.iter().any(|length| LONG <= *length);
    if jobs == 1 || !are_long || !are_files(rt, &call.ends.marks) {
        return Ok(None);
    }
    // (a run may end before its inputs do, and reads no further)
    if may_end_early(plant.graph()) {
        return Ok(None);
    }
    team_of(rt, call, plant, jobs)
}

// Whether a block may end before its input does.
fn may_end_early(graph: &Valid<Kind>) -> bool {
    let mut block = 0u32;
    for _ in 0..graph.len() {
        if (block as usize) < graph.len() && graph.limit(BlockId(block)).is_some() {
            return true;
        }
        block = block.saturating_add(1);
    }
    false
}

// There is none if pieces would be too long.
fn team_of(
    rt: &HostRuntime,
    call: &Call<'_>,
    plant: &StreamingPlant<Kind>,
    jobs: usize,
) -> Result<Option<Team>, Uncut> {
    let graph = plant.graph();
    let (_rates, plan) = plan_of(rt.alloc(), graph, asks_for(&call.ends))?;
    test_ends(plant, &call.ends, &plan)?;
    let mut sources = plan.sources.iter();
    if !sources.all(|source| has_input(graph, &call.ends, source.block)) {
        return Ok(None);
    }
    let all = match lengths_of_inputs(rt, graph, &call.ends) {
        Ok(lengths) => whole_iterations(graph, &plan, &lengths),
        // (nobody knows how long it is, and it may have no end)
        Err(Uncut::NoFile(_)) if plan.sources.len() == 1 && !may_end_early(graph) => u64::MAX,
        // (a sender may write all of one before the next, and a piece needs something of each)
        Err(Uncut::NoFile(_)) => return Ok(None),
        Err(uncut) => return Err(uncut),
    };
    let widest = widest(graph, &plan).max(1);
    let each = all / PIECES.saturating_mul(jobs as u64).max(1);
    let iterations = each
        .min(USUAL / widest)
        .max(plan.overlap.saturating_mul(LEAST_OVERLAPS))
        .max(1);
    if all == 0 || MOST < iterations.saturating_mul(widest) {
        return Ok(None);
    }
    Ok(Some(Team {
        jobs,
        plan,
        iterations,
    }))
}

// How many whole iterations all inputs have.
fn whole_iterations(graph: &Valid<Kind>, plan: &Plan, lengths: &[u64]) -> u64 {
    let mut least = u64::MAX;
    for source in &plan.sources {
        let bytes = source.period.saturating_mul(size_at(graph, source.block));
        let length = lengths.get(source.block.0 as usize).copied().unwrap_or(0);
        least = least.min(length / bytes.max(1));
    }
    least
}

// How many bytes the widest stream from a source or to a sink has in an iteration.
fn widest(graph: &Valid<Kind>, plan: &Plan) -> u64 {
    let mut widest = 0;
    for source in &plan.sources {
        widest = widest.max(source.period.saturating_mul(size_at(graph, source.block)));
    }
    for sink in &plan.sinks {
        widest = widest.max(sink.period.saturating_mul(size_at(graph, sink.block)));
    }
    widest
}
