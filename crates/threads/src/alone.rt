//! Steps of all blocks in turn on one thread, as `settle` makes them, until the plant rests or its work is worth more
//! threads.

ghost use Rattle.std.specs.Prelude.{◌≡◌, ◌≤◌, Some, IfOk};
ghost use Rattle.stream_model.specs.Machine.{step_of};
ghost use Rattle.flowgraph.specs.Flowgraph.{net_of};
ghost use Rattle.plant.specs.Answers.{Answered, step_reply};
ghost use Rattle.threads.specs.Outcomes.{handed_of};

use crate::pauses::Pauses;
use flowgraph::{Block, BlockId};
use plant::{Claim, Plant, PlantFault, Step, Watch};
use scheduling::Gate;
use scheduling::number_set::NumberSet;
use scheduling::policy::{is_long, is_worth};
use scheduling::rounds::{Found, Rounds, Timed};
use scheduling::stopwatch::{nanos_between, nanos_since, now};
use std::alloc::Global;
use std::time::Clock;

/// Why rounds on one thread end.
#[derive(Drop)]
pub enum Ended {
    /// No block can act, or all are done.
    Rests,
    /// Memory ran out.
    Starved,
    /// The work of each of these blocks is worth a thread, and there are at least two.
    Splits(NumberSet),
}

/// Steps all blocks in turn, writers before readers, again and again, and tells the gate of each step. After a timed
/// round whose pause is over it shows `watch` how far the plant is.
pub fn settle_alone<B: Block, R: Clock, G: Gate, W: Watch>(
    rt: &R,
    alloc: Global,
    plant: &mut Plant<B>,
    gate: &G,
    watch: &mut W,
) -> Ended
    ensures { handed_of plant.new ≡ handed_of plant.old }
{
    let mut pauses = Pauses::of(rt, watch);
    let mut rounds = Rounds::new();
    'rounds: for _ in 0..u64::MAX {
        let Ok(round) = round_of(rt, alloc, plant, rounds.most(), rounds.timed(), gate) else {
            return Ended::Starved;
        };
        if plant.all_done() || (!round.moved && plant.quiet()) {
            return Ended::Rests;
        }
        if let Timed::Round = rounds.timed() {
            if pauses.end(rt) {
                watch.show(plant.headway());
            }
        }
        if let Some(heavy) = rounds.ends(&round.found) {
            return Ended::Splits(heavy);
        }
    }
    Ended::Rests
}

// What a round did.
#[derive(Clone, Copy)]
struct Round {
    // Whether a block fired.
    moved: bool,
    found: Found,
}

// Steps each block once, writers before readers.
fn round_of<B: Block, R: Clock, G: Gate>(
    rt: &R,
    alloc: Global,
    plant: &mut Plant<B>,
    most: u32,
    timed: Timed,
    gate: &G,
) -> Result<Round, PlantFault>
    requires { 1 ≤ most }
    ensures { handed_of plant.new ≡ handed_of plant.old }
{
    // (a share of it, since a step has the plant to itself)
    let graph = plant.share_graph()?;
    let mut moved = false;
    let mut long = NumberSet::new();
    let start = match timed {
        Timed::Round => now(rt),
        _ => None,
    };
    for block in graph.writers_first() {
        let seen = turn_of(rt, alloc, plant, *block, most, timed, gate)?;
        if let Step::Did(_) = seen.step {
            moved = true;
        }
        if seen.is_long {
            long.add(block.0 as usize);
        }
    }
    let nanos = nanos_since(rt, start);
    Ok(Round {
        moved,
        found: Found { nanos, long },
    })
}

// What was seen of a block's step.
#[derive(Clone, Copy)]
struct Seen {
    step: Step,
    is_long: bool,
}

// Steps a block, and tells the gate of it.
fn turn_of<B: Block, R: Clock, G: Gate>(
    rt: &R,
    alloc: Global,
    plant: &mut Plant<B>,
    block: BlockId,
    most: u32,
    timed: Timed,
    gate: &G,
) -> Result<Seen, PlantFault>
    requires { 1 ≤ most }
    ensures { handed_of plant.new ≡ handed_of plant.old }
{
    gate.begins(block);
    let seen = step_seen(rt, alloc, plant, block, most, timed)?;
    match seen.step {
        Step::Did(firings) => gate.worked(block, firings),
        Step::Waiting(need) => gate.waits(block, need),
        Step::Done | Step::Busy => {}
    }
    Ok(seen)
}

// Steps a block, and times it if that is wanted.
fn step_seen<B: Block, R: Clock>(
    rt: &R,
    alloc: Global,
    plant: &mut Plant<B>,
    block: BlockId,
    most: u32,
    timed: Timed,
) -> Result<Seen, PlantFault>
    requires { 1 ≤ most }
    ensures { handed_of plant.new ≡ handed_of plant.old }
{
    match timed {
        Timed::Steps => {
            let start = now(rt);
            let step = stepped(plant, alloc, block, most)?;
            let is_long = is_long(nanos_since(rt, start));
            Ok(Seen { step, is_long })
        }
        Timed::Work(blocks) if blocks.has(block.0 as usize) => {
            let weighed = weigh(rt, alloc, plant, block, most)?;
            Ok(Seen {
                step: weighed.step,
                is_long: is_worth(weighed.nanos, weighed.held),
            })
        }
        _ => Ok(Seen {
            step: stepped(plant, alloc, block, most)?,
            is_long: false,
        }),
    }
}

// Steps a block, which changes nothing that the plant was handed.
fn stepped<B: Block>(
    plant: &mut Plant<B>,
    alloc: Global,
    block: BlockId,
    most: u32,
) -> Result<Step, PlantFault>
    requires { 1 ≤ most }
    ensures { handed_of plant.new ≡ handed_of plant.old }
{
    plant.step(alloc, block, most)
}

// A step, and how many nanoseconds its work, and its claim with its commit, took.
#[derive(Clone, Copy)]
struct Weighed {
    step: Step,
    nanos: u64,
    held: u64,
}

impl Weighed {
    // A step that fired nothing.
    fn nothing(step: Step) -> Weighed
        ensures { result.step ≡ step }
    {
        Weighed {
            step,
            nanos: 0,
            held: 0,
        }
    }
}

// Steps a block by its claim, its work and its commit, and times them.
fn weigh<B: Block, R: Clock>(
    rt: &R,
    alloc: Global,
    plant: &mut Plant<B>,
    block: BlockId,
    most: u32,
) -> Result<Weighed, PlantFault>
    requires { 1 ≤ most }
    ensures handed { handed_of plant.new ≡ handed_of plant.old }
    ensures stepped { IfOk result (λ w. Answered (step_of (net_of B.meaning plant.old.graph) plant.old.capacities
        plant.old.state block.0 most) plant.old plant.new (Some (step_reply w.step))) }
{
    let start = now(rt);
    match plant.claim(alloc, block, most)? {
        Claim::Claimed(job) => {
            let claimed = now(rt);
            let worked = job.work();
            let done = now(rt);
            // (it is the claim in flight, and is taken)
            let Ok(did) = plant.commit(worked) else {
                return Err(PlantFault::Memory);
            };
            Ok(Weighed {
                step: Step::Did(did.0),
                nanos: nanos_between(claimed, done),
                held: nanos_between(start, claimed).saturating_add(nanos_since(rt, done)),
            })
        }
        Claim::Done => Ok(Weighed::nothing(Step::Done)),
        Claim::Busy => Ok(Weighed::nothing(Step::Busy)),
        Claim::Waiting(need) => Ok(Weighed::nothing(Step::Waiting(need))),
    }
}
