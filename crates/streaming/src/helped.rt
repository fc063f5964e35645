//! Rounds in which helpers do a part of the work.

ghost use Rattle.std.specs.Prelude.{◌≡◌, ◌<◌, ◌≤◌, ℕ, length, true, IfOk};
ghost use Rattle.std.specs.Arc.{arc_value};
ghost use Rattle.stream_model.specs.Machine.{is_idle};
ghost use Rattle.stream_model.specs.Network.{progress_at};
ghost use Rattle.flowgraph.specs.Flowgraph.{net_of};
ghost use Rattle.plant.specs.Plant.{IsRight, plant_of};
ghost use Rattle.plant.specs.Settling.{HasMoved};
ghost use Rattle.streaming.specs.Working.{IsLedOn};

use crate::beside::is_held;
use crate::helpers::Helpers;
use flowgraph::{Block, BlockId};
use plant::{Claim, Job, Parts, Step, Worked};
use std::alloc::{AllocError, Global};
use std::sync::Arc;

// How often a round with helpers looks at each block. A sink takes at most what its buffer holds each time, so this
// bounds what a round adds to it.
const LOOKS: u32 = 256;

/// Steps each block once, and returns whether one moved on. If helpers are called, they then work until nobody has
/// anything to do, the caller is wanted elsewhere, or each block was looked at as often as a round may. When it
/// returns, nothing is in flight.
pub(crate) fn helped_round<B: Block, H: Helpers<Job<B>, Worked<B>>>(
    parts: &mut Parts<B>,
    alloc: Global,
    max: u32,
    helpers: &mut H,
) -> Result<bool, AllocError>
    requires right { IsRight B.meaning parts.old }
    requires idle { is_idle (plant_of parts.old).state ≡ true }
    requires some { 1 ≤ max }
    ensures led { IsLedOn B.meaning max parts.old parts.new }
    ensures idle { is_idle (plant_of parts.new).state ≡ true }
    ensures moved { let old = plant_of parts.old in IfOk result (HasMoved (net_of B.meaning old.graph) old.capacities
        old.state (plant_of parts.new).state) }
{
    parts.graph.recall();
    let first = max.min(helpers.begins_round().max(1));
    let moved = parts.round(alloc, first, helpers)?;
    if !moved || !helpers.are_called() {
        return Ok(moved);
    }
    help(parts, alloc, max, &[], helpers)?;
    Ok(moved)
}

/// Lets helpers work, and takes back or gives up all that they were given. Blocks that are held back rest.
pub(crate) fn help<B: Block, H: Helpers<Job<B>, Worked<B>>>(
    parts: &mut Parts<B>,
    alloc: Global,
    max: u32,
    held: &[bool],
    helpers: &mut H,
) -> Result<(), AllocError>
    requires right { IsRight B.meaning parts.old }
    requires some { 1 ≤ max }
    ensures led { IsLedOn B.meaning max parts.old parts.new }
    ensures idle { is_idle (plant_of parts.new).state ≡ true }
{
    let looked = look_again(parts, alloc, max, held, helpers);
    take_all_back(parts, helpers);
    give_all_up(parts);
    looked
}

// Looks at each block, again and again, until nobody has anything to do.
fn look_again<B: Block, H: Helpers<Job<B>, Worked<B>>>(
    parts: &mut Parts<B>,
    alloc: Global,
    max: u32,
    held: &[bool],
    helpers: &mut H,
) -> Result<(), AllocError>
    requires right { IsRight B.meaning parts.old }
    requires some { 1 ≤ max }
    ensures { IsLedOn B.meaning max parts.old parts.new }
{
    for _looks in 0..LOOKS {
        if !look(parts, alloc, max, held, helpers)? && !take_next(parts, helpers) {
            return Ok(());
        }
    }
    Ok(())
}

// Looks at each block once, writers before readers, and returns whether something was done or given away; false as soon
// as the caller is wanted elsewhere.
fn look<B: Block, H: Helpers<Job<B>, Worked<B>>>(
    parts: &mut Parts<B>,
    alloc: Global,
    max: u32,
    held: &[bool],
    helpers: &mut H,
) -> Result<bool, AllocError>
    requires right { IsRight B.meaning parts.old }
    requires some { 1 ≤ max }
    ensures { IsLedOn B.meaning max parts.old parts.new }
{
    // (a share of it, since a step has the parts to itself)
    let graph = Arc::try_clone(&parts.graph)?;
    let mut acted = false;
    for block in graph.writers_first() {
        if helpers.is_called_away() {
            return Ok(false);
        }
        let took = take_done(parts, helpers);
        let did = act(parts, alloc, *block, max, held, helpers)?;
        acted = acted || took || did;
    }
    Ok(acted)
}

// Steps a block, or gives its work away, and returns whether it did. A block that is held back rests.
fn act<B: Block, H: Helpers<Job<B>, Worked<B>>>(
    parts: &mut Parts<B>,
    alloc: Global,
    block: BlockId,
    max: u32,
    held: &[bool],
    helpers: &mut H,
) -> Result<bool, AllocError>
    requires right { IsRight B.meaning parts.old }
    requires some { 1 ≤ max }
    ensures { IsLedOn B.meaning max parts.old parts.new }
{
    if is_held(held, block) {
        return Ok(false);
    }
    match helpers.share(block) {
        Some(share) => give_away(parts, alloc, block, max.min(share.max(1)), helpers),
        None => step(parts, alloc, block, max),
    }
}

// Steps a block, and returns whether it fired.
fn step<B: Block>(
    parts: &mut Parts<B>,
    alloc: Global,
    block: BlockId,
    max: u32,
) -> Result<bool, AllocError>
    requires right { IsRight B.meaning parts.old }
    requires some { 1 ≤ max }
    ensures { IsLedOn B.meaning max parts.old parts.new }
{
    match parts.step(alloc, block, max) {
        Ok(Step::Did(_)) => Ok(true),
        Ok(_) => Ok(false),
        Err(_) => Err(AllocError),
    }
}

// Claims firings of a block for a helper, and returns whether there were some. If no helper is free, they are done
// here.
fn give_away<B: Block, H: Helpers<Job<B>, Worked<B>>>(
    parts: &mut Parts<B>,
    alloc: Global,
    block: BlockId,
    max: u32,
    helpers: &mut H,
) -> Result<bool, AllocError>
    requires right { IsRight B.meaning parts.old }
    requires some { 1 ≤ max }
    ensures { IsLedOn B.meaning max parts.old parts.new }
{
    match parts.claim(alloc, block, max) {
        Ok(Claim::Claimed(job)) => {
            if let Err(job) = helpers.give(job) {
                take_back(parts, job.work());
            }
            Ok(true)
        }
        Ok(_) => Ok(false),
        Err(_) => Err(AllocError),
    }
}

// Commits work of a claim in flight, and returns whether it was. Drops other work.
fn take_back<B: Block>(parts: &mut Parts<B>, work: Worked<B>) -> bool
    requires right { IsRight B.meaning parts.old }
    ensures { (most : ℕ) → IsLedOn B.meaning most parts.old parts.new }
{
    parts.commit(work).is_ok()
}

// Commits the next work that is done, if there is some, and returns whether it was of a claim in flight.
fn take_done<B: Block, H: Helpers<Job<B>, Worked<B>>>(parts: &mut Parts<B>, helpers: &mut H) -> bool
    requires right { IsRight B.meaning parts.old }
    ensures { (most : ℕ) → IsLedOn B.meaning most parts.old parts.new }
{
    match helpers.done() {
        Some(work) => take_back(parts, work),
        None => false,
    }
}

// Waits for work and commits it, and returns whether some came.
fn take_next<B: Block, H: Helpers<Job<B>, Worked<B>>>(parts: &mut Parts<B>, helpers: &mut H) -> bool
    requires right { IsRight B.meaning parts.old }
    ensures { (most : ℕ) → IsLedOn B.meaning most parts.old parts.new }
{
    match helpers.wait() {
        Some(work) => {
            take_back(parts, work);
            true
        }
        None => false,
    }
}

// Commits all work that still comes.
fn take_all_back<B: Block, H: Helpers<Job<B>, Worked<B>>>(parts: &mut Parts<B>, helpers: &mut H)
    requires right { IsRight B.meaning parts.old }
    ensures { (most : ℕ) → IsLedOn B.meaning most parts.old parts.new }
{
    for _works in 0..u64::MAX {
        if !take_next(parts, helpers) {
            return;
        }
    }
}

// Gives up each claim in flight.
fn give_all_up<B: Block>(parts: &mut Parts<B>)
    requires right { IsRight B.meaning parts.old }
    ensures led { (most : ℕ) → IsLedOn B.meaning most parts.old parts.new }
    ensures idle { is_idle (plant_of parts.new).state ≡ true }
{
    parts.graph.recall();
    for block in 0..parts.graph.len() {
        give_up(parts, BlockId(block as u32));
    }
}

// Gives up the claim in flight of a block, if it has one.
fn give_up<B: Block>(parts: &mut Parts<B>, block: BlockId)
    requires right { IsRight B.meaning parts.old }
    requires block { block.0 < length (arc_value parts.old.graph).blocks }
    ensures led { (most : ℕ) → IsLedOn B.meaning most parts.old parts.new }
    ensures own { (progress_at (plant_of parts.new).state.progress block.0).claimed ≡ 0 }
    ensures others { (b : ℕ) → (b ≡ block.0 → ⊥) → progress_at (plant_of parts.new).state.progress b
        ≡ progress_at (plant_of parts.old).state.progress b }
{
    parts.graph.recall();
    if 0 < parts.firings.progress(block).claimed {
        parts.firings.abandon(block);
    }
}
