//! Rounds in which some blocks are held back.

ghost use Rattle.std.specs.Prelude.{◌≡◌, ◌<◌, ◌≤◌, length, true, IfOk, OnErr};
ghost use Rattle.std.specs.Arc.{arc_value};
ghost use Rattle.stream_model.specs.Machine.{is_idle};
ghost use Rattle.flowgraph.specs.Flowgraph.{net_of};
ghost use Rattle.plant.specs.Plant.{IsRight, plant_of};
ghost use Rattle.streaming.specs.Beside.{HasMovedBeside, IsTurn, is_held};
ghost use Rattle.streaming.specs.Working.{IsLedOn};

use crate::helped::help;
use crate::helpers::Helpers;
use flowgraph::{Block, BlockId};
use plant::{Job, Parts, Step, Watch, Worked};
use std::alloc::{AllocError, Global};
use std::sync::Arc;

/// Whether a block is held back.
pub(crate) fn is_held(held: &[bool], block: BlockId) -> bool
    ensures { result ≡ is_held held.now block.0 }
{
    match held.get(block.0 as usize) {
        Some(is_held) => *is_held,
        None => false,
    }
}

/// Like `helped_round`, but blocks that are held back rest.
pub(crate) fn held_round<B: Block, H: Helpers<Job<B>, Worked<B>>>(
    parts: &mut Parts<B>,
    alloc: Global,
    max: u32,
    held: &[bool],
    helpers: &mut H,
) -> Result<bool, AllocError>
    requires right { IsRight B.meaning parts.old }
    requires idle { is_idle (plant_of parts.old).state ≡ true }
    requires some { 1 ≤ max }
    ensures led { IsLedOn B.meaning max parts.old parts.new }
    ensures idle { is_idle (plant_of parts.new).state ≡ true }
    ensures moved { let old = plant_of parts.old in IfOk result (HasMovedBeside held.now (net_of B.meaning old.graph)
        old.capacities max old.state (plant_of parts.new).state) }
{
    parts.graph.recall();
    let first = max.min(helpers.begins_round().max(1));
    let moved = step_others(parts, alloc, first, held, helpers)?;
    if !moved || !helpers.are_called() {
        return Ok(moved);
    }
    help(parts, alloc, max, held, helpers)?;
    Ok(moved)
}

// Steps each block once that is not held back, writers before readers, and returns whether one moved on.
fn step_others<B: Block, W: Watch>(
    parts: &mut Parts<B>,
    alloc: Global,
    max: u32,
    held: &[bool],
    watch: &mut W,
) -> Result<bool, AllocError>
    requires right { IsRight B.meaning parts.old }
    requires idle { is_idle (plant_of parts.old).state ≡ true }
    requires some { 1 ≤ max }
    ensures led { IsLedOn B.meaning max parts.old parts.new }
    ensures idle { is_idle (plant_of parts.new).state ≡ true }
    ensures moved { let old = plant_of parts.old in IfOk result (HasMovedBeside held.now (net_of B.meaning old.graph)
        old.capacities max old.state (plant_of parts.new).state) }
{
    parts.graph.recall();
    // (a share of it, since a step has the parts to itself)
    let graph = Arc::try_clone(&parts.graph)?;
    let order = graph.writers_first();
    let mut moved = false;
    for block in order {
        if moves(parts, alloc, *block, max, held, watch)? {
            moved = true;
        }
    }
    Ok(moved)
}

// Steps a block unless it is held back, and returns whether it fired or became done.
fn moves<B: Block, W: Watch>(
    parts: &mut Parts<B>,
    alloc: Global,
    block: BlockId,
    max: u32,
    held: &[bool],
    watch: &mut W,
) -> Result<bool, AllocError>
    requires right { IsRight B.meaning parts.old }
    requires block { block.0 < length (arc_value parts.old.graph).blocks }
    requires some { 1 ≤ max }
    ensures led { IsLedOn B.meaning max parts.old parts.new }
    ensures turn { let old = plant_of parts.old in IfOk result (IsTurn held.now (net_of B.meaning old.graph)
        old.capacities max old.state (plant_of parts.new).state block.0) }
    ensures err { OnErr result (plant_of parts.new ≡ plant_of parts.old) }
{
    if is_held(held, block) {
        return Ok(false);
    }
    parts.graph.recall();
    let was_done = parts.firings.progress(block).done;
    watch.begins(block);
    match parts.step(alloc, block, max) {
        Ok(step) => {
            watch.stepped(block, step);
            match step {
                Step::Did(_) => Ok(true),
                Step::Done => Ok(!was_done),
                Step::Busy | Step::Waiting(_) => Ok(false),
            }
        }
        Err(_) => Err(AllocError),
    }
}
