//! Forgets what sources have taken of their tapes, and settings that no future item can use.

ghost use Rattle.std.specs.Prelude.{◌≡◌, ◌<◌, ◌≤◌, ℕ, All, length, true, false, IsSome, slice_index_or};
ghost use Rattle.std.specs.Arc.{arc_value};
ghost use Rattle.stream_model.specs.Network.{node_at, role_at, is_source, taken_by};
ghost use Rattle.machine_laws.specs.Sound.{fired};
ghost use Rattle.flowgraph.specs.Flowgraph.{net_of};
ghost use Rattle.plant.specs.Plant.{IsRight, plant_of, spans_in};

use flowgraph::{Block, BlockId};
use plant::Parts;

/// Forgets what each source has taken of its tape, and of each other block the settings that no future item can use.
pub(crate) fn forget_taken<B: Block>(parts: &mut Parts<B>)
    requires right { IsRight B.meaning parts.old }
    requires own { All (λ o. o ≡ true) (spans_in parts.old).own }
    ensures right { IsRight B.meaning parts.new }
    ensures same { plant_of parts.new ≡ plant_of parts.old }
    ensures sinks { (spans_in parts.new).firsts.sinks ≡ (spans_in parts.old).firsts.sinks }
    ensures tapes { let new = plant_of parts.new in let net = net_of B.meaning new.graph in
        (b : ℕ) → b < length net.nodes → is_source (role_at net b) ≡ true
        → slice_index_or (spans_in parts.new).firsts.tapes b 0 ≡ fired new.state b }
    ensures settings { let new = plant_of parts.new in let net = net_of B.meaning new.graph in
        (b : ℕ) → b < length net.nodes → is_source (role_at net b) ≡ false → IsSome (node_at net b).meaning.own
        → slice_index_or (spans_in parts.new).firsts.settings b 0 ≡ taken_by (node_at net b) 0 (fired new.state b) }
    ensures alone { (spans_in parts.new).own ≡ (spans_in parts.old).own }
{
    parts.graph.recall();
    for block in 0..parts.graph.len() {
        forget_own(parts, BlockId(block as u32));
    }
}

// Forgets what a source has taken of its tape, or the settings of any other block.
fn forget_own<B: Block>(parts: &mut Parts<B>, block: BlockId)
    requires right { IsRight B.meaning parts.old }
    requires own { All (λ o. o ≡ true) (spans_in parts.old).own }
    requires block { block.0 < length (arc_value parts.old.graph).blocks }
    ensures right { IsRight B.meaning parts.new }
    ensures same { plant_of parts.new ≡ plant_of parts.old }
    ensures sinks { (spans_in parts.new).firsts.sinks ≡ (spans_in parts.old).firsts.sinks }
    ensures tape { let old = plant_of parts.old in
        is_source (role_at (net_of B.meaning old.graph) block.0) ≡ true
        → slice_index_or (spans_in parts.new).firsts.tapes block.0 0 ≡ fired old.state block.0 }
    ensures settings { let old = plant_of parts.old in let net = net_of B.meaning old.graph in
        is_source (role_at net block.0) ≡ false → IsSome (node_at net block.0).meaning.own
        → slice_index_or (spans_in parts.new).firsts.settings block.0 0
        ≡ taken_by (node_at net block.0) 0 (fired old.state block.0) }
    ensures tapes { (a : ℕ) → (a ≡ block.0 → ⊥) → slice_index_or (spans_in parts.new).firsts.tapes a 0
        ≡ slice_index_or (spans_in parts.old).firsts.tapes a 0 }
    ensures alone { (spans_in parts.new).own ≡ (spans_in parts.old).own }
    ensures others { (a : ℕ) → (a ≡ block.0 → ⊥) → slice_index_or (spans_in parts.new).firsts.settings a 0
        ≡ slice_index_or (spans_in parts.old).firsts.settings a 0 }
{
    parts.graph.recall();
    if parts.graph.is_source(block) {
        forget_tape(parts, block);
    } else {
        forget_settings(parts, block);
    }
}

// Forgets what a source has taken of its tape.
fn forget_tape<B: Block>(parts: &mut Parts<B>, block: BlockId)
    requires right { IsRight B.meaning parts.old }
    requires own { All (λ o. o ≡ true) (spans_in parts.old).own }
    requires block { block.0 < length (arc_value parts.old.graph).blocks }
    requires source { is_source (role_at (net_of B.meaning (plant_of parts.old).graph) block.0) ≡ true }
    ensures right { IsRight B.meaning parts.new }
    ensures same { plant_of parts.new ≡ plant_of parts.old }
    ensures sinks { (spans_in parts.new).firsts.sinks ≡ (spans_in parts.old).firsts.sinks }
    ensures settings { (spans_in parts.new).firsts.settings ≡ (spans_in parts.old).firsts.settings }
    ensures own { slice_index_or (spans_in parts.new).firsts.tapes block.0 0
        ≡ fired (plant_of parts.old).state block.0 }
    ensures alone { (spans_in parts.new).own ≡ (spans_in parts.old).own }
    ensures others { (a : ℕ) → (a ≡ block.0 → ⊥) → slice_index_or (spans_in parts.new).firsts.tapes a 0
        ≡ slice_index_or (spans_in parts.old).firsts.tapes a 0 }
{
    parts.graph.recall();
    let taken = parts.firings.progress(block).firings;
    parts.stores.handed[block.0 as usize].forget(taken);
}

// Forgets the settings that no future item of a block can use.
fn forget_settings<B: Block>(parts: &mut Parts<B>, block: BlockId)
    requires right { IsRight B.meaning parts.old }
    requires block { block.0 < length (arc_value parts.old.graph).blocks }
    requires worker { is_source (role_at (net_of B.meaning (plant_of parts.old).graph) block.0) ≡ false }
    ensures right { IsRight B.meaning parts.new }
    ensures same { plant_of parts.new ≡ plant_of parts.old }
    ensures sinks { (spans_in parts.new).firsts.sinks ≡ (spans_in parts.old).firsts.sinks }
    ensures tapes { (spans_in parts.new).firsts.tapes ≡ (spans_in parts.old).firsts.tapes }
    ensures own { let old = plant_of parts.old in let n = node_at (net_of B.meaning old.graph) block.0 in
        IsSome n.meaning.own → slice_index_or (spans_in parts.new).firsts.settings block.0 0
        ≡ taken_by n 0 (fired old.state block.0) }
    ensures alone { (spans_in parts.new).own ≡ (spans_in parts.old).own }
    ensures others { (a : ℕ) → (a ≡ block.0 → ⊥) → slice_index_or (spans_in parts.new).firsts.settings a 0
        ≡ slice_index_or (spans_in parts.old).firsts.settings a 0 }
{
    parts.graph.recall();
    let taken = parts
        .graph
        .taken(block, 0, parts.firings.progress(block).firings);
    parts.stores.handed[block.0 as usize].forget_settings(taken);
}
