//! How much paths multiply items, and the test for paths that multiply them too much.
ghost use Rattle.std.specs.Prelude.{◌≡◌, ◌≢◌, ◌<◌, ◌≤◌, ◌*◌, ◌^◌, ◌+◌, ℕ, false, [], ◌∷◌, None, Some, min, length, map, nat_lt, slice_index, All, IfOk, IfErr, OnOk};
ghost use Rattle.std.specs.List.{find};
ghost use Rattle.std.specs.Option.{option_map};
ghost use Rattle.stream_model.specs.Lists.{below};
ghost use Rattle.graph_model.specs.Rates.{greatest_of};
ghost use Rattle.graph_model.specs.Gains.{greatest_gain};
ghost use Rattle.graph_model.specs.Graphs.{gain_at, gain_by, gain_of, reaches_by, most_gain};
ghost use Rattle.graph_model.specs.Graphs as model;
ghost use Rattle.flowgraph.specs.Fault.{told};
ghost use Rattle.flowgraph.specs.Flowgraph.{net_of, graph_of};
ghost use Rattle.flowgraph.specs.Ports.{AreWithin, net_from};
ghost use Rattle.flowgraph.specs.Turns.{carried, carried_to};

use crate::fault::{GraphFault, Limit};
use crate::parts::{BlockId, Connection, Entry};
use crate::ports::MOST_PORTS;
use block_trait::Block;
use std::alloc::{AllocError, Global};

/// The greatest product of gains along a path.
const MOST_GAIN: u64 = 16_777_216;

/// The greatest product of the blocks' gains along a path, at least 1. It refuses the lowest block at which a path with
/// a product above 16,777,216 ends.
pub fn greatest_gain<B: Block>(
    alloc: Global,
    blocks: &[Entry<B>],
    connections: &[Connection],
) -> Result<u64, GraphFault>
    requires few { length blocks.now ≤ 256 }
    requires within { AreWithin (length blocks.now) connections.now }
    requires no_loop { find (λ b. reaches_by (length blocks.now) (net_from connections.now) b b)
        (below (length blocks.now)) ≡ None }
    ensures passed { OnOk result (option_map model.Gain
        (find (λ b. nat_lt most_gain (gain_by (length blocks.now) (net_of B.meaning
        (graph_of [] blocks.now connections.now)) b)) (below (length blocks.now))) ≡ None) }
    ensures value { IfOk result (λ gain. gain ≡ greatest_gain (net_of B.meaning
        (graph_of [] blocks.now connections.now))) }
    ensures refused { IfErr result (λ fault. fault ≢ GraphFault.Memory → told Limit.Blocks (option_map model.Gain
        (find (λ b. nat_lt most_gain (gain_by (length blocks.now) (net_of B.meaning
        (graph_of [] blocks.now connections.now)) b)) (below (length blocks.now)))) ≡ Some fault) }
{
    let gains = gains(alloc, blocks, connections)?;
    'steep: for block in 0..blocks.len() {
        let gain = gains[block];
        if MOST_GAIN < gain {
            return Err(GraphFault::Gain {
                block: BlockId(block as u32),
            });
        }
    }
    Ok(greatest(&gains))
}

// The greatest of these, at least 1.
fn greatest(gains: &[u64]) -> u64
    ensures { result ≡ greatest_of (1 ∷ gains.now) }
{
    let mut greatest = 1;
    for gain in gains {
        greatest = greatest.max(*gain);
    }
    greatest
}

// For each block the greatest product along a path that ends there. Turns over all connections raise the products until
// a turn raises none. That takes at most as many turns as there are blocks, and two if connections were made in the
// order of the stream.
fn gains<B: Block>(
    alloc: Global,
    blocks: &[Entry<B>],
    connections: &[Connection],
) -> Result<Vec<u64>, AllocError>
    requires within { AreWithin (length blocks.now) connections.now }
    requires no_loop { find (λ b. reaches_by (length blocks.now) (net_from connections.now) b b)
        (below (length blocks.now)) ≡ None }
    ensures len { IfOk result (λ gains. length gains.items ≡ length blocks.now) }
    ensures each { IfOk result (λ gains. (b : ℕ) → b < length blocks.now →
        slice_index gains.items b ≡ min (most_gain + 1) (gain_by (length blocks.now)
        (net_of B.meaning (graph_of [] blocks.now connections.now)) b)) }
{
    let own = own_gains(alloc, blocks)?;
    let mut gains = own_gains(alloc, blocks)?;
    cap(&mut gains);
    'turns: for _ in 0..blocks.len() {
        let raised = raise(connections, &own, &mut gains);
        if !raised {
            return Ok(gains);
        }
    }
    Ok(gains)
}

// The gain of each block by itself.
fn own_gains<B: Block>(alloc: Global, blocks: &[Entry<B>]) -> Result<Vec<u64>, AllocError>
    ensures { IfOk result (λ own. own.items ≡ map (λ e. gain_of (B.meaning e.block)) blocks.now) }
{
    let mut own = Vec::with_capacity(alloc, blocks.len())?;
    for entry in blocks {
        own.push(own_gain(&entry.block))?;
    }
    Ok(own)
}

// The gain of the input of which a firing takes fewest items.
fn own_gain<B: Block>(block: &B) -> u64
    ensures { result ≡ gain_of (B.meaning block.now) }
{
    let inputs = (block.inputs().most as usize).clamp(1, MOST_PORTS);
    let mut gain = 0;
    for input in 0..inputs {
        gain = gain.max(gain_on(block, input));
    }
    gain
}

// How many items a block gives for each that a firing takes of this input, rounded up.
fn gain_on<B: Block>(block: &B, input: usize) -> u64
    ensures { result ≡ gain_at ((B.meaning block.now).rate input) }
{
    match block.rate(input) {
        Some((taken, given)) => (given + taken - 1) / taken,
        None => 1,
    }
}

// Each product above the limit counts as the next number.
fn cap(gains: &mut [u64])
    ensures { (b : ℕ) → b < length gains.old → slice_index gains.new b ≡ min (most_gain + 1) (slice_index gains.old b) }
{
    for gain in gains.iter_mut() {
        *gain = (*gain).min(MOST_GAIN + 1);
    }
}

// Raises the product of each block that a connection leads to, if its own gain times the writer's product is more. It
// returns whether it raised one.
fn raise(connections: &[Connection], own: &[u64], gains: &mut [u64]) -> bool
    requires within { AreWithin (length gains.old) connections.now }
    requires same { length own.now ≡ length gains.old }
    ensures reached { All (λ c. carried own.now gains.old c ≤ slice_index gains.new c.to.0) connections.now }
    ensures kept { (b : ℕ) → slice_index gains.old b ≤ slice_index gains.new b }
    ensures bounded { (most : ℕ → ℕ) → ((b : ℕ) → slice_index gains.old b ≤ most b)
        → All (λ c. carried_to own.now most c ≤ most c.to.0) connections.now
        → (b : ℕ) → slice_index gains.new b ≤ most b }
    ensures still { result ≡ false → gains.new ≡ gains.old }
{
    let mut raised = false;
    for connection in connections {
        let to = connection.to.0 as usize;
        let gain = carried(own[to], gains[connection.from.0 as usize]);
        if gains[to] < gain {
            gains[to] = gain;
            raised = true;
        }
    }
    raised
}

// A product times a gain, up to the limit.
fn carried(own: u64, gain: u64) -> u64
    ensures { result ≡ min (most_gain + 1) (own * gain) }
{
    own.saturating_mul(gain).min(MOST_GAIN + 1)
}
