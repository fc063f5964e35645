//! The firings from which on blocks give what they would have given, whatever came before their inputs, and those from
//! which on their tags are right too.
ghost use Rattle.std.specs.Prelude.{◌≡◌, ◌<◌, ◌≤◌, ◌+◌, ◌*◌, ℕ, true, false, All, length, slice_index, IfOk, MatchOption};
ghost use Rattle.stream_model.specs.Network.{node_at};
ghost use Rattle.stream_model.specs.Firings.{taken_at};
ghost use Rattle.slice_laws.specs.Slices.{settled};
ghost use Rattle.flowgraph.specs.Flowgraph.{net_of, connection_of};
ghost use Rattle.slices.specs.Firings.{firing_at, IsEnough, AreFar, CanRise, HasRisen, AreBegun, AreRisen, AreFirst, AreLate};
ghost use Rattle.slices.specs.Order.{AreWithin};

use crate::MOST_FIRINGS;
use crate::reach::Reach;
use crate::rising::raise;
use block_trait::Block;
use flowgraph::{BlockId, Connection, Valid};
use std::alloc::{AllocError, Global};

/// How many items of an input a base firing of a block takes.
fn taken<B: Block>(graph: &Valid<B>, block: BlockId, port: usize) -> u64
    requires { block.0 < length graph.now.blocks }
    ensures value { result ≡ taken_at ((node_at (net_of B.meaning graph.now) block.0).meaning.rate port) }
    ensures some { 1 ≤ result }
    ensures few { result ≤ 1024 }
{
    graph.recall();
    match graph.block(block).rate(port) {
        Some((taken, _)) => taken,
        None => 1,
    }
}

/// The item from which on a block's output is right, if its output is right from these firings on.
pub fn settled_at<B: Block>(graph: &Valid<B>, block: BlockId, first: &[u64]) -> u64
    requires there { block.0 < length graph.now.blocks }
    requires can { CanRise (net_of B.meaning graph.now) first.now }
    ensures { result ≡ settled (net_of B.meaning graph.now) (firing_at first.now) block.0 }
{
    graph.recall();
    if graph.is_source(block) {
        0
    } else {
        graph.pace(block, 0).given(first[block.0 as usize])
    }
}

/// The first firing that begins `right + back` or more items into its input, if each firing takes `taken` items.
fn first_behind(right: u64, back: u64, taken: u64) -> u64
    requires some { 1 ≤ taken }
    requires few { taken ≤ 1024 }
    ensures most { result ≤ MOST_FIRINGS + 1 }
    ensures least { (x : ℕ) → right + back ≤ taken * x → result ≤ x }
    ensures enough { (x : ℕ) → x ≤ MOST_FIRINGS → result ≤ x → right + back ≤ taken * x }
{
    right
        .saturating_add(back)
        .div_ceil(taken)
        .min(MOST_FIRINGS + 1)
}

/// The first firing of a connection's reader that looks at nothing before the item from which on its writer is right.
fn needed<B: Block>(
    graph: &Valid<B>,
    reaches: &[Reach],
    connection: Connection,
    first: &[u64],
) -> u64
    requires from { connection.from.0 < length graph.now.blocks }
    requires to { connection.to.0 < length graph.now.blocks }
    requires reaches { length reaches.now ≡ length graph.now.blocks }
    requires can { CanRise (net_of B.meaning graph.now) first.now }
    ensures most { result ≤ MOST_FIRINGS + 1 }
    ensures least { (x : ℕ) → IsEnough (net_of B.meaning graph.now) reaches.now (firing_at first.now)
        (connection_of connection) x → result ≤ x }
    ensures enough { (x : ℕ) → x ≤ MOST_FIRINGS → result ≤ x → IsEnough (net_of B.meaning graph.now) reaches.now
        (firing_at first.now) (connection_of connection) x }
{
    match reaches[connection.to.0 as usize].back {
        Some(back) => first_behind(
            settled_at(graph, connection.from, first),
            back,
            taken(graph, connection.to, connection.in_port),
        ),
        None => 0,
    }
}

/// Raises the first firing of each reader whose connection needs a later one, and returns whether it raised one.
fn turn<B: Block>(graph: &Valid<B>, reaches: &[Reach], first: &mut [u64]) -> bool
    requires reaches { length reaches.now ≡ length graph.now.blocks }
    requires can { CanRise (net_of B.meaning graph.now) first.old }
    ensures { HasRisen (net_of B.meaning graph.now) reaches.now first.old first.new result }
{
    graph.recall();
    let mut risen = false;
    for connection in graph.connections() {
        let firing = needed(graph, reaches, *connection, first);
        if raise(first, connection.to.0 as usize, firing) {
            risen = true;
        }
    }
    risen
}

/// For each block, how many firings come before those that may be right by the block alone.
fn starts<B: Block>(
    alloc: Global,
    graph: &Valid<B>,
    reaches: &[Reach],
) -> Result<Vec<u64>, AllocError>
    requires { length reaches.now ≡ length graph.now.blocks }
    ensures { IfOk result (λ first. AreBegun (net_of B.meaning graph.now) reaches.now first.items) }
{
    let mut first = Vec::with_capacity(alloc, graph.len())?;
    for block in 0..graph.len() {
        first.push(reaches[block].start.min(MOST_FIRINGS + 1))?;
    }
    Ok(first)
}

/// Raises the first firing of a block to what its inputs need.
fn look_at_inputs<B: Block>(graph: &Valid<B>, reaches: &[Reach], block: BlockId, first: &mut [u64])
    requires there { block.0 < length graph.now.blocks }
    requires reaches { length reaches.now ≡ length graph.now.blocks }
    requires begun { AreBegun (net_of B.meaning graph.now) reaches.now first.old }
    ensures { AreBegun (net_of B.meaning graph.now) reaches.now first.new }
{
    graph.recall();
    for input in graph.inputs(block) {
        let firing = needed(graph, reaches, input.connection, first);
        raise(first, block.0 as usize, firing);
    }
}

/// Raises the first firings block by block, in this order.
fn pass<B: Block>(graph: &Valid<B>, reaches: &[Reach], order: &[BlockId], first: &mut [u64])
    requires reaches { length reaches.now ≡ length graph.now.blocks }
    requires order { AreWithin (length graph.now.blocks) order.now }
    requires begun { AreBegun (net_of B.meaning graph.now) reaches.now first.old }
    ensures { AreBegun (net_of B.meaning graph.now) reaches.now first.new }
{
    for block in order {
        look_at_inputs(graph, reaches, *block, first);
    }
}

/// Raises firings until they are far enough along each connection. It makes a pass in the order of the stream, and then
/// turns over all connections until a turn raises none. If the order is right, the first turn raises none.
fn rise<B: Block>(graph: &Valid<B>, reaches: &[Reach], order: &[BlockId], first: &mut [u64])
    requires reaches { length reaches.now ≡ length graph.now.blocks }
    requires order { AreWithin (length graph.now.blocks) order.now }
    requires begun { AreBegun (net_of B.meaning graph.now) reaches.now first.old }
    ensures { AreRisen (net_of B.meaning graph.now) reaches.now first.new }
{
    pass(graph, reaches, order, first);
    'turns: while turn(graph, reaches, first) {}
}

/// Whether none of these is later than `MOST_FIRINGS`.
fn are_early(first: &[u64]) -> bool
    ensures early { result ≡ true → All (λ firing. firing ≤ MOST_FIRINGS) first.now }
    ensures late { result ≡ false → (b : ℕ) × (b < length first.now) × (MOST_FIRINGS < slice_index first.now b) }
{
    for firing in first {
        if MOST_FIRINGS < *firing {
            return false;
        }
    }
    true
}

/// Raises firings until they are the least that are far enough, and returns whether none is too late.
fn settle<B: Block>(
    graph: &Valid<B>,
    reaches: &[Reach],
    order: &[BlockId],
    first: &mut [u64],
) -> bool
    requires reaches { length reaches.now ≡ length graph.now.blocks }
    requires order { AreWithin (length graph.now.blocks) order.now }
    requires begun { AreBegun (net_of B.meaning graph.now) reaches.now first.old }
    ensures first { result ≡ true → AreFirst (net_of B.meaning graph.now) reaches.now first.new }
    ensures late { result ≡ false → AreLate (net_of B.meaning graph.now) reaches.now }
{
    graph.recall();
    rise(graph, reaches, order, first);
    are_early(first)
}

/// For each block the least firing that is far enough, if blocks look at these items; `None` if one is later than
/// `MOST_FIRINGS`.
pub fn first_firings<B: Block>(
    alloc: Global,
    graph: &Valid<B>,
    reaches: &[Reach],
    order: &[BlockId],
) -> Result<Option<Vec<u64>>, AllocError>
    requires reaches { length reaches.now ≡ length graph.now.blocks }
    requires order { AreWithin (length graph.now.blocks) order.now }
    ensures { IfOk result (λ found. MatchOption found (AreLate (net_of B.meaning graph.now) reaches.now)
        (λ first. AreFirst (net_of B.meaning graph.now) reaches.now first.items)) }
{
    let mut first = starts(alloc, graph, reaches)?;
    if settle(graph, reaches, order, &mut first) {
        Ok(Some(first))
    } else {
        Ok(None)
    }
}
