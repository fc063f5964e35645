//! The iterations until all skips are past.
ghost use Rattle.std.specs.Prelude.{◌≡◌, ◌≤◌, ℕ, List, length, IfOk};
ghost use Rattle.graph_model.specs.Rates.{is_past_skip, is_past_skips};
ghost use Rattle.flowgraph.specs.Flowgraph.{net_of};
ghost use Rattle.slices.specs.Counts.{CanCut, AreCounted, IsFirstPast};
ghost use Rattle.slices.specs.Order.{AreWithin};

use crate::counts::counts;
use block_trait::{Block, Shift};
use flowgraph::{BlockId, Valid};
use std::alloc::{AllocError, Global};

/// All skips are past within so many iterations, if rates are not too large.
const LIMIT: u64 = 65536;

/// How many iterations it takes until all skips are past, and how often each block has fired by then.
#[derive(Drop)]
pub struct Past {
    pub iterations: u64,
    pub counts: Vec<u64>,
}

/// Whether a block that skips its first items has skipped them.
fn is_past(shift: Shift, firings: u64) -> bool
    ensures { result ≡ is_past_skip shift firings }
{
    match shift {
        Shift::No => true,
        Shift::Skip(count) => count <= firings,
        Shift::Delay(_) => true,
    }
}

/// Whether each block that skips its first items has skipped them.
fn are_past<B: Block>(graph: &Valid<B>, counts: &[u64]) -> bool
    requires { length counts.now ≡ length (net_of B.meaning graph.now).nodes }
    ensures { (q : List ℕ) (j : ℕ) → AreCounted (net_of B.meaning graph.now) q j counts.now → result
        ≡ is_past_skips (net_of B.meaning graph.now) q j }
{
    for block in 0..graph.len() {
        if !is_past(graph.block(BlockId(block as u32)).shift(), counts[block]) {
            return false;
        }
    }
    true
}

/// The least number of iterations after which all skips are past, found by halving: what is past stays past.
pub fn first_past<B: Block>(
    alloc: Global,
    graph: &Valid<B>,
    order: &[BlockId],
    firings: &[u32],
) -> Result<Past, AllocError>
    requires order { AreWithin (length graph.now.blocks) order.now }
    requires can { CanCut (net_of B.meaning graph.now) firings.now }
    ensures { IfOk result (IsFirstPast (net_of B.meaning graph.now) firings.now) }
{
    let mut low = 0;
    let mut high = LIMIT;
    'halves: while low < high {
        let middle = (low + high) / 2;
        let counts = counts(alloc, graph, order, firings, middle)?;
        if are_past(graph, &counts) {
            high = middle;
        } else {
            low = middle + 1;
        }
    }
    Ok(Past {
        iterations: high,
        counts: counts(alloc, graph, order, firings, high)?,
    })
}
