//! The capacities that connections need, found by running the counts of firings until all skips are past.

ghost use Rattle.std.specs.Prelude.{◌≡◌, length, false, slice_index, IfOk, IsTrue};
ghost use Rattle.std.specs.List.{list_all};
ghost use Rattle.stream_model.specs.Lists.{below};
ghost use Rattle.stream_model.specs.Network.{Network, node_at};
ghost use Rattle.graph_model.specs.Rates.{is_past_skip, past_skips, fits_limit};
ghost use Rattle.rates.specs.Counts.{AreCounted, CanRun, CanNeed, AreNeeded, AreMet};

use crate::LIMIT;
use crate::counts::{pass, start};
use crate::order::order;
use crate::tables::{Link, Supply};
use std::alloc::{AllocError, Global};
use stream_model::Shift;

/// Whether a block that skips its first items has skipped them.
fn is_past(shift: Shift, firings: u64) -> bool
    ensures { result ≡ is_past_skip shift firings }
{
    match shift {
        Shift::No => true,
        Shift::Skip(count) => count <= firings,
        Shift::Delay(_) => true,
    }
}

/// Whether each block that skips its first items has skipped them.
fn are_past(supplies: &[Supply], counts: &[u64]) -> bool
    ghost net: { Network }
    requires { AreCounted net supplies.now counts.now }
    ensures { result ≡ list_all (λ b. is_past_skip (node_at net b).meaning.shift (slice_index counts.now b))
        (below (length net.nodes)) }
{
    for (block, supply) in supplies.iter().enumerate() {
        if !is_past(supply.shift, counts[block]) {
            return false;
        }
    }
    true
}

/// Steps until all skips are past, and once more. It ends early if a writer is too far ahead of a reader.
pub fn run(
    supplies: &[Supply],
    links: &[Link],
    order: &[usize],
    firings: &[u32],
    before: &mut [u64],
    after: &mut [u64],
    needed: &mut [u64],
) -> bool
    ghost net: { Network }
    requires { CanRun net supplies.now links.now order.now firings.now before.old after.old needed.old }
    ensures found { IsTrue result → AreNeeded net firings.now needed.new }
    ensures far { result ≡ false → fits_limit net firings.now (past_skips net firings.now) ≡ false }
{
    for step in 0..LIMIT + 2 {
        let past = step > 0 && are_past(supplies, before);
        start(supplies, firings, step, after);
        if !pass(supplies, links, order, firings, step, before, after, needed) {
            return false;
        }
        if past {
            return true;
        }
        before.copy_from_slice(after);
    }
    false
}

/// What each connection needs; `None` if that, or the number of iterations until the skips are past, is above the
/// limit.
pub fn needs(
    alloc: Global,
    supplies: &[Supply],
    links: &[Link],
    firings: &[u32],
) -> Result<Option<Vec<u64>>, AllocError>
    ghost net: { Network }
    requires { CanNeed net supplies.now links.now firings.now }
    ensures { IfOk result (AreMet net firings.now) }
{
    let order = order(alloc, links, supplies.len())?;
    let mut before: Vec<u64> = vec![in alloc; 0; supplies.len()]?;
    let mut after: Vec<u64> = vec![in alloc; 0; supplies.len()]?;
    let mut needed: Vec<u64> = vec![in alloc; 0; links.len()]?;
    if run(
        supplies,
        links,
        &order,
        firings,
        &mut before,
        &mut after,
        &mut needed,
    ) {
        Ok(Some(needed))
    } else {
        Ok(None)
    }
}
