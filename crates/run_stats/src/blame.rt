//! Which block limits a run, and whom blocks wait for.

ghost use Rattle.std.specs.Prelude.{◌<◌, length};

use crate::figures::{Figures, Stats};
use flowgraph::{Block, BlockId, Valid};

/// The block that was at work longest (the lowest if there are several), and for how long; none if no block was at
/// work.
pub(crate) fn longest_at_work(stats: &Stats) -> Option<(BlockId, u64)> {
    let mut longest = 0;
    let mut found = None;
    for (block, figures) in (0..u32::MAX).zip(&stats.blocks) {
        if longest < figures.nanos {
            longest = figures.nanos;
            found = Some((BlockId(block), longest));
        }
    }
    found
}

/// The block that limits the run: it was at work for more than half of it.
pub(crate) fn limiting(stats: &Stats) -> Option<BlockId> {
    match longest_at_work(stats) {
        Some((block, nanos)) if stats.nanos / 2 < nanos => Some(block),
        _ => None,
    }
}

/// What the time of a run went to, in nanoseconds.
#[derive(Clone, Copy)]
pub(crate) struct Whole {
    /// How long all blocks were at work together.
    pub(crate) at_work: u64,
    /// For how long their turns had no processor.
    pub(crate) lacking: u64,
    /// For how long, at least, no block had a turn.
    pub(crate) between: u64,
}

impl Whole {
    pub(crate) fn of(stats: &Stats) -> Whole {
        let mut at_work = 0u64;
        let mut lasted = 0u64;
        for figures in &stats.blocks {
            at_work = at_work.saturating_add(figures.nanos);
            lasted = lasted.saturating_add(figures.lasted);
        }
        Whole {
            at_work,
            lacking: lasted.saturating_sub(at_work),
            between: stats.nanos.saturating_sub(lasted),
        }
    }
}

/// Whether other blocks waited, and always for this one.
pub(crate) fn all_wait_for<B: Block>(graph: &Valid<B>, stats: &Stats, limit: BlockId) -> bool {
    let mut some = false;
    for block in 0..graph.len() {
        if let Some(figures) = stats.blocks.get(block) {
            let block = BlockId(block as u32);
            if block != limit {
                match waits_for(graph, block, figures, limit) {
                    Whom::Nobody => {}
                    Whom::It => some = true,
                    Whom::Others => return false,
                }
            }
        }
    }
    some
}

// Whom a block waited for.
#[derive(Clone, Copy)]
enum Whom {
    Nobody,
    // Only this block.
    It,
    Others,
}

fn waits_for<B: Block>(graph: &Valid<B>, block: BlockId, figures: &Figures, limit: BlockId) -> Whom
    requires { block.0 < length graph.now.blocks }
{
    let mut whom = Whom::Nobody;
    for (input, waited) in graph.inputs(block).iter().zip(&figures.inputs) {
        if 0 < waited.count {
            if input.connection.from != limit {
                return Whom::Others;
            }
            whom = Whom::It;
        }
    }
    for port in 0..graph.outputs(block) {
        if has_waited(figures, port) {
            if !graph
                .readers(block, port)
                .iter()
                .any(|reader| reader.to == limit)
            {
                return Whom::Others;
            }
            whom = Whom::It;
        }
    }
    whom
}

// Whether a block waited for room on this output.
fn has_waited(figures: &Figures, port: usize) -> bool {
    match figures.outputs.get(port) {
        Some(waited) => 0 < waited.count,
        None => false,
    }
}
