//! How many items so many firings move.

ghost use Rattle.std.specs.Prelude.{◌<◌, length};

use block_trait::{Block, Pace};
use flowgraph::{BlockId, Valid};

/// How many items a block took from all its inputs in its first `firings` firings.
pub(crate) fn items_in<B: Block>(graph: &Valid<B>, block: BlockId, firings: u64) -> u64
    requires { block.0 < length graph.now.blocks }
{
    let base = firings.saturating_mul(u64::from(graph.multiple(block)));
    let mut items = 0u64;
    for port in 0..graph.inputs(block).len() {
        items = items.saturating_add(taken(graph.pace(block, port), base));
    }
    items
}

/// How many items a block gave on all its outputs in its first `firings` firings.
pub(crate) fn items_out<B: Block>(graph: &Valid<B>, block: BlockId, firings: u64) -> u64
    requires { block.0 < length graph.now.blocks }
{
    let base = firings.saturating_mul(u64::from(graph.multiple(block)));
    given(graph.pace(block, 0), base).saturating_mul(graph.outputs(block) as u64)
}

// How many items of an input so many firings take; the greatest number if that is exceeded.
fn taken(pace: Pace, firings: u64) -> u64 {
    match pace {
        Pace::Rate(taken, _) | Pace::Turns(taken, _, _) | Pace::Placed(taken, _) => {
            taken.saturating_mul(firings)
        }
        Pace::Skip(_) => firings,
        Pace::Delay(count) => firings.saturating_sub(count),
    }
}

// How many items so many firings give on an output.
fn given(pace: Pace, firings: u64) -> u64 {
    match pace {
        Pace::Rate(_, given) | Pace::Turns(_, given, _) | Pace::Placed(_, given) => {
            given.saturating_mul(firings)
        }
        Pace::Skip(count) => firings.saturating_sub(count),
        Pace::Delay(_) => firings,
    }
}
