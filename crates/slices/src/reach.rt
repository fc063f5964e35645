//! Which items of its inputs a block looks at, for what it gives and for the tags on it.
ghost use Rattle.std.specs.Prelude.{◌≡◌, ◌<◌, length, IfOk};
ghost use Rattle.stream_model.specs.Network.{node_at, role_at};
ghost use Rattle.flowgraph.specs.Flowgraph.{net_of};
ghost use Rattle.slices.specs.LookBack.{nearest_back};
ghost use Rattle.slices.specs.Firings.{looks_of, look_at};
ghost use Rattle.slices.specs.Reaches.{heeds, reaches_of, reach_at};

use crate::look_back::{Forgets, LookBack};
use block_trait::Block;
use flowgraph::{BlockId, Valid};
use std::alloc::{AllocError, Global};
use stream_model::Policy;

/// What a stream carries.
#[derive(Clone, Copy, Debug, PartialEq, Eq)]
pub enum Content {
    /// Its items.
    Items,
    /// The tags on them.
    Tags,
}

/// Which items of its inputs a block looks at.
#[derive(Clone, Copy, Debug, PartialEq, Eq)]
pub struct Reach {
    /// How many firings come before those that may be right.
    pub start: u64,
    /// How many items before those at its own place a firing looks at; none if it looks at no input.
    pub back: Option<u64>,
}

/// How far back a block looks.
pub fn look_at<B: Forgets>(graph: &Valid<B>, block: BlockId) -> LookBack
    requires { block.0 < length graph.now.blocks }
    ensures { result ≡ look_at (looks_of B.looks_back graph.now) block.0 }
{
    graph.block(block).look_back()
}

/// Whether the tags on a block's inputs count. If the block lets none through, they count only at a sink that keeps
/// them.
fn heeds<B: Block>(graph: &Valid<B>, block: BlockId) -> bool
    requires { block.0 < length graph.now.blocks }
    ensures { result ≡ heeds (role_at (net_of B.meaning graph.now) block.0)
        (node_at (net_of B.meaning graph.now) block.0).policy }
{
    match graph.options(block).policy {
        Policy::None => graph.is_keeper(block),
        Policy::All | Policy::One => true,
    }
}

/// How many items before those that a firing takes have tags that go to what it gives, by the rate of a block. A tag
/// goes to the nearest place, and ties go up.
fn nearest_back<B: Block>(graph: &Valid<B>, block: BlockId) -> u64
    requires { block.0 < length graph.now.blocks }
    ensures { result ≡ nearest_back ((node_at (net_of B.meaning graph.now) block.0).meaning.rate 0) }
{
    graph.recall();
    match graph.block(block).rate(0) {
        Some((taken, given)) => taken / (2 * given),
        None => 0,
    }
}

/// Which items of its inputs a block looks at.
fn reach_of<B: Forgets>(graph: &Valid<B>, block: BlockId, content: Content) -> Reach
    requires { block.0 < length graph.now.blocks }
    ensures { result ≡ reach_at (reaches_of B.meaning B.looks_back content graph.now) block.0 }
{
    let look = look_at(graph, block);
    match content {
        Content::Items => Reach {
            start: look.start(),
            back: Some(look.back()),
        },
        Content::Tags if heeds(graph, block) => Reach {
            start: look.tags_start(),
            back: Some(look.tags_back(nearest_back(graph, block))),
        },
        Content::Tags => Reach {
            start: 0,
            back: None,
        },
    }
}

/// Which items of their inputs the blocks look at.
pub fn reaches<B: Forgets>(
    alloc: Global,
    graph: &Valid<B>,
    content: Content,
) -> Result<Vec<Reach>, AllocError>
    ensures { IfOk result (λ v. v.items ≡ reaches_of B.meaning B.looks_back content graph.now) }
{
    let mut reaches = Vec::with_capacity(alloc, graph.len())?;
    for block in 0..graph.len() {
        reaches.push(reach_of(graph, BlockId(block as u32), content))?;
    }
    Ok(reaches)
}
