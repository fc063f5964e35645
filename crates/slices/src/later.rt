//! The graph that runs a slice: its blocks go on where those of the whole graph stand.
ghost use Rattle.std.specs.Prelude.{◌≡◌, ◌<◌, ◌++◌, ℕ, List, ⊤, [], true, length, IfNone, IfOk, MatchOption};
ghost use Rattle.stream_model.specs.Network.{node_at};
ghost use Rattle.flowgraph.specs.Flowgraph.{net_of};
ghost use Rattle.slices.specs.LookBack.{GoesOnAs};
ghost use Rattle.slices.specs.Firings.{looks_of, look_at};
ghost use Rattle.slices.specs.Plans.{AllForget, AreLater, HasGoneOn, IsFirstToCount, NoneCounts, counting_of, firings_in};

use crate::look_back::Forgets;
use crate::reach::look_at;
use flowgraph::{BlockId, Graph, GraphFault, Valid};
use std::alloc::Global;

/// The first block whose items depend on how many firings came before. If there is none, a graph of blocks that forget
/// is its own later graph.
pub fn first_to_count<B: Forgets>(graph: &Valid<B>) -> Option<BlockId>
    ensures first { MatchOption result (NoneCounts (counting_of B.counting graph.now))
        (λ block. IsFirstToCount (counting_of B.counting graph.now) block.0) }
    ensures own { IfNone result (AllForget (looks_of B.looks_back graph.now) → (q : List ℕ) (k : ℕ)
        → HasGoneOn (net_of B.meaning graph.now) q (looks_of B.looks_back graph.now) k (net_of B.meaning graph.now)) }
{
    graph.recall();
    for block in 0..graph.len() {
        let id = BlockId(block as u32);
        if graph.block(id).counts() {
            return Some(id);
        }
    }
    None
}

/// How many base firings of a block are in so many iterations; none if they overflow.
fn firings_in<B: Forgets>(
    graph: &Valid<B>,
    block: BlockId,
    firings: &[u32],
    iterations: u64,
) -> Option<u64>
    requires { block.0 < length graph.now.blocks }
    ensures { MatchOption result ⊤ (λ count. count ≡ firings_in (net_of B.meaning graph.now) firings.now iterations
        block.0) }
{
    let block_firings = *firings.get(block.0 as usize)?;
    let all = iterations.checked_mul(u64::from(block_firings))?;
    u64::from(graph.multiple(block)).checked_mul(all)
}

/// Whether a block is like one of a graph: it means the same, and looks as far back.
fn is_like<B: Forgets>(graph: &Valid<B>, block: BlockId, like: &B) -> bool
    requires { block.0 < length graph.now.blocks }
    ensures meaning { result ≡ true → B.meaning like.now ≡ (node_at (net_of B.meaning graph.now) block.0).meaning }
    ensures look { result ≡ true → B.looks_back like.now ≡ look_at (looks_of B.looks_back graph.now) block.0 }
{
    if *like == *graph.block(block) {
        like.look_back() == look_at(graph, block)
    } else {
        false
    }
}

/// The block that goes on where a block stands after so many firings, made of one like it; none if `like` is not like
/// it, or does not forget.
fn gone_on<B: Forgets>(graph: &Valid<B>, block: BlockId, like: B, firings: u64) -> Option<B>
    requires { block.0 < length graph.now.blocks }
    ensures { MatchOption result ⊤ (λ later. GoesOnAs (node_at (net_of B.meaning graph.now) block.0).meaning
        (look_at (looks_of B.looks_back graph.now) block.0) firings (B.meaning later)) }
{
    if is_like(graph, block, &like) {
        if like.look_back().is_forgetful() {
            return Some(like.after(firings));
        }
    }
    None
}

/// A graph without connections, of the blocks that go on where those of a graph stand; none if `blocks` are not like
/// these, or one does not forget.
fn all_gone_on<B: Forgets>(
    alloc: Global,
    graph: &Valid<B>,
    firings: &[u32],
    iterations: u64,
    blocks: Vec<B>,
) -> Result<Option<Graph<B>>, GraphFault>
    ensures { IfOk result (λ found. MatchOption found ⊤ (λ made. (made.connections ≡ [])
        × AreLater (net_of B.meaning graph.now) firings.now (looks_of B.looks_back graph.now) iterations
        (length graph.now.blocks) (net_of B.meaning made).nodes)) }
{
    let mut made = Graph::new(alloc);
    let mut likes = blocks.into_iter();
    for block in 0..graph.len() {
        let id = BlockId(block as u32);
        let Some(like) = likes.next() else {
            return Ok(None);
        };
        let Some(count) = firings_in(graph, id, firings, iterations) else {
            return Ok(None);
        };
        let Some(later) = gone_on(graph, id, like, count) else {
            return Ok(None);
        };
        made.add_block(alloc, graph.name(id), later, graph.options(id))?;
    }
    Ok(Some(made))
}

/// The graph with the connections of another.
fn connected<B: Forgets>(graph: &Valid<B>, made: Graph<B>) -> Result<Graph<B>, GraphFault>
    ensures blocks { IfOk result (λ joined. joined.blocks ≡ made.blocks) }
    ensures connections { IfOk result (λ joined. joined.connections ≡ made.connections ++ graph.now.connections) }
{
    let mut joined = made;
    for connection in graph.connections() {
        joined.connect(
            connection.from,
            connection.out_port,
            connection.to,
            connection.in_port,
        )?;
    }
    Ok(joined)
}

/// The graph whose blocks go on where those of another graph stand after so many iterations, if blocks fire so often in
/// each. It is made of blocks like those of the graph, such as those read from the same file. There is none if the
/// blocks are not like them, if one does not forget, or if a count overflows. Otherwise it fails only if memory runs
/// out: each block has the ports and rates of the one that it continues.
pub fn later_graph<B: Forgets>(
    alloc: Global,
    graph: &Valid<B>,
    firings: &[u32],
    iterations: u64,
    blocks: Vec<B>,
) -> Result<Option<Valid<B>>, GraphFault>
    ensures { IfOk result (λ found. MatchOption found ⊤ (λ later.
        HasGoneOn (net_of B.meaning graph.now) firings.now (looks_of B.looks_back graph.now) iterations
        (net_of B.meaning later))) }
{
    let Some(made) = all_gone_on(alloc, graph, firings, iterations, blocks)? else {
        return Ok(None);
    };
    match connected(graph, made)?.validate(alloc) {
        Ok(valid) => {
            valid.recall();
            Ok(Some(valid))
        }
        Err((_graph, fault)) => Err(fault),
    }
}
