//! Ranks of blocks, found by searches along the connections.
ghost use Rattle.std.specs.Prelude.{◌≡◌, ◌<◌, ◌≤◌, ℕ, length, map, All, IfOk, OnOk};
ghost use Rattle.flowgraph.specs.Ports.{AreWithin};
ghost use Rattle.flowgraph.specs.Searches.{IsSearch};

use crate::by_port::{empty_rows, push_at};
use crate::fault::Side;
use crate::parts::Connection;
use crate::ports::{cleared, end_of};
use std::alloc::{AllocError, Global};

/// A step of a search.
#[derive(Clone, Copy)]
struct Step {
    block: usize,
    // The number of the root from which the search came to the block.
    root: usize,
    // Whether it leaves the block: the search has been to all that it reaches from it.
    leaves: bool,
}

/// What a search has found.
#[derive(Drop)]
struct Found {
    // The blocks in the order in which they were left.
    left: Vec<usize>,
    // For each block the number of the root from which the search came to it.
    roots: Vec<usize>,
}

/// A search that goes on.
#[derive(Drop)]
struct Search {
    // The steps to be taken, the next one last.
    stack: Vec<Step>,
    // For each block whether the search has come to it.
    seen: Vec<bool>,
    found: Found,
}

/// A rank for each block. Ranks fall along no connection. Two blocks have one rank exactly if they reach one another.
/// The contract does not say this, so who relies on it tests the ranks.
///
/// A first search, against the connections, leaves each block after its writers, except those that it reaches. So the
/// last block that it leaves reaches only blocks that reach it. A second search goes along the connections, from the
/// last block to the first. From each root it comes to the blocks that reach the root.
pub fn ranks(
    alloc: Global,
    blocks: usize,
    connections: &[Connection],
) -> Result<Vec<usize>, AllocError>
    requires few { blocks ≤ 256 }
    requires within { AreWithin blocks connections.now }
    ensures { IfOk result (λ ranks. length ranks.items ≡ blocks) }
{
    let left = writers_first(alloc, blocks, connections)?;
    let readers = neighbours(alloc, blocks, connections, Side::Out)?;
    let steps = connections.len().saturating_add(2 * blocks);
    let second = searched(alloc, &readers, &left, steps)?;
    Ok(second.roots)
}

/// The blocks, each behind its writers, but for those that it reaches. Where the order of their numbers is such an
/// order, it is that one. Who relies on this looks at them, since the contract does not say it.
pub fn writers_first(
    alloc: Global,
    blocks: usize,
    connections: &[Connection],
) -> Result<Vec<usize>, AllocError>
    requires few { blocks ≤ 256 }
    requires within { AreWithin blocks connections.now }
    ensures { IfOk result (λ left. All (λ b. b < blocks) left.items) }
{
    let steps = connections.len().saturating_add(2 * blocks);
    let writers = neighbours(alloc, blocks, connections, Side::In)?;
    let first = searched(alloc, &writers, &all(alloc, blocks)?, steps)?;
    Ok(first.left)
}

// The numbers of all blocks, that of the first last: a search begins there.
fn all(alloc: Global, blocks: usize) -> Result<Vec<usize>, AllocError>
    ensures { IfOk result (λ all. All (λ b. b < blocks) all.items) }
{
    let mut all = Vec::with_capacity(alloc, blocks)?;
    for block in 0..blocks {
        all.push(blocks - 1 - block)?;
    }
    Ok(all)
}

// For each block those at the other ends of the connections on a side of it.
fn neighbours(
    alloc: Global,
    blocks: usize,
    connections: &[Connection],
    side: Side,
) -> Result<Vec<Vec<usize>>, AllocError>
    requires { AreWithin blocks connections.now }
    ensures len { IfOk result (λ rows. length rows.items ≡ blocks) }
    ensures within { IfOk result (λ rows. All (All (λ b. b < blocks)) (map (λ row. row.items) rows.items)) }
{
    let mut rows: Vec<Vec<usize>> = empty_rows(alloc, blocks)?;
    for connection in connections {
        let (from, to) = (connection.from.0 as usize, connection.to.0 as usize);
        match side {
            Side::In => push_at(&mut rows, to, from)?,
            Side::Out => push_at(&mut rows, from, to)?,
        }
    }
    Ok(rows)
}

// Searches from each root in turn, the last root first, and from each block on to its neighbours. It comes to each
// block once, and takes at most as many steps as there are roots, blocks and connections.
fn searched(
    alloc: Global,
    neighbours: &[Vec<usize>],
    roots: &[usize],
    steps: usize,
) -> Result<Found, AllocError>
    requires neighbours { All (All (λ b. b < length neighbours.now)) (map (λ row. row.items) neighbours.now) }
    requires roots { All (λ b. b < length neighbours.now) roots.now }
    ensures left { IfOk result (λ found. All (λ b. b < length neighbours.now) found.left.items) }
    ensures roots { IfOk result (λ found. length found.roots.items ≡ length neighbours.now) }
{
    let mut search = begun(alloc, neighbours.len(), roots)?;
    'steps: for _ in 0..steps {
        if !take_step(&mut search, neighbours)? {
            break;
        }
    }
    Ok(search.found)
}

// A search of so many blocks before its first step.
fn begun(alloc: Global, blocks: usize, roots: &[usize]) -> Result<Search, AllocError>
    requires { All (λ b. b < blocks) roots.now }
    ensures { IfOk result (IsSearch blocks) }
{
    let stack = steps_to(alloc, roots)?;
    let seen = cleared(alloc, blocks)?;
    let found = Found {
        left: Vec::with_capacity(alloc, blocks)?,
        roots: vec![in alloc; 0; blocks]?,
    };
    Ok(Search { stack, seen, found })
}

// Takes the next step of a search, and returns whether there was one.
fn take_step(search: &mut Search, neighbours: &[Vec<usize>]) -> Result<bool, AllocError>
    requires neighbours { All (All (λ b. b < length neighbours.now)) (map (λ row. row.items) neighbours.now) }
    requires search { IsSearch (length neighbours.now) search.old }
    ensures { OnOk result (IsSearch (length neighbours.now) search.new) }
{
    let Some(step) = search.stack.pop() else {
        return Ok(false);
    };
    if step.leaves {
        search.found.left.push(step.block)?;
    } else if !search.seen[step.block] {
        search.seen[step.block] = true;
        search.found.roots[step.block] = step.root;
        go_on(&mut search.stack, step, &neighbours[step.block])?;
    }
    Ok(true)
}

// The steps to the roots.
fn steps_to(alloc: Global, roots: &[usize]) -> Result<Vec<Step>, AllocError>
    ensures { IfOk result (λ stack. (blocks : ℕ) → All (λ b. b < blocks) roots.now
        → All (λ s. s.block < blocks) stack.items) }
{
    let mut stack = Vec::with_capacity(alloc, roots.len())?;
    for (root, block) in roots.iter().enumerate() {
        stack.push(Step {
            block: *block,
            root,
            leaves: false,
        })?;
    }
    Ok(stack)
}

// Adds the steps from a block to its neighbours, and below them the one that leaves it.
fn go_on(stack: &mut Vec<Step>, step: Step, neighbours: &[usize]) -> Result<(), AllocError>
    ensures { OnOk result ((blocks : ℕ) → All (λ s. s.block < blocks) stack.old.items → step.block < blocks
        → All (λ b. b < blocks) neighbours.now
        → All (λ s. s.block < blocks) stack.new.items) }
{
    stack.push(Step {
        leaves: true,
        ..step
    })?;
    for block in neighbours {
        stack.push(Step {
            block: *block,
            ..step
        })?;
    }
    Ok(())
}
