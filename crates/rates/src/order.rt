//! An order of a graph's connections: those to a block come before those from it.

ghost use Rattle.std.specs.Prelude.{IfOk};
ghost use Rattle.stream_model.specs.Network.{Network};
ghost use Rattle.rates.specs.Tables.{IsTable};
ghost use Rattle.rates.specs.Counts.{AreReady, CanMark, CanPlace, HasPlaced, CanOrder, IsOrder};

use crate::tables::Link;
use std::alloc::{AllocError, Global};

/// Marks the blocks whose incoming connections are all placed.
fn mark(links: &[Link], placed: &[bool], ready: &mut [bool])
    ghost net: { Network }
    requires { CanMark net links.now placed.now ready.old }
    ensures { AreReady net placed.now ready.new }
{
    ready.fill(true);
    for (number, link) in links.iter().enumerate() {
        if !placed[number] {
            ready[link.to] = false;
        }
    }
}

/// Places the connections from the blocks that are ready.
fn place(
    links: &[Link],
    ready: &[bool],
    placed: &mut [bool],
    order: &mut Vec<usize>,
) -> Result<(), AllocError>
    ghost net: { Network }
    requires { CanPlace net links.now ready.now placed.old order.old.items }
    ensures { IfOk result (λ _. HasPlaced net ready.now placed.old placed.new order.new.items) }
{
    for (number, link) in links.iter().enumerate() {
        if !placed[number] && ready[link.from] {
            order.push(number)?;
            placed[number] = true;
        }
    }
    Ok(())
}

/// Places all connections. Each round places those from the blocks of one more level.
fn rounds(
    links: &[Link],
    placed: &mut [bool],
    ready: &mut [bool],
    order: &mut Vec<usize>,
) -> Result<(), AllocError>
    ghost net: { Network }
    requires { CanOrder net links.now placed.old ready.old order.old.items }
    ensures { IfOk result (λ _. IsOrder net order.new.items) }
{
    for _round in 0..ready.len() {
        mark(links, placed, ready);
        place(links, ready, placed, order)?;
    }
    Ok(())
}

/// The numbers of the connections in order.
pub fn order(alloc: Global, links: &[Link], blocks: usize) -> Result<Vec<usize>, AllocError>
    ghost net: { Network }
    requires { IsTable net links.now blocks }
    ensures { IfOk result (λ order. IsOrder net order.items) }
{
    let mut placed: Vec<bool> = vec![in alloc; false; links.len()]?;
    let mut ready: Vec<bool> = vec![in alloc; false; blocks]?;
    let mut order = Vec::new(alloc);
    rounds(links, &mut placed, &mut ready, &mut order)?;
    Ok(order)
}
