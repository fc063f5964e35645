//! The rates of a graph.

ghost use Rattle.std.specs.Prelude.{◌≡◌, IfOk};
ghost use Rattle.stream_model.specs.Network.{Network};
ghost use Rattle.flowgraph.specs.Flowgraph.{net_of};
ghost use Rattle.rates.specs.Answer.{AreRates, IsNamed, AreTables, HaveSolved, HaveFirings};

use crate::firings::{all_hold, firings};
use crate::fraction::Fraction;
use crate::needs::needs;
use crate::ratios::ratios;
use crate::tables::{Link, Supply, links, supplies};
use block_trait::Block;
use flowgraph::Valid;
use std::alloc::{AllocError, Global};

/// How often each block of a graph fires in an iteration.
#[derive(Debug, Drop)]
pub struct Repetitions {
    // Of each block.
    pub(crate) firings: Vec<u32>,
    // The capacity that each connection needs.
    pub(crate) needed: Vec<u64>,
}

impl Repetitions {
    /// The firings of each block in an iteration, in the order of the blocks; each is at least 1. A firing is
    /// `multiple` base firings.
    pub fn firings(&self) -> &[u32]
        ensures { result.now ≡ self.now.firings.items }
    {
        &self.firings
    }
}

/// The rates of a graph.
#[derive(Debug, Drop)]
pub enum Rates {
    /// The least firings of each block that leave every connection as it was.
    Balanced(Repetitions),
    /// No numbers of firings leave every connection as it was.
    Uneven,
    /// A ratio, a count of firings, of items or of iterations, or a capacity needed is above 65,536.
    TooLarge,
}

/// The answer if each block's firings are known and within the limit: a balance, unless a buffer for it is too large.
fn sized(
    alloc: Global,
    supplies: &[Supply],
    links: &[Link],
    firings: Vec<u32>,
) -> Result<Rates, AllocError>
    ghost net: { Network }
    requires { HaveFirings net supplies.now links.now firings.items }
    ensures { IfOk result (AreRates net) }
{
    match needs(alloc, supplies, links, &firings)? {
        Some(needed) => Ok(Rates::Balanced(Repetitions { firings, needed })),
        None => Ok(Rates::TooLarge),
    }
}

/// The answer if each block has a ratio.
fn solved(
    alloc: Global,
    supplies: &[Supply],
    links: &[Link],
    ratios: &[Fraction],
) -> Result<Rates, AllocError>
    ghost net: { Network }
    requires { HaveSolved net supplies.now links.now ratios.now }
    ensures { IfOk result (AreRates net) }
{
    if !all_hold(links, ratios) {
        return Ok(Rates::Uneven);
    }
    match firings(alloc, supplies, ratios)? {
        Some(firings) => sized(alloc, supplies, links, firings),
        None => Ok(Rates::TooLarge),
    }
}

/// The answer on a network, read from its tables.
fn answer(alloc: Global, supplies: &[Supply], links: &[Link]) -> Result<Rates, AllocError>
    ghost net: { Network }
    requires { AreTables net supplies.now links.now }
    ensures { IfOk result (AreRates net) }
{
    match ratios(alloc, links, supplies.len())? {
        Some(ratios) => solved(alloc, supplies, links, &ratios),
        None => Ok(Rates::TooLarge),
    }
}

/// The answer on a graph, from tables that are made of it.
fn rates_of<B: Block>(alloc: Global, graph: &Valid<B>) -> Result<Rates, AllocError>
    ghost net: { Network }
    requires { IsNamed net (net_of B.meaning graph.now) }
    ensures { IfOk result (AreRates net) }
{
    let supplies = supplies(alloc, graph)?;
    let links = links(alloc, graph)?;
    answer(alloc, &supplies, &links)
}

/// The rates of a graph: the least balance, or that there is none, or that it would pass the limits. It fails only if
/// the allocator refuses.
pub fn balance<B: Block>(alloc: Global, graph: &Valid<B>) -> Result<Rates, AllocError>
    ensures { IfOk result (AreRates (net_of B.meaning graph.now)) }
{
    graph.recall();
    rates_of(alloc, graph)
}
