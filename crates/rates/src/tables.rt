//! The tables of a graph from which its rates are found.

ghost use Rattle.std.specs.Prelude.{◌≡◌, ◌<◌, length, IfOk};
ghost use Rattle.stream_model.specs.Network.{node_at, is_source as source_role};
ghost use Rattle.stream_model.specs.Firings.{gives as gives_of, takes as takes_of};
ghost use Rattle.flowgraph.specs.Flowgraph.{net_of, connection_of};
ghost use Rattle.rates.specs.Tables.{HasRates, supply_of, link_of, supplies_of, links_of};

use block_trait::Block;
use flowgraph::{BlockId, Connection, Valid};
use std::alloc::{AllocError, Global};
use stream_model::{Role, Shift};

/// What a block gives, which the counts of its firings depend on.
#[derive(Clone, Copy, Drop)]
pub struct Supply {
    /// Whether it is a source.
    pub source: bool,
    /// How many items a firing gives on each output.
    pub gives: u64,
    /// How it shifts its stream.
    pub shift: Shift,
}

/// A connection.
#[derive(Clone, Copy, Drop)]
pub struct Link {
    /// The writer's number.
    pub from: usize,
    /// The reader's number.
    pub to: usize,
    /// How many items a firing of the writer gives here.
    pub gives: u64,
    /// How many items a firing of the reader takes here.
    pub takes: u64,
}

/// How many items a firing of a block gives on each output.
pub fn gives<B: Block>(graph: &Valid<B>, block: BlockId) -> u64
    requires there { block.0 < length graph.now.blocks }
    requires rates { HasRates (net_of B.meaning graph.now) }
    ensures { result ≡ gives_of (node_at (net_of B.meaning graph.now) block.0) }
{
    let multiple = u64::from(graph.options(block).multiple);
    match graph.block(block).rate(0) {
        Some((_, given)) => multiple * given,
        None => multiple,
    }
}

/// How many items a firing of a block takes of an input.
fn takes<B: Block>(graph: &Valid<B>, block: BlockId, port: usize) -> u64
    requires there { block.0 < length graph.now.blocks }
    requires rates { HasRates (net_of B.meaning graph.now) }
    ensures { result ≡ takes_of (node_at (net_of B.meaning graph.now) block.0) port }
{
    let multiple = u64::from(graph.options(block).multiple);
    match graph.block(block).rate(port) {
        Some((taken, _)) => multiple * taken,
        None => multiple,
    }
}

/// Whether the role is that of a source.
fn is_source(role: Role) -> bool
    ensures { result ≡ source_role role }
{
    match role {
        Role::Source => true,
        Role::Work | Role::Keep | Role::Discard => false,
    }
}

/// What a block gives, which the counts of its firings depend on.
fn supply_at<B: Block>(graph: &Valid<B>, block: BlockId) -> Supply
    requires there { block.0 < length graph.now.blocks }
    requires rates { HasRates (net_of B.meaning graph.now) }
    ensures { result ≡ supply_of (node_at (net_of B.meaning graph.now) block.0) }
{
    let gives = gives(graph, block);
    let kind = graph.block(block);
    Supply {
        source: is_source(kind.role()),
        gives,
        shift: kind.shift(),
    }
}

/// A connection with what its ends give and take.
fn link_on<B: Block>(graph: &Valid<B>, c: Connection) -> Link
    requires ends { (c.from.0 < length graph.now.blocks) × (c.to.0 < length graph.now.blocks) }
    requires rates { HasRates (net_of B.meaning graph.now) }
    ensures { result ≡ link_of (net_of B.meaning graph.now) (connection_of c) }
{
    Link {
        from: c.from.0 as usize,
        to: c.to.0 as usize,
        gives: gives(graph, c.from),
        takes: takes(graph, c.to, c.in_port),
    }
}

/// A table of the blocks of a graph.
pub fn supplies<B: Block>(alloc: Global, graph: &Valid<B>) -> Result<Vec<Supply>, AllocError>
    requires { HasRates (net_of B.meaning graph.now) }
    ensures { IfOk result (λ supplies. supplies.items ≡ supplies_of (net_of B.meaning graph.now)) }
{
    let mut supplies = Vec::with_capacity(alloc, graph.len())?;
    for block in 0..graph.len() {
        supplies.push(supply_at(graph, BlockId(block as u32)))?;
    }
    Ok(supplies)
}

/// A table of the connections of a graph, in the order of connecting.
pub fn links<B: Block>(alloc: Global, graph: &Valid<B>) -> Result<Vec<Link>, AllocError>
    requires { HasRates (net_of B.meaning graph.now) }
    ensures { IfOk result (λ links. links.items ≡ links_of (net_of B.meaning graph.now)) }
{
    let connections = graph.connections();
    let mut links = Vec::with_capacity(alloc, connections.len())?;
    for connection in connections {
        links.push(link_on(graph, *connection))?;
    }
    Ok(links)
}
