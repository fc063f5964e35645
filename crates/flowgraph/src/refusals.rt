//! Why blocks and connections may not be added to a graph.
ghost use Rattle.std.specs.Prelude.{◌≡◌, ◌<◌, ◌&&◌, [], ◌∷◌, length, map, min, nat_lt, bytes_eq, Some};
ghost use Rattle.std.specs.Option.{option_map};
ghost use Rattle.std.specs.List.{list_any};
ghost use Rattle.stream_model.specs.Network.{enters, node_at};
ghost use Rattle.graph_model.specs.Graphs as graphs;
ghost use Rattle.graph_model.specs.Graphs.{add_fault, connect_fault, first_fault, unless, has_port, same_type, multiples, In, Out, PortRange};
ghost use Rattle.flowgraph.specs.Fault.{reported};
ghost use Rattle.flowgraph.specs.Flowgraph.{net_of, node_of, graph_of, entry, connection_of};

use crate::fault::{BlockOption, GraphFault, Limit, Side};
use crate::parts::{BlockId, Connection, Entry, Options};
use crate::ports::MOST_PORTS;
use block_trait::Block;
use indexmap::IndexSet;
use items::is_name;
use stream_model::{Role, Signature};

/// The most blocks of a graph, connections, bytes of a name, base firings in a firing, and items of a capacity.
const MOST_BLOCKS: usize = 256;

const MOST_CONNECTIONS: usize = 1024;

const MOST_NAME: usize = 32;

const MOST_MULTIPLE: u32 = 64;

const MOST_CAPACITY: u32 = 65536;

/// Why a block may not be added.
pub(crate) fn refused_block<B: Block>(
    names: &IndexSet<Vec<u8>>,
    blocks: &[Entry<B>],
    name: &[u8],
    block: &B,
    options: &Options,
) -> Option<GraphFault>
    ensures { result ≡ option_map (λ fault. reported Limit.Blocks (Some fault))
        (add_fault (map (λ n. n.items) names.now.keys) (net_of B.meaning (graph_of [] blocks.now [])) name.now
        (node_of B.meaning (entry block.now options.now))) }
{
    if !is_block_name(name) {
        return Some(GraphFault::BadParameter(BlockOption::Name));
    }
    if !is_from_one(options.multiple, most_multiple(block)) {
        return Some(GraphFault::BadParameter(BlockOption::Multiple));
    }
    if !is_from_one(options.capacity, MOST_CAPACITY) {
        return Some(GraphFault::BadParameter(BlockOption::Capacity));
    }
    if is_given(names, name) {
        return Some(GraphFault::DuplicateName);
    }
    if MOST_BLOCKS <= blocks.len() {
        return Some(GraphFault::TooLarge(Limit::Blocks));
    }
    None
}

// Whether the bytes are a name.
fn is_block_name(name: &[u8]) -> bool
    ensures { result ≡ graphs.is_name name.now }
{
    is_name(name, MOST_NAME)
}

// Whether a block has the name.
fn is_given(names: &IndexSet<Vec<u8>>, name: &[u8]) -> bool
    ensures { result ≡ list_any (bytes_eq name.now) (map (λ n. n.items) names.now.keys) }
{
    names.contains(name)
}

// Whether a number is from 1 to the greatest.
fn is_from_one(number: u32, most: u32) -> bool
    ensures { result ≡ graphs.is_from_one number most }
{
    1 <= number && number <= most
}

// How many base firings one firing of the block may be.
fn most_multiple<B: Block>(block: &B) -> u32
    ensures { result ≡ multiples (B.meaning block.now) }
{
    match block.role() {
        Role::Work => {
            if block.limit().is_none() && block.rate(0).is_some() {
                MOST_MULTIPLE
            } else {
                1
            }
        }
        Role::Source | Role::Keep | Role::Discard => 1,
    }
}

/// Why a connection may not be added.
pub(crate) fn refused_connection<B: Block>(
    blocks: &[Entry<B>],
    connections: &[Connection],
    new: &Connection,
) -> Option<GraphFault>
    ensures { result ≡ option_map (λ fault. reported Limit.Connections (Some fault))
        (connect_fault (net_of B.meaning (graph_of [] blocks.now connections.now)) (connection_of new.now)) }
{
    if !has_both(blocks, new) {
        return Some(GraphFault::UnknownBlock);
    }
    if let Some(fault) = refused_ports(blocks, new) {
        return Some(fault);
    }
    if is_taken(connections, new.to, new.in_port) {
        return Some(GraphFault::InputTaken {
            block: new.to,
            port: new.in_port,
        });
    }
    if !is_of_one_type(blocks, new) {
        return Some(GraphFault::TypeMismatch {
            block: new.to,
            port: new.in_port,
        });
    }
    if MOST_CONNECTIONS <= connections.len() {
        return Some(GraphFault::TooLarge(Limit::Connections));
    }
    None
}

// Whether both blocks of a connection are there.
fn has_both<B: Block>(blocks: &[Entry<B>], new: &Connection) -> bool
    ensures { result ≡ (nat_lt new.now.from.0 (length blocks.now) && nat_lt new.now.to.0 (length blocks.now)) }
{
    (new.from.0 as usize) < blocks.len() && (new.to.0 as usize) < blocks.len()
}

// The port of a connection that its block may not have, the output first.
fn refused_ports<B: Block>(blocks: &[Entry<B>], new: &Connection) -> Option<GraphFault>
    requires from { new.now.from.0 < length blocks.now }
    requires to { new.now.to.0 < length blocks.now }
    ensures { result ≡ option_map (λ fault. reported Limit.Connections (Some fault)) (first_fault (
        unless (has_port (node_at (net_of B.meaning (graph_of [] blocks.now [])) new.now.from.0) Out new.now.out_port)
        (PortRange new.now.from.0 Out new.now.out_port)
        ∷ unless (has_port (node_at (net_of B.meaning (graph_of [] blocks.now [])) new.now.to.0) In new.now.in_port)
        (PortRange new.now.to.0 In new.now.in_port)
        ∷ [])) }
{
    if !may_have(&blocks[new.from.0 as usize].block.outputs(), new.out_port) {
        return Some(GraphFault::PortRange {
            block: new.from,
            side: Side::Out,
            port: new.out_port,
        });
    }
    if !may_have(&blocks[new.to.0 as usize].block.inputs(), new.in_port) {
        return Some(GraphFault::PortRange {
            block: new.to,
            side: Side::In,
            port: new.in_port,
        });
    }
    None
}

// Whether a side of a block may have a port of this number.
fn may_have(ports: &Signature, port: usize) -> bool
    ensures { result ≡ nat_lt port (min 16 ports.now.most) }
{
    port < MOST_PORTS && port < ports.most as usize
}

// Whether a connection enters the input.
fn is_taken(connections: &[Connection], block: BlockId, port: usize) -> bool
    ensures { result ≡ list_any (enters block.0 port) (map connection_of connections.now) }
{
    for connection in connections {
        if is_to(connection, block, port) {
            return true;
        }
    }
    false
}

// Whether the connection enters the input.
fn is_to(connection: &Connection, block: BlockId, port: usize) -> bool
    ensures { result ≡ enters block.0 port (connection_of connection.now) }
{
    connection.to.0 == block.0 && connection.in_port == port
}

// Whether both ends of a connection have one item type.
fn is_of_one_type<B: Block>(blocks: &[Entry<B>], new: &Connection) -> bool
    requires from { new.now.from.0 < length blocks.now }
    requires to { new.now.to.0 < length blocks.now }
    ensures { result ≡ same_type (net_of B.meaning (graph_of [] blocks.now [])) (connection_of new.now) }
{
    blocks[new.from.0 as usize].block.outputs().item
        == blocks[new.to.0 as usize].block.inputs().item
}
