//! Building a graph.
ghost use Rattle.std.specs.Prelude.{◌≡◌, ◌≢◌, ◌<◌, ◌≤◌, ◌+◌, false, true, [], ◌∷◌, ◌++◌, length, map, bytes_eq, slice_get, None, Some, IfOk, IfErr, OnOk, OnErr, vec_len, vec_capacity};
ghost use Rattle.std.specs.List.{list_any};
ghost use Rattle.indexmap.specs.IndexSet.{spare};
ghost use Rattle.graph_model.specs.Gains.{greatest_gain};
ghost use Rattle.graph_model.specs.Graphs as graphs;
ghost use Rattle.graph_model.specs.Graphs.{add_fault, connect_fault, graph_fault};
ghost use Rattle.flowgraph.specs.Fault.{reported, told};
ghost use Rattle.flowgraph.specs.Ports.{AreWithin};
ghost use Rattle.flowgraph.specs.StepOrder.{IsOrderOf};
ghost use Rattle.flowgraph.specs.Asked.{AreAsked};
ghost use Rattle.flowgraph.specs.Tables.{AreTables};
ghost use Rattle.flowgraph.specs.Flowgraph.{net_of, node_of, graph_of, entry, connection, connection_of, with_block, with_connection};

use crate::asked::{Asked, all_asked};
use crate::fault::{GraphFault, Limit};
use crate::gains::greatest_gain;
use crate::loops::loop_fault;
use crate::parts::{BlockId, Connection, Entry, Options};
use crate::port_tests::port_fault;
use crate::refusals::{refused_block, refused_connection};
use crate::valid::Valid;
use crate::wiring::{Wiring, tables};
use block_trait::Block;
use indexmap::IndexSet;
use std::alloc::{AllocError, Global};
use std::fmt;
use std::marker::Model;

/// A graph while it is built. A contract sees the blocks with their names, and the connections.
pub struct Graph<B: Block> {
    names: IndexSet<Vec<u8>>,
    blocks: Vec<Entry<B>>,
    connections: Vec<Connection>,
}

// Written by hand: crates above need not prove the drop of each part again.
impl<B: Block> Drop for Graph<B> {
    fn drop(self) {
        let Graph {
            names,
            blocks,
            connections,
        } = self;
        drop(names);
        drop(blocks);
        drop(connections);
    }
}

impl<B: Block> fmt::Debug for Graph<B> {
    fn fmt<W: fmt::Write>(&self, f: &mut fmt::Formatter<W>) -> fmt::Result {
        f.debug_struct("Graph").finish_non_exhaustive()
    }
}

impl<B: Block> Model for Graph<B> {
    ghost use Rattle.std.specs.Prelude.{map};
    ghost use Rattle.flowgraph.specs.Flowgraph.{Flowgraph};

    ghost Value = { Flowgraph B };

    ghost use Rattle.graph_model.specs.Graphs.{IsGraph};
    ghost use Rattle.flowgraph.specs.Flowgraph.{net_of, graph_of};

    ghost view = { λ g. graph_of (map (λ name. name.items) g.names.keys) g.blocks.items g.connections.items };

    ghost invariant = { λ g. let graph = graph_of (map (λ name. name.items) g.names.keys) g.blocks.items g.connections.items in
        IsGraph graph.names (net_of B.meaning graph) };
}

impl<B: Block> Graph<B> {
    /// A graph without blocks. It takes no memory.
    pub fn new(alloc: Global) -> Graph<B>
        ensures { result ≡ graph_of [] [] [] }
    {
        Graph {
            names: IndexSet::new(alloc),
            blocks: Vec::new(alloc),
            connections: Vec::new(alloc),
        }
    }

    /// The name of a block.
    pub fn name(&self, block: BlockId) -> &[u8]
        requires { block.0 < length self.now.blocks }
        ensures value { slice_get self.now.names block.0 ≡ Some result.now }
        ensures good { graphs.is_name result.now ≡ true }
    {
        &self.names[block.0 as usize]
    }

    /// Adds a block, and returns its number. Refusals, in this order: a bad name, a multiple or a capacity out of
    /// range, a name that a block has, a block beyond 256, and out of memory. An `Err` changes nothing, and drops the
    /// block.
    pub fn add_block(
        &mut self,
        alloc: Global,
        name: &[u8],
        block: B,
        options: Options,
    ) -> Result<BlockId, GraphFault>
        ensures allowed { OnOk result (add_fault self.old.names (net_of B.meaning self.old) name.now
            (node_of B.meaning (entry block options)) ≡ None) }
        ensures added { OnOk result (self.new ≡ with_block self.old name.now (entry block options)) }
        ensures number { IfOk result (λ id. id.0 ≡ length self.old.blocks) }
        ensures refused { IfErr result (λ fault. fault
            ≡ reported Limit.Blocks (add_fault self.old.names (net_of B.meaning self.old) name.now
            (node_of B.meaning (entry block options)))) }
        ensures unchanged { OnErr result (self.new ≡ self.old) }
    {
        if let Some(fault) = refused_block(&self.names, &self.blocks, name, &block, &options) {
            return Err(fault);
        }
        let key = make_room(&mut self.names, &mut self.blocks, alloc, name)?;
        let number = self.blocks.len();
        add_name(&mut self.names, key);
        self.blocks.push(Entry { block, options }).unwrap();
        Ok(BlockId(number as u32))
    }

    /// Tests the graph, and makes its tables. Each test goes over all blocks before the next, and names the lowest
    /// block that fails: a port that is left out below a used one (inputs first), fewer ports than a block asks for,
    /// tags from one to one with unequal numbers of inputs and outputs, a block that reaches itself, and a path whose
    /// gains have a product above 16,777,216. `Memory` may come at any of these. A refused graph comes back as it was.
    pub fn validate(self, alloc: Global) -> Result<Valid<B>, (Graph<B>, GraphFault)>
        ensures passed { OnOk result (graph_fault (net_of B.meaning self) ≡ None) }
        ensures valid { IfOk result (λ valid. valid ≡ self) }
        ensures refused { IfErr result (λ refused. refused.1 ≢ GraphFault.Memory
            → told Limit.Blocks (graph_fault (net_of B.meaning self)) ≡ Some refused.1) }
        ensures unchanged { IfErr result (λ refused. refused.0 ≡ self) }
    {
        match tested(alloc, &self.blocks, &self.connections) {
            Ok((wiring, asked, gain)) => {
                let Graph {
                    names,
                    blocks,
                    connections,
                } = self;
                Ok(Valid::with_tables(names, blocks, connections, wiring, asked, gain))
            }
            Err(fault) => Err((self, fault)),
        }
    }

    /// Connects an output port to an input port. Refusals, in this order: a block that is not there, a port out of
    /// range (the output first), an input that has a connection, ports of two types, a connection beyond 1,024, and out
    /// of memory. An `Err` changes nothing.
    pub fn connect(
        &mut self,
        from: BlockId,
        out_port: usize,
        to: BlockId,
        in_port: usize,
    ) -> Result<(), GraphFault>
        ensures allowed { OnOk result (connect_fault (net_of B.meaning self.old)
            (connection_of (connection from out_port to in_port)) ≡ None) }
        ensures connected { OnOk result (self.new ≡ with_connection self.old (connection from out_port to in_port)) }
        ensures refused { IfErr result (λ fault. fault
            ≡ reported Limit.Connections (connect_fault (net_of B.meaning self.old)
            (connection_of (connection from out_port to in_port)))) }
        ensures unchanged { OnErr result (self.new ≡ self.old) }
    {
        let connection = Connection {
            from,
            out_port,
            to,
            in_port,
        };
        if let Some(fault) = refused_connection(&self.blocks, &self.connections, &connection) {
            return Err(fault);
        }
        self.connections.reserve(1)?;
        self.connections.push(connection).unwrap();
        Ok(())
    }
}

// The tables of a graph that passes all tests, and the greatest product of gains along a path.
fn tested<B: Block>(
    alloc: Global,
    blocks: &[Entry<B>],
    connections: &[Connection],
) -> Result<(Wiring, Vec<Asked>, u64), GraphFault>
    requires few { length blocks.now ≤ 256 }
    requires within { AreWithin (length blocks.now) connections.now }
    ensures passed { OnOk result (graph_fault (net_of B.meaning (graph_of [] blocks.now connections.now)) ≡ None) }
    ensures tables { IfOk result (λ made. AreTables (length blocks.now) connections.now made.0.inputs
        made.0.outputs.items made.0.readers) }
    ensures order { IfOk result (λ made. IsOrderOf (length blocks.now) made.0.order.items) }
    ensures asked { IfOk result (λ made. AreAsked B.meaning blocks.now made.1.items) }
    ensures gain { IfOk result (λ made. made.2 ≡ greatest_gain (net_of B.meaning
        (graph_of [] blocks.now connections.now))) }
    ensures refused { IfErr result (λ fault. fault ≢ GraphFault.Memory
        → told Limit.Blocks (graph_fault (net_of B.meaning (graph_of [] blocks.now connections.now))) ≡ Some fault) }
{
    if let Some(fault) = port_fault(alloc, blocks, connections)? {
        return Err(fault);
    }
    if let Some(fault) = loop_fault(alloc, blocks.len(), connections)? {
        return Err(fault);
    }
    let gain = greatest_gain(alloc, blocks, connections)?;
    let wiring = tables(alloc, blocks.len(), connections)?;
    Ok((wiring, all_asked(alloc, blocks)?, gain))
}

// Room for one block more and its name, and a copy of the name.
fn make_room<B: Block>(
    names: &mut IndexSet<Vec<u8>>,
    blocks: &mut Vec<Entry<B>>,
    alloc: Global,
    name: &[u8],
) -> Result<Vec<u8>, AllocError>
    ensures copied { IfOk result (λ key. key.items ≡ name.now) }
    ensures name_room { OnOk result (1 ≤ spare names.new) }
    ensures block_room { OnOk result (vec_len blocks.new + 1 ≤ vec_capacity blocks.new) }
    ensures names { names.new.keys ≡ names.old.keys }
    ensures blocks { blocks.new.items ≡ blocks.old.items }
{
    let key = Vec::from_slice(alloc, name)?;
    names.reserve(1)?;
    blocks.reserve(1)?;
    Ok(key)
}

// Adds a name that no block has, into room that is there.
fn add_name(names: &mut IndexSet<Vec<u8>>, name: Vec<u8>)
    requires room { 0 < spare names.old }
    requires fresh { list_any (bytes_eq name.items) (map (λ n. n.items) names.old.keys) ≡ false }
    ensures { map (λ n. n.items) names.new.keys ≡ map (λ n. n.items) names.old.keys ++ name.items ∷ [] }
{
    names.insert(name).unwrap();
}
