//! Graphs that were tested.
ghost use Rattle.std.specs.Prelude.{◌≡◌, ◌*◌, ◌-◌, ◌^◌, ◌<◌, ◌≤◌, ◌==◌, length, map, All, IsTrue, Some, slice_get, position, bytes_eq};
ghost use Rattle.std.specs.Option.{option_map};
ghost use Rattle.stream_model.specs.Network.{node_at, role_at, is_source, is_keeper, taken_by, given_by, writers_of, readers_of, used_outputs};
ghost use Rattle.stream_laws.specs.CanRun.{CanRun};
ghost use Rattle.graph_model.specs.Gains.{IsWithinGain, greatest_gain, longest_within_gain};
ghost use Rattle.graph_model.specs.Graphs.{IsValidGraph};
ghost use Rattle.graph_model.specs.Rates.{CanCount};
ghost use Rattle.graph_laws.specs.Running.{AreLawful};
ghost use Rattle.block_trait.specs.Shape.{HasPace};
ghost use Rattle.flowgraph.specs.Agreeing.{graphs_agree};
ghost use Rattle.flowgraph.specs.Asked.{AreAsked};
ghost use Rattle.flowgraph.specs.Fault.{id};
ghost use Rattle.flowgraph.specs.Flowgraph.{net_of, graph_of, connection_of, HasOptions};
ghost use Rattle.flowgraph.specs.StepOrder.{IsOrderOf};
ghost use Rattle.flowgraph.specs.Wiring.{writers_in, IsItsReader, IsWired};

use crate::asked::Asked;
use crate::between::{given_between, taken_between};
use crate::parts::{BlockId, Connection, Entry, Input, Options};
use crate::ports::MOST_PORTS;
use crate::wiring::Wiring;
use block_trait::{Block, Pace, Role};
use indexmap::IndexSet;
use std::fmt;
use std::marker::Model;
use stream_model::ItemType;

// The most items that the gains along a path may make of a tape.
const MOST_GROWN: u64 = 1 << 61;

/// A valid graph, with tables of how its blocks are wired. No call of it takes memory. A contract sees the blocks with
/// their names, and the connections.
pub struct Valid<B: Block> {
    names: IndexSet<Vec<u8>>,
    blocks: Vec<Entry<B>>,
    connections: Vec<Connection>,
    wiring: Wiring,
    asked: Vec<Asked>,
    // The greatest product of gains along a path.
    gain: u64,
}

// Written by hand: crates above need not prove the drop of each part again.
impl<B: Block> Drop for Valid<B> {
    fn drop(self) {
        let Valid {
            names,
            blocks,
            connections,
            wiring,
            asked,
            gain: _,
        } = self;
        drop(names);
        drop(blocks);
        drop(connections);
        drop(wiring);
        drop(asked);
    }
}

impl<B: Block> fmt::Debug for Valid<B> {
    fn fmt<W: fmt::Write>(&self, f: &mut fmt::Formatter<W>) -> fmt::Result {
        f.debug_struct("Valid").finish_non_exhaustive()
    }
}

impl<B: Block> Model for Valid<B> {
    ghost use Rattle.std.specs.Prelude.{◌≡◌, length, map};
    ghost use Rattle.flowgraph.specs.Flowgraph.{Flowgraph};

    ghost Value = { Flowgraph B };

    ghost use Rattle.graph_model.specs.Gains.{greatest_gain};
    ghost use Rattle.graph_model.specs.Graphs.{IsValidGraph};
    ghost use Rattle.flowgraph.specs.Flowgraph.{net_of, graph_of};
    ghost use Rattle.flowgraph.specs.Asked.{AreAsked};
    ghost use Rattle.flowgraph.specs.StepOrder.{IsOrderOf};
    ghost use Rattle.flowgraph.specs.Wiring.{IsWired};

    ghost view = { λ g. graph_of (map (λ name. name.items) g.names.keys) g.blocks.items g.connections.items };

    ghost invariant = { λ g. let graph = graph_of (map (λ name. name.items) g.names.keys) g.blocks.items g.connections.items in
        IsValidGraph graph.names (net_of B.meaning graph) × IsWired (net_of B.meaning graph) g.wiring.inputs
        g.wiring.outputs.items g.wiring.readers
        × AreAsked B.meaning g.blocks.items g.asked.items × (g.gain ≡ greatest_gain (net_of B.meaning graph))
        × IsOrderOf (length g.blocks.items) g.wiring.order.items };
}

impl<B: Block> Valid<B> {
    /// A graph that passes all tests, with its tables and the greatest product of gains along a path.
    pub(crate) fn with_tables(
        names: IndexSet<Vec<u8>>,
        blocks: Vec<Entry<B>>,
        connections: Vec<Connection>,
        wiring: Wiring,
        asked: Vec<Asked>,
        gain: u64,
    ) -> Valid<B>
        requires valid { IsValidGraph (map (λ n. n.items) names.keys) (net_of B.meaning
            (graph_of (map (λ n. n.items) names.keys) blocks.items connections.items)) }
        requires wired { IsWired (net_of B.meaning (graph_of (map (λ n. n.items) names.keys) blocks.items
            connections.items)) wiring.inputs wiring.outputs.items wiring.readers }
        requires asked { AreAsked B.meaning blocks.items asked.items }
        requires gain { gain ≡ greatest_gain (net_of B.meaning (graph_of (map (λ n. n.items) names.keys) blocks.items
            connections.items)) }
        requires order { IsOrderOf (length blocks.items) wiring.order.items }
        ensures { result ≡ graph_of (map (λ n. n.items) names.keys) blocks.items connections.items }
    {
        Valid {
            names,
            blocks,
            connections,
            wiring,
            asked,
            gain,
        }
    }

    /// How many blocks there are.
    pub fn len(&self) -> usize
        ensures blocks { result ≡ length self.now.blocks }
        ensures nodes { result ≡ length (net_of B.meaning self.now).nodes }
        ensures few { result ≤ 256 }
    {
        self.blocks.len()
    }

    /// Whether there is no block.
    pub fn is_empty(&self) -> bool
        ensures { result ≡ (length self.now.blocks == 0) }
    {
        self.blocks.is_empty()
    }

    /// The connections, in the order of connecting.
    pub fn connections(&self) -> &[Connection]
        ensures { result.now ≡ self.now.connections }
    {
        &self.connections
    }

    /// All blocks, each behind those that write its inputs: stepped in this order, they pass on in one turn what comes
    /// in. If the blocks were added in such an order it is that one. A run comes to the same in any order, and the
    /// contract says only that all blocks are there.
    pub fn writers_first(&self) -> &[BlockId]
        ensures { IsOrderOf (length self.now.blocks) result.now }
    {
        &self.wiring.order
    }

    /// The name of a block.
    pub fn name(&self, block: BlockId) -> &[u8]
        requires { block.0 < length self.now.blocks }
        ensures { slice_get self.now.names block.0 ≡ Some result.now }
    {
        &self.names[block.0 as usize]
    }

    /// A block.
    pub fn block(&self, block: BlockId) -> &B
        requires { block.0 < length self.now.blocks }
        ensures value { option_map (λ e. e.block) (slice_get self.now.blocks block.0) ≡ Some result.now }
        ensures meaning { B.meaning result.now ≡ (node_at (net_of B.meaning self.now) block.0).meaning }
    {
        &self.blocks[block.0 as usize].block
    }

    /// The options of a block.
    pub fn options(&self, block: BlockId) -> Options
        requires { block.0 < length self.now.blocks }
        ensures value { option_map (λ e. e.options) (slice_get self.now.blocks block.0) ≡ Some result }
        ensures node { HasOptions (node_at (net_of B.meaning self.now) block.0) result }
    {
        self.blocks[block.0 as usize].options
    }

    /// What a block does with streams.
    pub fn role(&self, block: BlockId) -> Role
        requires { block.0 < length self.now.blocks }
        ensures { result ≡ role_at (net_of B.meaning self.now) block.0 }
    {
        self.asked[block.0 as usize].role
    }

    /// After how many firings a block ends by itself; none if it does not.
    pub fn limit(&self, block: BlockId) -> Option<u64>
        requires { block.0 < length self.now.blocks }
        ensures { result ≡ (node_at (net_of B.meaning self.now) block.0).meaning.limit }
    {
        self.asked[block.0 as usize].limit
    }

    /// How many items of an input (of a source: of its tape) one base firing takes, and how many it gives for them.
    pub fn pace(&self, block: BlockId, port: usize) -> Pace
        requires { block.0 < length self.now.blocks }
        ensures { HasPace (node_at (net_of B.meaning self.now) block.0).meaning port result }
    {
        let paces = &self.asked[block.0 as usize].paces;
        if port < paces.len() {
            paces[port]
        } else {
            pace_of(self.block(block), port)
        }
    }

    /// Whether a block is a source.
    pub fn is_source(&self, block: BlockId) -> bool
        requires { block.0 < length self.now.blocks }
        ensures { result ≡ is_source (role_at (net_of B.meaning self.now) block.0) }
    {
        match self.role(block) {
            Role::Source => true,
            Role::Work | Role::Keep | Role::Discard => false,
        }
    }

    /// Whether a block is a sink that keeps its items.
    pub fn is_keeper(&self, block: BlockId) -> bool
        requires { block.0 < length self.now.blocks }
        ensures { result ≡ is_keeper (role_at (net_of B.meaning self.now) block.0) }
    {
        match self.role(block) {
            Role::Keep => true,
            Role::Source | Role::Work | Role::Discard => false,
        }
    }

    /// The type of the items that a block takes.
    pub fn input_type(&self, block: BlockId) -> ItemType
        requires { block.0 < length self.now.blocks }
        ensures { result ≡ (node_at (net_of B.meaning self.now) block.0).meaning.inputs.item }
    {
        self.asked[block.0 as usize].taken
    }

    /// The type of the items that a block gives.
    pub fn output_type(&self, block: BlockId) -> ItemType
        requires { block.0 < length self.now.blocks }
        ensures { result ≡ (node_at (net_of B.meaning self.now) block.0).meaning.outputs.item }
    {
        self.asked[block.0 as usize].given
    }

    /// How many base firings one firing of a block is.
    pub fn multiple(&self, block: BlockId) -> u32
        requires { block.0 < length self.now.blocks }
        ensures { result ≡ (node_at (net_of B.meaning self.now) block.0).multiple }
    {
        self.asked[block.0 as usize].multiple
    }

    /// How many items of an input the first `firings` firings of a block take. A firing is `multiple` base firings.
    pub fn taken(&self, block: BlockId, port: usize, firings: u64) -> u64
        requires block { block.0 < length self.now.blocks }
        requires firings { (node_at (net_of B.meaning self.now) block.0).multiple * firings < 2 ^ 62 }
        requires taken { taken_by (node_at (net_of B.meaning self.now) block.0) port firings < 2 ^ 62 }
        ensures { result ≡ taken_by (node_at (net_of B.meaning self.now) block.0) port firings }
    {
        let multiple = self.multiple(block);
        self.pace(block, port).taken(u64::from(multiple) * firings)
    }

    /// How many items of an input firings `first` to below `next` of a block take.
    pub fn takes(&self, block: BlockId, port: usize, first: u64, next: u64) -> u64
        requires block { block.0 < length self.now.blocks }
        requires ordered { first ≤ next }
        requires firings { (node_at (net_of B.meaning self.now) block.0).multiple * next < 2 ^ 62 }
        requires taken { taken_by (node_at (net_of B.meaning self.now) block.0) port next < 2 ^ 62 }
        ensures { let n = node_at (net_of B.meaning self.now) block.0 in
            result ≡ taken_by n port next - taken_by n port first }
    {
        let multiple = u64::from(self.multiple(block));
        taken_between(self.pace(block, port), multiple * first, multiple * next)
    }

    /// How many items the first `firings` firings of a block give on each output.
    pub fn given(&self, block: BlockId, firings: u64) -> u64
        requires block { block.0 < length self.now.blocks }
        requires firings { (node_at (net_of B.meaning self.now) block.0).multiple * firings < 2 ^ 62 }
        requires given { given_by (node_at (net_of B.meaning self.now) block.0) firings < 2 ^ 62 }
        ensures { result ≡ given_by (node_at (net_of B.meaning self.now) block.0) firings }
    {
        let multiple = self.multiple(block);
        self.pace(block, 0).given(u64::from(multiple) * firings)
    }

    /// How many items firings `first` to below `next` of a block give on each output.
    pub fn gives(&self, block: BlockId, first: u64, next: u64) -> u64
        requires block { block.0 < length self.now.blocks }
        requires ordered { first ≤ next }
        requires firings { (node_at (net_of B.meaning self.now) block.0).multiple * next < 2 ^ 62 }
        requires given { given_by (node_at (net_of B.meaning self.now) block.0) next < 2 ^ 62 }
        ensures { let n = node_at (net_of B.meaning self.now) block.0 in
            result ≡ given_by n next - given_by n first }
    {
        let multiple = u64::from(self.multiple(block));
        given_between(self.pace(block, 0), multiple * first, multiple * next)
    }

    /// How many items a tape may hold: 2^61 divided by the greatest product of gains along a path. So no path makes
    /// more than 2^61 items of them, and no count of items or firings comes to 2^62.
    pub fn longest_tape(&self) -> u64
        ensures value { result ≡ longest_within_gain (net_of B.meaning self.now) }
        ensures fits { IsWithinGain (net_of B.meaning self.now) result }
        ensures enough { 2 ^ 37 ≤ result }
    {
        MOST_GROWN / self.gain
    }

    /// The block of a name, if there is one. It takes one look-up by hash.
    pub fn find(&self, name: &[u8]) -> Option<BlockId>
        ensures { result ≡ option_map id (position (bytes_eq name.now) self.now.names) }
    {
        match self.names.get_index_of(name) {
            Some(at) => Some(BlockId(at as u32)),
            None => None,
        }
    }

    /// The inputs of a block, by their ports.
    pub fn inputs(&self, block: BlockId) -> &[Input]
        requires { block.0 < length self.now.blocks }
        ensures writers { writers_in result.now ≡ writers_of (net_of B.meaning self.now) block.0 }
        ensures readers { All (IsItsReader (net_of B.meaning self.now)) result.now }
    {
        self.wiring.inputs.row(block.0 as usize)
    }

    /// How many outputs of a block are connected. They are numbered from 0 without a gap.
    pub fn outputs(&self, block: BlockId) -> usize
        requires { block.0 < length self.now.blocks }
        ensures value { result ≡ used_outputs (net_of B.meaning self.now) block.0 }
        ensures few { result ≤ 16 }
    {
        self.wiring.outputs[block.0 as usize]
    }

    /// The connections from an output, in the order of connecting.
    pub fn readers(&self, block: BlockId, port: usize) -> &[Connection]
        requires block { block.0 < length self.now.blocks }
        requires port { port < used_outputs (net_of B.meaning self.now) block.0 }
        ensures { map connection_of result.now ≡ readers_of (net_of B.meaning self.now) block.0 port }
    {
        self.wiring
            .readers
            .row(MOST_PORTS * block.0 as usize + port)
    }

    /// Whether another graph is the same: its names, its blocks by `==`, its options and its connections, in their
    /// order.
    pub fn agrees(&self, other: &Valid<B>) -> bool
        ensures same { result ≡ graphs_agree B.eq self.now other.now }
        ensures nets { IsTrue result → net_of B.meaning self.now ≡ net_of B.meaning other.now }
    {
        self.names.as_slice() == other.names.as_slice()
            && self.blocks == other.blocks
            && self.connections == other.connections
    }

    /// Recalls that the graph is valid, that its blocks keep the laws, and that it can therefore run. It does nothing.
    pub fn recall(&self)
        ensures valid { IsValidGraph self.now.names (net_of B.meaning self.now) }
        ensures lawful { AreLawful (net_of B.meaning self.now) }
        ensures runs { CanRun (net_of B.meaning self.now) }
        ensures counts { CanCount (net_of B.meaning self.now) }
    {
        let _ = &self.blocks;
    }
}

// The pace of an input beyond those that are kept. If it were inlined, each caller would clear the memory of a shape.
#[inline(never)]
fn pace_of<B: Block>(block: &B, port: usize) -> Pace
    ensures { HasPace (B.meaning block.now) port result }
{
    block.shape(port).pace
}
