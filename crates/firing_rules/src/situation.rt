//! All that a decision about a block looks at.

ghost use Rattle.std.specs.Prelude.{◌≡◌, ◌+◌, ◌^◌, ◌<◌, length, map, All, Some, None, IfSome, if◌then◌else◌};
ghost use Rattle.std.specs.Option.{option_map};
ghost use Rattle.stream_model.specs.Network.{progress_at, role_at, is_source, writer_of, readers_of, used_outputs};
ghost use Rattle.stream_model.specs.Machine.{capacity_at};
ghost use Rattle.stream_laws.specs.CanRun.{CanRun};
ghost use Rattle.flowgraph.specs.Flowgraph.{net_of, connection_of};
ghost use Rattle.firing_rules.specs.State.{rows_of, progress_of, IsRunning};
ghost use Rattle.firing_rules.specs.Small.{IsReader};
ghost use Rattle.firing_rules.specs.Situation.{seen, net_seen, counts_seen};

use crate::firings::Firings;
use crate::progress::{Progress, Tapes};
use block_trait::Block;
use flowgraph::{BlockId, Connection, Valid};
use std::marker::Model;

/// A block with all that a decision about it looks at: the graph, the capacities, the tapes and the progress of each
/// block. They are those of a sound state.
#[derive(Drop)]
pub(crate) struct Situation<'a, B: Block, T: Tapes> {
    pub(crate) graph: &'a Valid<B>,
    capacities: &'a [Vec<u32>],
    pub(crate) tapes: &'a T,
    firings: &'a Firings,
    pub(crate) block: BlockId,
}

impl<'a, B: Block, T: Tapes> Model for Situation<'a, B, T> {
    ghost use Rattle.std.specs.Prelude.{◌<◌, length};
    ghost use Rattle.flowgraph.specs.Flowgraph.{net_of};
    ghost use Rattle.firing_rules.specs.State.{rows_of};
    ghost use Rattle.firing_rules.specs.Small.{AreSmall};
    ghost use Rattle.firing_rules.specs.Situation.{Seen, seen};

    ghost Value = { Seen B };

    ghost view = { λ s. seen s.graph.now (rows_of (λ row. row.items) s.capacities.now) (T.tapes s.tapes.now) s.firings.now s.block.0 };

    ghost invariant = { λ s. (s.block.0 < length s.graph.now.blocks) × AreSmall (net_of B.meaning s.graph.now) (T.tapes s.tapes.now) s.firings.now };
}

impl<'a, B: Block, T: Tapes> Situation<'a, B, T> {
    /// The situation of a block in a sound state.
    pub(crate) fn of(
        graph: &'a Valid<B>,
        capacities: &'a [Vec<u32>],
        tapes: &'a T,
        firings: &'a Firings,
        block: BlockId,
    ) -> Situation<'a, B, T>
        requires running { IsRunning (net_of B.meaning graph.now) (rows_of (λ row. row.items) capacities.now)
            (T.tapes tapes.now) firings.now }
        requires block { block.0 < length graph.now.blocks }
        ensures { result ≡ seen graph.now (rows_of (λ row. row.items) capacities.now) (T.tapes tapes.now) firings.now
            block.0 }
    {
        graph.recall();
        Situation {
            graph,
            capacities,
            tapes,
            firings,
            block,
        }
    }

    /// Recalls, for the proof, that the graph can run. It does nothing.
    pub(crate) fn recall(&self)
        ensures { CanRun (net_seen B.meaning self.now) }
    {
        let _ = &self.graph;
    }

    /// How far the block is.
    pub(crate) fn own(&self) -> Progress
        ensures value { progress_of result ≡ progress_at self.now.progress self.now.block }
        ensures small { result.firings + result.claimed < 2 ^ 62 }
    {
        self.firings.progress(self.block)
    }

    /// How far a block is.
    pub(crate) fn progress(&self, block: BlockId) -> Progress
        requires { block.0 < length self.now.graph.blocks }
        ensures { progress_of result ≡ progress_at self.now.progress block.0 }
    {
        self.firings.progress(block)
    }

    /// The block that writes an input; none if a source's tape does.
    pub(crate) fn writer(&self, port: usize) -> Option<BlockId>
        requires { port < length (counts_seen B.meaning self.now).inputs }
        ensures value { let net = net_seen B.meaning self.now in
            option_map (λ w. w.0) result ≡ (if is_source (role_at net self.now.block) then None else Some
            (writer_of net self.now.block port).from) }
        ensures there { IfSome result (λ w. w.0 < length self.now.graph.blocks) }
    {
        if self.graph.is_source(self.block) {
            return None;
        }
        Some(self.graph.inputs(self.block)[port].connection.from)
    }

    /// How many outputs are used.
    pub(crate) fn outputs(&self) -> usize
        ensures { result ≡ used_outputs (net_seen B.meaning self.now) self.now.block }
    {
        self.graph.outputs(self.block)
    }

    /// The connections from an output. They lead to inputs that exist.
    pub(crate) fn readers(&self, port: usize) -> &[Connection]
        requires { port < used_outputs (net_seen B.meaning self.now) self.now.block }
        ensures value { map connection_of result.now ≡ readers_of (net_seen B.meaning self.now) self.now.block port }
        ensures known { All (IsReader (net_seen B.meaning self.now)) result.now }
    {
        self.graph.readers(self.block, port)
    }

    /// The capacity of an output; 0 if it has none.
    pub(crate) fn capacity(&self, port: usize) -> u32
        ensures { result ≡ capacity_at self.now.capacities self.now.block port }
    {
        match self.capacities.get(self.block.0 as usize) {
            Some(outputs) => match outputs.get(port) {
                Some(capacity) => *capacity,
                None => 0,
            },
            None => 0,
        }
    }
}
