//! What a claim looks at: how many items have come to the inputs of a block, and how far the readers of its outputs
//! are.

ghost use Rattle.std.specs.Prelude.{◌≡◌, ◌^◌, ◌<◌, length, slice_index_or};
ghost use Rattle.stream_model.specs.Machine.{reader_counts};
ghost use Rattle.flowgraph.specs.Flowgraph.{connection_of};
ghost use Rattle.firing_rules.specs.Small.{IsReader};
ghost use Rattle.firing_rules.specs.Situation.{net_seen, state_seen, counts_seen};
ghost use Rattle.firing_rules.specs.Counts.{input_of, reader_of, no_input};

use crate::progress::Tapes;
use crate::situation::Situation;
use block_trait::Block;
use flowgraph::Connection;

/// What has come to an input.
#[derive(Clone, Copy)]
pub(crate) struct Input {
    /// How many items.
    pub written: u64,
    /// Whether nothing more will come.
    pub ended: bool,
}

/// How far a reader of an output is.
#[derive(Clone, Copy)]
pub(crate) struct Reader {
    /// How many items it has taken.
    pub taken: u64,
    /// Whether it takes no more.
    pub done: bool,
}

impl<B: Block, T: Tapes> Situation<'_, B, T> {
    /// How many inputs the block has. A source has its tape.
    pub(crate) fn inputs(&self) -> usize
        ensures { result ≡ length (counts_seen B.meaning self.now).inputs }
    {
        if self.graph.is_source(self.block) {
            1
        } else {
            self.graph.inputs(self.block).len()
        }
    }

    /// What has come to an input.
    pub(crate) fn input(&self, port: usize) -> Input
        requires { port < length (counts_seen B.meaning self.now).inputs }
        ensures value { input_of result ≡ slice_index_or (counts_seen B.meaning self.now).inputs port no_input }
        ensures small { result.written < 2 ^ 62 }
    {
        match self.writer(port) {
            Some(writer) => {
                let own = self.progress(writer);
                Input {
                    written: self.graph.given(writer, own.firings),
                    ended: own.done,
                }
            }
            None => {
                let tape = self.tapes.tape(self.block);
                Input {
                    written: tape.length,
                    ended: tape.closed,
                }
            }
        }
    }

    /// How far the reader at the end of a connection is.
    pub(crate) fn reader(&self, connection: &Connection) -> Reader
        requires { IsReader (net_seen B.meaning self.now) connection.now }
        ensures value { reader_of result ≡ reader_counts (net_seen B.meaning self.now) (state_seen self.now)
            (connection_of connection.now) }
        ensures small { result.taken < 2 ^ 62 }
    {
        let own = self.progress(connection.to);
        Reader {
            taken: self
                .graph
                .taken(connection.to, connection.in_port, own.firings),
            done: own.done,
        }
    }
}
