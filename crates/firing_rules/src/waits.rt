//! What a block waits for, and for which block.

ghost use Rattle.std.specs.Prelude.{◌≡◌, ◌<◌, length, map, None, All};
ghost use Rattle.std.specs.Option.{option_map};
ghost use Rattle.stream_model.specs.Network.{used_outputs};
ghost use Rattle.machine_laws.specs.Waits.{items_wait, slower, slowest, slowest_reader, wait_of};
ghost use Rattle.flowgraph.specs.Flowgraph.{connection_of};
ghost use Rattle.firing_rules.specs.Situation.{net_seen, state_seen, counts_seen};
ghost use Rattle.firing_rules.specs.Small.{IsReader};
ghost use Rattle.firing_rules.specs.Waits.{wait_seen, IsKnown};

use crate::decision::{Decision, Need};
use crate::progress::Tapes;
use crate::situation::Situation;
use block_trait::Block;
use flowgraph::{BlockId, Connection};

/// What a claim of a block comes to, or what the block waits for and which block has to act.
#[derive(Clone, Copy, Debug, PartialEq, Eq)]
pub enum BlockNeed {
    /// The block is done.
    Done,
    /// A claim of it is in flight.
    Busy,
    /// A claim would fire it, or find that it is done.
    Ready,
    /// It is a source that has given all items of its open tape.
    Feed,
    /// Items on this input, the lowest that lacks items for one firing, and the block that writes it.
    Items { port: usize, writer: BlockId },
    /// Room on this output, the lowest without room for one firing, and its slowest live reader.
    Room { port: usize, reader: BlockId },
}

impl<B: Block, T: Tapes> Situation<'_, B, T> {
    /// What the block waits for.
    pub(crate) fn need(&self) -> BlockNeed
        ensures { wait_seen result ≡ wait_of (net_seen B.meaning self.now) self.now.capacities (state_seen self.now)
            self.now.block }
    {
        match self.decide(1) {
            Decision::Done => BlockNeed::Done,
            Decision::Busy => BlockNeed::Busy,
            Decision::Ended | Decision::Claimed { .. } => BlockNeed::Ready,
            Decision::Waiting(Need::Items(port)) => self.need_of_items(port),
            Decision::Waiting(Need::Room(port)) => {
                let reader = self.slowest_reader(port);
                BlockNeed::Room { port, reader }
            }
        }
    }

    // What the block waits for if it lacks items of an input, or, as a source, of its tape.
    fn need_of_items(&self, port: usize) -> BlockNeed
        requires { port < length (counts_seen B.meaning self.now).inputs }
        ensures { wait_seen result ≡ items_wait (net_seen B.meaning self.now) self.now.block port }
    {
        match self.writer(port) {
            Some(writer) => BlockNeed::Items { port, writer },
            None => BlockNeed::Feed,
        }
    }

    // The slowest live reader of an output. An output without room has one.
    fn slowest_reader(&self, port: usize) -> BlockId
        requires { port < used_outputs (net_seen B.meaning self.now) self.now.block }
        ensures { result.0 ≡ slowest_reader (net_seen B.meaning self.now) (state_seen self.now) self.now.block port }
    {
        match self.slowest(self.readers(port)) {
            Some(connection) => connection.to,
            None => BlockId(0),
        }
    }

    // The slowest live reader among some; the first of them if several are.
    fn slowest(&self, readers: &[Connection]) -> Option<Connection>
        requires { All (IsReader (net_seen B.meaning self.now)) readers.now }
        ensures { option_map connection_of result ≡ slowest (net_seen B.meaning self.now) (state_seen self.now) None
            (map connection_of readers.now) }
    {
        let mut best = None;
        for connection in readers {
            best = self.slower(best, connection);
        }
        best
    }

    // The slower one of the slowest reader so far and another.
    fn slower(&self, best: Option<Connection>, connection: &Connection) -> Option<Connection>
        requires known { IsReader (net_seen B.meaning self.now) connection.now }
        requires best { IsKnown (net_seen B.meaning self.now) best }
        ensures value { option_map connection_of result ≡ slower (net_seen B.meaning self.now) (state_seen self.now)
            (option_map connection_of best) (connection_of connection.now) }
        ensures known { IsKnown (net_seen B.meaning self.now) result }
    {
        let reader = self.reader(connection);
        if reader.done {
            return best;
        }
        let Some(slowest) = best else {
            return Some(*connection);
        };
        if reader.taken < self.reader(&slowest).taken {
            Some(*connection)
        } else {
            Some(slowest)
        }
    }
}
