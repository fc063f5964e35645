//! What a graph is made of.

ghost use Rattle.std.specs.Prelude.{◌≡◌};
ghost use Rattle.stream_model.specs.declared.vocabulary.Policy.TheVariants.{All};

use stream_model::Policy;

/// A block of a graph, by its number: the order in which blocks were added, from 0.
#[derive(Clone, Copy, Debug, PartialEq, Eq)]
pub struct BlockId(pub u32);

/// How a block stands in a graph.
#[derive(Clone, Copy, Debug, PartialEq, Eq)]
pub struct Options {
    /// Which tags go from its inputs to its outputs.
    pub policy: Policy,
    /// How many base firings one firing is, from 1 to 64. It is 1 for sources and sinks, and for blocks with a limit or
    /// without a rate.
    pub multiple: u32,
    /// How many unread items the buffer of each output holds at least, from 1 to 65,536. It holds more if one firing of
    /// a block at its ends, or the rates, need more.
    pub capacity: u32,
}

impl Default for Options {
    /// The defaults of a graph file: all tags go through, firings go one by one, and an output holds at least 4,096
    /// unread items.
    fn default() -> Options
        ensures { result ≡ record { policy = All; multiple = 1; capacity = 4096 } }
    {
        Options {
            policy: Policy::All,
            multiple: 1,
            capacity: 4096,
        }
    }
}

/// A connection from an output port to an input port. Ports of each side are numbered from 0.
#[derive(Clone, Copy, Debug, PartialEq, Eq)]
pub struct Connection {
    /// The block that gives the items.
    pub from: BlockId,
    pub out_port: usize,
    /// The block that takes them.
    pub to: BlockId,
    pub in_port: usize,
}

/// An input of a block in a valid graph.
#[derive(Clone, Copy, Debug, PartialEq, Eq)]
pub struct Input {
    /// The connection that enters it.
    pub connection: Connection,
    /// Its number among the readers of its writer's output, from 0, in the order of connecting.
    pub reader: usize,
}

/// A block with its options.
#[derive(Debug, Drop, PartialEq, Eq)]
pub struct Entry<B> {
    pub block: B,
    pub options: Options,
}
