//! The drawn parts of a graph: its blocks and its connections.
ghost use Rattle.std.specs.Prelude.{◌≡◌, ◌<◌, length};
ghost use Rattle.stream_model.specs.Machine.{capacity_at};
ghost use Rattle.flowgraph.specs.Flowgraph.{net_of, connection_of};
ghost use Rattle.kinds.specs.Kind.{meaning_of};
ghost use Rattle.rates.specs.Answer.{answer_of, sizes_of};
ghost use Rattle.drawings.specs.Parts.{box_seen, end_seen, arrow_seen, box_at, end_at, arrow_of, firings_at, note_of, moved_note, shift_by};

use block_trait::{Block, Pace, Setting};
use flowgraph::{BlockId, Connection, Valid};
use kinds::Kind;
use rates::{BufferCapacities, Rates};
use stream_model::ItemType;

/// A short note about a block: its own value or number.
#[derive(Clone, Copy, Debug, PartialEq, Eq)]
pub(crate) enum Note {
    Nothing,
    /// The number that a setting replaces.
    Value(i64),
    /// The number of taps, which a setting replaces.
    Taps(usize),
    /// The number of zeros before the stream, of items that are left out, or of firings after which the block ends.
    Count(u64),
}

/// A block, as it is drawn.
#[derive(Clone, Copy)]
pub(crate) struct DrawnBlock<'a> {
    pub(crate) name: &'a [u8],
    /// The name of its kind.
    pub(crate) kind: &'a [u8],
    pub(crate) note: Note,
    /// How often it fires in an iteration, if the rates are balanced.
    pub(crate) firings: Option<u32>,
    /// How many inputs are connected.
    pub(crate) inputs: usize,
    /// How many outputs are connected.
    pub(crate) outputs: usize,
}

/// An end of a connection: a port of a block.
#[derive(Clone, Copy)]
pub(crate) struct DrawnEnd<'a> {
    pub(crate) block: BlockId,
    pub(crate) name: &'a [u8],
    pub(crate) port: usize,
}

/// A connection, as it is drawn.
#[derive(Clone, Copy)]
pub(crate) struct DrawnConnection<'a> {
    pub(crate) from: DrawnEnd<'a>,
    pub(crate) to: DrawnEnd<'a>,
    pub(crate) item: ItemType,
    /// How many unread items its output holds.
    pub(crate) capacity: u32,
}

/// A block of a graph.
pub(crate) fn drawn_block<'a>(
    graph: &'a Valid<Kind>,
    rates: &Rates,
    block: BlockId,
) -> DrawnBlock<'a>
    requires { block.0 < length graph.now.blocks }
    ensures { box_seen result ≡ box_at graph.now (answer_of rates.now) block.0 }
{
    DrawnBlock {
        name: graph.name(block),
        kind: graph.block(block).name().text().as_bytes(),
        note: note_of(graph.block(block)),
        firings: firings_of(rates, block),
        inputs: graph.inputs(block).len(),
        outputs: graph.outputs(block),
    }
}

// The note about a block: its own value of a setting, else how it shifts its stream, else where it ends.
fn note_of(block: &Kind) -> Note
    ensures { result ≡ note_of (meaning_of block.now) }
{
    let shape = block.shape(0);
    match shape.setting {
        Setting::Number(_, _, own) => Note::Value(own),
        Setting::Taps(taps) => Note::Taps(taps.len()),
        Setting::Fixed => moved_note(shape.pace, shape.limit),
    }
}

fn moved_note(pace: Pace, limit: Option<u64>) -> Note
    ensures { result ≡ moved_note (shift_by pace) limit }
{
    match (pace, limit) {
        (Pace::Delay(count) | Pace::Skip(count), _) | (_, Some(count)) => Note::Count(count),
        _ => Note::Nothing,
    }
}

/// A connection of a graph.
pub(crate) fn drawn_connection<'a>(
    graph: &'a Valid<Kind>,
    sizes: &BufferCapacities,
    connection: Connection,
) -> DrawnConnection<'a>
    requires from { connection.from.0 < length graph.now.blocks }
    requires to { connection.to.0 < length graph.now.blocks }
    ensures { arrow_seen result ≡ arrow_of graph.now (sizes_of sizes.now) (connection_of connection) }
{
    DrawnConnection {
        from: drawn_end(graph, connection.from, connection.out_port),
        to: drawn_end(graph, connection.to, connection.in_port),
        item: graph.block(connection.from).outputs().item,
        capacity: capacity_at(sizes, connection.from, connection.out_port),
    }
}

fn drawn_end(graph: &Valid<Kind>, block: BlockId, port: usize) -> DrawnEnd<'_>
    requires { block.0 < length graph.now.blocks }
    ensures { end_seen result ≡ end_at graph.now block.0 port }
{
    DrawnEnd {
        block,
        name: graph.name(block),
        port,
    }
}

fn firings_of(rates: &Rates, block: BlockId) -> Option<u32>
    ensures { result ≡ firings_at (answer_of rates.now) block.0 }
{
    match rates {
        Rates::Balanced(balanced) => balanced.firings().get(block.0 as usize).copied(),
        Rates::Uneven | Rates::TooLarge => None,
    }
}

// The capacity of an output; 0 if it has none.
fn capacity_at(sizes: &BufferCapacities, block: BlockId, port: usize) -> u32
    ensures { result ≡ capacity_at (sizes_of sizes.now) block.0 port }
{
    match sizes.rows().get(block.0 as usize) {
        Some(outputs) => match outputs.get(port) {
            Some(capacity) => *capacity,
            None => 0,
        },
        None => 0,
    }
}
