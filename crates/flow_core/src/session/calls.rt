//! Commands that are single calls of a plant.

ghost use Rattle.std.specs.Prelude.{◌≡◌, ◌≤◌, ◌<◌, ◌||◌, length, IfOk};
ghost use Rattle.stream_model.specs.Machine as machine;
ghost use Rattle.stream_model.specs.Network.{node_at};
ghost use Rattle.flowgraph.specs.Flowgraph.{net_of};
ghost use Rattle.plant.specs.Answers.{takes_memory, waiting_reply, piece_reply};
ghost use Rattle.plant.specs.Feeding.{feed_numbers};
ghost use Rattle.script_text.specs.Commands.{marks_seen};
ghost use Rattle.script_text.specs.Printed.{printed};
ghost use Rattle.script_text.specs.Replies.{reply_text};
ghost use Rattle.flow_core.specs.Session.{set_numbers, taps_wanted, IsValueFor, Tells, Moves, refusal_line, reply_line};

use block_trait::Block;
use items::{ItemFault, ItemType, Items, Mark};
use plant::{BlockId, Closed, Fed, Need, Piece, Plant, PlantFault, Step, Taken};
use refusal_codes::Refusal;
use script_text::Reply;
use settings::{Taps, Value};
use std::alloc::{AllocError, Global};
use stream_model::Wanted;

/// Feeds numbers to a source, with marks on them.
pub(crate) fn feed<B: Block>(
    alloc: Global,
    plant: &mut Plant<B>,
    source: BlockId,
    numbers: &[i64],
    marks: &[Mark],
) -> Result<Vec<u8>, AllocError>
    ensures moves { Moves (feed_numbers (net_of B.meaning plant.old.graph) plant.old.state source.0 numbers.now
        (marks_seen marks.now)) plant.old plant.new }
    ensures tells { let now = feed_numbers (net_of B.meaning plant.old.graph) plant.old.state source.0 numbers.now
        (marks_seen marks.now) in
        IfOk result (λ line. Tells (takes_memory now.0) now plant.old.state plant.new.state line.items) }
{
    match plant.feed_numbers(alloc, source, numbers, marks) {
        Ok(Fed(total)) => Reply::Fed(total).to_line(alloc),
        Err(fault) => refused(alloc, fault),
    }
}

/// Closes a source's tape.
pub(crate) fn close<B: Block>(
    alloc: Global,
    plant: &mut Plant<B>,
    source: BlockId,
) -> Result<Vec<u8>, AllocError>
    ensures moves { Moves (machine.close_of (net_of B.meaning plant.old.graph) plant.old.state source.0) plant.old
        plant.new }
    ensures tells { let now = machine.close_of (net_of B.meaning plant.old.graph) plant.old.state source.0 in
        IfOk result (λ line. Tells (takes_memory now.0) now plant.old.state plant.new.state line.items) }
{
    match plant.close(source) {
        Ok(Closed(total)) => Reply::Closed(total).to_line(alloc),
        Err(fault) => refused(alloc, fault),
    }
}

/// Sets a block's value to numbers, from this item on, or from the first that is still open.
pub(crate) fn set<B: Block>(
    alloc: Global,
    plant: &mut Plant<B>,
    block: BlockId,
    at: Option<u64>,
    numbers: &[i64],
) -> Result<Vec<u8>, AllocError>
    requires { block.0 < length plant.old.graph.blocks }
    ensures moves { Moves (set_numbers (net_of B.meaning plant.old.graph) plant.old.state block.0 at numbers.now)
        plant.old plant.new }
    ensures tells { let net = net_of B.meaning plant.old.graph in let now = set_numbers net plant.old.state block.0 at
        numbers.now in
        IfOk result (λ line. Tells (takes_memory now.0 || taps_wanted (node_at net block.0).meaning.setting now.0) now
        plant.old.state plant.new.state line.items) }
{
    let Some(wanted) = plant.graph().block(block).setting() else {
        return refused(alloc, PlantFault::NoSetting);
    };
    let value = match value_for(alloc, wanted, numbers) {
        Ok(value) => value,
        Err(fault) => return refused(alloc, fault),
    };
    match plant.set(block, at, value) {
        Ok(Taken(at)) => Reply::Taken(at).to_line(alloc),
        Err(fault) => refused(alloc, fault),
    }
}

/// The value that numbers give a setting. If the count of taps is wrong, they are refused before they take memory.
pub fn value_for(alloc: Global, wanted: Wanted, numbers: &[i64]) -> Result<Value, PlantFault>
    ensures { IsValueFor wanted numbers.now result }
{
    match wanted {
        Wanted::Number(least, greatest) => match numbers {
            [number] if least <= *number && *number <= greatest => Ok(Value::Number(*number)),
            _ => Err(PlantFault::WrongSetting),
        },
        Wanted::Taps(count) => {
            if numbers.len() != count as usize {
                return Err(PlantFault::WrongSetting);
            }
            match Items::from_numbers(alloc, ItemType::Short, numbers) {
                Ok(Items::Short(taps)) => Ok(Value::Taps(Taps::new(taps))),
                Ok(_) => unreachable!(),
                Err(ItemFault::ItemRange) => Err(PlantFault::WrongSetting),
                Err(ItemFault::Memory) => Err(PlantFault::Memory),
            }
        }
    }
}

/// Claims, works and commits at most so many firings of a block.
pub(crate) fn step<B: Block>(
    alloc: Global,
    plant: &mut Plant<B>,
    block: BlockId,
    max: u32,
) -> Result<Vec<u8>, AllocError>
    requires { 1 ≤ max }
    ensures moves { Moves (machine.step_of (net_of B.meaning plant.old.graph) plant.old.capacities plant.old.state
        block.0 max) plant.old plant.new }
    ensures tells { let now = machine.step_of (net_of B.meaning plant.old.graph) plant.old.capacities plant.old.state
        block.0 max in
        IfOk result (λ line. Tells (takes_memory now.0) now plant.old.state plant.new.state line.items) }
{
    match plant.step(alloc, block, max) {
        Ok(Step::Did(count)) => Reply::Did(count).to_line(alloc),
        Ok(Step::Done) => Reply::Done.to_line(alloc),
        Ok(Step::Busy) => Reply::Busy.to_line(alloc),
        Ok(Step::Waiting(need)) => waiting(need).to_line(alloc),
        Err(fault) => refused(alloc, fault),
    }
}

/// Shows what a sink holds from an item on.
pub(crate) fn read<B: Block>(
    alloc: Global,
    plant: &Plant<B>,
    sink: BlockId,
    from: u64,
    max: u64,
) -> Result<Vec<u8>, AllocError>
    ensures { let now = machine.read_of (net_of B.meaning plant.now.graph) plant.now.state sink.0 from max in
        IfOk result (λ line. Tells (takes_memory now.0) now plant.now.state plant.now.state line.items) }
{
    match plant.read(alloc, sink, from, max) {
        Ok(piece) => shown(alloc, &piece),
        Err(fault) => refused(alloc, fault),
    }
}

/// What a sink shows, as a line.
pub fn shown(alloc: Global, piece: &Piece) -> Result<Vec<u8>, AllocError>
    ensures { IfOk result (λ line. line.items ≡ reply_line (piece_reply piece.now)) }
{
    let reply = Reply::Piece {
        held: piece.held,
        items: &piece.items,
        tags: &piece.tags,
    };
    reply.to_line(alloc)
}

/// What a block waits for, as a reply.
pub(crate) fn waiting(need: Need) -> Reply<'static>
    ensures { printed result ≡ reply_text (waiting_reply need) }
{
    match need {
        Need::Items(port) => Reply::WaitingItems(port),
        Need::Room(port) => Reply::WaitingRoom(port),
    }
}

/// A refusal as a line.
pub fn refused(alloc: Global, fault: PlantFault) -> Result<Vec<u8>, AllocError>
    ensures { IfOk result (λ line. line.items ≡ refusal_line fault) }
{
    match fault {
        PlantFault::Late { floor } => Reply::Late(floor).to_line(alloc),
        fault => Reply::Refused(fault.number()).to_line(alloc),
    }
}
