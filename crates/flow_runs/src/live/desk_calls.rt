//! Commands that are calls at the desk of a plant at work.

ghost use Rattle.std.specs.Prelude.{◌≡◌, ◌<◌, length, IfOk};
ghost use Rattle.stream_model.specs.Machine as machine;
ghost use Rattle.stream_model.specs.Network.{node_at};
ghost use Rattle.flowgraph.specs.Flowgraph.{net_of};
ghost use Rattle.script_text.specs.Commands.{marks_seen};
ghost use Rattle.flow_runs.specs.AtDesk.{AreFor, AtDesk, Follows, Makes, feed_request, found, set_request};

use block_trait::Block;
use flow_core::answerer::Answerer;
use flow_core::session::calls::{refused, shown, value_for};
use flow_core::session::find;
use items::{BlockName, ItemFault, Items, Mark};
use plant::{BlockId, Closed, Fed, PlantFault, Taken, Valid, source_type};
use script_text::{Command, Reply};
use std::alloc::{AllocError, Global};
use std::sync::Wait;
use threads::{Desk, Gate};

/// The runtime by which a call at a desk waits for the lock.
#[derive(Drop)]
pub(crate) struct Waiter<'a, R>(pub(crate) &'a R);

impl<B: Block, G: Gate + Drop, R: Wait> Answerer<Waiter<'_, R>> for Desk<'_, B, G> {
    ghost answers = { λ c old new line. AtDesk B.meaning c old new line };

    /// Makes the call that a command asks for, and returns its reply as a line. Claims belong to the workers.
    fn answer(
        &mut self,
        waiter: &Waiter<'_, R>,
        alloc: Global,
        command: &Command,
    ) -> Result<Option<Vec<u8>>, AllocError> {
        let rt = waiter.0;
        let line = match command {
            Command::Feed { name, items, marks } => feed(rt, alloc, self, name, items, marks),
            Command::Close { name } => close(rt, alloc, self, name),
            Command::Set { name, at, numbers } => set(rt, alloc, self, name, *at, numbers),
            Command::Read { name, from, max } => read(rt, alloc, self, name, *from, *max),
            Command::Claim { .. }
            | Command::Commit { .. }
            | Command::Abandon { .. }
            | Command::Step { .. }
            | Command::Why { .. }
            | Command::Quiet
            | Command::Settle => return Ok(None),
        };
        match line {
            Ok(line) => Ok(Some(line)),
            Err(refusal) => Err(refusal),
        }
    }
}

// Feeds numbers to a source, with marks on them.
fn feed<B: Block, G: Gate + Drop, R: Wait>(
    rt: &R,
    alloc: Global,
    desk: &mut Desk<'_, B, G>,
    name: &BlockName,
    numbers: &[i64],
    marks: &[Mark],
) -> Result<Vec<u8>, AllocError>
    ensures { IfOk result (λ line. Follows (found desk.old.graph.names name.now
        (λ b. feed_request (net_of B.meaning desk.old.graph) b numbers.now (marks_seen marks.now))) desk.old desk.new
        line.items) }
{
    let Some(source) = find(desk.graph(), name) else {
        return refused(alloc, PlantFault::NoSuchBlock);
    };
    let items = match items_for(alloc, desk.graph(), source, numbers) {
        Ok(items) => items,
        Err(fault) => return refused(alloc, fault),
    };
    match desk.feed(rt, alloc, source, items, marks) {
        Ok(Fed(total)) => Reply::Fed(total).to_line(alloc),
        Err(fault) => refused(alloc, fault),
    }
}

// Numbers as items of a source's type.
fn items_for<B: Block>(
    alloc: Global,
    graph: &Valid<B>,
    source: BlockId,
    numbers: &[i64],
) -> Result<Items, PlantFault>
    requires { source.0 < length graph.now.blocks }
    ensures { AreFor (net_of B.meaning graph.now) source.0 numbers.now result }
{
    let item = source_type(graph, source)?;
    match Items::from_numbers(alloc, item, numbers) {
        Ok(items) => Ok(items),
        Err(ItemFault::ItemRange) => Err(PlantFault::ItemRange),
        Err(ItemFault::Memory) => Err(PlantFault::Memory),
    }
}

// Closes a source's tape.
fn close<B: Block, G: Gate + Drop, R: Wait>(
    rt: &R,
    alloc: Global,
    desk: &mut Desk<'_, B, G>,
    name: &BlockName,
) -> Result<Vec<u8>, AllocError>
    ensures { IfOk result (λ line. Follows (found desk.old.graph.names name.now (λ b. Makes (machine.Close b))) desk.old
        desk.new line.items) }
{
    let Some(source) = find(desk.graph(), name) else {
        return refused(alloc, PlantFault::NoSuchBlock);
    };
    match desk.close(rt, source) {
        Ok(Closed(total)) => Reply::Closed(total).to_line(alloc),
        Err(fault) => refused(alloc, fault),
    }
}

// Sets a block's value to numbers, from this item on, or from the first that is still open.
fn set<B: Block, G: Gate + Drop, R: Wait>(
    rt: &R,
    alloc: Global,
    desk: &mut Desk<'_, B, G>,
    name: &BlockName,
    at: Option<u64>,
    numbers: &[i64],
) -> Result<Vec<u8>, AllocError>
    ensures { IfOk result (λ line. Follows (found desk.old.graph.names name.now
        (λ b. set_request b at numbers.now (node_at (net_of B.meaning desk.old.graph) b).meaning.setting)) desk.old
        desk.new line.items) }
{
    let Some(block) = find(desk.graph(), name) else {
        return refused(alloc, PlantFault::NoSuchBlock);
    };
    let Some(wanted) = desk.graph().block(block).setting() else {
        return refused(alloc, PlantFault::NoSetting);
    };
    let value = match value_for(alloc, wanted, numbers) {
        Ok(value) => value,
        Err(fault) => return refused(alloc, fault),
    };
    match desk.set(rt, alloc, block, at, value) {
        Ok(Taken(at)) => Reply::Taken(at).to_line(alloc),
        Err(fault) => refused(alloc, fault),
    }
}

// Shows what a sink holds from an item on.
fn read<B: Block, G: Gate + Drop, R: Wait>(
    rt: &R,
    alloc: Global,
    desk: &mut Desk<'_, B, G>,
    name: &BlockName,
    from: u64,
    max: u32,
) -> Result<Vec<u8>, AllocError>
    ensures { IfOk result (λ line. Follows (found desk.old.graph.names name.now (λ b. Makes (machine.Read b from max)))
        desk.old desk.new line.items) }
{
    let Some(sink) = find(desk.graph(), name) else {
        return refused(alloc, PlantFault::NoSuchBlock);
    };
    match desk.read(rt, alloc, sink, from, u64::from(max)) {
        Ok(piece) => shown(alloc, &piece),
        Err(fault) => refused(alloc, fault),
    }
}
