//! Callers, and the desks at which they make calls of a plant at work.

ghost use Rattle.std.specs.Prelude.{◌≡◌, List, [], map, true, IfOk, ⊤};
ghost use Rattle.std.specs.Arc.{arc_value};
ghost use Rattle.stream_model.specs.Machine as machine;
ghost use Rattle.items.specs.Items.{type_of, numbers_of};
ghost use Rattle.settings.specs.Values.{value_of};
ghost use Rattle.plant_storage.specs.Stores.{mark_of};
ghost use Rattle.plant.specs.Answers.{piece_reply, reply_of};
ghost use Rattle.call_history.specs.History.{Asks, Noted, noted_by};
ghost use Rattle.call_history.specs.Desk.{DeskState, IsLogged};
ghost use Rattle.call_history.specs.Request.{IsReady, asked_of, fits, replied, response_reply};

use crate::shared::Shared;
use call_history::{CallerId, Entry, Feed, Request, Response, Setting, in_arc};
use flowgraph::{Block, BlockId, Valid};
use items::{Items, Mark};
use plant::{Closed, Fed, Piece, PlantFault, Taken};
use scheduling::Gate;
use settings::Value;
use std::alloc::{AllocError, Global};
use std::fmt;
use std::marker::Model;
use std::sync::{Arc, Wait};

/// Makes calls of a plant while its workers run. Its ghost member `ran` relates the caller before its run, the caller
/// after it, the desk as it was handed, and the log of the desk after the run. By default it always holds.
pub trait Caller<B: Block> {
    ghost ran: { Self → Self → DeskState B → List Noted → Type 0 } = { λ _ _ _ _. ⊤ };

    /// Makes its calls at the desk, in a thread of its own. It may wait for its own input; the workers go on meanwhile.
    /// The run does not end before it returns.
    fn run<G: Gate + Drop, R: Wait>(&mut self, rt: &R, alloc: Global, desk: &mut Desk<B, G>)
        ensures { ran self.old self.new desk.old desk.new.log };
}

/// Where one caller makes calls of a plant at work. Each call takes the lock and returns what the plant returns. The
/// desk's log and the history of the run record the call with its reply; both take memory. A call that runs out of
/// memory returns `PlantFault::Memory`, changes nothing and is in neither. A contract sees the plant's graph, the
/// desk's number and its log.
#[derive(Drop)]
pub struct Desk<'a, B: Block, G: Gate + Drop> {
    shared: &'a Shared<B, G>,
    graph: &'a Valid<B>,
    number: u32,
    log: Vec<Entry>,
}

impl<'a, B: Block, G: Gate + Drop> fmt::Debug for Desk<'a, B, G> {
    fn fmt<W: fmt::Write>(&self, f: &mut fmt::Formatter<W>) -> fmt::Result {
        f.debug_struct("Desk").finish_non_exhaustive()
    }
}

impl<'a, B: Block, G: Gate + Drop> Model for Desk<'a, B, G> {
    ghost use Rattle.std.specs.Prelude.{map};
    ghost use Rattle.call_history.specs.History.{noted_by};
    ghost use Rattle.call_history.specs.Desk.{DeskState};

    ghost Value = { DeskState B };

    ghost view = { λ d. record { graph = d.graph.now; number = d.number; log = map noted_by d.log.items } };
}

impl<'a, B: Block, G: Gate + Drop> Desk<'a, B, G> {
    // A desk at which no call was made yet.
    pub(crate) fn new(
        alloc: Global,
        shared: &'a Shared<B, G>,
        graph: &'a Valid<B>,
        number: u32,
    ) -> Desk<'a, B, G>
        ensures { result ≡ record { graph = graph.now; number = number; log = [] } }
    {
        Desk {
            shared,
            graph,
            number,
            log: Vec::new(alloc),
        }
    }

    // The calls that were made here.
    pub(crate) fn into_log(self) -> Vec<Entry>
        ensures { map noted_by result.items ≡ self.entry.log }
    {
        let Desk { log, .. } = self;
        log
    }

    /// The plant's graph, to find blocks by their names.
    pub fn graph(&self) -> &Valid<B>
        ensures { result.now ≡ self.now.graph }
    {
        self.graph
    }

    /// The calls that were made here so far, each with its reply.
    pub fn log(&self) -> &[Entry]
        ensures { map noted_by result.now ≡ self.now.log }
    {
        &self.log
    }

    /// Like `Plant::feed`. It wakes the source's worker, or a thread of the pool. The log keeps the items and marks.
    pub fn feed<R: Wait>(
        &mut self,
        rt: &R,
        alloc: Global,
        source: BlockId,
        items: Items,
        marks: &[Mark],
    ) -> Result<Fed, PlantFault>
        ensures { IsLogged (Asks (machine.Feed source.0 (type_of items) (numbers_of items) (map mark_of marks.now)))
            self.old self.new (reply_of (λ f. machine.Fed f.0) result) }
    {
        let marks = Vec::from_slice(alloc, marks)?;
        let feed = in_arc(
            alloc,
            Feed {
                source,
                items,
                marks,
            },
        )?;
        match self.call(rt, alloc, Request::Feed(feed))? {
            Response::Fed(fed) => Ok(fed),
            Response::Refused(fault) => Err(fault),
            _ => unreachable!(),
        }
    }

    /// Like `Plant::close`. The log takes memory, so it may be refused `Memory`.
    pub fn close<R: Wait>(&mut self, rt: &R, source: BlockId) -> Result<Closed, PlantFault>
        ensures { IsLogged (Asks (machine.Close source.0)) self.old self.new
            (reply_of (λ c. machine.Closed c.0) result) }
    {
        let alloc = *self.log.allocator();
        match self.call(rt, alloc, Request::Close(source))? {
            Response::Closed(closed) => Ok(closed),
            Response::Refused(fault) => Err(fault),
            _ => unreachable!(),
        }
    }

    /// Sets the value of a block's setting from item `at` of its first input on, or from the first that is neither
    /// taken nor claimed, as `Plant::set` does. The log keeps a copy of the value.
    pub fn set<R: Wait>(
        &mut self,
        rt: &R,
        alloc: Global,
        block: BlockId,
        at: Option<u64>,
        value: Value,
    ) -> Result<Taken, PlantFault>
        ensures { IsLogged (Asks (machine.Set block.0 at (value_of value))) self.old self.new
            (reply_of (λ t. machine.Taken t.0) result) }
    {
        let copy = value.copy(alloc)?;
        let setting = in_arc(alloc, Setting { block, at, value })?;
        match self.call(rt, alloc, Request::Set(setting, copy))? {
            Response::Taken(taken) => Ok(taken),
            Response::Refused(fault) => Err(fault),
            _ => unreachable!(),
        }
    }

    /// Like `Plant::read`. The log shares the piece. The lock is held while the items are copied, so ask for new items
    /// only.
    pub fn read<R: Wait>(
        &mut self,
        rt: &R,
        alloc: Global,
        sink: BlockId,
        from: u64,
        max: u64,
    ) -> Result<Arc<Piece, Global>, PlantFault>
        ensures { IsLogged (Asks (machine.Read sink.0 from max)) self.old self.new
            (reply_of (λ p. piece_reply (arc_value p)) result) }
    {
        match self.call(rt, alloc, Request::Read(sink, from, max))? {
            Response::Piece(piece) => Ok(piece),
            Response::Refused(fault) => Err(fault),
            _ => unreachable!(),
        }
    }

    // Makes a call, and logs it with the response. If memory lacks for one of them, nothing changes.
    fn call<R: Wait>(
        &mut self,
        rt: &R,
        alloc: Global,
        request: Request,
    ) -> Result<Response, AllocError>
        requires { IsReady request }
        ensures logged { IsLogged (asked_of request) self.old self.new (replied response_reply result) }
        ensures fits { IfOk result (λ r. fits request r ≡ true) }
    {
        self.log.reserve(1)?;
        let call = request.to_call()?;
        let (response, reply) = self.shared.call(rt, alloc, self.number, request)?;
        self.log.push_reserved(Entry {
            caller: CallerId::Desk(self.number),
            call,
            reply,
        });
        Ok(response)
    }

    /// Asks for the end of the run: each worker commits what it works on and claims no more. Callers go on until they
    /// return. It takes no memory, and no log has it.
    pub fn stop<R: Wait>(&mut self, rt: &R)
        ensures { self.new ≡ self.old }
    {
        self.shared.stop(rt);
    }
}
