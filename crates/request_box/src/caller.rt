//! Callers make requests.

ghost use Rattle.std.specs.Prelude.{◌≡◌, IfOk};
ghost use Rattle.pipeline.specs.declared.requests.Request.TheVariants as request;
ghost use Rattle.pipeline.specs.Requests.{IsAnswer};

use crate::bell::Bell;
use crate::way_back::{Due, way_back};
use crossbeam_channel::{SendError, Sender};
use flowgraph::BlockId;
use pipeline::{Answer, Request};
use settings::Value;
use std::alloc::{AllocError, Global};
use std::error::Error;
use std::fmt;
use std::sync::{Arc, Wait};

/// A request, and where its answer goes.
#[derive(Drop)]
pub(crate) struct Call {
    pub(crate) request: Request,
    pub(crate) due: Due,
    ghost own: { due.request.value ≡ request },
}

/// Why a call has no answer.
#[derive(Clone, Copy, Debug, PartialEq, Eq)]
pub enum CallFault {
    /// The run has ended, and nobody answers any more.
    Ended,
    /// Memory ran out, and nobody was asked.
    Memory,
}

impl fmt::Display for CallFault {
    fn fmt<W: fmt::Write>(&self, f: &mut fmt::Formatter<W>) -> fmt::Result {
        match self {
            CallFault::Ended => f.write_str("the stream has ended"),
            CallFault::Memory => f.write_str("out of memory"),
        }
    }
}

impl Error for CallFault {}

impl From<AllocError> for CallFault {
    fn from(_refusal: AllocError) -> CallFault {
        CallFault::Memory
    }
}

/// Puts requests into a box, and waits for the answer to each. It may be sent to another thread, and may outlive the
/// box. Then each call is refused `Ended`.
#[derive(Drop)]
pub struct Caller<R: Drop> {
    rt: R,
    alloc: Global,
    calls: Sender<Call, Global>,
    bell: Arc<Bell, Global>,
}

impl<R: Drop> Caller<R> {
    pub(crate) fn new(
        rt: R,
        alloc: Global,
        calls: Sender<Call, Global>,
        bell: Arc<Bell, Global>,
    ) -> Caller<R> {
        Caller {
            rt,
            alloc,
            calls,
            bell,
        }
    }
}

impl<R: Copy + Drop> Caller<R> {
    /// Another caller of the same box. It fails only if the allocator refuses.
    pub fn try_clone(&self) -> Result<Caller<R>, AllocError> {
        Ok(Caller {
            rt: self.rt,
            alloc: self.alloc,
            calls: self.calls.clone()?,
            bell: Arc::try_clone(&self.bell)?,
        })
    }
}

impl<R: Wait + Drop> Caller<R> {
    /// Sets the value of a block's setting from item `at` of its first input on, or from the first that it has not
    /// taken.
    pub fn set(&self, block: BlockId, at: Option<u64>, value: Value) -> Result<Answer, CallFault>
        ensures { IfOk result (IsAnswer (request.Set block at value)) }
    {
        self.call(Request::Set { block, at, value })
    }

    /// Closes a source. Its reader is not read any more.
    pub fn close(&self, source: BlockId) -> Result<Answer, CallFault>
        ensures { IfOk result (IsAnswer (request.Close source)) }
    {
        self.call(Request::Close(source))
    }

    /// Asks how far a block is.
    pub fn levels(&self, block: BlockId) -> Result<Answer, CallFault>
        ensures { IfOk result (IsAnswer (request.Levels block)) }
    {
        self.call(Request::Levels(block))
    }

    /// Ends the run. What its sinks have taken is written after the answer.
    pub fn stop(&self) -> Result<Answer, CallFault>
        ensures { IfOk result (IsAnswer request.Stop) }
    {
        self.call(Request::Stop)
    }

    /// Makes this request, and waits for the answer. `Ended` if the box is dropped, before or meanwhile; nothing is
    /// known then of a request that waited.
    pub fn call(&self, request: Request) -> Result<Answer, CallFault>
        ensures { IfOk result (IsAnswer request) }
    {
        let (awaited, due) = way_back(&self.rt, self.alloc, &request)?;
        match self.calls.send(&self.rt, Call { request, due }) {
            Ok(()) => self.bell.ring(&self.rt),
            Err(SendError::OutOfMemory(_)) => return Err(CallFault::Memory),
            Err(SendError::Disconnected(_)) => return Err(CallFault::Ended),
        }
        match awaited.answer(&self.rt) {
            Some(answer) => Ok(answer),
            None => Err(CallFault::Ended),
        }
    }
}
