//! The pipeline.

ghost use Rattle.std.specs.Prelude.{◌≡◌, Ok, Some, IfErr, IfOk, IfSome, OnErr, OnOk};
ghost use Rattle.plant.specs.declared.answers.Settled.TheVariants.{Done, Quiet};
ghost use Rattle.pipeline.specs.declared.requests.Ended.TheVariants as ended;
ghost use Rattle.pipeline.specs.Faults.{IsFaultOf};
ghost use Rattle.pipeline.specs.Runs.{AllDelivered, BeginsAskedFrom, BeginsFrom, GoesAsked, GoesFrom, HoldsWhole, IsEnded, IsSettled, NothingLacks, StreamsBegin, StreamsFrom};

use crate::end::End;
use crate::fault::PipelineFault;
use crate::intake;
use crate::readiness::{AllReady, Readiness};
use crate::requests::{Ended, NoRequests, Requests};
use flowgraph::{Block, BlockId};
use std::alloc::Global;
use std::io::{Read, Write};
use streaming::{Helpers, Job, NoHelpers, Settled, StreamingPlant, Unwatched, Watch, Worked};

/// A plant that streams, with readers for some sources and writers for some sinks. A contract sees the plant and what
/// each block is joined to.
#[derive(Drop)]
pub struct Pipeline<B: Block, R, W> {
    pub plant: StreamingPlant<B>,
    /// What each block is joined to.
    pub ends: Vec<End<R, W>>,
    /// Which sinks' writers took nothing at the last look, one for each block.
    pub full: Vec<bool>,
    /// The sink whose waits led to the last source that was fed.
    pub sink: BlockId,
    /// Where readers put the bytes of a piece before they are fed.
    pub piece: Box<[u8; intake::PIECE]>,
}

impl<B: Block, R: Read, W: Write> Pipeline<B, R, W> {
    /// Reads, works and writes until each block is done, or none can act and no reader gives more. Then it writes all
    /// that the sinks have taken.
    ///
    /// Before each read that may wait, it writes all that came of earlier reads, and flushes the writers. It reads only
    /// for a source that has given all that it was fed: first one whose items a sink waits for, else any. After a
    /// fault, what was written is a beginning. Do not run the pipeline again then: what was read or drained last may be
    /// lost. At `CutItem` nothing is lost: close its source and run again.
    pub fn run(&mut self, alloc: Global) -> Result<Settled, PipelineFault>
        ensures goes { OnOk result (GoesFrom R.remaining W.contents B.meaning self.old self.new) }
        ensures begins { OnErr result (BeginsFrom R.remaining W.contents B.meaning self.old self.new) }
        ensures fault { IfErr result (IsFaultOf R.remaining self.new.ends.items) }
        ensures settled { IfOk result (IsSettled B.meaning self.new) }
        ensures whole { result ≡ Ok Done → HoldsWhole B.meaning self.new }
        ensures written { OnOk result (AllDelivered B.meaning self.new) }
        ensures asked { result ≡ Ok Quiet → NothingLacks B.meaning self.new }
    {
        self.run_with(alloc, &mut NoHelpers, &mut AllReady, &mut Unwatched)
    }

    /// Like `run`, with helpers that do work of its blocks if they are called. If several sources may be fed next it
    /// reads for one that is ready, and waits if none is. While writers take nothing, their sinks rest, and it goes on
    /// with the others. After each turn it shows `watch` how far it is. The caller calls `watch.end`.
    pub fn run_with<H: Helpers<Job<B>, Worked<B>>, Q: Readiness, V: Watch>(
        &mut self,
        alloc: Global,
        helpers: &mut H,
        readiness: &mut Q,
        watch: &mut V,
    ) -> Result<Settled, PipelineFault>
        ensures goes { OnOk result (GoesFrom R.remaining W.contents B.meaning self.old self.new) }
        ensures begins { OnErr result (BeginsFrom R.remaining W.contents B.meaning self.old self.new) }
        ensures fault { IfErr result (IsFaultOf R.remaining self.new.ends.items) }
        ensures settled { IfOk result (IsSettled B.meaning self.new) }
        ensures whole { result ≡ Ok Done → HoldsWhole B.meaning self.new }
        ensures written { OnOk result (AllDelivered B.meaning self.new) }
        ensures asked { result ≡ Ok Quiet → NothingLacks B.meaning self.new }
    {
        let mut nobody = NoRequests::new();
        match self.run_asked(alloc, helpers, readiness, &mut nobody, watch)? {
            Ended::Settled(settled) => Ok(settled),
            Ended::Stopped => unreachable!(),
        }
    }

    /// Like `run_with`, and answers requests meanwhile, in their order: one before each round. Others that wait make
    /// the round shorter. A request is a call of the plant between two rounds, and its answer is the call's reply. A
    /// stop ends the run: no block fires any more, no reader is read, and what the sinks have taken is written. A read
    /// or a write that waits holds up the answers; none does if `readiness` tells of it and is told of requests.
    pub fn run_asked<H: Helpers<Job<B>, Worked<B>>, Q: Readiness, C: Requests, V: Watch>(
        &mut self,
        alloc: Global,
        helpers: &mut H,
        readiness: &mut Q,
        requests: &mut C,
        watch: &mut V,
    ) -> Result<Ended, PipelineFault>
        ensures goes { IfOk result (λ ended. GoesAsked R.remaining W.contents C.asked C.answered B.meaning (Some ended)
            requests.old requests.new self.old self.new) }
        ensures begins { OnErr result (BeginsAskedFrom R.remaining W.contents C.asked C.answered B.meaning requests.old
            requests.new self.old self.new) }
        ensures streams { OnOk result (StreamsFrom W.contents B.meaning self.old self.new) }
        ensures stream_begins { OnErr result (StreamsBegin W.contents B.meaning self.old self.new) }
        ensures fault { IfErr result (IsFaultOf R.remaining self.new.ends.items) }
        ensures ended { IfOk result (IsEnded B.meaning self.new) }
        ensures whole { result ≡ Ok (ended.Settled Done) → HoldsWhole B.meaning self.new }
        ensures written { OnOk result (AllDelivered B.meaning self.new) }
        ensures lacks { result ≡ Ok (ended.Settled Quiet) → NothingLacks B.meaning self.new }
    {
        for _turns in 0..u64::MAX {
            if self.serve(requests) {
                self.write_rest(readiness)?;
                return Ok(Ended::Stopped);
            }
            if let Some(settled) = self.advance(alloc, helpers, readiness, requests)? {
                return Ok(Ended::Settled(settled));
            }
            watch.show(self.plant.headway());
        }
        // No tape is so long that it takes so many turns.
        Err(PipelineFault::Memory)
    }

    /// One turn of `run`: a round of the plant's blocks. If no block moved on, it writes what the sinks have taken, and
    /// reads a piece. It returns how the run ended, if it has.
    pub fn turn<H: Helpers<Job<B>, Worked<B>>, Q: Readiness>(
        &mut self,
        alloc: Global,
        helpers: &mut H,
        readiness: &mut Q,
    ) -> Result<Option<Settled>, PipelineFault>
        ensures goes { OnOk result (GoesFrom R.remaining W.contents B.meaning self.old self.new) }
        ensures begins { OnErr result (BeginsFrom R.remaining W.contents B.meaning self.old self.new) }
        ensures fault { IfErr result (IsFaultOf R.remaining self.new.ends.items) }
        ensures settled { IfOk result (λ end. IfSome end (IsSettled B.meaning self.new)) }
        ensures whole { result ≡ Ok (Some Done) → HoldsWhole B.meaning self.new }
        ensures written { IfOk result (λ end. IfSome end (λ _. AllDelivered B.meaning self.new)) }
        ensures asked { result ≡ Ok (Some Quiet) → NothingLacks B.meaning self.new }
    {
        self.advance(alloc, helpers, readiness, &NoRequests::new())
    }
}
