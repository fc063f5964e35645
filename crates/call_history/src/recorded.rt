//! A plant whose calls are recorded, as it lies under the lock while callers make calls of it.

ghost use Rattle.std.specs.Prelude.{◌≡◌, ◌≤◌, [], ◌∷◌, map, true, IfOk, IfSome};
ghost use Rattle.stream_model.specs.Machine.{is_idle, commit_of};
ghost use Rattle.flowgraph.specs.Flowgraph.{net_of};
ghost use Rattle.plant.specs.Own.{is_own};
ghost use Rattle.plant.specs.Answers.{IsOf, claim_reply, reply_of, step_reply};
ghost use Rattle.call_history.specs.declared.entry.CallerId.TheVariants as caller;
ghost use Rattle.call_history.specs.declared.entry.Call.TheVariants as call;
ghost use Rattle.call_history.specs.History.{Asks, Brings, asked_by, noted_by};
ghost use Rattle.call_history.specs.Reached.{HasReached};
ghost use Rattle.call_history.specs.Recorded.{IsNoted, IsClaimNoted, IsStepNoted, IsBack};
ghost use Rattle.call_history.specs.Request.{AreFor, IsReady, asked_of, replied, response_reply};

use crate::entry::{Answer, Call, CallerId, Entry};
use crate::request::{Request, Response};
use claimed_work::Worked;
use flowgraph::{Block, BlockId};
use plant::{Claim, Did, Opening, Plant, PlantFault, Step};
use std::alloc::{AllocError, Global};
use std::marker::Model;

/// A plant, where it began, and the calls that were made since, each with its reply. What is recorded is a run of the
/// machine from there to the plant's state. For the commit of each claim in flight there is room.
#[derive(Drop)]
pub struct Recorded<B: Block> {
    plant: Plant<B>,
    opening: Opening<B>,
    history: Vec<Entry>,
    flights: usize,
}

impl<B: Block> Model for Recorded<B> {
    ghost use Rattle.std.specs.Prelude.{◌≡◌, ◌+◌, ◌≤◌, map, vec_len, vec_capacity};
    ghost use Rattle.call_history.specs.History.{noted_by};
    ghost use Rattle.call_history.specs.Recorded.{RecordedState, IsRecord, flights_in};

    ghost Value = { RecordedState B };

    ghost view = { λ r. record { plant = r.plant; opening = r.opening; history = map noted_by r.history.items } };

    ghost invariant = { λ r.
        IsRecord B.meaning (record { plant = r.plant; opening = r.opening; history = map noted_by r.history.items })
        × (r.flights ≡ flights_in r.plant.state) × (vec_len r.history + r.flights ≤ vec_capacity r.history) };
}

impl<B: Block> Recorded<B> {
    /// A plant that begins here. It takes no memory.
    pub fn new(alloc: Global, plant: Plant<B>, opening: Opening<B>) -> Recorded<B>
        requires graph { opening.graph ≡ plant.graph }
        requires state { opening.state ≡ plant.state }
        requires idle { is_idle plant.state ≡ true }
        ensures { result ≡ record { plant = plant; opening = opening; history = [] } }
    {
        Recorded {
            plant,
            opening,
            history: Vec::new(alloc),
            flights: 0,
        }
    }

    /// The plant.
    pub fn plant(&self) -> &Plant<B>
        ensures { result.now ≡ self.now.plant }
    {
        &self.plant
    }

    /// Makes a caller's call, and returns the response with its note. An `Err` changes nothing.
    pub fn call(
        &mut self,
        alloc: Global,
        desk: u32,
        request: Request,
    ) -> Result<(Response, Answer), AllocError>
        requires { IsReady request }
        ensures noted { IsNoted B.meaning (caller.Desk desk) (asked_of request) self.old self.new
            (replied (λ r. response_reply r.0) result) }
        ensures fits { IfOk result (λ r. AreFor request r.0 r.1) }
    {
        self.history.reserve(self.flights + 1)?;
        let (call, response) = request.ask(alloc, &mut self.plant);
        let (reply, other) = response.to_answers()?;
        self.history.push_reserved(Entry {
            caller: CallerId::Desk(desk),
            call,
            reply,
        });
        Ok((response, other))
    }

    /// Claims at most `max` firings for a block's worker. It records what is handed out, or the end of the block, and
    /// keeps room for the commit to come.
    pub fn claim(&mut self, alloc: Global, block: BlockId, max: u32) -> Result<Claim<B>, PlantFault>
        requires { 1 ≤ max }
        ensures noted { IsClaimNoted B.meaning (caller.Worker block) (asked_by (call.Claim block max)) self.old self.new
            (reply_of claim_reply result) }
        ensures of_graph { IfOk result (IsOf self.old.plant.graph) }
    {
        self.plant.recall();
        self.history.reserve(self.flights + 2)?;
        match self.plant.claim(alloc, block, max)? {
            Claim::Claimed(job) => {
                self.flights += 1;
                self.history.push_reserved(Entry {
                    caller: CallerId::Worker(block),
                    call: Call::Claim(block, max),
                    reply: Answer::Claimed(job.first(), job.count()),
                });
                Ok(Claim::Claimed(job))
            }
            Claim::Done => {
                self.history.push_reserved(Entry {
                    caller: CallerId::Worker(block),
                    call: Call::Claim(block, max),
                    reply: Answer::Done,
                });
                Ok(Claim::Done)
            }
            Claim::Busy => Ok(Claim::Busy),
            Claim::Waiting(need) => Ok(Claim::Waiting(need)),
        }
    }

    /// Commits what a worker has done. It takes no memory.
    pub fn commit(&mut self, worked: Worked<B>) -> Result<Did, Worked<B>>
        ensures { IsBack B.meaning (commit_of (net_of B.meaning self.old.plant.graph) self.old.plant.state
            (is_own B.eq self.old.plant.graph worked.graph worked.job.block) worked.job) self.old self.new worked
            worked.job.block result }
    {
        self.plant.recall();
        let block = worked.block();
        let did = self.plant.commit(worked)?;
        self.flights -= 1;
        self.history.push_reserved(Entry {
            caller: CallerId::Worker(block),
            call: Call::Commit(block),
            reply: Answer::Did(did.0),
        });
        Ok(did)
    }

    /// Claims at most `max` firings of a block, does their work and commits it. The claim and the commit are recorded
    /// as those of a worker are. An `Err` changes nothing.
    pub fn step(&mut self, alloc: Global, block: BlockId, max: u32) -> Result<Step, PlantFault>
        requires { 1 ≤ max }
        ensures { IsStepNoted B.meaning block.0 max self.old self.new (reply_of step_reply result) }
    {
        self.plant().recall();
        match self.claim(alloc, block, max)? {
            Claim::Claimed(job) => {
                // (it is the claim in flight, so that this never happens)
                let Ok(did) = self.commit(job.work()) else {
                    return Err(PlantFault::Memory);
                };
                Ok(Step::Did(did.0))
            }
            Claim::Done => Ok(Step::Done),
            Claim::Busy => Ok(Step::Busy),
            Claim::Waiting(need) => Ok(Step::Waiting(need)),
        }
    }

    /// The plant with what was recorded of it, if it has no claim in flight and began there.
    pub fn have_returned(self, opening: &Opening<B>) -> Option<(Plant<B>, Vec<Entry>)>
        ensures { IfSome result (λ r. HasReached B.meaning B.eq opening.now (map noted_by r.1.items) r.0) }
    {
        self.plant.recall();
        if !self.plant.idle() || !self.opening.agrees(opening) {
            return None;
        }
        let Recorded { plant, history, .. } = self;
        Some((plant, history))
    }
}
