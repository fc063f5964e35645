//! What lies under the lock of a run: a plant, or a plant whose calls are recorded.

ghost use Rattle.std.specs.Prelude.{◌≡◌, ◌≤◌, IfOk};
ghost use Rattle.plant.specs.Answers.{IsOf, claim_reply, reply_of, step_reply};
ghost use Rattle.call_history.specs.Engine.{HasCalled, HasClaimed, HasCommitted, HasStepped, plant_in};
ghost use Rattle.call_history.specs.Request.{AreFor, IsReady, asked_of, replied, response_reply};

use crate::entry::Answer;
use crate::lent_calls::{claim_in, commit_in, step_in};
use crate::recorded::Recorded;
use crate::request::{Request, Response};
use claimed_work::Worked;
use flowgraph::{Block, BlockId};
use plant::{Claim, Did, Plant, PlantFault, Step};
use std::alloc::{AllocError, Global};

/// Takes the calls of workers and callers. A caller's call of a plant that records nothing is out of memory; but
/// callers are there only if calls are recorded.
#[derive(Drop)]
pub enum Engine<B: Block> {
    /// Nothing is recorded.
    Plain(Plant<B>),
    /// Callers make calls too, and all are recorded.
    Noted(Recorded<B>),
}

impl<B: Block> Engine<B> {
    /// The plant.
    pub fn plant(&self) -> &Plant<B>
        ensures { result.now ≡ plant_in self.now }
    {
        match self {
            Engine::Plain(plant) => plant,
            Engine::Noted(recorded) => recorded.plant(),
        }
    }

    /// Claims firings for a worker.
    pub fn claim(&mut self, alloc: Global, block: BlockId, max: u32) -> Result<Claim<B>, PlantFault>
        requires { 1 ≤ max }
        ensures claimed { HasClaimed B.meaning block.0 max self.old self.new (reply_of claim_reply result) }
        ensures of_graph { IfOk result (IsOf (plant_in self.old).graph) }
    {
        match self {
            Engine::Plain(plant) => claim_in(plant, alloc, block, max),
            Engine::Noted(recorded) => recorded.claim(alloc, block, max),
        }
    }

    /// Claims firings, does their work and commits it.
    pub fn step(&mut self, alloc: Global, block: BlockId, max: u32) -> Result<Step, PlantFault>
        requires { 1 ≤ max }
        ensures { HasStepped B.meaning block.0 max self.old self.new (reply_of step_reply result) }
    {
        match self {
            Engine::Plain(plant) => step_in(plant, alloc, block, max),
            Engine::Noted(recorded) => recorded.step(alloc, block, max),
        }
    }

    /// Commits what a worker has done.
    pub fn commit(&mut self, worked: Worked<B>) -> Result<Did, Worked<B>>
        ensures { HasCommitted B.meaning B.eq worked self.old self.new result }
    {
        match self {
            Engine::Plain(plant) => commit_in(plant, worked),
            Engine::Noted(recorded) => recorded.commit(worked),
        }
    }

    /// Makes a caller's call, and returns the response with its note.
    pub fn call(
        &mut self,
        alloc: Global,
        desk: u32,
        request: Request,
    ) -> Result<(Response, Answer), AllocError>
        requires { IsReady request }
        ensures called { HasCalled B.meaning desk (asked_of request) self.old self.new
            (replied (λ r. response_reply r.0) result) }
        ensures fits { IfOk result (λ r. AreFor request r.0 r.1) }
    {
        match self {
            Engine::Noted(recorded) => recorded.call(alloc, desk, request),
            Engine::Plain(_) => Err(AllocError),
        }
    }
}
