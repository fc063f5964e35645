//! Requests to a pipeline while it runs.

ghost use Rattle.std.specs.Prelude.{◌≡◌, ◌∷◌, ◌++◌, List, [], map, Option, Some, None, IfNone, IfSome};
ghost use Rattle.pipeline.specs.declared.requests.Answer.{Answer};
ghost use Rattle.pipeline.specs.declared.requests.Request.{Request};
ghost use Rattle.pipeline.specs.Requests.{IsAnswer, is_stop};

use flowgraph::BlockId;
use plant::PlantFault;
use recordings::Past;
use settings::Value;
use streaming::{Closed, Levels, Settled, Taken};

/// A request: a call of the plant, or that the run is to end.
#[derive(Debug, Drop)]
pub enum Request {
    /// Set the value of a block's setting from item `at` of its first input on, or from the first that it has not
    /// taken.
    Set {
        block: BlockId,
        at: Option<u64>,
        value: Value,
    },
    /// Close a source: its reader is not read any more.
    Close(BlockId),
    /// Tell how far a block is.
    Levels(BlockId),
    /// Read no more, fire no block any more, and write what the sinks have taken.
    Stop,
}

impl Request {
    /// Whether the run is to end.
    pub fn is_stop(&self) -> bool
        ensures { result ≡ is_stop self.now }
    {
        match self {
            Request::Stop => true,
            Request::Set { .. } | Request::Close(_) | Request::Levels(_) => false,
        }
    }
}

/// What the plant's call replied.
#[derive(Clone, Copy, Debug, PartialEq, Eq)]
pub enum Told {
    Set(Result<Taken, PlantFault>),
    Closed(Result<Closed, PlantFault>),
    Levels(Result<Levels, PlantFault>),
    Stopped,
}

/// The answer to a request.
#[derive(Clone, Copy, Debug, PartialEq, Eq)]
pub struct Answer {
    /// How many items of its first input, or of its tape, the block had taken as the call was made; 0 if the request
    /// names no block of the graph.
    pub come: u64,
    /// What the call replied.
    pub told: Told,
}

/// How a run ended that takes requests.
#[derive(Clone, Copy, Debug, PartialEq, Eq)]
pub enum Ended {
    /// It came to rest.
    Settled(Settled),
    /// It was asked to stop.
    Stopped,
}

/// A box of requests. A pipeline looks into it between two rounds of its blocks.
pub trait Requests {
    // The requests that were taken out of it, and the answers that were given, each from the first on.
    ghost asked: { Self → List Request };

    ghost answered: { Self → List Answer };

    // The request that was taken last, until it is answered.
    ghost due: { Self → Option Request };

    /// Whether a request waits. It is asked before each step of a round that may be cut short, and promises nothing.
    fn are_waiting(&self) -> bool;

    /// About how many firings of all blocks a round has at most, so that no request waits long.
    fn most_firings(&self) -> u32;

    /// Takes the next request out, if there is one. It does not wait.
    fn take(&mut self) -> Option<Request>
        ensures some { IfSome result (λ request. asked self.new ≡ asked self.old ++ request ∷ []) }
        ensures due { IfSome result (λ request. due self.new ≡ Some request) }
        ensures none { IfNone result (asked self.new ≡ asked self.old) }
        ensures answered { answered self.new ≡ answered self.old };

    /// Gives the answer to the request that was taken last.
    fn answer(&mut self, answer: Answer)
        requires { IfSome (due self.old) (λ request. IsAnswer request answer) }
        ensures asked { asked self.new ≡ asked self.old }
        ensures answered { answered self.new ≡ answered self.old ++ answer ∷ [] };
}

/// A box into which nobody puts anything.
#[derive(Drop)]
pub struct NoRequests {
    answered: Past<Answer, ()>,
}

impl NoRequests {
    pub fn new() -> NoRequests
        ensures { map (λ piece. piece.0) result.answered.pieces ≡ [] }
    {
        NoRequests {
            answered: Past::new(),
        }
    }
}

impl Requests for NoRequests {
    ghost asked = { λ _. [] };

    ghost answered = { λ requests. map (λ piece. piece.0) requests.answered.pieces };

    ghost due = { λ _. None };

    fn are_waiting(&self) -> bool {
        false
    }

    fn most_firings(&self) -> u32 {
        u32::MAX
    }

    fn take(&mut self) -> Option<Request> {
        None
    }

    fn answer(&mut self, answer: Answer) {
        self.answered = self.answered.and(&answer, &());
    }
}
