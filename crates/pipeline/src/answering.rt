//! Answers requests.

ghost use Rattle.std.specs.Prelude.{◌≡◌, Some, None, if◌then◌else◌};
ghost use Rattle.flowgraph.specs.Flowgraph.{net_of};
ghost use Rattle.streaming.specs.Levels.{levels_at};
ghost use Rattle.pipeline.specs.declared.requests.Ended.TheVariants.{Stopped};
ghost use Rattle.pipeline.specs.Requests.{Answers, GoesOnAsked, come_in};

use crate::pipeline::Pipeline;
use crate::requests::{Answer, Request, Requests, Told};
use flowgraph::{Block, BlockId};
use std::io::{Read, Write};

impl<B: Block, R: Read, W: Write> Pipeline<B, R, W> {
    /// Answers the next request, if there is one, and returns whether it was a stop.
    pub(crate) fn serve<C: Requests>(&mut self, requests: &mut C) -> bool
        ensures { GoesOnAsked R.remaining W.contents C.asked C.answered (net_of B.meaning self.old.plant.plant.graph)
            (if result then Some Stopped else None) requests.old requests.new self.old.plant self.new.plant
            self.old.ends.items self.new.ends.items }
    {
        let Some(request) = requests.take() else {
            return false;
        };
        let is_stop = request.is_stop();
        let answer = self.answer_to(request);
        requests.answer(answer);
        is_stop
    }

    // Makes the plant's call that a request asks for.
    fn answer_to(&mut self, request: Request) -> Answer
        ensures ends { self.new.ends.items ≡ self.old.ends.items }
        ensures answers { Answers (net_of B.meaning self.old.plant.plant.graph) self.old.plant self.new.plant
            record { request = request; answer = result } }
    {
        self.plant.recall();
        match request {
            Request::Set { block, at, value } => Answer {
                come: self.come(block),
                told: Told::Set(self.plant.set(block, at, value)),
            },
            Request::Close(source) => Answer {
                come: self.come(source),
                told: Told::Closed(self.plant.close(source)),
            },
            Request::Levels(block) => Answer {
                come: self.come(block),
                told: Told::Levels(self.plant.levels(block)),
            },
            Request::Stop => Answer {
                come: 0,
                told: Told::Stopped,
            },
        }
    }

    // How many items of its first input a block has taken.
    fn come(&self, block: BlockId) -> u64
        ensures { result ≡ come_in (levels_at (net_of B.meaning self.now.plant.plant.graph) self.now.plant.plant.state
            block.0) }
    {
        match self.plant.levels(block) {
            Ok(levels) => levels.taken,
            Err(_) => 0,
        }
    }
}
